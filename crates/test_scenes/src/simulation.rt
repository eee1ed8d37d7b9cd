//! A router and a cache of ours, joined by a pipe of bytes.

use crate::buffer::take;
use crate::cache_end::CacheEnd;
use crate::deed::What;
use crate::link::{Link, is_cut, report_of};
use crate::past::Past;
use crate::random::Random;
use crate::router_end::RouterEnd;
use session_cache::settings::CacheSettings;
use session_router::settings::Settings;
use std::alloc::Global;
use std::test::Fail;

/// How many steps of trouble come before a time without.
const TROUBLE: u64 = 2000;

/// The most steps until a router has the present data once the trouble is over.
const RECOVERY: u64 = 400;

/// What happens in a run that a seed gives, and what the two ends have to do then.
#[derive(Drop)]
pub struct Simulation {
    alloc: Global,
    random: Random,
    now: u64,
    router: RouterEnd,
    cache: CacheEnd,
    link: Link,
    past: Past,
    /// The data that the router shows.
    shown: Option<(u16, u32)>,
    /// How often it showed some.
    compared: u64,
    /// What an end did wrong.
    wrong: Option<String>,
}

impl Simulation {
    /// A router and a cache without data.
    pub fn new(alloc: Global, seed: u64) -> Simulation {
        let mut random = Random::new(seed);
        let past = Past::new(alloc, &mut random);
        Simulation {
            alloc,
            random,
            now: 0,
            router: RouterEnd::new(alloc, Settings::usual(2), 0),
            cache: CacheEnd::new(alloc, CacheSettings::usual()),
            link: Link::new(alloc),
            past,
            shown: None,
            compared: 0,
            wrong: None,
        }
    }

    /// Takes `steps` steps. Returns what is wrong, if something is, and after which step.
    pub fn run(&mut self, steps: u64) -> Result<Option<String>, Fail> {
        for step in 0..steps {
            if step.checked_rem(TROUBLE) == Some(0) {
                self.recover()?;
            } else {
                self.step()?;
            }
            if let Some(wrong) = &self.wrong {
                return Ok(Some(format!(in self.alloc; "after {step} steps: {wrong}")?));
            }
        }
        if self.compared.saturating_mul(1000) < steps {
            self.finds("data are shown too seldom")?;
        }
        Ok(self.wrong.take())
    }

    /// Keeps what is wrong first.
    fn finds(&mut self, wrong: &str) -> Result<(), Fail> {
        if self.wrong.is_none() {
            self.wrong = Some(String::from_str(self.alloc, wrong)?);
        }
        Ok(())
    }

    /// Something happens.
    fn step(&mut self) -> Result<(), Fail> {
        match self.random.below(1000) {
            0..=349 => self.deliver(true)?,
            350..=699 => self.deliver(false)?,
            700..=829 => self.pass()?,
            830..=889 => self.answer_connection(true)?,
            890..=975 => self.renew()?,
            976..=981 => self.forget()?,
            982..=987 => self.cut()?,
            988..=992 => self.close()?,
            993..=994 => self.restart_router()?,
            995..=997 => self.restart_cache()?,
            _ => self.change_session()?,
        }
        self.settle()
    }

    /// All that is on its way comes, connections are accepted, and time passes: then the router has
    /// the present data.
    fn recover(&mut self) -> Result<(), Fail> {
        if !self.cache.editions.present().has {
            self.renew()?;
            self.settle()?;
        }
        for _ in 0..RECOVERY {
            let present = self.cache.editions.present();
            if self.shown == Some((present.session, present.serial)) {
                return Ok(());
            }
            self.answer_connection(false)?;
            self.settle()?;
            for of_router in [true, false] {
                self.deliver_some(of_router, usize::MAX)?;
                self.settle()?;
            }
            if self.link.is_quiet() {
                let wakes = self.router.wakes().min(self.cache.wakes());
                self.pass_until(wakes)?;
                self.settle()?;
            }
        }
        self.finds("the router hasn't the present data")
    }

    // ---- what happens

    /// Some bytes that one end sent come to the other, or their end.
    fn deliver(&mut self, to_router: bool) -> Result<(), Fail> {
        let most = match self.random.below(3) {
            0 => 1,
            1 => self.random.below(40) as usize,
            _ => usize::MAX,
        };
        self.deliver_some(to_router, most)
    }

    fn deliver_some(&mut self, to_router: bool, most: usize) -> Result<(), Fail> {
        if !self.link.is_up {
            return Ok(());
        }
        if to_router {
            if self.link.router_closed {
                return Ok(());
            }
            if self.link.to_router.is_empty() && self.link.cache_closed {
                return self.router.closed(false);
            }
            let bytes = take(&mut self.link.to_router, most, self.alloc)?;
            self.router.received(&bytes)
        } else {
            if self.link.cache_closed {
                return Ok(());
            }
            if self.link.to_cache.is_empty() && self.link.router_closed {
                return self.cache.closed(false);
            }
            let bytes = take(&mut self.link.to_cache, most, self.alloc)?;
            self.cache.received(&bytes)
        }
    }

    /// Time passes: a little, until one of the ends acts by itself, or for hours.
    fn pass(&mut self) -> Result<(), Fail> {
        let until = match self.random.below(8) {
            0..=3 => self.now.saturating_add(self.random.below(100)),
            4 => self.router.wakes(),
            5 => self.cache.wakes(),
            6 => self.now.saturating_add(self.random.below(60_000)),
            _ => self.now.saturating_add(self.random.below(10_000_000)),
        };
        self.pass_until(until)
    }

    fn pass_until(&mut self, until: u64) -> Result<(), Fail> {
        let until = until.min(self.now.saturating_add(100_000_000));
        self.now = self.now.max(until);
        self.router.pass(self.now)?;
        self.cache.pass(self.now)
    }

    /// A connection that the router wants is there, or can't be made, or is one too many.
    fn answer_connection(&mut self, in_trouble: bool) -> Result<(), Fail> {
        if !self.link.is_wanted {
            return Ok(());
        }
        self.link.is_wanted = false;
        if in_trouble && self.random.once_in(10) {
            return self.router.refused();
        }
        self.cache.closed(true)?;
        self.cache.take_deeds();
        self.link.begin();
        let is_one_more = in_trouble && self.random.once_in(20);
        self.link.is_one_more = is_one_more;
        self.cache.connected(is_one_more)?;
        self.router.accepted()
    }

    /// New data of the session, or several in a burst.
    fn renew(&mut self) -> Result<(), Fail> {
        let count = if self.random.once_in(10) {
            self.random.below(20).saturating_add(1)
        } else {
            1
        };
        for _ in 0..count {
            let named = self.past.renew(&mut self.random)?;
            self.cache.renewed(named.bytes(2, self.alloc)?)?;
        }
        Ok(())
    }

    /// The cache forgets data before some serial number.
    fn forget(&mut self) -> Result<(), Fail> {
        let kept = self.cache.editions.kept()?;
        let place = self.random.below(kept.len() as u64) as usize;
        match kept.get(place) {
            Some(&serial) if place.saturating_add(1) < kept.len() => {
                self.cache.editions.forget(serial)
            }
            _ => Ok(()),
        }
    }

    /// The connection is cut, after some of the bytes that are on their way, for one end or both.
    fn cut(&mut self) -> Result<(), Fail> {
        if !self.link.is_up {
            return Ok(());
        }
        for of_router in [true, false] {
            let length = if of_router {
                self.link.to_router.len()
            } else {
                self.link.to_cache.len()
            };
            let most = self.random.below((length as u64).saturating_add(1)) as usize;
            if most > 0 {
                self.deliver_some(of_router, most)?;
                self.settle()?;
            }
        }
        if self.link.is_up && !self.link.router_closed {
            self.router.closed(true)?;
        }
        self.cache.closed(true)?;
        self.settle()?;
        self.link.end();
        Ok(())
    }

    /// The cache's side closes after some of the bytes that are on their way: the rest is lost.
    fn close(&mut self) -> Result<(), Fail> {
        if !self.link.is_up {
            return Ok(());
        }
        let length = self.link.to_router.len();
        let most = self.random.below((length as u64).saturating_add(1)) as usize;
        self.link.to_router.truncate(most);
        self.cache.closed(true)
    }

    /// Another router, of any version, without data.
    fn restart_router(&mut self) -> Result<(), Fail> {
        self.cut()?;
        let version = u8::try_from(self.random.below(3)).unwrap_or(2);
        self.router = RouterEnd::new(self.alloc, Settings::usual(version), self.now);
        self.link.end();
        self.link.is_wanted = false;
        self.shown = None;
        Ok(())
    }

    /// The cache begins anew: with its data, or with the last of them, or with none.
    fn restart_cache(&mut self) -> Result<(), Fail> {
        self.cut()?;
        let settings = CacheSettings {
            refuses: self.random.once_in(3),
            ..CacheSettings::usual()
        };
        self.cache.restart(settings);
        match self.random.below(3) {
            0 => {
                self.past.change_session(&mut self.random)?;
                self.cache.editions.clear();
                Ok(())
            }
            1 => self.cache.editions.forget_all_but_last(),
            _ => Ok(()),
        }
    }

    /// New data of a new session.
    fn change_session(&mut self) -> Result<(), Fail> {
        self.past.change_session(&mut self.random)?;
        self.renew()
    }

    // ---- what the two ends have to do

    /// Hands on what the ends did, until they do nothing more.
    fn settle(&mut self) -> Result<(), Fail> {
        for _ in 0..100 {
            let of_router = self.router.take_deeds();
            let of_cache = self.cache.take_deeds();
            if of_router.is_empty() && of_cache.is_empty() {
                return Ok(());
            }
            for deed in of_router {
                self.router_did(deed.what)?;
            }
            for deed in of_cache {
                self.cache_did(deed.what)?;
            }
        }
        self.finds("the ends don't come to rest")
    }

    fn router_did(&mut self, what: What) -> Result<(), Fail> {
        match what {
            What::Connects => {
                self.link.is_wanted = true;
                Ok(())
            }
            What::Sends(bytes) => {
                self.check_router(&bytes)?;
                self.link.sent_by_router(&bytes)
            }
            What::Closes => {
                self.link.is_wanted = false;
                self.link.close_router();
                Ok(())
            }
            What::Shows(data) => self.compare(&data),
            What::Drops => {
                self.shown = None;
                Ok(())
            }
            What::NoData => Ok(()),
        }
    }

    fn cache_did(&mut self, what: What) -> Result<(), Fail> {
        match what {
            What::Sends(bytes) => {
                self.check_cache(&bytes)?;
                self.link.sent_by_cache(&bytes)
            }
            What::Closes => {
                self.link.close_cache();
                Ok(())
            }
            _ => Ok(()),
        }
    }

    /// What is shown are the data that the cache had under their session and serial number, as
    /// their version has them.
    fn compare(&mut self, data: &[u8]) -> Result<(), Fail> {
        self.compared = self.compared.saturating_add(1);
        let Some(named) = self.past.of_end(data) else {
            return self.finds("what is shown is of no session and serial number that there was");
        };
        let version = data.first().copied().unwrap_or(0);
        let wanted = named.bytes(version, self.alloc)?;
        self.shown = Some((named.session, named.serial));
        if wanted.as_slice() == data {
            return Ok(());
        }
        let (session, serial) = (named.session, named.serial);
        let (shown, had) = (
            hex::encode(self.alloc, data)?,
            hex::encode(self.alloc, &wanted)?,
        );
        let wrong = format!(in self.alloc;
            "at session {session} and serial {serial}\n  had   {had}\n  shown {shown}"
        )?;
        self.finds(wrong.as_str())
    }

    /// The router finds fault with nothing that the cache sent, unless a close cut it off, which
    /// may leave the highest version alone of the report to a router that is one too many, or they
    /// are of another session where the cache had no data before.
    fn check_router(&mut self, bytes: &[u8]) -> Result<(), Fail> {
        match report_of(bytes) {
            None => Ok(()),
            Some(text) if is_cut(text) && self.link.cache_closed => Ok(()),
            Some("answer of a higher version than the query")
                if self.link.is_one_more && self.link.cache_closed => Ok(()),
            Some("unit of another session") if self.link.had_no_data => Ok(()),
            Some(text) => {
                let wrong = format!(in self.alloc; "the router reports: {text}")?;
                self.finds(wrong.as_str())
            }
        }
    }

    /// The cache finds fault with nothing that the router sent, unless a close cut it off. It may
    /// say that it is full, that it has no data, or, where it was chosen, that it can't tell the
    /// changes.
    fn check_cache(&mut self, bytes: &[u8]) -> Result<(), Fail> {
        match report_of(bytes) {
            None => Ok(()),
            Some("the cache has no data yet") if !self.cache.editions.present().has => {
                self.link.had_no_data = true;
                Ok(())
            }
            Some("too many connections") if self.link.is_one_more => Ok(()),
            Some("no data of this session and serial number") if self.cache.refuses() => Ok(()),
            Some(text) if is_cut(text) && self.link.router_closed => Ok(()),
            Some(text) => {
                let wrong = format!(in self.alloc; "the cache reports: {text}")?;
                self.finds(wrong.as_str())
            }
        }
    }
}
