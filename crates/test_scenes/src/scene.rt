//! A scene that is played.

use crate::cache_end::CacheEnd;
use crate::line::{End, Given, Line, parsed, plain};
use crate::player::Player;
use crate::router_end::RouterEnd;
use crate::settings::{set_cache, set_router};
use session_cache::settings::CacheSettings;
use session_router::settings::Settings;
use std::alloc::Global;
use std::mem;
use std::test::Fail;

/// A scene, as far as it was played.
#[derive(Drop)]
pub struct Scene {
    alloc: Global,
    name: String,
    end: End,
    router: Settings,
    cache: CacheSettings,
    player: Option<Player>,
    /// The steps that the end has to take before the next one that is given.
    wanted: Vec<String>,
    /// Where it did otherwise first.
    other: Option<String>,
}

impl Scene {
    /// A scene of this name, of which nothing was played.
    pub fn new(alloc: Global, name: &str) -> Result<Scene, Fail> {
        Ok(Scene {
            alloc,
            name: String::from_str(alloc, name)?,
            end: End::Router,
            router: Settings::usual(1),
            cache: CacheSettings::usual(),
            player: None,
            wanted: Vec::new(alloc),
            other: None,
        })
    }

    /// Plays a line.
    pub fn line(&mut self, line: &str) -> Result<(), Fail> {
        match parsed(line, self.end)? {
            Line::Empty => {}
            Line::Setting(end, key, value) => self.set(end, key, value)?,
            Line::Wanted(step) => {
                let step = plain(self.alloc, step)?;
                self.wanted.push(step)?;
            }
            Line::Given(time, given) => self.given(time, given)?,
        }
        Ok(())
    }

    /// Ends the scene. Returns where the end did otherwise first, if it did.
    pub fn end(&mut self) -> Result<Option<String>, Fail> {
        self.compare()?;
        Ok(self.other.take())
    }

    fn set(&mut self, end: End, key: &str, value: &str) -> Result<(), Fail> {
        self.end = end;
        match end {
            End::Router => set_router(&mut self.router, key, value),
            End::Cache => set_cache(&mut self.cache, key, value),
        }
    }

    /// The clock comes to a time, and then something happens.
    fn given(&mut self, time: u64, given: Given<'_>) -> Result<(), Fail> {
        let mut player = match self.player.take() {
            Some(player) => player,
            None => match self.end {
                End::Router => Player::Router(RouterEnd::new(self.alloc, self.router, 0)),
                End::Cache => Player::Cache(CacheEnd::new(self.alloc, self.cache)),
            },
        };
        player.pass(time)?;
        self.player = Some(player);
        if !matches!(given, Given::Nothing) {
            self.compare()?;
        }
        let Some(player) = &mut self.player else {
            return Ok(());
        };
        player.give(given, self.alloc)
    }

    /// Compares what the end did since the last step that was given.
    fn compare(&mut self) -> Result<(), Fail> {
        let wanted = mem::replace(&mut self.wanted, Vec::new(self.alloc));
        let seen = self.seen()?;
        if self.other.is_some() || wanted == seen {
            return Ok(());
        }
        self.other = Some(self.told(&wanted, &seen)?);
        Ok(())
    }

    /// The lines of what the end did since the last call.
    fn seen(&mut self) -> Result<Vec<String>, Fail> {
        let mut lines = Vec::new(self.alloc);
        if let Some(player) = &mut self.player {
            for deed in &player.take_deeds() {
                deed.write(player.name(), &mut lines, self.alloc)?;
            }
        }
        Ok(lines)
    }

    /// The name of the scene, the steps that were wanted, and the steps that were seen.
    fn told(&self, wanted: &[String], seen: &[String]) -> Result<String, Fail> {
        let mut text = format!(in self.alloc; "{}:", self.name)?;
        for step in wanted {
            text.push_str("\n  wanted ")?;
            text.push_str(step.as_str())?;
        }
        for step in seen {
            text.push_str("\n  seen   ")?;
            text.push_str(step.as_str())?;
        }
        Ok(text)
    }
}
