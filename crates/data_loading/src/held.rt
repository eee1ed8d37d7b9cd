//! The state of a recording that was read up to some offset.

ghost use Rattle.std.specs.Prelude.{◌≡◌, ◌||◌, List, Some, None, false};
ghost use Rattle.std.specs.Option.{is_some, option_map};
ghost use Rattle.rtr_units.specs.AnyEnd.{end_meaning};
ghost use Rattle.rtr_payload.specs.Payloads.{Payload};
ghost use Rattle.data_recordings.specs.Recordings.{asked_since, begins_anew, is_wanted};
ghost use Rattle.data_recordings.specs.Recordings.{last_serial, last_session, refusal_in};
ghost use Rattle.data_loading.specs.PrivateLoading.{IsBegun, IsCurrent, opened_answer, so_much};

use data_recordings::{Refusal, is_other, refused_in};
use rtr_units::end::EndOfData;

/// The state of a recording that was read up to some offset. The payloads themselves lie in a
/// slice.
#[derive(Drop)]
pub(crate) struct Held {
    /// The length of the data of the whole answers.
    pub(crate) length: usize,
    /// The end of data of the last whole answer, if there was one.
    pub(crate) end: Option<EndOfData>,
    /// The answer that is open, if one is.
    pub(crate) pending: Option<Answer>,
    /// Whether all data were requested last, by a reset query or by a cache reset; none if nothing
    /// was requested since the last answer began.
    pub(crate) asks_all: Option<bool>,
    /// Whether an answer was cut off.
    pub(crate) has_cut: bool,
}

/// An answer whose end of data hasn't come.
#[derive(Clone, Copy)]
pub(crate) struct Answer {
    /// The number of its payload units so far.
    pub(crate) count: usize,
    /// Their version, or that of the data that they change.
    pub(crate) version: Option<u8>,
    /// Its session, if it is known from its cache response or the whole answer before it.
    pub(crate) session: Option<u16>,
    /// The serial number of the data that it changes; none if it began with no payloads, or was the
    /// first.
    pub(crate) since: Option<u32>,
    /// Whether it answers a request for all data.
    pub(crate) has_all: bool,
    /// Whether it began with no payloads.
    pub(crate) is_anew: bool,
}

impl Held {
    /// The state before the first unit.
    pub(crate) fn new() -> Self
        ensures { result ≡ record {
          length = 0;
          end = None;
          pending = None;
          asks_all = None;
          has_cut = false;
        } }
    {
        Held {
            length: 0,
            end: None,
            pending: None,
            asks_all: None,
            has_cut: false,
        }
    }

    /// Opens an answer of this session, and drops a pending one.
    pub(crate) fn respond(&mut self, session: u16)
        ensures { (a : Answer) × (self.new ≡ record self.old {
          pending = Some a;
          asks_all = None;
          has_cut = self.old.has_cut || is_some self.old.pending;
        }) × ((d : List Payload) → IsBegun a self.old d (Some session)) }
    {
        let answer = self.begin(Some(session));
        self.has_cut |= self.pending.is_some();
        self.pending = Some(answer);
        self.asks_all = None;
    }

    /// The answer of the next payload unit or end of data.
    pub(crate) fn current(&self) -> Answer
        ensures answer { IsCurrent self.now.pending result self.now }
    {
        match self.pending {
            Some(answer) => answer,
            None => self.begin(self.last_session()),
        }
    }

    /// What was requested since that answer began.
    pub(crate) fn asked_since(&self) -> Option<bool>
        ensures { (d : List Payload) →
            result ≡ asked_since (so_much self.now d).pending self.now.asks_all }
    {
        match self.pending {
            Some(_) => self.asks_all,
            None => None,
        }
    }

    /// The answer of this session that begins next.
    fn begin(&self, session: Option<u16>) -> Answer
        ensures { (d : List Payload) → IsBegun result self.now d session }
    {
        let has_all = self.is_wanted();
        if self.begins_anew(session) {
            return Answer {
                count: 0,
                version: None,
                session,
                since: None,
                has_all,
                is_anew: true,
            };
        }
        Answer {
            count: 0,
            version: self.last_version(),
            session,
            since: self.last_serial(),
            has_all,
            is_anew: false,
        }
    }

    /// Whether an answer of this session begins with no payloads.
    fn begins_anew(&self, session: Option<u16>) -> bool
        ensures { (d : List Payload) → result ≡ begins_anew (so_much self.now d) session }
    {
        self.is_wanted() || is_other(self.last_session(), session)
    }

    /// Whether the next answer is to a request for all data.
    fn is_wanted(&self) -> bool
        ensures { (d : List Payload) → result ≡ is_wanted (so_much self.now d) }
    {
        match (self.asks_all, &self.pending) {
            (Some(all), _) => all,
            (None, Some(cut)) => cut.has_all,
            (None, None) => false,
        }
    }

    /// The session of the last whole answer.
    fn last_session(&self) -> Option<u16>
        ensures { (d : List Payload) → result ≡ last_session (so_much self.now d) }
    {
        match &self.end {
            Some(end) => Some(end.session()),
            None => None,
        }
    }

    /// The serial number of the last whole answer.
    fn last_serial(&self) -> Option<u32>
        ensures { (d : List Payload) → result ≡ last_serial (so_much self.now d) }
    {
        match &self.end {
            Some(end) => Some(end.serial().0),
            None => None,
        }
    }

    /// The version of the last whole answer.
    fn last_version(&self) -> Option<u8>
        ensures { result ≡ option_map (λ e. (end_meaning e).version) self.now.end }
    {
        match &self.end {
            Some(end) => Some(end.version()),
            None => None,
        }
    }
}

impl Answer {
    /// Why an end of data can't close the answer.
    pub(crate) fn refusal(&self, end: &EndOfData) -> Option<Refusal>
        ensures { (d : List Payload) →
            result ≡ refusal_in (opened_answer d self.now) (end_meaning end.now) }
    {
        refused_in(self.session, self.since, end)
    }
}
