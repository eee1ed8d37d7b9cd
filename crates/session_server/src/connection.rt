//! A connection of a server: what its host does next, and when a limit ends it.

ghost use Rattle.std.specs.Prelude.{◌≡◌, ◌<◌, ◌≤◌, true, false};
ghost use Rattle.session_server.specs.Paces.{answered, broken_off, closed_by, cut_at, due_at};
ghost use Rattle.session_server.specs.Paces.{connection_wakes_at, finish_at, input_taken, is_free};
ghost use Rattle.session_server.specs.Paces.{later, new_connection, next_at, once_received};
ghost use Rattle.session_server.specs.Paces.{reads_now, report_begun, sent, tell_at};

use crate::settings::ServerSettings;
use session_cache::cache::Cache;
use session_cache::event::Present;

/// The phase of a connection.
#[derive(Clone, Copy, PartialEq, Eq)]
pub enum Phase {
    Open,
    /// The machine has ended it: its last report is being sent, or the router may still read it.
    Ending,
    /// The machine has ended it without a report, or it broke.
    Over,
}

/// Why a connection ends without its machine ending it.
#[derive(Clone, Copy, PartialEq, Eq)]
pub enum Cut {
    /// The router sends a unit, or reads an answer, too slowly.
    Slow,
    /// The cache has data of another session than the one that it sent to the router.
    NewSession,
    /// More than `most_behind` newer data came while it was sent an answer.
    Behind,
}

/// The host's next action.
#[derive(Clone, Copy, PartialEq, Eq)]
pub enum Next {
    /// Wait until bytes come, the router closes, there are new data, or the time of `wakes` is
    /// reached.
    Wait,
    /// Pass the input to the machine with `session_bytes::serve`; then call `heard`, and `answers`
    /// or `ends` with its result.
    Hear,
    /// Tell the machine the time with `CacheEvent::Tick`; then call `answers` or `ends`.
    Tick,
    /// Tell the machine `CacheEvent::Lost`: the router has closed, and all input was handled.
    Lose,
    /// Send the unsent bytes, until `wakes`; then call `sent`.
    Send,
    /// Shut the connection down for writing; then read, and ignore what comes, until the router
    /// closes or the time of `wakes` is reached.
    Finish,
    /// Close the connection: this limit has ended it, or its machine has, or it broke.
    Close(Option<Cut>),
}

/// The state of a connection's input and output, in numbers. The host has the bytes.
#[derive(Clone, Copy)]
pub struct Connection {
    pub settings: ServerSettings,
    pub phase: Phase,
    /// The number of bytes that came and that the machine hasn't taken, and when the first of them
    /// came.
    pub filled: usize,
    pub begun: u64,
    /// Whether they may contain a whole unit.
    pub fresh: bool,
    /// Whether the router has closed the connection.
    pub closed: bool,
    /// The number of bytes of the present answer, or of the last report, that are unsent.
    pub unsent: usize,
    /// When a byte of it was last sent, or when it began.
    pub taken: u64,
    /// The deadline for sending all of it; after the end, the time at which the connection is
    /// closed.
    pub until: u64,
    /// The number of the newest data when the answer began. Data are numbered as they come.
    pub number: u64,
}

/// The time at which a limit ends; it saturates.
fn later(time: u64, limit: u32) -> u64
    ensures { result ≡ later time limit }
{
    time.saturating_add(limit as u64)
}

impl Connection {
    /// A connection that was accepted at this time.
    pub fn new(now: u64, settings: ServerSettings) -> Connection
        ensures { result ≡ new_connection now settings }
    {
        Connection {
            settings,
            phase: Phase::Open,
            filled: 0,
            begun: now,
            fresh: false,
            closed: false,
            unsent: 0,
            taken: now,
            until: now,
            number: 0,
        }
    }

    /// Records that `size` bytes were read. They are ignored once the machine has ended the
    /// connection.
    pub fn received(&mut self, now: u64, size: usize)
        ensures { self.new ≡ once_received self.old now size }
    {
        if size == 0 || !matches!(self.phase, Phase::Open) {
            return;
        }
        if self.filled == 0 {
            self.begun = now;
        }
        self.filled = self.filled.saturating_add(size);
        self.fresh = true;
    }

    /// Records that the router closed the connection. The input that came before is still handled.
    pub fn closed(&mut self)
        ensures { self.new ≡ closed_by self.old }
    {
        self.closed = true;
        self.fresh = self.filled > 0;
    }

    /// Records that the connection broke, as after a reset or a failed write: nothing can be sent
    /// on it any more. The input that came before isn't heard.
    pub fn broke(&mut self)
        ensures { self.new ≡ broken_off self.old }
    {
        self.phase = Phase::Over;
    }

    /// Records that the machine took `size` bytes of the input; 0 means that it has no whole unit.
    pub fn heard(&mut self, now: u64, size: usize)
        ensures { self.new ≡ input_taken self.old now size }
    {
        if size == 0 {
            self.fresh = false;
            return;
        }
        self.filled = self.filled.saturating_sub(size);
        self.fresh = self.filled > 0;
        self.begun = now;
    }

    /// Reports whether an answer may begin: the connection is open, and the previous one is sent.
    fn is_free(&self) -> bool
        ensures { result ≡ is_free self.now }
    {
        matches!(self.phase, Phase::Open) && self.unsent == 0
    }

    /// Reports whether the host reads from it: no answer is being sent, and neither the machine nor
    /// the router has ended the connection. While an answer is sent, what the router sends waits in
    /// the system's buffer.
    pub fn reads(&self) -> bool
        ensures { result ≡ reads_now self.now }
    {
        self.is_free() && !self.closed
    }

    /// Records that an answer of `size` bytes begins, given the newest data. Returns false, and
    /// changes nothing, if another one is unsent, or the connection has ended.
    pub fn answers(&mut self, now: u64, size: usize, number: u64) -> bool
        ensures free { result ≡ is_free self.old }
        ensures after { self.new ≡ answered self.old now size number }
    {
        if !self.is_free() {
            return false;
        }
        self.unsent = size;
        self.taken = now;
        self.until = later(now, self.settings.response_limit);
        self.number = number;
        true
    }

    /// Records that the machine ends the connection, with a report of `size` bytes, or 0 for none.
    /// Returns false, and changes nothing, if an answer is unsent, or the connection has ended.
    pub fn ends(&mut self, now: u64, size: usize) -> bool
        ensures free { result ≡ is_free self.old }
        ensures after { self.new ≡ report_begun self.old now size }
    {
        if !self.is_free() {
            return false;
        }
        self.phase = if size == 0 {
            Phase::Over
        } else {
            Phase::Ending
        };
        self.unsent = size;
        self.taken = now;
        self.until = later(now, self.settings.report_limit);
        true
    }

    /// Records that `size` bytes were sent. Returns false, and changes nothing, if fewer are
    /// unsent.
    pub fn sent(&mut self, now: u64, size: usize) -> bool
        ensures within { result ≡ true → size ≤ self.old.unsent }
        ensures above { result ≡ false → self.old.unsent < size }
        ensures after { self.new ≡ sent self.old now size }
    {
        if size > self.unsent {
            return false;
        }
        if size == self.unsent {
            self.begun = now;
        }
        self.unsent -= size;
        if size > 0 {
            self.taken = now;
        }
        true
    }

    /// The deadline for sending the next byte of the answer, or for receiving the rest of the unit.
    fn due(&self) -> u64
        ensures { result ≡ due_at self.now }
    {
        if self.unsent > 0 {
            later(self.taken, self.settings.write_limit).min(self.until)
        } else if self.filled > 0 {
            later(self.begun, self.settings.unit_limit)
        } else {
            u64::MAX
        }
    }

    /// Which limit, if any, ends an answer that is being sent.
    fn cut(&self, now: u64, cache: &Cache, present: &Present, number: u64) -> Option<Cut>
        ensures { result ≡ cut_at self.now now cache.now present.now number }
    {
        let moved = present.has && cache.told && cache.session != present.session;
        if now >= self.due() {
            Some(Cut::Slow)
        } else if moved {
            Some(Cut::NewSession)
        } else if number.saturating_sub(self.number) > self.settings.most_behind as u64 {
            Some(Cut::Behind)
        } else {
            None
        }
    }

    /// The next action when nothing is unsent.
    fn tell(&self, now: u64, wakes: u64) -> Next
        ensures { result ≡ tell_at self.now now wakes }
    {
        if self.fresh {
            Next::Hear
        } else if self.closed {
            Next::Lose
        } else if now >= wakes {
            Next::Tick
        } else if now >= self.due() {
            Next::Close(Some(Cut::Slow))
        } else {
            Next::Wait
        }
    }

    /// The next action after the machine has ended the connection with a report.
    fn finish(&self, now: u64) -> Next
        ensures { result ≡ finish_at self.now now }
    {
        if now >= self.until {
            Next::Close(None)
        } else if self.unsent > 0 {
            Next::Send
        } else if self.closed {
            Next::Close(None)
        } else {
            Next::Finish
        }
    }

    /// Returns the host's next action, given the connection's machine, and the newest data and
    /// their number.
    pub fn next(&self, now: u64, cache: &Cache, present: &Present, number: u64) -> Next
        ensures next { result ≡ next_at self.now now cache.now present.now number }
    {
        match self.phase {
            Phase::Over => Next::Close(None),
            Phase::Ending => self.finish(now),
            Phase::Open if self.unsent > 0 => match self.cut(now, cache, present, number) {
                Some(cut) => Next::Close(Some(cut)),
                None => Next::Send,
            },
            Phase::Open => self.tell(now, cache.wakes(*present)),
        }
    }

    /// When to call `next`, if nothing happens before.
    pub fn wakes(&self, cache: &Cache, present: &Present) -> u64
        ensures { result ≡ connection_wakes_at self.now cache.now present.now }
    {
        match self.phase {
            Phase::Over => 0,
            Phase::Ending => self.until,
            Phase::Open if self.unsent > 0 => self.due(),
            Phase::Open if self.fresh || self.closed => 0,
            Phase::Open => self.due().min(cache.wakes(*present)),
        }
    }
}
