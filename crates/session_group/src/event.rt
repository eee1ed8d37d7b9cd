//! Events of the members of a group, and its answers.

/// An event of a member: a router's end and the cache that it queries. A step of a router is at
/// most one event. A caller may report a loss of data, and then the failure that caused it, too:
/// that changes nothing.
#[derive(Clone, Copy)]
pub enum Event {
    /// It shows the data of a complete answer, changed or not, with this number of payloads.
    Shows(usize),
    /// Its data expired or were dropped. This is a failure too.
    Drops,
    /// It failed: it couldn't connect, lost the connection, or the cache reported an error or has
    /// no data. The member keeps its data.
    Fails,
}

/// What happens to the shown data.
#[derive(Clone, Copy)]
pub enum Shown {
    /// They stay.
    Same,
    /// The present data of this member replace them, as one change.
    Data(usize),
    /// No data are shown.
    Nothing,
}

/// What the caller does, in this order.
#[derive(Clone, Copy)]
pub struct Answer {
    pub shown: Shown,
    /// The first member to stop. All running members after it stop too, and drop their data.
    pub stops: Option<usize>,
    /// The member to start, without data.
    pub starts: Option<usize>,
}
