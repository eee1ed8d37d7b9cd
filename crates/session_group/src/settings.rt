//! The settings of a group.

ghost use Rattle.std.specs.Prelude.{◌≡◌, ◌||◌, ◌<◌, false, nat_lt};
ghost use Rattle.session_group.specs.Groups.{counts};

/// The settings of a group.
#[derive(Clone, Copy)]
pub struct Settings {
    /// How long a member may go without a complete answer before the next one starts too, in
    /// milliseconds.
    pub patience: u32,
    /// Whether a complete answer without payloads counts as data. Otherwise it is a failure that
    /// drops the member's data.
    pub empty_is_data: bool,
}

impl Settings {
    /// The defaults: five seconds, and an empty answer is a failure.
    pub fn usual() -> Settings
        ensures patience { result.patience ≡ 5000 }
        ensures empty_is_data { result.empty_is_data ≡ false }
    {
        Settings {
            patience: 5000,
            empty_is_data: false,
        }
    }

    /// Reports whether a complete answer with this number of payloads counts as data. Otherwise it
    /// is a failure, which the caller reports.
    pub fn counts(&self, payloads: usize) -> bool
        ensures { result ≡ counts self.now payloads }
    {
        self.empty_is_data || payloads > 0
    }
}
