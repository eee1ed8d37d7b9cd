//! The requested form.

ghost use Rattle.std.specs.Prelude.{◌≡◌, option_map};
ghost use Rattle.rtr_clean.specs.CleanWords.{form_asked, version_asked};
ghost use Rattle.rtr_clean.specs.PrivateClean.{form_held};

/// The requested form.
#[derive(Clone, Copy)]
pub enum WantedForm {
    /// Writes each payload unit and each end of data in its version.
    Everything,
    /// Writes the units that this version of the protocol has, in this version.
    Version(u8),
}

/// The form that the words after the program's name ask for: everything without words, and one
/// version with `--version` and its number.
pub fn form_wanted(words: &[String]) -> Option<WantedForm>
    ensures { option_map form_held result ≡ form_asked words.now }
{
    match words {
        [] => Some(WantedForm::Everything),
        [flag, number] if flag.as_str() == "--version" => version_numbered(number.as_str()),
        _ => None,
    }
}

/// The version of the protocol with this number.
fn version_numbered(number: &str) -> Option<WantedForm>
    ensures { option_map form_held result ≡ version_asked number.now }
{
    match number {
        "0" => Some(WantedForm::Version(0)),
        "1" => Some(WantedForm::Version(1)),
        "2" => Some(WantedForm::Version(2)),
        _ => None,
    }
}
