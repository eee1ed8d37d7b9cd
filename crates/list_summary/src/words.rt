//! Whether the arguments ask for a summary.

ghost use Rattle.std.specs.Prelude.{◌≡◌};
ghost use Rattle.list_summary.specs.SummaryStatus.{summary_by_words};

/// The option for a summary.
const SUMMARY: &str = "--summary";

/// Whether the words after the program's name ask for a summary.
pub fn summary_wanted(words: &[String]) -> bool
    ensures { result ≡ summary_by_words words.now }
{
    match words {
        [word] => word.as_str() == SUMMARY,
        _ => false,
    }
}
