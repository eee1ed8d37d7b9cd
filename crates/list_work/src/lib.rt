//! The program `rtr_list`: by its arguments it lists units, prints tables of the data that they
//! leave, or their summary, over any reader and writers.
#![tactic(auto)]

ghost use Rattle.std.specs.Prelude.{◌≡◌, ◌||◌, drop, false, true, IfSome, IsNone, None};
ghost use Rattle.std.specs.Option.{is_some};
ghost use Rattle.list_lines.specs.ListStatus.{Runs, counts_units, wanted_by_words};
ghost use Rattle.program_frame.specs.Questions.{WritesText, asked_of, manual_text};
ghost use Rattle.list_summary.specs.SummaryStatus.{Summarises, summary_by_words};
ghost use Rattle.list_tables.specs.TableStatus.{RunsTable, table_by_words};

use list_lines::{form_wanted, print_units};
use list_summary::{summarise, summary_wanted};
use list_tables::{print_table, table_wanted};
use program_frame::{FAILED, Manual, Subject, about, usage, words_after_name};
use rtr_units::source::{Sink, Source};
use std::alloc::Global;
use std::io::Write;

/// Runs the program with the words that it was started with, its name first, over the input, which
/// is `file` or standard input. The file isn't among the words. Returns the exit status: that of
/// `list_tables::print_table` if they ask for a table, of `list_summary::summarise` if they ask for
/// a summary, and of `list_lines::print_units` if they ask for units or broken rules. If they ask
/// for help or the version it is 0, or 3 if that can't be written. Otherwise a line on `faults`
/// states which word is wrong, or the usage, and the status is 2; so it is if there are no words
/// because they aren't text.
pub fn program<R: Source, W: Sink, F: Write>(
    alloc: Global,
    manual: &Manual,
    file: Option<&str>,
    words: Option<Vec<String>>,
    input: &mut R,
    output: &mut W,
    faults: &mut F,
) -> u8
    // Without words nothing is read or written.
    ensures no_words { IsNone words →
        (result ≡ 2) × (input.new ≡ input.old) × (output.new ≡ output.old) }
    // Nor is it with words after the program's name that ask for nothing.
    ensures usage { IfSome words (λ all. table_by_words (drop 1 all.items) ≡ None →
        summary_by_words (drop 1 all.items) ≡ false →
        wanted_by_words (drop 1 all.items) ≡ None → asked_of (drop 1 all.items) ≡ None →
        (result ≡ 2) × (input.new ≡ input.old) × (output.new ≡ output.old)) }
    // Where they ask about the program, that is written, and nothing is read.
    ensures asked { IfSome words (λ all. IfSome (asked_of (drop 1 all.items)) (λ question.
        (input.new ≡ input.old) × WritesText (manual_text manual.now question) 0 3 result
        (W.state output.old) (W.state output.new))) }
    // Where they ask for a table, it is printed of what the recording leaves.
    ensures tables { IfSome words (λ all. IfSome (table_by_words (drop 1 all.items)) (λ table.
        RunsTable table (faults.new ≡ faults.old) result
        (R.state input.old) (R.state input.new) (W.state output.old) (W.state output.new))) }
    // Where they ask for a summary, it is printed of the units.
    ensures summary { IfSome words (λ all. summary_by_words (drop 1 all.items) ≡ true →
        Summarises result
        (R.state input.old) (R.state input.new) (W.state output.old) (W.state output.new)) }
    // Where they ask for units or broken rules, these are printed of the input.
    ensures lists { IfSome words (λ all. IfSome (wanted_by_words (drop 1 all.items)) (λ what.
        Runs what result
        (R.state input.old) (R.state input.new) (W.state output.old) (W.state output.new))) }
    // Where units are printed and that succeeds, no line is printed on `faults`.
    ensures quiet { IfSome words (λ all. IfSome (wanted_by_words (drop 1 all.items)) (λ what.
        counts_units what ≡ false → result ≡ 0 → faults.new ≡ faults.old)) }
    // Nor is one where a summary is.
    ensures quiet_summary { IfSome words (λ all. summary_by_words (drop 1 all.items) ≡ true →
        result ≡ 0 → faults.new ≡ faults.old) }
{
    let Some(all) = words else {
        return usage(manual, faults);
    };
    let words = words_after_name(&all);
    let subject = Subject {
        program: manual.name,
        file,
    };
    if let Some(table) = table_wanted(words) {
        return print_table(alloc, subject, table, input, output, faults);
    }
    if summary_wanted(words) {
        return summarise(alloc, subject, input, output, faults);
    }
    if let Some(wanted) = form_wanted(words) {
        return print_units(alloc, subject, wanted, input, output, faults);
    }
    about(manual, words, FAILED, output, faults)
}

/// Whether the words after the program's name make the program read its input.
pub fn reads_input(words: &[String]) -> bool
    ensures { result ≡ (is_some (table_by_words words.now) || summary_by_words words.now ||
        is_some (wanted_by_words words.now)) }
{
    table_wanted(words).is_some() | summary_wanted(words) | form_wanted(words).is_some()
}
