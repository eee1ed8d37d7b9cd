//! The text of a summary.

ghost use Rattle.std.specs.Prelude.{◌≡◌, ◌++◌, OnOk, length};
ghost use Rattle.validate_work.specs.PrivateCounts.{AddsSummary};
ghost use Rattle.validate_work.specs.SummaryTexts.{WritesSummary, counts_text, form_counts_text};
ghost use Rattle.validate_work.specs.SummaryTexts.{form_turns_text, origins_head, origins_end};

use crate::counts::{Counts, Summary};
use crate::form::Form;
use crate::origins::add_rows;
use crate::states::{Turns, add_states};
use list_lines::Line;
use rtr_units::fault::Fault;
use rtr_units::piece::put;
use rtr_units::source::Sink;
use std::alloc::{AllocError, Global};

/// The greatest number of origin ASes that are listed.
const MOST_ORIGINS: u8 = 20;

/// Writes the counts: by validity and origin AS, or if two lists are compared, the changes of
/// validity. The faults are `Writer` and `Memory`.
pub(crate) fn write_summary<W: Sink>(
    alloc: Global,
    form: Form,
    compared: bool,
    summary: &Summary,
    output: &mut W,
) -> Result<(), Fault>
    ensures { WritesSummary form compared summary.now result
        (W.state output.old) (W.state output.new) }
{
    let mut line = Line::new(alloc);
    match add_summary(&mut line, form, compared, summary) {
        Ok(()) => put(output, line.as_bytes()),
        Err(_) => Err(Fault::Memory),
    }
}

/// Adds the counts.
fn add_summary(
    line: &mut Line,
    form: Form,
    compared: bool,
    summary: &Summary,
) -> Result<(), AllocError>
    ensures { OnOk result (AddsSummary form compared summary.now line.old line.new) }
{
    if compared {
        return add_turns(line, form, &summary.turns, summary.counts.refused);
    }
    add_counts(line, form, &summary.counts)?;
    add_origins_head(line, form, summary.origins.len() as u64)?;
    add_rows(line, form, &summary.origins, &None, MOST_ORIGINS)?;
    line.text(origins_end(form))
}

/// Adds the counts of routes: a line for each, or the beginning of a JSON object.
fn add_counts(line: &mut Line, form: Form, counts: &Counts) -> Result<(), AllocError>
    ensures { OnOk result (line.new ≡ line.old ++ form_counts_text form counts.now) }
{
    match form {
        Form::Text => add_labelled(
            line,
            "valid ",
            "\ninvalid ",
            "\nnot found ",
            "\nrefused ",
            counts,
        ),
        Form::Json => add_labelled(
            line,
            "{\"valid\":",
            ",\"invalid\":",
            ",\"not found\":",
            ",\"refused\":",
            counts,
        ),
    }
}

/// Adds each count after its label.
fn add_labelled(
    line: &mut Line,
    valid: &str,
    invalid: &str,
    not_found: &str,
    refused: &str,
    counts: &Counts,
) -> Result<(), AllocError>
    ensures { OnOk result (line.new ≡ line.old
        ++ counts_text valid.now invalid.now not_found.now refused.now counts.now) }
{
    line.labelled(valid, counts.valid)?;
    line.labelled(invalid, counts.invalid)?;
    line.labelled(not_found, counts.not_found)?;
    line.labelled(refused, counts.refused)
}

/// Adds how many origin ASes there are.
fn add_origins_head(line: &mut Line, form: Form, count: u64) -> Result<(), AllocError>
    ensures { OnOk result (line.new ≡ line.old ++ origins_head form count) }
{
    match form {
        Form::Text => {
            line.labelled("\norigins ", count)?;
            line.text("\n")
        }
        Form::Json => {
            line.labelled(",\"origin count\":", count)?;
            line.text(",\"origins\":[")
        }
    }
}

/// The text after the rows of origin ASes.
fn origins_end(form: Form) -> &'static str
    ensures { result.now ≡ origins_end form }
{
    match form {
        Form::Text => "",
        Form::Json => "]}\n",
    }
}

/// Adds how many routes change from each validity to each.
fn add_turns(line: &mut Line, form: Form, turns: &Turns, refused: u64) -> Result<(), AllocError>
    ensures { OnOk result (line.new ≡ line.old ++ form_turns_text form turns.now refused) }
{
    match form {
        Form::Text => add_turn_lines(line, turns, refused),
        Form::Json => add_turns_object(line, turns, refused),
    }
}

/// Adds a line for each change.
fn add_turn_lines(line: &mut Line, turns: &Turns, refused: u64) -> Result<(), AllocError>
    ensures { OnOk result (line.new ≡ line.old ++ form_turns_text Form.Text turns.now refused) }
{
    add_states(
        line,
        "valid to valid ",
        "\nvalid to invalid ",
        "\nvalid to not found ",
        "\n",
        &turns.valid,
    )?;
    add_states(
        line,
        "invalid to valid ",
        "\ninvalid to invalid ",
        "\ninvalid to not found ",
        "\n",
        &turns.invalid,
    )?;
    add_states(
        line,
        "not found to valid ",
        "\nnot found to invalid ",
        "\nnot found to not found ",
        "\n",
        &turns.not_found,
    )?;
    line.labelled("refused ", refused)?;
    line.text("\n")
}

/// Adds a JSON object.
fn add_turns_object(line: &mut Line, turns: &Turns, refused: u64) -> Result<(), AllocError>
    ensures { OnOk result (line.new ≡ line.old ++ form_turns_text Form.Json turns.now refused) }
{
    add_states(
        line,
        "{\"valid\":{\"valid\":",
        ",\"invalid\":",
        ",\"not found\":",
        "}",
        &turns.valid,
    )?;
    add_states(
        line,
        ",\"invalid\":{\"valid\":",
        ",\"invalid\":",
        ",\"not found\":",
        "}",
        &turns.invalid,
    )?;
    add_states(
        line,
        ",\"not found\":{\"valid\":",
        ",\"invalid\":",
        ",\"not found\":",
        "}",
        &turns.not_found,
    )?;
    line.labelled(",\"refused\":", refused)?;
    line.text("}\n")
}
