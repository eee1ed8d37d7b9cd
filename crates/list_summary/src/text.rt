//! The text of a summary.

ghost use Rattle.std.specs.Prelude.{◌≡◌, ◌++◌, OnOk, slice_index, true};
ghost use Rattle.std.specs.List.{flat_map};
ghost use Rattle.list_summary.specs.PrivateTallies.{as_count, kept_line, numbers_text};
ghost use Rattle.list_summary.specs.Summaries.{all_length_lines, as_line, as_lines, complete_line};
ghost use Rattle.list_summary.specs.Summaries.{count_line};
ghost use Rattle.list_summary.specs.Summaries.{key_lines, kind_lines, length_line, length_lines};
ghost use Rattle.list_summary.specs.Summaries.{lines_or_none, number_line, other_lines};
ghost use Rattle.list_summary.specs.Summaries.{prefix_lines, query_lines, size_lines};

use crate::answers::{Answer, Answers};
use crate::as_counts::AsCounts;
use crate::summary::Summary;
use crate::tally::Tally;
use list_lines::Line;
use std::alloc::{AllocError, Global};

/// Adds the lines of the summary of units, after which the input ended or not.
#[tactic(auto, unfolding(crate::specs::Summaries::number_lines))]
pub fn add_summary(
    alloc: Global,
    line: &mut Line,
    is_complete: bool,
    summary: &Summary,
) -> Result<(), AllocError>
    ensures answers { OnOk result (summary.now.answers.is_whole ≡ true) }
    ensures ases { OnOk result (summary.now.ases.is_whole ≡ true) }
    ensures lines { OnOk result (line.new ≡ line.old ++ numbers_text is_complete summary.now) }
{
    add_sizes(line, is_complete, summary.bytes, summary.units)?;
    add_kinds(line, &summary.announced, &summary.others)?;
    add_answers(line, &summary.answers)?;
    add_all_lengths(line, &summary.v4_lengths, &summary.v6_lengths)?;
    add_ases(alloc, line, &summary.ases)
}

/// Adds a name and a count.
fn add_count(line: &mut Line, name: &str, count: u64) -> Result<(), AllocError>
    ensures { OnOk result (line.new ≡ line.old ++ count_line name.now count) }
{
    line.labelled(name, count)?;
    line.text("\n")
}

/// Adds the numbers of bytes and units that were read.
#[tactic(auto, unfolding(crate::specs::Summaries::size_lines))]
fn add_sizes(line: &mut Line, is_complete: bool, bytes: u64, units: u64) -> Result<(), AllocError>
    ensures { OnOk result (line.new ≡ line.old ++ size_lines is_complete bytes units) }
{
    line.text(complete_text(is_complete))?;
    add_count(line, "bytes:                ", bytes)?;
    add_count(line, "units:                ", units)
}

/// Whether the input ended after the units.
fn complete_text(is_complete: bool) -> &'static str
    ensures { result.now ≡ complete_line is_complete }
{
    if is_complete {
        "complete:             yes\n"
    } else {
        "complete:             no\n"
    }
}

/// Adds how many units of each type there are.
#[tactic(auto, unfolding(crate::specs::Summaries::kind_lines))]
fn add_kinds(line: &mut Line, announced: &Tally, others: &Tally) -> Result<(), AllocError>
    ensures { OnOk result (line.new ≡ line.old
        ++ kind_lines (slice_index announced.now.counts) (slice_index others.now.counts)) }
{
    add_queries(line, others)?;
    add_prefixes(line, announced, others)?;
    add_keys(line, announced, others)?;
    add_others(line, others)
}

#[tactic(auto, unfolding(crate::specs::Summaries::query_lines))]
fn add_queries(line: &mut Line, others: &Tally) -> Result<(), AllocError>
    ensures { OnOk result (line.new ≡ line.old ++ query_lines (slice_index others.now.counts)) }
{
    add_count(line, "serial notify:        ", others.get(0))?;
    add_count(line, "serial query:         ", others.get(1))?;
    add_count(line, "reset query:          ", others.get(2))?;
    add_count(line, "cache response:       ", others.get(3))
}

#[tactic(auto, unfolding(crate::specs::Summaries::prefix_lines))]
fn add_prefixes(line: &mut Line, announced: &Tally, others: &Tally) -> Result<(), AllocError>
    ensures { OnOk result (line.new ≡ line.old
        ++ prefix_lines (slice_index announced.now.counts) (slice_index others.now.counts)) }
{
    add_count(line, "IPv4 prefix announce: ", announced.get(4))?;
    add_count(line, "IPv4 prefix withdraw: ", others.get(4))?;
    add_count(line, "IPv6 prefix announce: ", announced.get(6))?;
    add_count(line, "IPv6 prefix withdraw: ", others.get(6))
}

#[tactic(auto, unfolding(crate::specs::Summaries::key_lines))]
fn add_keys(line: &mut Line, announced: &Tally, others: &Tally) -> Result<(), AllocError>
    ensures { OnOk result (line.new ≡ line.old
        ++ key_lines (slice_index announced.now.counts) (slice_index others.now.counts)) }
{
    add_count(line, "router key announce:  ", announced.get(9))?;
    add_count(line, "router key withdraw:  ", others.get(9))?;
    add_count(line, "ASPA announce:        ", announced.get(11))?;
    add_count(line, "ASPA withdraw:        ", others.get(11))
}

#[tactic(auto, unfolding(crate::specs::Summaries::other_lines))]
fn add_others(line: &mut Line, others: &Tally) -> Result<(), AllocError>
    ensures { OnOk result (line.new ≡ line.old ++ other_lines (slice_index others.now.counts)) }
{
    add_count(line, "end of data:          ", others.get(7))?;
    add_count(line, "cache reset:          ", others.get(8))?;
    add_count(line, "error report:         ", others.get(10))
}

/// Adds a line of each answer, or the line that there is none. Returns an error if an allocation
/// failed, now or before.
fn add_answers(line: &mut Line, answers: &Answers) -> Result<(), AllocError>
    ensures whole { OnOk result (answers.now.is_whole ≡ true) }
    ensures lines { OnOk result (line.new ≡ line.old
        ++ lines_or_none (flat_map kept_line answers.now.ended.items)) }
{
    let ended = answers.ended()?;
    if ended.is_empty() {
        line.text("answer:               none\n")
    } else {
        add_ended(line, ended)
    }
}

fn add_ended(line: &mut Line, answers: &[Answer]) -> Result<(), AllocError>
    ensures { OnOk result (line.new ≡ line.old ++ flat_map kept_line answers.now) }
{
    for answer in answers.iter() {
        add_answer(line, answer)?;
    }
    Ok(())
}

/// Adds the line of an answer.
fn add_answer(line: &mut Line, answer: &Answer) -> Result<(), AllocError>
    ensures { OnOk result (line.new ≡ line.old ++ kept_line answer.now) }
{
    line.labelled("answer:               session ", u64::from(answer.session))?;
    line.labelled(" serial ", u64::from(answer.serial))?;
    line.labelled(" announces ", answer.announced)?;
    add_count(line, " withdraws ", answer.withdrawn)
}

/// Adds how many prefixes of each length there are.
#[tactic(auto, unfolding(crate::specs::Summaries::all_length_lines))]
fn add_all_lengths(
    line: &mut Line,
    v4_lengths: &Tally,
    v6_lengths: &Tally,
) -> Result<(), AllocError>
    ensures { OnOk result (line.new ≡ line.old ++ all_length_lines
        (slice_index v4_lengths.now.counts) (slice_index v6_lengths.now.counts)) }
{
    add_lengths(line, "IPv4 prefix length:   /", v4_lengths)?;
    add_lengths(line, "IPv6 prefix length:   /", v6_lengths)
}

fn add_lengths(line: &mut Line, name: &str, lengths: &Tally) -> Result<(), AllocError>
    ensures { OnOk result (line.new ≡ line.old
        ++ length_lines name.now (slice_index lengths.now.counts) 256) }
{
    for len in 0..256usize {
        add_length(line, name, len as u64, lengths.get(len))?;
    }
    Ok(())
}

/// Adds a prefix length and its count, unless that is zero.
fn add_length(line: &mut Line, name: &str, len: u64, count: u64) -> Result<(), AllocError>
    ensures { OnOk result (line.new ≡ line.old ++ length_line name.now len count) }
{
    if count == 0 {
        return Ok(());
    }
    add_number(line, name, len, count)
}

/// Adds the largest ASes. Returns an error if an allocation failed, now or before.
#[tactic(auto, unfolding(crate::specs::Summaries::as_lines))]
fn add_ases(alloc: Global, line: &mut Line, ases: &AsCounts) -> Result<(), AllocError>
    ensures whole { OnOk result (ases.now.is_whole ≡ true) }
    ensures lines { OnOk result (line.new ≡ line.old ++ as_lines (as_count ases.now.counts)) }
{
    let rows = ases.largest(alloc)?;
    add_rows(line, rows.as_slice())
}

fn add_rows(line: &mut Line, rows: &[(u32, u64)]) -> Result<(), AllocError>
    ensures { OnOk result (line.new ≡ line.old ++ flat_map as_line rows.now) }
{
    for row in rows.iter() {
        add_number(line, "largest AS:           AS", u64::from(row.0), row.1)?;
    }
    Ok(())
}

/// Adds a number and its count.
fn add_number(line: &mut Line, name: &str, number: u64, count: u64) -> Result<(), AllocError>
    ensures { OnOk result (line.new ≡ line.old ++ number_line name.now number count) }
{
    line.labelled(name, number)?;
    line.labelled(" ", count)?;
    line.text("\n")
}
