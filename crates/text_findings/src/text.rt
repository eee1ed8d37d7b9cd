//! The lines of findings.

ghost use Rattle.std.specs.Prelude.{◌≡◌, ◌++◌, decimal};
ghost use Rattle.text_lines.specs.Laying.{Lays};
ghost use Rattle.text_findings.specs.FindingTexts.{finding_of, finding_text, layout_text};
ghost use Rattle.text_findings.specs.declared.finding.Finding.TheVariants as broken;

use crate::finding::{Finding, Layout};
use text_lines::laying;

/// Writes the line of a finding at a unit at this offset to the output from offset `at` on, as much
/// of it as fits, and returns the offset of its end.
pub fn describe_finding(output: &mut [u8], at: usize, offset: u64, finding: &Finding) -> usize
    ensures { Lays (finding_of offset finding.now) at output.old result output.new }
{
    let at = laying::labelled(output, at, "offset ", offset);
    let at = laying::text(output, at, ": ");
    said(output, at, *finding)
}

/// Writes the text of a finding.
fn said(output: &mut [u8], at: usize, finding: Finding) -> usize
    ensures { Lays (finding_text finding) at output.old result output.new }
{
    match finding {
        Finding::Reserved(place) => {
            between(output, at, "reserved byte ", place as u64, " is not zero")
        }
        Finding::Version(version, begun) => version_said(output, at, version, begun),
        Finding::Session(session, begun) => session_said(output, at, session, begun),
        Finding::Lacks(version) => between(
            output,
            at,
            "version ",
            version as u64,
            " has no unit of this type",
        ),
        Finding::WithdrawnProviders(layout) => providers_said(output, at, layout),
        Finding::Flags => laying::text(output, at, "reserved bits of the flags are not zero"),
        Finding::PrefixLength => laying::text(output, at, "prefix length is too large"),
        Finding::MaxLength => laying::text(output, at, "max length is too large"),
        Finding::MaxBelow => laying::text(output, at, "max length is below the prefix length"),
        Finding::HostBits => laying::text(output, at, "host bits of the prefix are not zero"),
        Finding::CutOff => laying::text(output, at, "answer without an end of data"),
        Finding::NoAnswer => laying::text(output, at, "recording without an end of data"),
        Finding::Twice => laying::text(output, at, "announced twice in the sequence"),
        Finding::ProviderOrder => {
            laying::text(output, at, "providers are not in ascending order")
        }
        Finding::ReportParts => {
            laying::text(output, at, "lengths inside the error report do not fit")
        }
        Finding::ReportText => { laying::text(output, at, "text of the error report is not UTF-8") }
        Finding::ReportOfReport => {
            laying::text(output, at, "error report about an error report")
        }
        Finding::Times(rule) => laying::text(output, at, rule.text()),
    }
}

/// Writes a text, a number and a text.
fn between(output: &mut [u8], at: usize, front: &str, number: u64, back: &str) -> usize
    ensures { Lays (front.now ++ decimal number ++ back.now) at output.old result output.new }
{
    let at = laying::labelled(output, at, front, number);
    laying::text(output, at, back)
}

fn version_said(output: &mut [u8], at: usize, version: u8, begun: u8) -> usize
    ensures { Lays (finding_text (broken.Version version begun)) at
        output.old result output.new }
{
    let at = laying::labelled(output, at, "version ", version as u64);
    between(
        output,
        at,
        " differs from version ",
        begun as u64,
        " of the sequence",
    )
}

fn session_said(output: &mut [u8], at: usize, session: u16, begun: u16) -> usize
    ensures { Lays (finding_text (broken.Session session begun)) at
        output.old result output.new }
{
    let at = laying::labelled(output, at, "session ", session as u64);
    between(
        output,
        at,
        " differs from session ",
        begun as u64,
        " of the answer",
    )
}

fn providers_said(output: &mut [u8], at: usize, layout: Layout) -> usize
    ensures { Lays (finding_text (broken.WithdrawnProviders layout)) at
        output.old result output.new }
{
    let at = laying::text(output, at, "withdrawn ASPA has providers");
    laying::text(output, at, layout_said(layout))
}

fn layout_said(layout: Layout) -> &'static str
    ensures { result.now ≡ layout_text layout }
{
    match layout {
        Layout::AsRead => "",
        Layout::LikeOlderDraft => "; looks like the layout of an older draft",
    }
}
