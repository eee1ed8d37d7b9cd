//! Lines of units, one unit after the other.

ghost use Rattle.std.specs.Prelude.{◌≡◌, ◌≢◌, ℕ, List, [], ◌∷◌, ◌++◌, Err, OnOk, OnErr};
ghost use Rattle.rtr_units.specs.StopCauses.{by_cause, by_reader};
ghost use Rattle.rtr_units.specs.StopCauses.{WriterState};
ghost use Rattle.rtr_units.specs.declared.fault.Fault.{Fault};
ghost use Rattle.unit_any.specs.AnyFields.{AnyFields, HasAnyFields};
ghost use Rattle.unit_any.specs.AnyUnits.{any_bytes, any_fields};
ghost use Rattle.text_findings.specs.FindingTexts.{finding_of};
ghost use Rattle.list_lines.specs.PrivateFollowing.{HasSeen};
ghost use Rattle.text_lines.specs.JsonLines.{unit_json};
ghost use Rattle.list_lines.specs.Lines.{PutsLine, written_line};
ghost use Rattle.list_lines.specs.Listing.{end_lines, finding_lines, offset_of};
ghost use Rattle.list_lines.specs.PrivateLines.{HasChecked, Prints, PrintsUnit};
ghost use Rattle.list_lines.specs.PrivateLines.{offset_after, returned};
ghost use Rattle.text_lines.specs.TextLines.{unit_text};
ghost use Rattle.list_lines.specs.declared.run.Wanted.TheVariants.{Text, Json, Findings};

use crate::check::Checker;
use crate::laid::{UnitJson, UnitText};
use crate::line::{Failed, Line, keep};
use crate::listed::listed;
use crate::run::Wanted;
use rtr_units::fault::Fault;
use rtr_units::source::Sink;
use std::alloc::{AllocError, Global};
use text_findings::Finding;
use unit_any::AnyUnit;

/// Prints units one after the other, in memory that is reused for each.
#[derive(Drop)]
pub struct Printer {
    /// The number of bytes of the units before; it saturates.
    offset: u64,
    checker: Checker,
    /// The rules that the newest unit breaks.
    findings: Vec<Finding>,
    line: Line,
}

impl Printer {
    /// A printer that has printed nothing.
    pub fn new(alloc: Global) -> Printer
        ensures offset { result.offset ≡ 0 }
        ensures checker { HasSeen result.checker [] }
    {
        Printer {
            offset: 0,
            checker: Checker::new(alloc),
            findings: Vec::new(alloc),
            line: Line::new(alloc),
        }
    }

    /// The number of bytes of the units that were printed.
    pub fn offset(&self) -> u64
        ensures { result ≡ self.now.offset }
    {
        self.offset
    }

    /// Prints the requested lines of the next unit, and reports whether it breaks a rule, or stores
    /// why it fails: `Memory` or `Writer`.
    pub fn print<W: Sink>(
        &mut self,
        wanted: Wanted,
        unit: &AnyUnit,
        output: &mut W,
        failure: &mut Fault,
    ) -> Result<bool, Failed>
        // As of each unit that is read.
        requires { HasAnyFields (any_bytes unit.now) (any_fields unit.now) }
        // Where these units were before, their lines are those of the unit after them.
        ensures lines { (before : List AnyFields) → HasChecked wanted self.old.checker before →
            PrintsUnit wanted self.old.offset before (any_fields unit.now)
            (returned result failure.new) (W.state output.old) (W.state output.new) }
        ensures checks { (before : List AnyFields) → HasChecked wanted self.old.checker before →
            OnOk result (HasChecked wanted self.new.checker (any_fields unit.now ∷ before)) }
        ensures no_reader { by_cause (returned result failure.new) ≢ Err by_reader }
        ensures moves { OnOk result (
            self.new.offset ≡ offset_after self.old.offset (any_bytes unit.now)) }
        ensures stays { OnErr result (self.new.offset ≡ self.old.offset) }
    {
        let answer = self.print_lines(wanted, unit, output, failure);
        if answer.is_ok() {
            self.offset = self.offset.saturating_add(u64::from(unit.size()));
        }
        answer
    }

    /// Prints the requested lines of the unit. Returns as `print`.
    fn print_lines<W: Sink>(
        &mut self,
        wanted: Wanted,
        unit: &AnyUnit,
        output: &mut W,
        failure: &mut Fault,
    ) -> Result<bool, Failed>
        requires { HasAnyFields (any_bytes unit.now) (any_fields unit.now) }
        ensures lines { (before : List AnyFields) → HasChecked wanted self.old.checker before →
            PrintsUnit wanted self.old.offset before (any_fields unit.now)
            (returned result failure.new) (W.state output.old) (W.state output.new) }
        ensures checks { (before : List AnyFields) → HasChecked wanted self.old.checker before →
            OnOk result (HasChecked wanted self.new.checker (any_fields unit.now ∷ before)) }
        ensures no_reader { by_cause (returned result failure.new) ≢ Err by_reader }
        ensures offset { self.new.offset ≡ self.old.offset }
    {
        match wanted {
            Wanted::Text => unbroken(self.print_text(unit, output, failure)),
            Wanted::Json => unbroken(self.print_json(unit, output, failure)),
            Wanted::Findings => self.print_findings(unit, output, failure),
        }
    }

    /// Prints the requested lines at the end of the input, and reports whether a rule is broken, or
    /// stores why it fails, as `print`.
    pub fn finish<W: Sink>(
        &mut self,
        wanted: Wanted,
        output: &mut W,
        failure: &mut Fault,
    ) -> Result<bool, Failed>
        ensures lines { (before : List AnyFields) → HasChecked wanted self.old.checker before →
            self.old.offset ≡ offset_of before → Prints wanted (end_lines wanted before)
            (returned result failure.new) (W.state output.old) (W.state output.new) }
        ensures no_reader { by_cause (returned result failure.new) ≢ Err by_reader }
        ensures offset { self.new.offset ≡ self.old.offset }
    {
        match wanted {
            Wanted::Text | Wanted::Json => Ok(false),
            Wanted::Findings => self.finish_findings(output, failure),
        }
    }

    fn finish_findings<W: Sink>(
        &mut self,
        output: &mut W,
        failure: &mut Fault,
    ) -> Result<bool, Failed>
        ensures lines { (before : List AnyFields) → HasSeen self.old.checker before →
            self.old.offset ≡ offset_of before → Prints Findings (end_lines Findings before)
            (returned result failure.new) (W.state output.old) (W.state output.new) }
        ensures no_reader { by_cause (returned result failure.new) ≢ Err by_reader }
        ensures offset { self.new.offset ≡ self.old.offset }
    {
        let offset = self.offset;
        match self.checker.finish(&mut self.findings) {
            Ok(()) => put_findings(&self.findings, offset, &mut self.line, output, failure),
            Err(_) => Err(keep(Fault::Memory, failure)),
        }
    }

    fn print_text<W: Sink>(
        &mut self,
        unit: &AnyUnit,
        output: &mut W,
        failure: &mut Fault,
    ) -> Result<(), Failed>
        ensures line { PutsLine (unit_text self.old.offset (any_fields unit.now))
            (returned result failure.new) (W.state output.old) (W.state output.new) }
        ensures no_reader { by_cause (returned result failure.new) ≢ Err by_reader }
        ensures offset { self.new.offset ≡ self.old.offset }
    {
        self.line.clear();
        let text = UnitText {
            offset: self.offset,
            unit: listed(unit),
        };
        match self.line.lay(&text) {
            Ok(()) => self.line.put(output, failure),
            Err(_) => Err(keep(Fault::Memory, failure)),
        }
    }

    fn print_json<W: Sink>(
        &mut self,
        unit: &AnyUnit,
        output: &mut W,
        failure: &mut Fault,
    ) -> Result<(), Failed>
        ensures line { PutsLine (unit_json self.old.offset (any_fields unit.now))
            (returned result failure.new) (W.state output.old) (W.state output.new) }
        ensures no_reader { by_cause (returned result failure.new) ≢ Err by_reader }
        ensures offset { self.new.offset ≡ self.old.offset }
    {
        self.line.clear();
        let text = UnitJson {
            offset: self.offset,
            unit: listed(unit),
        };
        match self.line.lay(&text) {
            Ok(()) => self.line.put(output, failure),
            Err(_) => Err(keep(Fault::Memory, failure)),
        }
    }

    fn print_findings<W: Sink>(
        &mut self,
        unit: &AnyUnit,
        output: &mut W,
        failure: &mut Fault,
    ) -> Result<bool, Failed>
        requires { HasAnyFields (any_bytes unit.now) (any_fields unit.now) }
        ensures lines { (before : List AnyFields) → HasSeen self.old.checker before →
            PrintsUnit Findings self.old.offset before (any_fields unit.now)
            (returned result failure.new) (W.state output.old) (W.state output.new) }
        ensures checks { (before : List AnyFields) → HasSeen self.old.checker before →
            OnOk result (HasSeen self.new.checker (any_fields unit.now ∷ before)) }
        ensures no_reader { by_cause (returned result failure.new) ≢ Err by_reader }
        ensures offset { self.new.offset ≡ self.old.offset }
    {
        match self.checker.check(unit, &mut self.findings) {
            Ok(()) => put_findings(&self.findings, self.offset, &mut self.line, output, failure),
            Err(_) => Err(keep(Fault::Memory, failure)),
        }
    }
}

/// The result of listing a unit, for which no rules are checked.
fn unbroken(line: Result<(), Failed>) -> Result<bool, Failed>
    ensures text { (failure : Fault) → (text : List ℕ) → (old new : WriterState) →
        PutsLine text (returned line failure) old new →
        Prints Text (written_line text ∷ []) (returned result failure) old new }
    ensures json { (failure : Fault) → (text : List ℕ) → (old new : WriterState) →
        PutsLine text (returned line failure) old new →
        Prints Json (written_line text ∷ []) (returned result failure) old new }
    ensures reader { (failure : Fault) → by_cause (returned line failure) ≢ Err by_reader →
        by_cause (returned result failure) ≢ Err by_reader }
{
    match line {
        Ok(()) => Ok(false),
        Err(failed) => Err(failed),
    }
}

/// Writes a line of each finding, and reports whether there is one, or stores why it fails.
fn put_findings<W: Sink>(
    findings: &[Finding],
    offset: u64,
    line: &mut Line,
    output: &mut W,
    failure: &mut Fault,
) -> Result<bool, Failed>
    ensures lines { Prints Findings (finding_lines offset findings.now)
        (returned result failure.new) (W.state output.old) (W.state output.new) }
    ensures no_reader { by_cause (returned result failure.new) ≢ Err by_reader }
{
    for finding in findings {
        line.clear();
        if describe_finding(line, offset, *finding).is_err() {
            return Err(keep(Fault::Memory, failure));
        }
        match line.put(output, failure) {
            Ok(()) => {}
            Err(failed) => return Err(failed),
        }
    }
    Ok(!findings.is_empty())
}

fn describe_finding(line: &mut Line, offset: u64, finding: Finding) -> Result<(), AllocError>
    ensures { OnOk result (line.new ≡ line.old ++ finding_of offset finding) }
{
    line.labelled("offset ", offset)?;
    line.text(": ")?;
    line.show(finding)
}
