//! The rules of the protocol that a unit or a sequence can break.

use session_times::TimeRule;
use std::fmt;

/// A rule that a unit breaks. Offsets count from 0 in the unit.
#[derive(Clone, Copy, Debug)]
pub enum Finding {
    /// The byte at this offset, which the unit's type reserves, must be zero (RFC 8210 section
    /// 5.1).
    Reserved(u8),
    /// All bits of the flags but the lowest must be zero (RFC 8210 section 5.1).
    Flags,
    /// A prefix length is at most 32 or 128 (RFC 8210 sections 5.6 and 5.7).
    PrefixLength,
    /// A max length is at most 32 or 128 (RFC 8210 sections 5.6 and 5.7).
    MaxLength,
    /// A max length is no less than the prefix length (RFC 8210 section 5.1).
    MaxBelow,
    /// A prefix has no bits after its length: this program's own rule.
    HostBits,
    /// A sequence has one version (RFC 8210 section 7).
    Version(u8, u8),
    /// An end of data has the session of its answer (RFC 8210 section 5.8).
    Session(u16, u16),
    /// An answer ends with an end of data (RFC 8210 sections 5.8 and 8.1).
    CutOff,
    /// A recording has an end of data: this program's own rule.
    NoAnswer,
    /// Router keys came with version 1 (RFC 8210 section 5.10), ASPA units with version 2 (as in
    /// the Rust crate `rpki`).
    Lacks(u8),
    /// A withdrawn ASPA has no providers: this program's own rule.
    WithdrawnProviders(Layout),
    /// A payload is announced once (RFC 8210 sections 5.6, 5.7 and 5.10).
    Twice,
    /// The providers of an ASPA unit ascend: this program's own rule.
    ProviderOrder,
    /// The two parts of an error report and their lengths fill it exactly (RFC 8210 section 5.11).
    ReportParts,
    /// The text of an error report is UTF-8 (RFC 8210 section 5.11).
    ReportText,
    /// No error report is sent about an error report (RFC 8210 section 5.11).
    ReportOfReport,
    /// The times of an end of data are within their bounds, and the data expire later than a router
    /// waits (RFC 8210 section 6): the first rule that is broken.
    Times(TimeRule),
}

/// How the bytes of an ASPA unit that is withdrawn with providers can be read.
#[derive(Clone, Copy, Debug)]
pub enum Layout {
    /// In the layout that this program reads.
    AsRead,
    /// Also in that of an older draft, which has flags, a family and the number of providers before
    /// the customer.
    LikeOlderDraft,
}

impl fmt::Display for Finding {
    ghost use Rattle.std.specs.Prelude.{Some};
    ghost use Rattle.text_findings.specs.FindingTexts.{finding_text};

    ghost output = { λ finding. Some (finding_text finding) };

    fn fmt<W: fmt::Write>(&self, f: &mut fmt::Formatter<W>) -> fmt::Result {
        match self {
            Finding::Reserved(place) => write!(f, "reserved byte {place} is not zero"),
            Finding::Flags => f.write_str("reserved bits of the flags are not zero"),
            Finding::PrefixLength => f.write_str("prefix length is too large"),
            Finding::MaxLength => f.write_str("max length is too large"),
            Finding::MaxBelow => f.write_str("max length is below the prefix length"),
            Finding::HostBits => f.write_str("host bits of the prefix are not zero"),
            Finding::Version(version, begun) => {
                write!(
                    f,
                    "version {version} differs from version {begun} of the sequence"
                )
            }
            Finding::Session(session, begun) => {
                write!(
                    f,
                    "session {session} differs from session {begun} of the answer"
                )
            }
            Finding::CutOff => f.write_str("answer without an end of data"),
            Finding::NoAnswer => f.write_str("recording without an end of data"),
            Finding::Lacks(version) => write!(f, "version {version} has no unit of this type"),
            Finding::WithdrawnProviders(layout) => write!(
                f,
                "withdrawn ASPA has providers{layout}"
            ),
            Finding::Twice => f.write_str("announced twice in the sequence"),
            Finding::ProviderOrder => f.write_str("providers are not in ascending order"),
            Finding::ReportParts => f.write_str("lengths inside the error report do not fit"),
            Finding::ReportText => f.write_str("text of the error report is not UTF-8"),
            Finding::ReportOfReport => f.write_str("error report about an error report"),
            Finding::Times(rule) => f.write_str(rule.text()),
        }
    }
}

/// Writes the remark of a finding on the layout.
impl fmt::Display for Layout {
    ghost use Rattle.std.specs.Prelude.{Some};
    ghost use Rattle.text_findings.specs.FindingTexts.{layout_text};

    ghost output = { λ layout. Some (layout_text layout) };

    fn fmt<W: fmt::Write>(&self, f: &mut fmt::Formatter<W>) -> fmt::Result {
        match self {
            Layout::AsRead => Ok(()),
            Layout::LikeOlderDraft => f.write_str("; looks like the layout of an older draft"),
        }
    }
}
