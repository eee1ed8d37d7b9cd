//! Why a unit or a change is refused.

ghost use Rattle.std.specs.Prelude.{◌≡◌, take};
ghost use Rattle.session_bytes.specs.Sent.{refusal_code, refusal_fault, refusal_of, refusal_part};
ghost use Rattle.session_bytes.specs.Sent.{about, unit_part};

use rtr_base::error_code::ErrorCode;
use rtr_payload::pdu::prefix_rule::PrefixRule;
use rtr_units::header::HEADER_SIZE;
use rtr_units::numbers::u32_at;
use rtr_units::peer_fault::PeerFault;
use unit_views::fault::ViewFault;

/// Why a unit or a change is refused.
#[derive(Clone, Copy, Debug, PartialEq, Eq)]
pub enum Refusal {
    /// The peer closed inside the unit.
    Short,
    /// A unit of this type is not allowed.
    UnitType(u8),
    /// This version of the unit is not supported.
    UnitVersion(u8),
    TooLong,
    UnitLength,
    EmptyProviders,
    /// The part of the rule that the lengths of a prefix break, if known.
    Prefix(Option<PrefixRule>),
    /// The unit announces a payload that is present.
    Duplicate,
    /// The unit withdraws a payload that is absent.
    Unknown,
}

impl Refusal {
    /// The refusal of a unit with this fault; none for a fault that isn't the peer's.
    pub fn of(fault: &ViewFault) -> Option<Refusal>
        ensures { result ≡ refusal_of fault.now }
    {
        match fault {
            ViewFault::Short => Some(Refusal::Short),
            ViewFault::UnitType(kind) => Some(Refusal::UnitType(*kind)),
            ViewFault::UnitVersion(version) => Some(Refusal::UnitVersion(*version)),
            ViewFault::TooLong => Some(Refusal::TooLong),
            ViewFault::UnitLength => Some(Refusal::UnitLength),
            ViewFault::EmptyProviders => Some(Refusal::EmptyProviders),
            ViewFault::Prefix(rule) => Some(Refusal::Prefix(Some(*rule))),
            ViewFault::Writer(_) | ViewFault::TooMany => None,
        }
    }

    /// What the peer did wrong.
    pub fn fault(self) -> PeerFault
        ensures { result ≡ refusal_fault self }
    {
        match self {
            Refusal::Short => PeerFault::Short,
            Refusal::UnitType(kind) => PeerFault::UnitType(kind),
            Refusal::UnitVersion(version) => PeerFault::UnitVersion(version),
            Refusal::TooLong => PeerFault::TooLong,
            Refusal::UnitLength => PeerFault::UnitLength,
            Refusal::EmptyProviders => PeerFault::EmptyProviders,
            Refusal::Prefix(_) => PeerFault::Prefix,
            Refusal::Duplicate => PeerFault::Duplicate,
            Refusal::Unknown => PeerFault::Unknown,
        }
    }

    /// The error code of the report about it (RFC 8210 section 12).
    pub fn code(self) -> ErrorCode
        ensures { result.0 ≡ refusal_code self }
    {
        self.fault().code()
    }

    /// Returns the part of the input that a report about its first unit copies: only the header if
    /// the header is refused, since its length can't be trusted; otherwise the whole unit, or as
    /// much of it as came.
    pub fn part(self, input: &[u8]) -> &[u8]
        ensures { result.now ≡ refusal_part self input.now }
    {
        match self {
            Refusal::Short => input,
            Refusal::Prefix(_) | Refusal::Duplicate | Refusal::Unknown => unit_of(input),
            _ => front(input, HEADER_SIZE),
        }
    }
}

/// Returns the part of the input that a report about its first unit copies; `refusal` is why the
/// unit is refused, if it is.
pub(crate) fn part(refusal: Option<Refusal>, input: &[u8]) -> &[u8]
    ensures { result.now ≡ about refusal input.now }
{
    match refusal {
        Some(refusal) => refusal.part(input),
        None => unit_of(input),
    }
}

/// Returns the unit at the front of the input, or the part of it that has come.
pub(crate) fn unit_of(input: &[u8]) -> &[u8]
    ensures { result.now ≡ unit_part input.now }
{
    if input.len() < HEADER_SIZE {
        return input;
    }
    front(input, u32_at(input, 4) as usize)
}

/// The first `most` bytes, or all if there are fewer.
fn front(bytes: &[u8], most: usize) -> &[u8]
    ensures { result.now ≡ take most bytes.now }
{
    if bytes.len() <= most {
        return bytes;
    }
    let (front, _) = bytes.split_at(most);
    front
}
