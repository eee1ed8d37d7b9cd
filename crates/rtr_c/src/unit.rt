//! One unit, in numbers.

ghost use Rattle.std.specs.Prelude.{◌≡◌};
ghost use Rattle.rtr_c.specs.ShownUnits.{none};

/// A unit of any kind. Fields that its kind doesn't have are zero.
#[repr(C)]
#[derive(Drop)]
pub struct RtrUnit {
    /// Bytes of the unit in the input, header included; also set if rtr_next returns RTR_PREFIX.
    pub size: usize,
    /// If rtr_next returns RTR_SHORT, the least number of input bytes needed: 8 without a whole
    /// header, else the length of the unit.
    pub wanted: usize,
    /// The offset in the unit of a router key's key info, an ASPA's providers, or the unit that a
    /// report encloses.
    pub part_start: usize,
    /// The length of that part in bytes; a provider has 4, in network byte order.
    pub part_length: usize,
    /// The offset in the unit of a report's text. A report whose inner lengths don't fit has 0 here
    /// and in part_start and both lengths.
    pub text_start: usize,
    /// The length of a report's text in bytes; it should be UTF-8, which isn't checked.
    pub text_length: usize,
    /// The AS of a prefix or a router key.
    pub asn: u32,
    /// The customer AS of an ASPA.
    pub customer: u32,
    /// The serial number of a serial notify, a serial query or an end of data.
    pub serial: u32,
    /// The refresh time of an end of data, in seconds; 0 in version 0.
    pub refresh: u32,
    /// The retry time of an end of data, likewise.
    pub retry: u32,
    /// The expire time of an end of data, likewise.
    pub expire: u32,
    /// The session of a serial notify, a serial query, a cache response or an end of data.
    pub session: u16,
    /// The error code of a report (RFC 8210 section 12).
    pub code: u16,
    /// The kind of the unit, an rtr_kind.
    pub kind: u8,
    /// The protocol version of the unit.
    pub version: u8,
    /// 1 if the payload is announced, 0 if it is withdrawn; 0 for what has no payload.
    pub action: u8,
    /// The address family of a prefix, 4 or 6.
    pub family: u8,
    /// The length of a prefix.
    pub prefix_length: u8,
    /// The max length of a prefix.
    pub max_length: u8,
    /// The address of a prefix, in network byte order, the bits after the prefix length zero; for
    /// IPv4 the first 4 bytes.
    pub address: [u8; 16],
    /// The subject key identifier of a router key.
    pub key_identifier: [u8; 20],
    /// If rtr_next returns a fault, its detail, as in an rtr_answer; else 0.
    pub detail: u8,
}

// The fields stand one after the other, and one byte is left at the end.
const _: () = prove!(size_of::<RtrUnit>() == 120);

impl RtrUnit {
    /// A unit of no kind.
    pub(crate) fn none() -> Self
        ensures { result ≡ none }
    {
        RtrUnit {
            size: 0,
            wanted: 0,
            part_start: 0,
            part_length: 0,
            text_start: 0,
            text_length: 0,
            asn: 0,
            customer: 0,
            serial: 0,
            refresh: 0,
            retry: 0,
            expire: 0,
            session: 0,
            code: 0,
            kind: 0,
            version: 0,
            action: 0,
            family: 0,
            prefix_length: 0,
            max_length: 0,
            address: [0; 16],
            key_identifier: [0; 20],
            detail: 0,
        }
    }
}
