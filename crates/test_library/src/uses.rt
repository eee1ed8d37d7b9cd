//! Uses of `rtr_wire` as a caller would write them, with no proofs, and with no other library than
//! std, but for `data_memory` where data is kept, and `unit_any` where a fault is answered.
//! `docs/RATTLE.md` shows some of them.

use data_memory::Data;
use rtr_wire::base::{Asn, MaxLenPrefix, ParseMaxLenPrefixError};
use rtr_wire::payload::{Action, Aspa, Payload, RouteOrigin, Timing};
use rtr_wire::pdu::{
    BufferedSink, BufferedSource, CacheResponse, EndOfData, Error, ErrorCode, Fault, Header,
    LAST_VERSION, ResetQuery, Sink, Source, Unit, UnitView, ViewFault,
};
use rtr_wire::state::State;
use rtr_wire::{normalise, pdu, same_meaning};
use std::alloc::{AllocError, Global};
use std::env;
use std::fs::File;
use std::io::{self, BufReader, BufWriter};
use unit_any::answering::{Reply, reply_to_fault};

mod tests;

/// The most units that these functions read from one sequence.
pub const MOST_UNITS: u64 = 4_294_967_295;

/// How many bytes of a file are read or written at once.
const BUFFER_SIZE: usize = 65536;

/// The words that the program was started with, its name first.
pub fn words(rt: &HostRuntime) -> io::Result<Vec<String>> {
    Ok(env::args(rt)?.collect(rt.alloc())?)
}

/// Writes the form of the sequence in one file to another. Returns the number of payload units.
pub fn normalise_file(rt: &HostRuntime, from: &str, to: &str) -> Result<u64, Fault> {
    let input = File::open(rt, from).map_err(Fault::Reader)?;
    let output = File::create(rt, to).map_err(Fault::Writer)?;
    let input = BufReader::with_capacity(rt.alloc(), BUFFER_SIZE, input).map_err(Fault::Reader)?;
    let output = BufWriter::with_capacity(rt.alloc(), BUFFER_SIZE, output).map_err(Fault::Writer)?;
    let mut reader = BufferedSource::new(input);
    let mut writer = BufferedSink::new(output);
    let count = normalise(rt.alloc(), &mut reader, &mut writer, MOST_UNITS)?;
    writer.flush().map_err(Fault::Writer)?;
    Ok(count)
}

/// Takes a cache response and the sequence after it from one reader, and writes the form of the
/// sequence. Returns the session and the number of payload units.
pub fn take_response<R: Source, W: Sink>(
    alloc: Global,
    reader: &mut R,
    writer: &mut W,
) -> Result<(u16, u64), Fault> {
    let response = CacheResponse::read(reader)?;
    let count = normalise(alloc, reader, writer, MOST_UNITS)?;
    Ok((response.session(), count))
}

/// Takes a cache response, or instead the code of an error report, of which the rest is skipped.
pub fn response_or_code<R: Source>(
    reader: &mut R,
) -> Result<Result<CacheResponse, ErrorCode>, Fault> {
    match CacheResponse::try_read(reader)? {
        Ok(response) => Ok(Ok(response)),
        Err(header) => {
            Error::skip_payload(header, reader)?;
            Ok(Err(ErrorCode(header.session())))
        }
    }
}

/// Whether two recorded sequences mean the same.
pub fn compare(alloc: Global, left: &[u8], right: &[u8]) -> Result<bool, Fault> {
    same_meaning(alloc, left, right, MOST_UNITS)
}

/// Makes all changes of the next sequence to what a client has of its cache, or none. Returns the
/// end of data, or the error code that is owed to the cache, if one is.
pub fn update<R: Source>(
    alloc: Global,
    data: &mut Data,
    reader: &mut R,
) -> Result<EndOfData, Option<ErrorCode>> {
    data.apply(alloc, reader, MOST_UNITS)
        .map_err(|error| error.cause.code())
}

/// Reads a reset query and announces all payloads that its version has.
pub fn answer_reset<R: Source, W: Sink>(
    reader: &mut R,
    writer: &mut W,
    data: &Data,
    state: State,
) -> Result<(), Fault> {
    let version = ResetQuery::read(reader)?.version();
    if version > LAST_VERSION {
        return Err(Fault::UnitVersion(version));
    }
    CacheResponse::new(version, state).write(writer)?;
    data.write_all(version, writer)?;
    EndOfData::new(version, state, Timing::default()).write(writer)?;
    writer.flush().map_err(Fault::Writer)
}

/// The unit that withdraws an ASPA: its customer, and no providers.
pub fn withdrawal(alloc: Global, aspa: &Aspa) -> Result<pdu::Payload, AllocError> {
    let withdrawn = Payload::Aspa(aspa.withdraw(alloc)?);
    Ok(pdu::Payload::from_payload(LAST_VERSION, Action::Withdraw.into_flags(), withdrawn))
}

/// Writes the report to the peer on a fault in the unit with this header to the front of the
/// output, in the version of the session. Nothing is owed if the fault isn't the peer's, or the
/// unit is a report itself.
pub fn report_on(version: u8, header: Header, fault: &Fault, output: &mut [u8]) -> Reply {
    let text = b"the unit was refused";
    reply_to_fault(version, header.as_ref(), fault, text, output)
}

/// Writes a line for each unit of a sequence in memory, and allocates nothing.
pub fn list<W: io::Write>(input: &[u8], lines: &mut W) -> Result<(), Unlisted> {
    let mut rest = input;
    for _ in 0..input.len() {
        let (unit, size) = match UnitView::first(rest) {
            Ok(first) => first,
            Err(fault) => return Err(Unlisted::Unit(fault)),
        };
        write_line(&unit, lines).map_err(Unlisted::Line)?;
        if matches!(unit, UnitView::End(_)) {
            return Ok(());
        }
        rest = &rest[size..];
    }
    Err(Unlisted::Unit(ViewFault::Short))
}

/// The line of one unit.
fn write_line<W: io::Write>(unit: &UnitView<'_>, lines: &mut W) -> io::Result<()> {
    match unit {
        UnitView::Origin(view) => {
            let origin = view.origin();
            writeln!(lines, "{origin}")
        }
        UnitView::RouterKey(view) => {
            let asn = view.asn();
            writeln!(lines, "router key of {asn}")
        }
        UnitView::Aspa(view) => {
            let customer = view.customer();
            writeln!(lines, "ASPA of {customer}")
        }
        UnitView::End(end) => {
            let serial = end.serial();
            writeln!(lines, "serial {serial}")
        }
    }
}

/// Why a sequence wasn't listed to its end.
#[derive(Debug, Drop)]
pub enum Unlisted {
    /// A unit is refused, or the end of data is missing.
    Unit(ViewFault),
    /// A line couldn't be written.
    Line(io::Error),
}

/// The origin of a prefix with a max length, as `192.0.2.0/23-26`, and an AS number.
pub fn origin(prefix: &str, asn: u32) -> Result<RouteOrigin, ParseMaxLenPrefixError> {
    let prefix: MaxLenPrefix = prefix.parse()?;
    Ok(RouteOrigin::new(prefix, Asn::from_u32(asn)))
}
