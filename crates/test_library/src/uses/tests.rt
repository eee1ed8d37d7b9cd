//! The uses, over units written out by hand.

use super::{
    Unlisted, answer_reset, compare, list, normalise_file, origin, report_on, response_or_code,
    take_response, update, withdrawal, words,
};
use crate::expect::{expect, expect_equal};
use data_memory::Data;
use rtr_wire::base::Asn;
use rtr_wire::payload::{Action, Payload};
use rtr_wire::pdu::{Counted, EndOfData, ErrorCode, Fault, Header, Unit, ViewFault};
use rtr_wire::state::{Serial, State};
use rtr_wire::{payload, pdu};
use std::alloc::Global;
use std::test::Fail;
use std::{fs, io};
use unit_any::answering::Reply;

/// A cache response of session 0x1234.
const RESPONSE: &[u8] = &[2, 3, 0x12, 0x34, 0, 0, 0, 8];

/// Announces 192.0.2.0/23-26 of AS65551, with host bits and stray bytes.
#[rattlefmt::skip]
const ORIGIN: &[u8] = &[2, 4, 0, 7, 0, 0, 0, 20, 3, 23, 26, 9, 192, 0, 2, 10, 0, 1, 0, 15];

/// Withdraws it.
#[rattlefmt::skip]
const WITHDRAWN: &[u8] = &[2, 4, 0, 0, 0, 0, 0, 20, 0, 23, 26, 0, 192, 0, 2, 0, 0, 1, 0, 15];

/// Announces AS64497 as provider of AS64496.
#[rattlefmt::skip]
const ASPA: &[u8] = &[2, 11, 1, 0, 0, 0, 0, 16, 0, 0, 0xfb, 0xf0, 0, 0, 0xfb, 0xf1];

/// Announces AS64498 and AS64499 in its place.
#[rattlefmt::skip]
const OTHER_ASPA: &[u8] = &[
    2, 11, 1, 0, 0, 0, 0, 20, 0, 0, 0xfb, 0xf0, 0, 0, 0xfb, 0xf2, 0, 0, 0xfb, 0xf3,
];

/// Withdraws the ASPA of AS64496.
#[rattlefmt::skip]
const ASPA_WITHDRAWN: &[u8] = &[2, 11, 0, 0, 0, 0, 0, 12, 0, 0, 0xfb, 0xf0];

/// Reports that there are no data: no unit, and the text "no".
#[rattlefmt::skip]
const REPORT: &[u8] = &[2, 10, 0, 2, 0, 0, 0, 18, 0, 0, 0, 0, 0, 0, 0, 2, b'n', b'o'];

/// The header of a serial notify of a wrong length.
const NOTIFY: &[u8] = &[2, 0, 0, 0, 0, 0, 0, 8];

/// An end of data with serial number 5 and the recommended timings.
#[rattlefmt::skip]
const END: &[u8] = &[
    2, 7, 0x12, 0x34, 0, 0, 0, 24, 0, 0, 0, 5,
    0, 0, 0x0e, 0x10, 0, 0, 0x02, 0x58, 0, 0, 0x1c, 0x20,
];

/// The units, one after the other.
fn joined(rt: &HostRuntime, units: &[&[u8]]) -> Result<Vec<u8>, Fail> {
    let mut bytes = Vec::new(rt.alloc());
    for unit in units {
        bytes.extend_from_slice(*unit)?;
    }
    Ok(bytes)
}

#[test]
fn a_response_is_taken(rt: HostRuntime) -> Result<(), Fail> {
    let input = joined(&rt, &[RESPONSE, ORIGIN, END, RESPONSE])?;
    let mut reader = Counted::new(input.as_slice());
    let mut writer = Counted::new(Vec::new(rt.alloc()));
    let taken = take_response(rt.alloc(), &mut reader, &mut writer)?;
    expect(&rt, taken == (0x1234, 1));
    expect(&rt, reader.into_inner() == RESPONSE);
    let form = writer.into_inner();
    expect(&rt, form.len() == ORIGIN.len() + END.len());
    let sequence = joined(&rt, &[ORIGIN, END])?;
    expect(
        &rt,
        compare(rt.alloc(), form.as_slice(), sequence.as_slice())?,
    );
    Ok(())
}

#[test]
fn a_file_is_normalised(rt: HostRuntime) -> Result<(), Fail> {
    let sequence = joined(&rt, &[ORIGIN, END])?;
    fs::write(&rt, "sequence.bin", sequence.as_slice())?;
    let count = normalise_file(&rt, "sequence.bin", "form.bin")?;
    let form = fs::read(&rt, "form.bin")?;
    fs::remove_file(&rt, "sequence.bin")?;
    fs::remove_file(&rt, "form.bin")?;
    expect(&rt, count == 1);
    expect(&rt, form.len() == sequence.len());
    expect(
        &rt,
        compare(rt.alloc(), form.as_slice(), sequence.as_slice())?,
    );
    Ok(())
}

#[test]
fn a_missing_file_is_a_fault_of_reading(rt: HostRuntime) {
    let missing = normalise_file(&rt, "missing.bin", "unwritten.bin");
    expect(&rt, matches!(&missing, Err(Fault::Reader(_))));
    expect(&rt, fs::read(&rt, "unwritten.bin").is_err());
}

#[test]
fn words_begin_with_the_name(rt: HostRuntime) -> Result<(), Fail> {
    expect(&rt, !words(&rt)?.is_empty());
    Ok(())
}

#[test]
fn a_report_is_taken(rt: HostRuntime) -> Result<(), Fail> {
    let input = joined(&rt, &[RESPONSE, REPORT, ORIGIN])?;
    let mut reader = Counted::new(input.as_slice());
    let response = response_or_code(&mut reader)?;
    expect_equal(&rt, response.map(|response| response.session()), Ok(0x1234));
    let code = response_or_code(&mut reader)?.err();
    expect(&rt, code == Some(ErrorCode::NO_DATA_AVAILABLE));
    let refused = response_or_code(&mut reader);
    expect(&rt, matches!(&refused, Err(Fault::UnitType(4))));
    Ok(())
}

#[test]
fn recordings_are_compared(rt: HostRuntime) -> Result<(), Fail> {
    let left = joined(&rt, &[ORIGIN, ASPA, END])?;
    let right = joined(&rt, &[ORIGIN, OTHER_ASPA, END])?;
    expect(&rt, compare(rt.alloc(), left.as_slice(), left.as_slice())?);
    expect(
        &rt,
        !compare(rt.alloc(), left.as_slice(), right.as_slice())?,
    );
    let cut = compare(rt.alloc(), left.as_slice(), ORIGIN);
    expect(&rt, matches!(&cut, Err(Fault::Short)));
    Ok(())
}

/// What comes of the changes of these units to the data.
fn updated(
    rt: &HostRuntime,
    data: &mut Data,
    units: &[&[u8]],
) -> Result<Result<EndOfData, Option<ErrorCode>>, Fail> {
    let input = joined(rt, units)?;
    Ok(update(rt.alloc(), data, &mut Counted::new(input.as_slice())))
}

#[test]
fn data_follow_their_cache(rt: HostRuntime) -> Result<(), Fail> {
    let mut data = Data::new(rt.alloc());
    let known = Payload::from(origin("192.0.2.0/23-26", 65551)?);
    let end = updated(&rt, &mut data, &[ORIGIN, ASPA, END])?;
    expect(&rt, end.map(|end| end.serial()) == Ok(Serial(5)));
    expect(&rt, data.len() == 2 && data.contains(&known.as_ref()));
    let end = updated(&rt, &mut data, &[WITHDRAWN, OTHER_ASPA, END])?;
    expect(&rt, end.is_ok());
    expect(&rt, data.len() == 1 && !data.contains(&known.as_ref()));
    Ok(())
}

/// What is owed for a sequence that isn't allowed after ORIGIN and ASPA, with the data as it was.
#[test]
fn data_stay_as_they_were(rt: HostRuntime) -> Result<(), Fail> {
    let mut data = Data::new(rt.alloc());
    expect(&rt, updated(&rt, &mut data, &[ORIGIN, ASPA, END])?.is_ok());
    let refused: [(&[&[u8]], ErrorCode); 4] = [
        (
            &[ASPA_WITHDRAWN, ORIGIN, END],
            ErrorCode::DUPLICATE_ANNOUNCEMENT_RECEIVED,
        ),
        (
            &[WITHDRAWN, WITHDRAWN, END],
            ErrorCode::WITHDRAWAL_OF_UNKNOWN_RECORD,
        ),
        (&[WITHDRAWN, NOTIFY], ErrorCode::UNSUPPORTED_PDU_TYPE),
        (&[WITHDRAWN, ASPA_WITHDRAWN], ErrorCode::CORRUPT_DATA),
    ];
    for (units, code) in refused {
        let outcome = updated(&rt, &mut data, units)?;
        expect_equal(&rt, (outcome.err(), data.len()), (Some(Some(code)), 2));
    }
    Ok(())
}

/// The answer to a reset query of this version.
fn answer(rt: &HostRuntime, data: &Data, version: u8) -> Result<Vec<u8>, Fault> {
    let query = [version, 2, 0, 0, 0, 0, 0, 8];
    let mut reader = Counted::new(query.as_slice());
    let mut writer = Counted::new(Vec::new(rt.alloc()));
    let state = State::from_parts(0x1234, Serial(5));
    answer_reset(&mut reader, &mut writer, data, state)?;
    Ok(writer.into_inner())
}

#[test]
fn reset_queries_are_answered(rt: HostRuntime) -> Result<(), Fail> {
    let mut data = Data::new(rt.alloc());
    expect(&rt, updated(&rt, &mut data, &[ORIGIN, ASPA, END])?.is_ok());
    #[rattlefmt::skip]
    let sizes: [(u8, usize); 3] = [(0, 8 + 20 + 12), (1, 8 + 20 + 24), (2, 8 + 20 + 16 + 24)];
    for (version, size) in sizes {
        let answer = answer(&rt, &data, version)?;
        expect_equal(&rt, answer.len(), size);
        expect(&rt, answer.as_slice().starts_with(&[version, 3]));
    }
    Ok(())
}

#[test]
fn all_data_are_announced(rt: HostRuntime) -> Result<(), Fail> {
    let mut data = Data::new(rt.alloc());
    expect(&rt, updated(&rt, &mut data, &[ORIGIN, ASPA, END])?.is_ok());
    let answer = answer(&rt, &data, 2)?;
    let sequence = answer.as_slice().get(8..).ok_or("no sequence")?;
    let input = joined(&rt, &[ORIGIN, ASPA, END])?;
    expect(&rt, compare(rt.alloc(), sequence, input.as_slice())?);
    Ok(())
}

#[test]
fn queries_of_other_versions(rt: HostRuntime) {
    let query = [3, 2, 0, 0, 0, 0, 0, 8];
    let mut writer = Counted::new(Vec::new(rt.alloc()));
    let state = State::from_parts(0x1234, Serial(5));
    let data = Data::new(rt.alloc());
    let refused = answer_reset(
        &mut Counted::new(query.as_slice()),
        &mut writer,
        &data,
        state,
    );
    expect(&rt, matches!(&refused, Err(Fault::UnitVersion(3))));
    expect(&rt, writer.into_inner().is_empty());
}

/// The ASPA that `ASPA` announces.
fn aspa(alloc: Global) -> Option<payload::Aspa> {
    let unit = pdu::Payload::read(alloc, &mut Counted::new(ASPA))
        .ok()?
        .ok()??;
    match unit.into_payload(alloc).ok()? {
        (_, Payload::Aspa(aspa)) => Some(aspa),
        _ => None,
    }
}

#[test]
fn an_aspa_is_withdrawn(rt: HostRuntime) -> Result<(), Fail> {
    let alloc = rt.alloc();
    let aspa = aspa(alloc).ok_or("no ASPA")?;
    let unit = withdrawal(alloc, &aspa)?;
    expect(&rt, unit.action() == Action::Withdraw);
    let mut writer = Counted::new(Vec::new(alloc));
    unit.write(&mut writer)?;
    expect(&rt, writer.into_inner().as_slice() == ASPA_WITHDRAWN);
    Ok(())
}

#[test]
fn peers_are_told(rt: HostRuntime) {
    let header = Header::new(1, 5, 0, 8);
    #[rattlefmt::skip]
    let want: &[u8] = &[
        1, 10, 0, 5, 0, 0, 0, 44, 0, 0, 0, 8, 1, 5, 0, 0, 0, 0, 0, 8, 0, 0, 0, 20,
        b't', b'h', b'e', b' ', b'u', b'n', b'i', b't', b' ',
        b'w', b'a', b's', b' ', b'r', b'e', b'f', b'u', b's', b'e', b'd',
    ];
    let mut output = [0; 44];
    expect(
        &rt,
        report_on(1, header, &Fault::UnitType(5), &mut output[..43]) == Reply::NoRoom,
    );
    expect(&rt, output == [0; 44]);
    expect(
        &rt,
        report_on(1, header, &Fault::Memory, &mut output) == Reply::Nothing,
    );
    let report = Header::new(1, 10, 0, 65536);
    expect(
        &rt,
        report_on(1, report, &Fault::UnitType(10), &mut output) == Reply::Nothing,
    );
    expect(
        &rt,
        report_on(1, report, &Fault::TooLong, &mut output) == Reply::Nothing,
    );
    expect(&rt, output == [0; 44]);
    expect(
        &rt,
        report_on(1, header, &Fault::UnitType(5), &mut output) == Reply::Report(44),
    );
    expect(&rt, output.as_slice() == want);
    expect(&rt, Fault::Short.code() == Some(ErrorCode::CORRUPT_DATA));
}

#[test]
fn sequences_are_listed(rt: HostRuntime) -> Result<(), Fail> {
    let input = joined(&rt, &[ORIGIN, ASPA, END])?;
    let mut lines = Vec::new(rt.alloc());
    expect(&rt, list(input.as_slice(), &mut lines).is_ok());
    let want: &[u8] = b"192.0.2.0/23-26 AS65551\nASPA of AS64496\nserial 5\n";
    expect(&rt, lines.as_slice() == want);

    let cut = list(ORIGIN, &mut io::sink());
    expect(&rt, matches!(&cut, Err(Unlisted::Unit(ViewFault::Short))));
    let none = list(&[], &mut io::sink());
    expect(&rt, matches!(&none, Err(Unlisted::Unit(ViewFault::Short))));
    Ok(())
}
