//! The error codes that are reported to peers.

use crate::expect::expect_equal;
use rtr_base::error_code::ErrorCode;
use rtr_units::error::Error;
use rtr_units::fault::Fault;
use std::io;

#[test]
fn codes_of_faults(rt: HostRuntime) {
    #[rattlefmt::skip]
    let table = [
        (Fault::Reader(io::Error::from(io::ErrorKind::Other)), None),
        (Fault::Writer(io::Error::from(io::ErrorKind::Other)), None),
        (Fault::Short, Some(ErrorCode::CORRUPT_DATA)),
        (Fault::UnitType(255), Some(ErrorCode::UNSUPPORTED_PDU_TYPE)),
        (Fault::UnitLength, Some(ErrorCode::CORRUPT_DATA)),
        (Fault::TooLong, Some(ErrorCode::CORRUPT_DATA)),
        (Fault::EmptyProviders, Some(ErrorCode::ASPA_PROVIDER_LIST_ERROR)),
        (Fault::UnitVersion(3), Some(ErrorCode::UNSUPPORTED_PROTOCOL_VERSION)),
        (Fault::Refused(Error::empty(rt.alloc())), Some(ErrorCode::CORRUPT_DATA)),
        (Fault::TooMany, None),
        (Fault::Memory, None),
    ];
    for (fault, want) in table {
        expect_equal(&rt, fault.code(), want);
    }
}
