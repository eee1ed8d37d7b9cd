//! Headers and units of a fixed size.

ghost use Rattle.std.specs.Prelude.{refl};
ghost use Rattle.std.proofs.Common.{rules};

use crate::expect::{expect_equal, expect_same};
use crate::samples::{END_0, END_1, IPV4_STRAY, IPV6_STRAY, NOTIFY, QUERY, bytes, state};
use crate::support::Recorder;
use rtr_base::asn::Asn;
use rtr_base::state::Serial;
use rtr_base::timing::Timing;
use rtr_units::cells::Cells;
use rtr_units::end::{EndOfDataV0, EndOfDataV1};
use rtr_units::header::Header;
use rtr_units::prefixes::{Ipv4Prefix, Ipv6Prefix};
use rtr_units::queries::{
    CacheReset, CacheResponse, ResetQuery, SerialNotify, SerialQuery, SerialQueryPayload,
};
use rtr_units::source::{Counted, SliceSource};
use rtr_units::unit::Unit;
use std::alloc::Global;
use std::hash::Hash;
use std::net::{Ipv4Addr, Ipv6Addr};
use std::process::Abort;
use std::test::Fail;

/// The unit has these bytes, is written as them, and is read back from them, with the same hash.
fn passes<U: Unit + Eq + Hash>(
    rt: &impl Abort,
    alloc: Global,
    unit: U,
    text: &str,
) -> Result<(), Fail> {
    let want = bytes(alloc, &[text])?;
    expect_equal(rt, unit.as_ref(), want.as_slice());
    expect_equal(rt, U::size() as usize, want.len());
    let mut writer = Counted::new(Recorder::new(alloc, 5));
    unit.write(&mut writer)?;
    expect_equal(rt, writer.into_inner().held(), want.as_slice());
    let again = U::read(&mut SliceSource::new(&want))?;
    expect_same(rt, &again, &unit);
    Ok(())
}

#[test]
fn addresses_as_numbers(rt: HostRuntime) -> Result<(), Fail> {
    let asn = 65551;
    let short = 0xc000020a;
    let long = 0x20010db8_00000002_000a0000_deadbeef;
    let v4 = Ipv4Prefix::from_bits(1, 1, 23, 26, short, asn);
    let v6 = Ipv6Prefix::from_bits(1, 1, 23, 26, long, asn);
    passes(&rt, rt.alloc(), v4, IPV4_STRAY)?;
    passes(&rt, rt.alloc(), v6, IPV6_STRAY)?;
    expect_equal(&rt, v4.prefix_bits(), short);
    expect_equal(&rt, v6.prefix_bits(), long);
    Ok(())
}

#[test]
fn written_and_read(rt: HostRuntime) -> Result<(), Fail> {
    let alloc = rt.alloc();
    passes(&rt, alloc, SerialNotify::new(1, state()), NOTIFY)?;
    passes(&rt, alloc, SerialQuery::new(1, state()), QUERY)?;
    passes(&rt, alloc, ResetQuery::new(1), "01 02 00 00 00 00 00 08")?;
    passes(
        &rt,
        alloc,
        CacheResponse::new(1, state()),
        "01 03 12 34 00 00 00 08",
    )?;
    passes(&rt, alloc, EndOfDataV0::new(state()), END_0)?;
    passes(
        &rt,
        alloc,
        EndOfDataV1::new(1, state(), Timing::default()),
        END_1,
    )?;
    passes(&rt, alloc, CacheReset::new(1), "01 08 00 00 00 00 00 08")?;
    expect_equal(&rt, SerialNotify::default().as_ref(), [0; 12].as_slice());
    Ok(())
}

#[test]
fn ipv4_prefix(rt: HostRuntime) -> Result<(), Fail> {
    let address: Ipv4Addr = "192.0.2.10".parse()?;
    let unit = Ipv4Prefix::new(1, 1, 23, 26, address, Asn::from_u32(65551));
    passes(&rt, rt.alloc(), unit, IPV4_STRAY)?;
    expect_equal(&rt, unit.prefix(), address);
    let lengths = (unit.prefix_len(), unit.max_len());
    expect_equal(
        &rt,
        (unit.flags(), lengths, unit.asn().into_u32()),
        (1, (23, 26), 65551),
    );
    Ok(())
}

#[test]
fn ipv6_prefix(rt: HostRuntime) -> Result<(), Fail> {
    let address: Ipv6Addr = "2001:db8:0:2:a:0:dead:beef".parse()?;
    let unit = Ipv6Prefix::new(1, 1, 23, 26, address, Asn::from_u32(65551));
    passes(&rt, rt.alloc(), unit, IPV6_STRAY)?;
    expect_equal(&rt, unit.prefix(), address);
    let lengths = (unit.prefix_len(), unit.max_len());
    expect_equal(
        &rt,
        (unit.flags(), lengths, unit.asn().into_u32()),
        (1, (23, 26), 65551),
    );
    Ok(())
}

#[test]
fn serial_alone(rt: HostRuntime) -> Result<(), Fail> {
    let alloc = rt.alloc();
    let want = bytes(alloc, &["de ad be ef"])?;
    let payload = SerialQueryPayload::new(Serial(0xdeadbeef));
    let mut writer = Counted::new(Recorder::new(alloc, 3));
    payload.write(&mut writer)?;
    expect_equal(&rt, writer.into_inner().held(), want.as_slice());
    let mut reader = SliceSource::new(&want);
    let mut again = SerialQueryPayload::read(&mut reader)?;
    expect_equal(&rt, again, payload);
    expect_equal(&rt, again.serial(), Serial(0xdeadbeef));
    again.as_mut()[0] = 0;
    expect_equal(
        &rt,
        again.as_ref(),
        bytes(alloc, &["00 ad be ef"])?.as_slice(),
    );
    expect_equal(&rt, SerialQueryPayload::default().serial(), Serial(0));
    Ok(())
}

#[test]
fn headers(rt: HostRuntime) -> Result<(), Fail> {
    let alloc = rt.alloc();
    let text = "02 0b 12 34 01 02 03 04";
    let input = bytes(alloc, &[text])?;
    let mut header = Header::read(&mut SliceSource::new(&input))?;
    expect_equal(&rt, header, Header::new(2, 11, 0x1234, 0x01020304));
    let (version, pdu) = (header.version(), header.pdu());
    let fields = (version, pdu, header.session(), header.length());
    expect_equal(&rt, fields, (2, 11, 0x1234, 0x01020304));
    expect_equal(&rt, header.pdu_len()?, 0x01020304);
    let mut writer = Counted::new(Recorder::new(alloc, 3));
    header.write(&mut writer)?;
    expect_equal(&rt, writer.into_inner().held(), input.as_slice());
    header.as_mut()[3] = 0xff;
    expect_equal(&rt, header.session(), 0x12ff);
    expect_equal(&rt, Header::default().as_ref(), [0; 8].as_slice());
    Ok(())
}

/// A unit of another protocol: type 200, ten bytes.
#[derive(Clone, Copy, PartialEq, Eq, Hash)]
struct Own {
    cells: Cells<10>,
}

impl Unit for Own {
    ghost bytes = { λ u. u.cells.bytes };

    ghost with_bytes = { λ u l. record { cells = record { bytes = l } } };

    ghost PDU = { 200 };

    ghost LENGTH = { 10 };

    const PDU: u8 = 200;

    const LENGTH: usize = 10;

    fn zero() -> Self {
        Own {
            cells: Cells::new([0; 10]),
        }
    }

    fn as_ref(&self) -> &[u8] {
        self.cells.as_ref()
    }

    fn as_mut(&mut self) -> &mut [u8] {
        self.cells.as_mut()
    }

    ghost sized = { Prim.search rules };

    ghost kept = { λ u l. refl };
}

#[test]
fn a_unit_of_ones_own(rt: HostRuntime) -> Result<(), Fail> {
    let mut unit = Own::zero();
    unit.as_mut()
        .copy_from_slice(&[5, 0xc8, 0xaa, 0xbb, 0, 0, 0, 10, 1, 2]);
    passes(&rt, rt.alloc(), unit, "05 c8 aa bb 00 00 00 0a 01 02")
}
