//! The data of simulations: each a choice of some payloads.

use std::alloc::Global;
use std::test::Fail;

/// How many payloads there are to choose from.
pub const COUNT: u32 = 16;

/// Data of a session at a serial number.
#[derive(Clone, Copy)]
pub struct Named {
    pub session: u16,
    pub serial: u32,
    /// A bit for each payload that is there.
    pub chosen: u32,
}

impl Named {
    /// The data in canonical form, as a version has them (RFC 8210 sections 5.6 to 5.8 and 5.10).
    pub fn bytes(&self, version: u8, alloc: Global) -> Result<Vec<u8>, Fail> {
        let mut bytes = Vec::new(alloc);
        for place in 0..COUNT {
            if self.has(place) && least_version(place) <= version {
                place_payload(place, version, &mut bytes)?;
            }
        }
        let size = if version == 0 { 12 } else { 24 };
        place_header(version, 7, self.session, size, &mut bytes)?;
        place_number(self.serial, &mut bytes)?;
        if version > 0 {
            for time in [3600, 600, 7200] {
                place_number(time, &mut bytes)?;
            }
        }
        Ok(bytes)
    }

    /// Whether this payload is there. Of two of one name, an ASPA of one provider and of two, the
    /// second is there alone if both are chosen.
    fn has(&self, place: u32) -> bool {
        let is_first = place >= 12 && place.checked_rem(2) == Some(0);
        self.chose(place) && !(is_first && self.chose(place.saturating_add(1)))
    }

    fn chose(&self, place: u32) -> bool {
        self.chosen.checked_shr(place).unwrap_or(0) & 1 == 1
    }
}

/// The first version that has a payload.
fn least_version(place: u32) -> u8 {
    match place {
        0..=8 => 0,
        9..=11 => 1,
        _ => 2,
    }
}

/// Writes the unit that announces the payload at this place of the order of payloads: six IPv4
/// prefixes, three IPv6 prefixes, three router keys, and two ASPAs of each of two customers.
fn place_payload(place: u32, version: u8, output: &mut Vec<u8>) -> Result<(), Fail> {
    match place {
        0..=5 => {
            place_header(version, 4, 0, 20, output)?;
            output.extend_from_slice(&[1, 8, 24, 0, 10, 0, 0, 0])?;
            place_number(place, output)
        }
        6..=8 => {
            place_header(version, 6, 0, 32, output)?;
            output.extend_from_slice(&[1, 32, 48, 0, 0x20, 1, 0x0d, 0xb8])?;
            output.extend_from_slice(&[0; 12])?;
            place_number(place, output)
        }
        9..=11 => {
            place_header(version, 9, 256, 34, output)?;
            output.extend_from_slice(&[7; 20])?;
            place_number(place, output)?;
            output.extend_from_slice(&[0xca, 0xfe])?;
            Ok(())
        }
        _ => {
            let customer = if place < 14 { 1 } else { 2 };
            let is_second = place.checked_rem(2) == Some(1);
            place_header(version, 11, 256, if is_second { 20 } else { 16 }, output)?;
            place_number(customer, output)?;
            place_number(7, output)?;
            if is_second {
                place_number(8, output)?;
            }
            Ok(())
        }
    }
}

fn place_header(
    version: u8,
    kind: u8,
    field: u16,
    size: u32,
    output: &mut Vec<u8>,
) -> Result<(), Fail> {
    output.extend_from_slice(&[version, kind])?;
    output.extend_from_slice(&field.to_be_bytes())?;
    place_number(size, output)
}

fn place_number(number: u32, output: &mut Vec<u8>) -> Result<(), Fail> {
    output.extend_from_slice(&number.to_be_bytes())?;
    Ok(())
}
