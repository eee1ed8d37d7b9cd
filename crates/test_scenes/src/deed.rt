//! What an end does that is played.

use std::alloc::Global;
use std::test::Fail;
use unit_any::SessionView;

/// What an end does, and when.
#[derive(Drop)]
pub struct Deed {
    pub time: u64,
    pub what: What,
}

#[derive(Drop)]
pub enum What {
    /// A router wants a connection.
    Connects,
    /// It sends these units.
    Sends(Vec<u8>),
    /// The connection is over.
    Closes,
    /// These are a router's data now.
    Shows(Vec<u8>),
    /// It has none any more.
    Drops,
    /// The cache has none yet.
    NoData,
}

impl Deed {
    /// Writes the lines of a scene that say so, of the end of this name.
    pub fn write(&self, who: &str, lines: &mut Vec<String>, alloc: Global) -> Result<(), Fail> {
        let time = self.time;
        let line = match &self.what {
            What::Sends(bytes) => return write_units(time, who, bytes, lines, alloc),
            What::Shows(data) => {
                let units = spaced(data, alloc)?;
                format!(in alloc; "{time} shows {{{units} }}")?
            }
            What::Connects => format!(in alloc; "{time} connects")?,
            What::Closes => format!(in alloc; "{time} closes")?,
            What::Drops => format!(in alloc; "{time} drops")?,
            What::NoData => format!(in alloc; "{time} no data")?,
        };
        lines.push(line)?;
        Ok(())
    }
}

/// Writes a line of each unit that is sent.
fn write_units(
    time: u64,
    who: &str,
    bytes: &[u8],
    lines: &mut Vec<String>,
    alloc: Global,
) -> Result<(), Fail> {
    let mut rest = bytes;
    for _ in 0..bytes.len() {
        let Ok((view, size)) = SessionView::first(rest) else {
            break;
        };
        let line = match view {
            SessionView::Error(report) => {
                let hex = hex::encode(alloc, report.pdu().unwrap_or(&[]))?;
                let unit = if hex.is_empty() { "-" } else { hex.as_str() };
                let text = String::from_utf8_lossy(alloc, report.text().unwrap_or(&[]))?;
                let (version, code) = (report.version(), report.code().0);
                format!(in alloc; "{time} {who}> report {version} {code} {unit} {text}")?
            }
            _ => {
                let hex = hex::encode(alloc, rest.get(..size).unwrap_or(&[]))?;
                format!(in alloc; "{time} {who}> {hex}")?
            }
        };
        lines.push(line)?;
        rest = rest.get(size..).unwrap_or(&[]);
    }
    if rest.is_empty() {
        return Ok(());
    }
    Err(Fail::new("no unit is sent"))
}

/// Units in hexadecimal, with a space before each.
fn spaced(units: &[u8], alloc: Global) -> Result<String, Fail> {
    let mut text = String::new(alloc);
    let mut rest = units;
    for _ in 0..units.len() {
        let Ok((_, size)) = SessionView::first(rest) else {
            break;
        };
        let hex = hex::encode(alloc, rest.get(..size).unwrap_or(&[]))?;
        text.push_str(" ")?;
        text.push_str(hex.as_str())?;
        rest = rest.get(size..).unwrap_or(&[]);
    }
    Ok(text)
}
