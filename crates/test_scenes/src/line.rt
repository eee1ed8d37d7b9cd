//! The lines of a scene.

use std::alloc::Global;
use std::test::Fail;

/// Which end a scene has played. What the other does is given.
#[derive(Clone, Copy, PartialEq, Eq)]
pub enum End {
    Router,
    Cache,
}

/// What the other end does at a time, or that the clock comes to it.
#[derive(Clone, Copy)]
pub enum Given<'a> {
    /// A cache takes the connection that a router wants.
    Accepts,
    Refuses,
    /// A router's caller wants the present data.
    Asks,
    /// A router connects to a cache.
    Connects,
    /// It does, and is one more than the cache may have.
    ConnectsBeyond,
    /// The other end sends bytes, in hexadecimal.
    Sends(&'a str),
    Closes,
    Breaks,
    /// These are a cache's newest data, in hexadecimal.
    Data(&'a str),
    /// It can't tell the changes since this serial number any more.
    Forgets(u32),
    Nothing,
}

/// A line without its comment.
#[derive(Clone, Copy)]
pub enum Line<'a> {
    Empty,
    /// A setting of this end, and its value.
    Setting(End, &'a str, &'a str),
    /// A step that is given.
    Given(u64, Given<'a>),
    /// A step that the end has to take.
    Wanted(&'a str),
}

/// What a line says, of a scene that has this end played.
pub fn parsed(line: &str, end: End) -> Result<Line<'_>, Fail> {
    let line = match line.split_once("#") {
        Some((line, _)) => line.trim(),
        None => line.trim(),
    };
    if line.is_empty() {
        return Ok(Line::Empty);
    }
    let (first, rest) = line.split_once(" ").unwrap_or((line, ""));
    match first {
        "router" => Ok(setting(End::Router, rest)),
        "cache" => Ok(setting(End::Cache, rest)),
        "at" => Ok(Line::Given(rest.parse::<u64>()?, Given::Nothing)),
        _ => {
            let given = match end {
                End::Router => cache_step(rest),
                End::Cache => router_step(rest)?,
            };
            match given {
                Some(given) => Ok(Line::Given(first.parse::<u64>()?, given)),
                None => Ok(Line::Wanted(line)),
            }
        }
    }
}

fn setting(end: End, rest: &str) -> Line<'_> {
    let (key, value) = rest.split_once(" ").unwrap_or((rest, ""));
    Line::Setting(end, key, value.trim())
}

/// What the cache or the router's caller does, if it is one of these that does something.
fn cache_step(step: &str) -> Option<Given<'_>> {
    match step {
        "cache accepts" => Some(Given::Accepts),
        "cache refuses" => Some(Given::Refuses),
        "caller asks" => Some(Given::Asks),
        "cache closes" => Some(Given::Closes),
        "cache breaks" => Some(Given::Breaks),
        _ => match step.strip_prefix("cache> ") {
            Some(hex) => Some(Given::Sends(hex)),
            None => None,
        },
    }
}

/// What the router does, or what the cache's data are, if it is that.
fn router_step(step: &str) -> Result<Option<Given<'_>>, Fail> {
    let given = match step {
        "router connects" => Given::Connects,
        "router connects beyond the limit" => Given::ConnectsBeyond,
        "router closes" => Given::Closes,
        "router breaks" => Given::Breaks,
        _ => match step.split_once(" ") {
            Some(("router>", hex)) => Given::Sends(hex),
            Some(("data", units)) => Given::Data(inside(units)?),
            Some(("forgets", serial)) => Given::Forgets(serial.parse::<u32>()?),
            _ => return Ok(None),
        },
    };
    Ok(Some(given))
}

/// What stands between braces.
fn inside(units: &str) -> Result<&str, Fail> {
    match units.strip_prefix("{") {
        Some(units) => match units.strip_suffix("}") {
            Some(units) => Ok(units),
            None => Err(Fail::new("a brace isn't closed")),
        },
        None => Err(Fail::new("data stand between braces")),
    }
}

/// Bytes in hexadecimal, with spaces between them.
pub fn bytes(alloc: Global, hex: &str) -> Result<Vec<u8>, Fail> {
    let mut bytes = Vec::new(alloc);
    for word in hex.split_ascii_whitespace() {
        match hex::decode(alloc, word) {
            Ok(piece) => bytes.extend_from_slice(&piece)?,
            Err(_) => return Err(Fail::new(format_args!("{word} stands for no bytes"))),
        }
    }
    Ok(bytes)
}

/// A step that the end has to take, with one space between words, and none between the bytes of a
/// unit.
pub fn plain(alloc: Global, step: &str) -> Result<String, Fail> {
    let mut plain = String::new(alloc);
    let mut is_unit = false;
    for (place, word) in step.split_ascii_whitespace().enumerate() {
        if place > 0 && !(is_unit && place > 2) {
            plain.push_str(" ")?;
        }
        plain.push_str(word)?;
        is_unit = is_unit || (place == 1 && (word == "router>" || word == "cache>"));
        if place == 2 && word == "report" {
            is_unit = false;
        }
    }
    Ok(plain)
}
