//! Reading lines of routing tables as other programs print them.

ghost use Rattle.std.specs.Prelude.{◌≡◌, ◌<◌, option_map};
ghost use Rattle.validate_work.specs.PrivateTexts.{both_texts, only_text};
ghost use Rattle.validate_work.specs.TableTexts.{ReadsPrinted, ReadsTable, after_char, after_codes};
ghost use Rattle.validate_work.specs.TableTexts.{bgpdump_entry, bird_entry, bird_origin};
ghost use Rattle.validate_work.specs.TableTexts.{words_entry};
ghost use Rattle.validate_work.specs.TableTexts.{field_at, first_word, frr_entry};
ghost use Rattle.validate_work.specs.TableTexts.{frr_origin, frr_path, is_bird_heading};
ghost use Rattle.validate_work.specs.TableTexts.{is_frr_heading, is_frr_state, is_origin_code};
ghost use Rattle.validate_work.specs.TableTexts.{is_table_dump, is_text, is_weight, last_word};
ghost use Rattle.validate_work.specs.TableTexts.{origin_before, origin_in_brackets, path_origin};
ghost use Rattle.validate_work.specs.TableTexts.{printed_entry, split_first, split_last};
ghost use Rattle.validate_work.specs.TableTexts.{text_entry};
ghost use Rattle.validate_work.specs.TableTexts.{without_byte};

use crate::route_text::{RouteError, TableRoute, read_route, route_of};
use crate::words::RouteWords;
use std::str;

/// The format in which routes are read.
#[derive(Clone, Copy, PartialEq, Eq)]
pub enum Table {
    /// Lines with a prefix and an origin AS.
    Lines,
    /// The output of a program that prints its table.
    Printed(Printer),
}

/// A program that prints routing tables.
#[derive(Clone, Copy, PartialEq, Eq)]
pub enum Printer {
    /// `bgpdump -m`, which prints dumps of tables (RFC 6396), one route on a line.
    Bgpdump,
    /// BIRD, with `show route primary`.
    Bird,
    /// FRR, with `show bgp ipv4 unicast wide`, and the same for IPv6.
    Frr,
}

/// The route of a line, or none if the line is blank or, in a printed table, isn't a route.
pub fn read_table(table: Table, line: &[u8]) -> Result<Option<TableRoute>, RouteError>
    ensures { ReadsTable table line.now result }
{
    match table {
        Table::Lines => read_route(line),
        Table::Printed(printer) => read_printed(printer, line),
    }
}

/// The route of a line of a printed table, if it has one.
fn read_printed(printer: Printer, line: &[u8]) -> Result<Option<TableRoute>, RouteError>
    ensures { ReadsPrinted printer line.now result }
{
    let Ok(text) = str::from_utf8(line) else {
        return Err(RouteError::NotText);
    };
    match printed_entry(printer, text) {
        Ok(Some(words)) => match route_of(words.prefix, words.asn) {
            Ok(route) => Ok(Some(route)),
            Err(error) => Err(error),
        },
        Ok(None) => Ok(None),
        Err(error) => Err(error),
    }
}

/// The words for the route of a line.
fn printed_entry(printer: Printer, line: &str) -> Result<Option<RouteWords<'_>>, RouteError>
    ensures { words_entry result ≡ printed_entry printer line.now }
{
    let text = line.trim_end();
    if text.is_empty() {
        return Ok(None);
    }
    text_entry(printer, text)
}

/// The same for a line that isn't blank.
fn text_entry(printer: Printer, text: &str) -> Result<Option<RouteWords<'_>>, RouteError>
    ensures { words_entry result ≡ text_entry printer text.now }
{
    match printer {
        Printer::Bgpdump => bgpdump_entry(text),
        Printer::Bird => bird_entry(text),
        Printer::Frr => frr_entry(text.trim_start()),
    }
}

// ---- parts of a text

/// The text before and after the first `at`, an ASCII character.
fn split_first(text: &str, at: char) -> Option<(&str, &str)>
    requires { at < 128 }
    ensures { option_map both_texts result ≡ split_first at text.now }
{
    text.split_once(at)
}

/// The text before and after the last `at`, an ASCII character.
fn split_last(text: &str, at: char) -> Option<(&str, &str)>
    requires { at < 128 }
    ensures { option_map both_texts result ≡ split_last at text.now }
{
    text.rsplit_once(at)
}

/// The text after `byte`, an ASCII character, if it begins with it.
fn after_char(text: &str, byte: char) -> Option<&str>
    requires { byte < 128 }
    ensures { option_map only_text result ≡ after_char byte text.now }
{
    text.strip_prefix(byte)
}

/// The text without `byte`, an ASCII character, if it begins with it.
fn without_byte(text: &str, byte: char) -> &str
    requires { byte < 128 }
    ensures { result.now ≡ without_byte byte text.now }
{
    match after_char(text, byte) {
        Some(rest) => rest,
        None => text,
    }
}

/// The text up to its first space.
fn first_word(text: &str) -> &str
    ensures { result.now ≡ first_word text.now }
{
    match split_first(text, ' ') {
        Some((word, _)) => word,
        None => text,
    }
}

/// The text after its last space.
fn last_word(text: &str) -> &str
    ensures { result.now ≡ last_word text.now }
{
    match split_last(text, ' ') {
        Some((_, word)) => word,
        None => text,
    }
}

// ---- bgpdump

/// The words of a line of `bgpdump -m`.
fn bgpdump_entry(text: &str) -> Result<Option<RouteWords<'_>>, RouteError>
    ensures { words_entry result ≡ bgpdump_entry text.now }
{
    if !is_table_dump(text) {
        return Err(RouteError::Form);
    }
    match (field_at(text, 4), field_at(text, 5), field_at(text, 6)) {
        (Some(peer), Some(prefix), Some(path)) => Ok(Some(RouteWords {
            prefix,
            asn: path_origin(peer, path),
        })),
        _ => Err(RouteError::Form),
    }
}

/// Whether the line is a route in a dump of a table.
fn is_table_dump(text: &str) -> bool
    ensures { result ≡ is_table_dump text.now }
{
    is_text(field_at(text, 0), "TABLE_DUMP2") && is_text(field_at(text, 2), "B")
}

/// Whether the field has this text.
fn is_text(field: Option<&str>, text: &str) -> bool
    ensures { result ≡ is_text text.now (option_map only_text field.entry) }
{
    match field {
        Some(field) => field == text,
        None => false,
    }
}

/// The field with this index, from 0, between bars.
fn field_at(text: &str, index: usize) -> Option<&str>
    ensures { option_map only_text result ≡ field_at index text.now }
{
    let split = split_first(text, '|');
    if index == 0 {
        return match split {
            Some((field, _)) => Some(field),
            None => Some(text),
        };
    }
    match split {
        Some((_, rest)) => field_at(rest, index - 1),
        None => None,
    }
}

/// The origin AS of a path, or that of the peer if the path is empty.
fn path_origin<'a>(peer: &'a str, path: &'a str) -> &'a str
    ensures { result.now ≡ path_origin peer.now path.now }
{
    if path.is_empty() {
        peer
    } else {
        last_word(path)
    }
}

// ---- BIRD

/// The words of a line of BIRD's table.
fn bird_entry(text: &str) -> Result<Option<RouteWords<'_>>, RouteError>
    ensures { words_entry result ≡ bird_entry text.now }
{
    match text.as_bytes().first() {
        Some(b'\t') => return Ok(None),
        Some(b' ') => return Err(RouteError::NoPrefix),
        _ => {}
    }
    let prefix = first_word(text);
    if is_bird_heading(prefix) {
        return Ok(None);
    }
    match split_last(text, '[') {
        Some((_, bracket)) => bird_origin(prefix, bracket),
        None => Err(RouteError::NoAsn),
    }
}

/// Whether a line that begins with this word is a heading before the routes.
fn is_bird_heading(word: &str) -> bool
    ensures { result ≡ is_bird_heading word.now }
{
    word == "BIRD" || word == "Table" || word == "Access"
}

/// The words for a prefix, and the origin AS before a bracket.
fn bird_origin<'a>(prefix: &'a str, bracket: &'a str) -> Result<Option<RouteWords<'a>>, RouteError>
    ensures { words_entry result ≡ bird_origin prefix.now (origin_in_brackets bracket.now) }
{
    match origin_in_brackets(bracket) {
        Some(asn) if !asn.is_empty() => Ok(Some(RouteWords { prefix, asn })),
        _ => Err(RouteError::NoAsn),
    }
}

/// The text before the letter of an origin attribute and a bracket.
fn origin_in_brackets(text: &str) -> Option<&str>
    ensures { option_map only_text result ≡ origin_in_brackets text.now }
{
    if let Some(origin) = origin_before(text, 'i') {
        return Some(origin);
    }
    if let Some(origin) = origin_before(text, 'e') {
        return Some(origin);
    }
    origin_before(text, '?')
}

/// The text before this ASCII letter and a bracket.
fn origin_before(text: &str, letter: char) -> Option<&str>
    requires { letter < 128 }
    ensures { option_map only_text result ≡ origin_before letter text.now }
{
    match split_last(text, letter) {
        Some((origin, "]")) => Some(origin),
        _ => None,
    }
}

// ---- FRR

/// The words of a line of FRR's table, without white space around it.
fn frr_entry(text: &str) -> Result<Option<RouteWords<'_>>, RouteError>
    ensures { words_entry result ≡ frr_entry text.now }
{
    if is_frr_heading(first_word(text)) {
        return Ok(None);
    }
    match split_first(text, '*') {
        Some((state, path)) if is_frr_state(state) => frr_path(after_codes(path)),
        _ => Err(RouteError::Form),
    }
}

/// Whether a line that begins with this word is a heading before the routes, or a line after them.
fn is_frr_heading(word: &str) -> bool
    ensures { result ≡ is_frr_heading word.now }
{
    word == "BGP"
        || word == "Default"
        || word == "Status"
        || word == "i"
        || word == "Nexthop"
        || word == "Origin"
        || word == "RPKI"
        || word == "Network"
        || word == "Displayed"
        || word == "Total"
}

/// Whether the text is empty or the RPKI state of FRR.
fn is_frr_state(text: &str) -> bool
    ensures { result ≡ is_frr_state text.now }
{
    text.is_empty() || text == "V" || text == "I" || text == "N"
}

/// The text after the codes that follow a star.
fn after_codes(text: &str) -> &str
    ensures { result.now ≡ after_codes text.now }
{
    without_byte(without_byte(without_byte(text, '>'), '='), 'i').trim_start()
}

/// The words of a path: its prefix, and the AS before its origin code.
fn frr_path(text: &str) -> Result<Option<RouteWords<'_>>, RouteError>
    ensures { words_entry result ≡ frr_path text.now }
{
    let prefix = first_word(text);
    match split_last(text, ' ') {
        Some((path, code)) if is_origin_code(code) => frr_origin(prefix, path),
        _ => Err(RouteError::NoAsn),
    }
}

/// Whether the word is an origin code.
fn is_origin_code(word: &str) -> bool
    ensures { result ≡ is_origin_code word.now }
{
    word == "i" || word == "e" || word == "?"
}

/// The words for a prefix, and the last AS of a path.
fn frr_origin<'a>(prefix: &'a str, path: &'a str) -> Result<Option<RouteWords<'a>>, RouteError>
    ensures { words_entry result ≡ frr_origin prefix.now (split_last 32 path.now) }
{
    match split_last(path, ' ') {
        Some((before, asn)) if !is_weight(before, asn) => { Ok(Some(RouteWords { prefix, asn })) }
        _ => Err(RouteError::NoAsn),
    }
}

/// Whether the word is the weight, so that the path is empty.
fn is_weight(before: &str, word: &str) -> bool
    ensures { result ≡ is_weight before.now word.now }
{
    word == "0" || last_word(before).is_empty()
}
