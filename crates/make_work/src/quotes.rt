//! Where quotes are allowed in comma-separated values, by RFC 4180 section 2.

ghost use Rattle.std.specs.Prelude.{◌≡◌, ◌==◌, ◌||◌, IfErr, OnOk, not, if◌then◌else◌};
ghost use Rattle.csv.specs.Reading.{strip_bom};
ghost use Rattle.make_work.specs.CsvQuotes.{AreQuotesWell, RefusesQuotes, fits_after};
ghost use Rattle.make_work.specs.CsvQuotes.{is_separator, quote};
ghost use Rattle.make_work.specs.PrivateCsv.{has_mark};

use crate::item::{Place, Reason, Refusal};

/// The byte of a quote.
const QUOTE: u8 = b'"';

/// The byte of a comma.
const COMMA: u8 = b',';

/// Checks the quotes: one begins a field, one ends it, and between them two stand for one.
///
/// The first byte at fault decides: `QuoteInside`, or `TextAfterQuote` if text follows the quote
/// that ends a field; otherwise `OpenQuote`, if no quote ends the last field that one begins. A
/// byte order mark at the start is ignored.
pub fn check_quotes<'a>(text: &[u8]) -> Result<(), Refusal<'a>>
    ensures fine { OnOk result (AreQuotesWell (strip_bom text.now)) }
    ensures refused { IfErr result (λ r. RefusesQuotes (strip_bom text.now) r.reason) }
{
    check_bytes(without_mark(text))
}

/// Checks a text without a byte order mark.
fn check_bytes<'a>(text: &[u8]) -> Result<(), Refusal<'a>>
    ensures fine { OnOk result (AreQuotesWell text.now) }
    ensures refused { IfErr result (λ r. RefusesQuotes text.now r.reason) }
{
    let mut closed = true;
    let mut before = COMMA;
    let mut last_quote: usize = 0;
    let mut offset: usize = 0;
    for byte in text {
        let byte = *byte;
        if !is_fine(closed, before, byte) {
            return Err(refusal(text, offset, reason_at(byte)));
        }
        if byte == QUOTE {
            last_quote = offset;
        }
        closed = closed_after(closed, byte);
        before = byte;
        offset += 1;
    }
    if closed {
        Ok(())
    } else {
        Err(refusal(text, last_quote, Reason::OpenQuote))
    }
}

/// Whether no quoted field is open after the byte, given whether none was open before it.
#[inline(always)]
fn closed_after(closed: bool, byte: u8) -> bool
    ensures { result ≡ (if byte == quote then not closed else closed) }
{
    if byte == QUOTE { !closed } else { closed }
}

/// The text without a byte order mark at its start.
pub fn without_mark(text: &[u8]) -> &[u8]
    ensures { result.now ≡ strip_bom text.now }
{
    if has_mark(text) { &text[3..] } else { text }
}

/// Whether the text begins with U+FEFF.
fn has_mark(text: &[u8]) -> bool
    ensures { result ≡ has_mark text.now }
{
    text.len() >= 3 && text[0] == 0xef && text[1] == 0xbb && text[2] == 0xbf
}

/// Whether the byte may follow the one before it, given whether no quoted field is open.
#[inline(always)]
fn is_fine(closed: bool, before: u8, byte: u8) -> bool
    ensures { result ≡ (not closed || fits_after before byte) }
{
    (before != QUOTE && byte != QUOTE) || !closed || may_follow(before, byte)
}

/// Whether the byte may follow the one before it if no quoted field is open.
#[inline(always)]
fn may_follow(before: u8, byte: u8) -> bool
    ensures { result ≡ fits_after before byte }
{
    if byte == QUOTE {
        before == QUOTE || is_separator(before)
    } else {
        before != QUOTE || is_separator(byte)
    }
}

/// Whether the byte separates fields.
#[inline(always)]
fn is_separator(byte: u8) -> bool
    ensures { result ≡ is_separator byte }
{
    byte == COMMA || byte == b'\r' || byte == b'\n'
}

/// Why this byte is at fault.
fn reason_at(byte: u8) -> Reason
    ensures { result ≡ (if byte == quote then Reason.QuoteInside else Reason.TextAfterQuote) }
{
    if byte == QUOTE {
        Reason::QuoteInside
    } else {
        Reason::TextAfterQuote
    }
}

/// The refusal of the line with the byte at this offset.
fn refusal<'a>(text: &[u8], offset: usize, reason: Reason) -> Refusal<'a>
    ensures { result.reason ≡ reason }
{
    let mut line: u64 = 1;
    for byte in text.get(..offset).unwrap_or(&[]) {
        if *byte == b'\n' {
            line = line.saturating_add(1);
        }
    }
    Refusal {
        place: Place::Line(line),
        reason,
    }
}
