//! Origins in comma-separated values, as validators print them.

ghost use Rattle.std.specs.Prelude.{◌≡◌, ◌&&◌, IfErr, IfOk, if◌then◌else◌};
ghost use Rattle.csv.specs.Reading.{error_kind};
ghost use Rattle.csv.specs.Records.{fields_of};
ghost use Rattle.make_work.specs.CsvItems.{HasItems, HasWholeItems, IsCsvOf, RefusesCsv};
ghost use Rattle.make_work.specs.CsvItems.{RefusesRows, RefusesWhole};
ghost use Rattle.make_work.specs.CsvColumns.{is_header, plain_columns};
ghost use Rattle.make_work.specs.CsvRows.{ReadsMaxLength, ReadsRow, is_ended, is_uri};
ghost use Rattle.make_work.specs.CsvRows.{row_expiry, some_plus};
ghost use Rattle.make_work.specs.PrivateCsv.{TakesRow, columns_from, reason_of};
ghost use Rattle.make_work.specs.Taking.{TakesSome};

use crate::csv_columns::{Columns, columns_named, field, has_fields, is_header, plain_columns};
use crate::gathering::Gathering;
use crate::item::{Expiry, Item, Place, Reason, Refusal};
use crate::json_values::expiry_of_number;
use crate::plus::has_plus;
use crate::quotes::{check_quotes, without_mark};
use csv::{Error, ErrorKind, Position, ReaderBuilder, StringRecord};
use rtr_base::addr::{MaxLenPrefix, Prefix};
use rtr_base::asn::Asn;
use rtr_payload::payload::Payload;
use std::alloc::Global;

/// Reads a line for each origin: its ASN, with or without `AS` before the number, its prefix, and
/// its max length, if it has one. Further fields and empty lines are ignored.
///
/// A first line whose first field is `ASN` is a header: it names the columns of the prefix and the
/// max length, each once, and may name one `Expires`, as rpki-client does, with the time at which
/// each origin expires, in seconds since 1970. Names are those of `Part::is_named`. No line has
/// fewer fields than the header.
///
/// The last line must have its line end, so that a text that was cut off isn't accepted, unless
/// `takes_unended`.
///
/// The first quote at fault decides, as in `check_quotes`; else the first line that is refused,
/// with the reasons `NotText`, `Header`, `FewFields`, `Plus`, `UriColumn`, `Asn`, `Prefix`,
/// `MaxLength` and `MaxLengthRule`, in this order; else `Unended`; `Memory` stops reading, too.
pub fn read_csv<'a>(
    alloc: Global,
    text: &'a [u8],
    takes_unended: bool,
    gathering: &mut Gathering<'a>,
) -> Result<(), Refusal<'a>>
    ensures items { IfOk result (λ _. TakesSome (IsCsvOf takes_unended text.now) gathering.old
        gathering.new) }
    ensures refused { IfErr result (λ r. RefusesCsv takes_unended text.now r.reason) }
{
    match check_quotes(text) {
        Ok(()) => read_whole(alloc, text, takes_unended, gathering),
        Err(refusal) => Err(refusal),
    }
}

/// Reads the rows of a text whose quotes are correct, and checks that the last one is ended.
fn read_whole<'a>(
    alloc: Global,
    text: &'a [u8],
    takes_unended: bool,
    gathering: &mut Gathering<'a>,
) -> Result<(), Refusal<'a>>
    ensures items { IfOk result (λ _.
        TakesSome (HasWholeItems takes_unended text.now) gathering.old gathering.new) }
    ensures refused { IfErr result (λ r. RefusesWhole takes_unended text.now r.reason) }
{
    match read_rows(alloc, text, gathering) {
        Ok(()) if takes_unended || is_ended(without_mark(text)) => Ok(()),
        Ok(()) => Err(unended(text)),
        Err(refusal) => Err(refusal),
    }
}

/// Whether the text has nothing after its last line end.
fn is_ended(text: &[u8]) -> bool
    ensures { result ≡ is_ended text.now }
{
    if text.is_empty() {
        return true;
    }
    let last = text[text.len() - 1];
    last == b'\n' || last == b'\r'
}

/// The refusal of a last line without a line end.
fn unended<'a>(text: &[u8]) -> Refusal<'a>
    ensures { result.reason ≡ Reason.Unended }
{
    let mut line: u64 = 1;
    for byte in text {
        if *byte == b'\n' {
            line = line.saturating_add(1);
        }
    }
    Refusal {
        place: Place::Line(line),
        reason: Reason::Unended,
    }
}

/// Reads the rows of a text whose quotes are correct.
fn read_rows<'a>(
    alloc: Global,
    text: &'a [u8],
    gathering: &mut Gathering<'a>,
) -> Result<(), Refusal<'a>>
    ensures items { IfOk result (λ _. TakesSome (HasItems text.now) gathering.old gathering.new) }
    ensures refused { IfErr result (λ r. RefusesRows text.now r.reason) }
{
    let mut reader = ReaderBuilder::new()
        .has_headers(false)
        .flexible(true)
        .from_reader(alloc, text);
    let mut row = StringRecord::new(alloc);
    let mut columns = plain_columns();
    for count in 0..u64::MAX {
        match reader.read_record(&mut row) {
            Ok(true) => {
                columns = columns_from(count == 0, columns, &row);
                match take_row(count == 0, columns, text, &row, gathering) {
                    Ok(()) => {}
                    Err(refusal) => return Err(refusal),
                }
            }
            Ok(false) => return Ok(()),
            Err(error) => return Err(refusal(text, &error)),
        }
    }
    Err(out_of_memory())
}

/// The columns of the rows after this one: the first row may name them.
fn columns_from(first: bool, columns: Columns, row: &StringRecord) -> Columns
    ensures { result ≡ columns_from first columns (fields_of row.now) }
{
    if !first {
        return columns;
    }
    if is_header(row) {
        columns_named(row).unwrap_or(plain_columns())
    } else {
        plain_columns()
    }
}

/// Takes the origin of a row, with its expiry if there is a column for it. The first row may be a
/// header, which isn't an origin.
fn take_row<'a>(
    first: bool,
    columns: Columns,
    text: &[u8],
    row: &StringRecord,
    gathering: &mut Gathering<'a>,
) -> Result<(), Refusal<'a>>
    ensures { TakesRow (first && is_header (fields_of row.now)) columns (fields_of row.now) result
        gathering.old gathering.new }
{
    let place = Place::Line(line_of(text, row));
    if first && is_header(row) {
        return match columns_named(row) {
            Some(_) => Ok(()),
            None => Err(header_refusal(place)),
        };
    }
    match origin(columns, row) {
        Ok(payload) => match gathering.take(item(place, payload, expiry(columns, row))) {
            Ok(()) => Ok(()),
            Err(_) => Err(out_of_memory()),
        },
        Err(reason) => Err(Refusal { place, reason }),
    }
}

/// The refusal of a header that doesn't name its columns.
fn header_refusal<'a>(place: Place<'a>) -> Refusal<'a>
    ensures { result.reason ≡ Reason.Header }
{
    Refusal {
        place,
        reason: Reason::Header,
    }
}

fn item<'a>(place: Place<'a>, payload: Payload, expiry: Expiry) -> Item<'a>
    ensures { result ≡ record { place = place.entry; payload = payload; expiry = expiry } }
{
    Item {
        place,
        payload,
        expiry,
    }
}

/// The expiry of the row.
fn expiry(columns: Columns, row: &StringRecord) -> Expiry
    ensures { result ≡ row_expiry columns (fields_of row.now) }
{
    match columns.expires {
        Some(index) => expiry_of_number(field(row, index)),
        None => Expiry::Never,
    }
}

fn out_of_memory<'a>() -> Refusal<'a>
    ensures { result.reason ≡ Reason.Memory }
{
    Refusal {
        place: Place::Input,
        reason: Reason::Memory,
    }
}

/// The refusal for the fault of the reader of lines.
fn refusal<'a>(text: &[u8], error: &Error) -> Refusal<'a>
    ensures { result.reason ≡ reason_of (error_kind error.now) }
{
    match error.kind() {
        ErrorKind::Utf8 { pos, .. } => Refusal {
            place: match pos {
                Some(position) => Place::Line(line_at(text, *position)),
                None => Place::Input,
            },
            reason: Reason::NotText,
        },
        _ => out_of_memory(),
    }
}

/// The line of the text in which the row begins, of which the first is 1.
fn line_of(text: &[u8], row: &StringRecord) -> u64 {
    match row.position() {
        Some(position) => line_at(text, position),
        None => 0,
    }
}

/// The line of the row that was read from this offset on. The line number of the reader is where it
/// began to look for the row, before it skipped the rest of a line's end, and empty lines.
fn line_at(text: &[u8], position: Position) -> u64 {
    let mut line = position.line();
    for byte in read_from(text, position.byte()) {
        match byte {
            b'\n' => line = line.saturating_add(1),
            b'\r' => {}
            _ => return line,
        }
    }
    line
}

/// The text from this offset on, without a byte order mark at its start.
fn read_from(text: &[u8], start: u64) -> &[u8] {
    if start == 0 {
        return without_mark(text);
    }
    text.get(start as usize..).unwrap_or(&[])
}

/// The origin of the row.
fn origin(columns: Columns, row: &StringRecord) -> Result<Payload, Reason>
    ensures { ReadsRow columns (fields_of row.now) result }
{
    if !has_fields(columns, row) {
        return Err(Reason::FewFields);
    }
    if some_plus(columns, row) {
        return Err(Reason::Plus);
    }
    let asn = match field(row, 0).parse::<Asn>() {
        Ok(asn) => asn,
        Err(_) => return Err(no_asn(field(row, 0))),
    };
    let prefix = match field(row, columns.prefix).parse::<Prefix>() {
        Ok(prefix) => prefix,
        Err(error) => return Err(Reason::Prefix(error)),
    };
    let max_length = match max_length(field(row, columns.max_length)) {
        Ok(max_length) => max_length,
        Err(reason) => return Err(reason),
    };
    match MaxLenPrefix::new(prefix, max_length) {
        Ok(prefix) => Ok(Payload::origin(prefix, asn)),
        Err(error) => Err(Reason::MaxLengthRule(error)),
    }
}

/// Whether a part of an origin has a plus sign, which no validator prints.
fn some_plus(columns: Columns, row: &StringRecord) -> bool
    ensures { result ≡ some_plus columns (fields_of row.now) }
{
    has_plus(field(row, 0))
        || has_plus(field(row, columns.prefix))
        || has_plus(field(row, columns.max_length))
}

/// Why the field isn't an ASN.
fn no_asn(text: &str) -> Reason
    ensures { result ≡ (if is_uri text.now then Reason.UriColumn else Reason.Asn) }
{
    if text == "URI" || text.as_bytes().starts_with(b"rsync://") {
        Reason::UriColumn
    } else {
        Reason::Asn
    }
}

/// The max length in the field; none if the field is empty.
fn max_length(text: &str) -> Result<Option<u8>, Reason>
    ensures { ReadsMaxLength text.now result }
{
    if text.is_empty() {
        return Ok(None);
    }
    match text.parse::<u8>() {
        Ok(length) => Ok(Some(length)),
        Err(_) => Err(Reason::MaxLength),
    }
}
