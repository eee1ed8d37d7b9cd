//! The columns of the parts of an origin.

ghost use Rattle.std.specs.Prelude.{◌≡◌, codes};
ghost use Rattle.csv.specs.Records.{fields_of};
ghost use Rattle.make_work.specs.CsvColumns.{at_most_one, column_of, columns_named, field};
ghost use Rattle.make_work.specs.CsvColumns.{found_again, has_fields, is_header, one};
ghost use Rattle.make_work.specs.CsvColumns.{plain_columns};

use crate::json_names::Part;
use csv::StringRecord;

/// The indexes of the parts' fields. The ASN is always the first.
#[derive(Clone, Copy, Debug, PartialEq, Eq)]
pub struct Columns {
    /// The index of the prefix.
    pub prefix: usize,
    /// The index of the max length.
    pub max_length: usize,
    /// The index of the expiry, if there is one.
    pub expires: Option<usize>,
    /// The number of fields that each row must have at least.
    pub width: usize,
}

/// The position of a part in a header.
#[derive(Clone, Copy)]
enum Column {
    /// No field has its name.
    Missing,
    /// The field at this index has its name.
    At(usize),
    /// Two fields have its name.
    Twice,
}

/// The columns of rows without a header: the prefix and then the max length, if there is one, after
/// the ASN.
pub fn plain_columns() -> Columns
    ensures { result ≡ plain_columns }
{
    Columns {
        prefix: 1,
        max_length: 2,
        expires: None,
        width: 0,
    }
}

/// Whether the row names its columns: the first is called `ASN`.
pub fn is_header(row: &StringRecord) -> bool
    ensures { result ≡ is_header (fields_of row.now) }
{
    Part::Asn.is_named(field(row, 0))
}

/// The columns of a header that names the ASN, the prefix and the max length once each, and the
/// expiry at most once; none for any other header.
pub fn columns_named(row: &StringRecord) -> Option<Columns>
    ensures { result ≡ columns_named (fields_of row.now) }
{
    let _asn = one(column_of(Part::Asn, row))?;
    let prefix = one(column_of(Part::Prefix, row))?;
    let max_length = one(column_of(Part::MaxLength, row))?;
    let expires = at_most_one(column_of(Part::Expires, row))?;
    Some(Columns {
        prefix,
        max_length,
        expires,
        width: row.len(),
    })
}

/// The index of a column that is required.
fn one(column: Column) -> Option<usize>
    ensures { result ≡ one column }
{
    match column {
        Column::At(index) => Some(index),
        Column::Missing | Column::Twice => None,
    }
}

/// The index of a column that may be missing.
fn at_most_one(column: Column) -> Option<Option<usize>>
    ensures { result ≡ at_most_one column }
{
    match column {
        Column::Missing => Some(None),
        Column::At(index) => Some(Some(index)),
        Column::Twice => None,
    }
}

/// The position of this part in the header.
fn column_of(part: Part, row: &StringRecord) -> Column
    ensures { result ≡ column_of part (fields_of row.now) }
{
    let mut column = Column::Missing;
    for index in 0..row.len() {
        if part.is_named(field(row, index)) {
            column = found_again(column, index);
        }
    }
    column
}

/// The position of a part that was found at one more index.
fn found_again(column: Column, index: usize) -> Column
    ensures { result ≡ found_again column index }
{
    match column {
        Column::Missing => Column::At(index),
        Column::At(_) | Column::Twice => Column::Twice,
    }
}

/// Whether the row has as many fields as it needs.
pub fn has_fields(columns: Columns, row: &StringRecord) -> bool
    ensures { result ≡ has_fields columns (fields_of row.now) }
{
    columns.width <= row.len()
}

/// The field at an index. A missing one is empty.
pub fn field(row: &StringRecord, index: usize) -> &str
    ensures { result.now ≡ field (fields_of row.now) index }
{
    row.get(index).unwrap_or("")
}
