//! Which table the arguments ask for.

ghost use Rattle.std.specs.Prelude.{◌≡◌};
ghost use Rattle.list_tables.specs.TableStatus.{table_by_words};

/// The form of a table.
#[derive(Clone, Copy)]
pub enum Table {
    /// Comma-separated values of origins.
    Csv,
    /// JSON of all payloads.
    Json,
}

/// The table that the words after the program's name ask for, if any.
pub fn table_wanted(words: &[String]) -> Option<Table>
    ensures { result ≡ table_by_words words.now }
{
    match words {
        [word] => match word.as_str() {
            "--csv" => Some(Table::Csv),
            "--vrps" => Some(Table::Json),
            _ => None,
        },
        _ => None,
    }
}
