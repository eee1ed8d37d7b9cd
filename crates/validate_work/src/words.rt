//! The arguments of the program.

ghost use Rattle.std.specs.Prelude.{◌≡◌, map, option_map, string_bytes};
ghost use Rattle.validate_work.specs.RouteWords.{as_json, at_time, can_compare, flag_named};
ghost use Rattle.validate_work.specs.RouteWords.{is_vrps_name, named};
ghost use Rattle.validate_work.specs.RouteWords.{routes_asked, routes_by_texts, routes_by_words};
ghost use Rattle.validate_work.specs.RouteWords.{of_format, strictly, summarily, table_named};

use crate::form::Form;
use crate::table::{Printer, Table};
use make_work::long_number;

/// The name that stands for standard input.
const STANDARD_INPUT: &str = "-";

/// A route, in the words of the arguments.
#[derive(Clone, Copy)]
pub struct RouteWords<'a> {
    /// The prefix.
    pub prefix: &'a str,
    /// The number of the AS.
    pub asn: &'a str,
}

/// The result of parsing the arguments.
#[derive(Clone, Copy)]
pub struct Request<'a> {
    /// The options.
    pub options: Options,
    /// The file that has the VRPs.
    pub file: &'a str,
    /// The route, if one was given. Otherwise routes are read from standard input.
    pub route: Option<RouteWords<'a>>,
}

/// The options of a run.
#[derive(Clone, Copy)]
pub struct Options {
    /// The form in which answers are printed.
    pub form: Form,
    /// Whether the run ends at the first line that isn't a route.
    pub strict: bool,
    /// Whether only counts are printed.
    pub summary: bool,
    /// The time for which expiry is checked: seconds after the epoch, the first second of 1970.
    pub at: Option<u64>,
    /// The format in which routes are read.
    pub table: Table,
    /// Whether that format was given.
    pub has_format: bool,
}

/// An option.
#[derive(Clone, Copy)]
enum Flag {
    /// `--json`.
    Json,
    /// `--strict`.
    Strict,
    /// `--summary`.
    Summary,
    /// `--at`, followed by a number.
    At,
    /// `--format`, followed by the name of a format.
    Format,
}

/// Parses the words after the program's name, if they are valid: options, each at most once and in
/// any order, then a file, and after it a prefix and the number of an AS, or nothing. The file may
/// be `-`, standard input, if a route is given. No other name begins with `-`.
pub fn asked(words: &[String]) -> Option<Request<'_>>
    ensures { option_map routes_asked result ≡ routes_by_words words.now }
{
    let options = Options {
        form: Form::Text,
        strict: false,
        summary: false,
        at: None,
        table: Table::Lines,
        has_format: false,
    };
    asked_after(options, words)
}

/// Does the same, after options that were already parsed.
fn asked_after(options: Options, words: &[String]) -> Option<Request<'_>>
    ensures { option_map routes_asked result ≡
        routes_by_texts options (map string_bytes words.now) }
{
    let Some((word, rest)) = words.split_first() else {
        return None;
    };
    match flag_named(word.as_str()) {
        None => named(options, word.as_str(), rest),
        Some(Flag::Json) => asked_after(as_json(options)?, rest),
        Some(Flag::Strict) => asked_after(strictly(options)?, rest),
        Some(Flag::Summary) => asked_after(summarily(options)?, rest),
        Some(Flag::At) => {
            let Some((time, rest)) = rest.split_first() else {
                return None;
            };
            asked_after(at_time(options, time.as_str())?, rest)
        }
        Some(Flag::Format) => {
            let Some((name, rest)) = rest.split_first() else {
                return None;
            };
            asked_after(of_format(options, name.as_str())?, rest)
        }
    }
}

/// The option of this name.
fn flag_named(word: &str) -> Option<Flag>
    ensures { result ≡ flag_named word.now }
{
    match word {
        "--json" => Some(Flag::Json),
        "--strict" => Some(Flag::Strict),
        "--summary" => Some(Flag::Summary),
        "--at" => Some(Flag::At),
        "--format" => Some(Flag::Format),
        _ => None,
    }
}

/// The options with `--json`, unless they have it.
fn as_json(options: Options) -> Option<Options>
    ensures { result ≡ as_json options }
{
    match options.form {
        Form::Text => Some(Options {
            form: Form::Json,
            ..options
        }),
        Form::Json => None,
    }
}

/// The options with `--strict`, unless they have it.
fn strictly(options: Options) -> Option<Options>
    ensures { result ≡ strictly options }
{
    if options.strict {
        return None;
    }
    Some(Options {
        strict: true,
        ..options
    })
}

/// The options with `--summary`, unless they have it.
fn summarily(options: Options) -> Option<Options>
    ensures { result ≡ summarily options }
{
    if options.summary {
        return None;
    }
    Some(Options {
        summary: true,
        ..options
    })
}

/// The options with `--at` and this time, unless they have one.
fn at_time(options: Options, time: &str) -> Option<Options>
    ensures { result ≡ at_time options time.now }
{
    match options.at {
        Some(_) => None,
        None => Some(Options {
            at: Some(long_number(time)?),
            ..options
        }),
    }
}

/// The options with `--format` and this name, unless they have one.
fn of_format(options: Options, name: &str) -> Option<Options>
    ensures { result ≡ of_format options name.now }
{
    if options.has_format {
        return None;
    }
    Some(Options {
        table: table_named(name)?,
        has_format: true,
        ..options
    })
}

/// The format of this name.
fn table_named(name: &str) -> Option<Table>
    ensures { result ≡ table_named name.now }
{
    match name {
        "lines" => Some(Table::Lines),
        "mrt" => Some(Table::Printed(Printer::Bgpdump)),
        "bird" => Some(Table::Printed(Printer::Bird)),
        "frr" => Some(Table::Printed(Printer::Frr)),
        _ => None,
    }
}

/// The request for the file of this name, if it is valid, and for the route of the words after it.
fn named<'a>(options: Options, file: &'a str, rest: &'a [String]) -> Option<Request<'a>>
    ensures { option_map routes_asked result
        ≡ named options file.now (map string_bytes rest.now) }
{
    let route = match rest {
        [] => None,
        [prefix, asn] => Some(RouteWords {
            prefix: prefix.as_str(),
            asn: asn.as_str(),
        }),
        _ => return None,
    };
    if options.summary && route.is_some() {
        return None;
    }
    if !is_name(file, route.is_some()) {
        return None;
    }
    Some(Request {
        options,
        file,
        route,
    })
}

/// Whether the list of the request can be compared with that of the file of this name: no route is
/// given, and the name doesn't begin with `-`.
pub fn can_compare(request: &Request<'_>, name: &str) -> bool
    ensures { result ≡ can_compare (routes_asked request.now) name.now }
{
    request.route.is_none() && is_name(name, false)
}

/// Reports whether the word may name a file: a word that doesn't begin with `-`, or `-` if no
/// routes are read from standard input.
fn is_name(word: &str, has_route: bool) -> bool
    ensures { result ≡ is_vrps_name word.now has_route }
{
    if word == STANDARD_INPUT {
        return has_route;
    }
    word.as_bytes().first() != Some(&b'-')
}
