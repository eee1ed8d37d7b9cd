//! The texts of routes.

ghost use Rattle.std.specs.Prelude.{◌≡◌};
ghost use Rattle.validate_work.specs.RouteTexts.{DecidesAsSet, ReadsLine, ReadsOrigin, ReadsWords};
ghost use Rattle.validate_work.specs.RouteTexts.{DecidesAsn, DecidesAsns, origin_asn};

use data_validation::Route;
use rtr_base::addr::Prefix;
use rtr_base::asn::Asn;
use rtr_base::parse::ParsePrefixError;
use std::str;

/// A route of a routing table.
#[derive(Clone, Copy)]
pub struct TableRoute {
    /// Its prefix.
    pub prefix: Prefix,
    /// Its origin AS; none if its path ends with an AS_SET (RFC 6811 section 2).
    pub origin: Option<Asn>,
}

impl TableRoute {
    /// The route to validate. No VRP matches a route without an origin AS, nor one of AS 0.
    pub fn to_route(&self) -> Route
        ensures prefix { result.prefix ≡ self.now.prefix }
        ensures asn { result.asn ≡ origin_asn self.now.origin }
    {
        let asn = match self.origin {
            Some(asn) => asn,
            None => Asn::from_u32(0),
        };
        Route {
            prefix: self.prefix,
            asn,
        }
    }
}

/// Why a line isn't a route.
#[derive(Clone, Debug, Drop, thiserror::Error)]
pub enum RouteError {
    /// It isn't UTF-8.
    #[error("no UTF-8")]
    NotText,
    /// Its first word isn't a prefix.
    #[error("{0}")]
    Prefix(ParsePrefixError),
    /// There is no second word.
    #[error("missing AS number")]
    NoAsn,
    /// The second word isn't the number of an autonomous system, or an AS_SET.
    #[error("invalid AS number")]
    Asn,
    /// There are more than two words.
    #[error("text after the AS number")]
    More,
    /// In a table of BIRD, the line is a route to the prefix of an earlier line, but there is none.
    #[error("missing prefix: another route to the prefix above")]
    NoPrefix,
    /// The line isn't in the form that the program prints.
    #[error("not a route in this format")]
    Form,
}

/// The route of a line, or none if the line is blank. A route is a prefix and the number of an AS,
/// with or without `AS` before it, with white space between them; white space around is ignored.
/// Instead of the number there may be an AS_SET, as `{64496,64497}`: such a route has no origin AS
/// (RFC 6811 section 2).
pub fn read_route(line: &[u8]) -> Result<Option<TableRoute>, RouteError>
    ensures { ReadsLine line.now result }
{
    let Ok(text) = str::from_utf8(line) else {
        return Err(RouteError::NotText);
    };
    let mut words = text.split_ascii_whitespace();
    let Some(prefix) = words.next() else {
        return Ok(None);
    };
    let prefix = match prefix.parse::<Prefix>() {
        Ok(prefix) => prefix,
        Err(error) => return Err(RouteError::Prefix(error)),
    };
    let Some(asn) = words.next() else {
        return Err(RouteError::NoAsn);
    };
    let Some(origin) = origin_of(asn) else {
        return Err(RouteError::Asn);
    };
    match words.next() {
        Some(_) => Err(RouteError::More),
        None => Ok(Some(TableRoute { prefix, origin })),
    }
}

/// The route of a prefix and the number of an AS, or an AS_SET.
pub fn route_of(prefix: &str, origin: &str) -> Result<TableRoute, RouteError>
    ensures { ReadsWords prefix.now origin.now result }
{
    let prefix = match prefix.parse::<Prefix>() {
        Ok(prefix) => prefix,
        Err(error) => return Err(RouteError::Prefix(error)),
    };
    match origin_of(origin) {
        Some(origin) => Ok(TableRoute { prefix, origin }),
        None => Err(RouteError::Asn),
    }
}

/// The AS of this number, or none for an AS_SET, if the word is either.
fn origin_of(word: &str) -> Option<Option<Asn>>
    ensures { ReadsOrigin word.now result }
{
    match word.parse::<Asn>() {
        Ok(asn) => Some(Some(asn)),
        Err(_) if is_as_set(word) => Some(None),
        Err(_) => None,
    }
}

/// Whether the word is an AS_SET: numbers of ASes between braces, with commas between them.
fn is_as_set(word: &str) -> bool
    ensures { DecidesAsSet word.now result }
{
    let Some(rest) = word.strip_prefix('{') else {
        return false;
    };
    match rest.strip_suffix('}') {
        Some(inside) => are_asns(inside),
        None => false,
    }
}

/// Whether the text is a list of AS numbers with commas between them.
fn are_asns(text: &str) -> bool
    ensures { DecidesAsns text.now result }
{
    let mut rest = text;
    'members: while let Some((first, others)) = rest.split_once(',') {
        if !is_asn(first) {
            return false;
        }
        rest = others;
    }
    is_asn(rest)
}

/// Whether the text is the number of an AS.
fn is_asn(text: &str) -> bool
    ensures { DecidesAsn text.now result }
{
    match text.parse::<Asn>() {
        Ok(_) => true,
        Err(_) => false,
    }
}
