//! Writing the machine's queries.

ghost use Rattle.unit_views.specs.Placing.{Places};
ghost use Rattle.session_bytes.specs.Sent.{query_bytes};

use rtr_base::state::{Serial, State};
use rtr_units::queries::{ResetQuery, SerialQuery};
use session_router::head::Query;
use unit_any::placing::place_unit;

/// Writes a query to the front of the output, and returns its length in bytes: 12 for a serial
/// query, and 8 for a reset query (RFC 8210 sections 5.3 and 5.4). If the output is too short, it
/// returns none and leaves the output unchanged.
pub fn place_query(query: &Query, output: &mut [u8]) -> Option<usize>
    ensures { Places result (query_bytes query.now) output.old output.new }
{
    if query.changes {
        let state = State::from_parts(query.session, Serial(query.serial));
        place_unit(&SerialQuery::new(query.version, state), output)
    } else {
        place_unit(&ResetQuery::new(query.version), output)
    }
}
