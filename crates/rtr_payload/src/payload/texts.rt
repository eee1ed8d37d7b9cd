//! Texts of payloads, one line each. Width and padding are ignored.

ghost use Rattle.std.specs.Prelude.{Some};
ghost use Rattle.rtr_payload.specs.PayloadTexts.{aspa_text, key_text, origin_text, payload_text};

use crate::payload::{Aspa, Payload, RouteOrigin, RouterKey};
use std::fmt;

/// Writes the prefix and the autonomous system: `192.0.2.0/23-26 AS65551`.
impl fmt::Display for RouteOrigin {
    ghost output = { λ origin. Some (origin_text origin) };

    fn fmt<W: fmt::Write>(&self, f: &mut fmt::Formatter<W>) -> fmt::Result {
        write!(f, "{} {}", self.prefix, self.asn)
    }
}

/// Writes `router key`, the identifier in hex, the autonomous system, and the key info in base64
/// for URLs without padding.
impl fmt::Display for RouterKey {
    ghost output = { λ key. Some (key_text key) };

    fn fmt<W: fmt::Write>(&self, f: &mut fmt::Formatter<W>) -> fmt::Result {
        write!(
            f,
            "router key {} {} {}",
            self.key_identifier, self.asn, self.key_info
        )
    }
}

/// Writes `ASPA`, the customer and its providers: `ASPA AS64496: AS64497 AS64498`, or `ASPA
/// AS64496: no providers` if it has none.
impl fmt::Display for Aspa {
    ghost output = { λ aspa. Some (aspa_text aspa) };

    fn fmt<W: fmt::Write>(&self, f: &mut fmt::Formatter<W>) -> fmt::Result {
        write!(f, "ASPA {}:", self.customer)?;
        if self.providers.is_empty() {
            return f.write_str(" no providers");
        }
        for provider in self.providers.iter() {
            write!(f, " {provider}")?;
        }
        Ok(())
    }
}

/// Writes the payload as its own type does.
impl fmt::Display for Payload {
    ghost output = { λ payload. Some (payload_text payload) };

    fn fmt<W: fmt::Write>(&self, f: &mut fmt::Formatter<W>) -> fmt::Result {
        match self {
            Payload::Origin(origin) => write!(f, "{origin}"),
            Payload::RouterKey(key) => write!(f, "{key}"),
            Payload::Aspa(aspa) => write!(f, "{aspa}"),
        }
    }
}
