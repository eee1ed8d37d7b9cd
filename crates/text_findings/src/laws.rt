//! Laws of the set that a caller keeps.

ghost use Rattle.std.specs.Prelude.{◌≡◌, ◌∷◌, List, Some};
ghost use Rattle.std.specs.Ordering.{is_eq};
ghost use Rattle.std.specs.Str.{bytes_eq};
ghost use Rattle.rtr_payload.specs.Orders.{payload_cmp};
ghost use Rattle.rtr_payload.specs.Payloads.{Payload};
ghost use Rattle.unit_any.specs.AnyFields.{AnyFields, AnyFit};
ghost use Rattle.text_findings.specs.KeptNames.{AllFit, IsAnnouncedAs, has_kept};
ghost use Rattle.text_findings.specs.PayloadNames.{IsNamed, payload_name, unit_name};
ghost use Rattle.text_findings.specs.SequenceSoFar.{announced, named_by, sequence};

/// Two payloads have the same name if and only if the rules treat them as one payload, and each
/// payload that a unit names has such a name.
pub fn names_are_of_payloads()
    ensures alike { (p q : Payload) → IsNamed p → IsNamed q →
        bytes_eq (payload_name p) (payload_name q) ≡ is_eq (payload_cmp p q) }
    ensures named { (unit : AnyFields) (p : Payload) → AnyFit unit → named_by unit ≡ Some p →
        IsNamed p }
{}

/// If a caller adds and removes names as `check` requires, its set holds the names that are
/// announced in the sequence, and so the findings on the next unit are right.
pub fn names_are_those_announced()
    ensures kept { (history : List AnyFields) (p : Payload) → AllFit history → IsNamed p →
        has_kept history (payload_name p) ≡ announced (sequence history) p }
    ensures said { (history : List AnyFields) (unit : AnyFields) → AllFit (unit ∷ history) →
        IsAnnouncedAs (has_kept history (unit_name unit)) (sequence history) (named_by unit) }
{}
