//! What holds of a client, whatever calls are made.

ghost use Rattle.std.specs.Prelude.{◌≡◌, ◌≤◌, ◌⊎◌, ℕ, List, Option, length, take, None, Some};
ghost use Rattle.session_client.specs.Holding.{Fits, SameThere, IsClient, SameShown};
ghost use Rattle.session_client.specs.Holding.{ShowsWholeAnswer};
ghost use Rattle.session_client.specs.Makings.{Octets, ShowsMade};
ghost use Rattle.session_client.specs.declared.client.Client.{Client};
ghost use Rattle.session_client.specs.declared.client.Holding.{Holding};
ghost use Rattle.session_router.specs.declared.settings.Settings.{Settings};

use session_bytes::laws::only_whole_answers_in_bytes;

/// Between two calls a caller may move the input and the data buffers, enlarge them, and read into
/// the input from the offset `filled` on.
pub fn room_may_change()
    ensures { (s : Settings) (k : Client) (input input' buffer buffer' : Octets)
        → Fits k input → SameThere k input input' buffer buffer' → IsClient s k input buffer
        → IsClient s k input' buffer' }
{}

/// A client has either no data, or those in the first `shown` bytes of its data buffer: data in
/// canonical form, the result of one whole answer, applied by the rules of `Data::apply` to the
/// data before it or to no data, in a run of its machine that was told of each unit by its bytes.
/// They haven't expired.
pub fn only_whole_answers_are_shown()
    ensures { (s : Settings) (k : Client) (input buffer : Octets) → IsClient s k input buffer
        → (k.shown ≡ None) ⊎ ShowsWholeAnswer s k buffer }
{
    only_whole_answers_in_bytes()
}

/// There is a client that shows data: the premise of `only_whole_answers_are_shown` is met.
pub fn data_are_shown()
    ensures { (s : Settings) × (k : Client) × (input : Octets) × (buffer : Octets)
        × IsClient s k input buffer × (k.shown ≡ Some 44) }
{}

/// If `next` returns `Data`, its clause `whole` determines the length and the bytes of the data,
/// whatever the buffer that they are written to held before, and all of them are in that buffer.
pub fn new_data_are_one()
    ensures one { (m : Holding) (kept p q : ℕ) (shown s t : Option ℕ)
        (input held b b' a a' : Octets) → ShowsMade m kept shown input held p b a s
        → ShowsMade m kept shown input held q b' a' t → (s ≡ t) × SameShown s a a' }
    ensures within { (m : Holding) (kept p : ℕ) (shown s : Option ℕ) (input held b a : Octets)
        → ShowsMade m kept shown input held p b a s
        → (n : ℕ) × (s ≡ Some n) × (n ≤ length a) }
{}
