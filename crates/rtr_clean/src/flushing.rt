//! Flushes that contracts can require.

ghost use Rattle.rtr_clean.specs.PrivateClean.{PassesOn};

use rtr_units::fault::Fault;
use rtr_units::source::Sink;

/// A proof that a writer was flushed: only `flush` makes one.
#[derive(Drop)]
pub struct Flushed {
    _sign: (),
}

/// Flushes what was written.
pub fn flush<W: Sink>(output: &mut W) -> Result<Flushed, Fault>
    ensures { PassesOn result (W.state output.old) (W.state output.new) }
{
    match output.flush() {
        Ok(()) => Ok(Flushed { _sign: () }),
        Err(error) => Err(Fault::Writer(error)),
    }
}
