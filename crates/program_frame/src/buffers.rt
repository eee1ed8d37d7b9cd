//! Buffers.

ghost use Rattle.std.specs.Prelude.{◌≡◌, ◌⊎◌, IfOk, IsOk};
ghost use Rattle.std.specs.Io.Buffered.{reader_inner};

use std::io;
use std::io::{BufReader, BufWriter, Read, Stdout};

/// The number of bytes of an input that are read at once, and of an output that are written at
/// once.
pub const BUFFER_SIZE: usize = 65536;

/// Standard output with a buffer, or unbuffered if there is no memory for a buffer.
pub fn buffered_output(rt: &HostRuntime) -> BufWriter<Stdout> {
    match BufWriter::with_capacity(rt.alloc(), BUFFER_SIZE, rt.stdout()) {
        Ok(writer) => writer,
        Err(_) => BufWriter::with_capacity(rt.alloc(), 0, rt.stdout()).unwrap(),
    }
}

/// The reader with a buffer. If there is no memory for a buffer, the spare reader of the same
/// input, unbuffered.
pub fn buffered_input<R: Read + Drop>(
    rt: &HostRuntime,
    reader: R,
    spare: io::Result<R>,
) -> io::Result<BufReader<R>>
    // A spare reader makes up for any want of memory.
    ensures succeeds { IsOk spare → IsOk result }
    // Either reader is read.
    ensures inner { IfOk result (λ buffered. (reader_inner buffered ≡ reader)
        ⊎ IfOk spare (λ spare. reader_inner buffered ≡ spare)) }
{
    match BufReader::with_capacity(rt.alloc(), BUFFER_SIZE, reader) {
        Ok(buffered) => Ok(buffered),
        Err(_) => BufReader::with_capacity(rt.alloc(), 0, spare?),
    }
}
