//! Texts that are written up to a fault of the writer.
ghost use Rattle.std.specs.Prelude.{◌≡◌, true, false};
ghost use Rattle.xs_io.specs.Passing.{Appends};
ghost use Rattle.xs_work.specs.Texts.{Says};

use xs_io::{Sink, write_all};

/// Writes a text, up to a fault of the writer. Returns whether all of it was written.
pub fn say<W: Sink>(writer: &mut W, text: &[u8]) -> bool
    ensures said { Says text.now (W.held writer.old) (W.held writer.new) (W.broken writer.new) }
    ensures whole { result ≡ true → Appends (W.held writer.old) (W.held writer.new) text.now }
    ensures part { result ≡ false → W.broken writer.new ≡ true }
{
    match write_all(writer, text) {
        Ok(_) => true,
        Err(_) => false,
    }
}
