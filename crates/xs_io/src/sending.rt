//! Replies on their way to a writer.
ghost use Rattle.std.specs.Prelude.{◌≡◌, ◌<◌, true, length, take, IfOk, IfErr};
ghost use Rattle.xs_io.specs.Passing.{Appends};

use crate::device::Sink;

/// Writes bytes until all are taken or the writer fails, and returns how many were taken.
pub fn write_all<W: Sink>(writer: &mut W, bytes: &[u8]) -> Result<usize, usize>
    ensures ok { IfOk result (λ n. (n ≡ length bytes.now) × Appends (W.held writer.old) (W.held writer.new) bytes.now) }
    ensures err { IfErr result (λ n. (n < length bytes.now)
        × Appends (W.held writer.old) (W.held writer.new) (take n bytes.now) × (W.broken writer.new ≡ true)) }
{
    let mut sent = 0;
    while sent < bytes.len() {
        match writer.write(&bytes[sent..]) {
            Ok(0) => return Err(sent),
            Ok(count) => sent += count,
            Err(_) => return Err(sent),
        }
    }
    Ok(sent)
}
