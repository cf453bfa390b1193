//! What bytes are read into.
use crate::device::Source;

/// Why nothing was read.
#[derive(Clone, Copy, Debug, PartialEq, Eq)]
pub enum FillFault {
    /// Out of memory. The reader wasn't called.
    Memory,
    /// The reader failed.
    Read,
}

/// What bytes are read into, behind the bytes that it holds.
pub trait Fill {
    ghost use Rattle.std.specs.Prelude.{◌≡◌, ◌≢◌, ◌+◌, ℕ, List, true, IfOk, OnErr, Ok, Err};
    ghost use Rattle.xs_io.specs.Passing.{Keeps};
    ghost use Rattle.xs_io.specs.declared.fill.FillFault.{FillFault};
    ghost use Rattle.xs_io.specs.Device.{counter_at, Gave};

    /// The same, with these bytes behind those that it holds.
    ghost with_bytes: { Self → List ℕ → Self };

    /// Reads bytes in, at most 64 KiB, and returns their number: 0 only at the end.
    ///
    /// # Errors
    /// It is unchanged. The reader is unchanged if the fault is `Memory`; else its bytes are.
    fn fill<R: Source>(&mut self, reader: &mut R) -> Result<usize, FillFault>
        ensures ok { IfOk result (λ n. Gave (R.rest reader.old) (R.rest reader.new) (R.ended reader.new) n
            (λ got. self.new ≡ with_bytes self.old got)) }
        ensures none { result ≡ Ok 0 → self.new ≡ self.old }
        ensures err { OnErr result ((self.new ≡ self.old) × Keeps (R.rest reader.old) (R.rest reader.new)) }
        ensures memory { result ≡ Err FillFault.Memory → reader.new ≡ reader.old }
        ensures read { result ≡ Err FillFault.Read → R.broken reader.new ≡ true }
        ensures counted { result ≢ Err FillFault.Memory → R.calls reader.new ≡ counter_at (R.calls reader.old + 1) };
}
