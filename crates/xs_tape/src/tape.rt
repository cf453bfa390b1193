//! A device to which bytes can only be appended.

/// A call of a tape failed. It carries no cause.
#[derive(Clone, Copy, Debug, PartialEq, Eq)]
pub struct TapeFailed;

/// Files, one after the other. The last one is appended to, and the others are closed. No byte is zero. A crash may
/// leave of the last one what `CrashLeaves` allows. After a call has failed the tape must not be used any more: the
/// system may have dropped what it didn't write.
pub trait Tape {
    ghost use Rattle.std.specs.Prelude.{◌≡◌, ℕ, List, Bool, false, length, Option, IfSome, is_err};
    ghost use Rattle.xs_tape.specs.Crash.{HasNoZero};
    ghost use Rattle.xs_tape.specs.Tape.{TapeBytes, Appends, Syncs, BeginsNext, AllKept};

    /// The content of the tape, if it is known.
    ghost holds: { Self → Option TapeBytes };

    /// Whether a call has failed.
    ghost broken: { Self → Bool };

    /// Appends bytes to the last file.
    fn append(&mut self, bytes: &[u8]) -> Result<(), TapeFailed>
        requires sound { broken self.old ≡ false }
        requires bytes { HasNoZero bytes.now }
        ensures bytes { Appends result bytes.now (holds self.old) (holds self.new) }
        ensures fault { broken self.new ≡ is_err result };

    /// Keeps all that was written.
    fn sync(&mut self) -> Result<(), TapeFailed>
        requires sound { broken self.old ≡ false }
        ensures bytes { Syncs result (holds self.old) (holds self.new) }
        ensures fault { broken self.new ≡ is_err result };

    /// Closes the last file, and begins an empty one after it, which survives a crash.
    fn begin_next(&mut self) -> Result<(), TapeFailed>
        requires sound { broken self.old ≡ false }
        requires kept { AllKept (holds self.old) }
        ensures bytes { BeginsNext result (holds self.old) (holds self.new) }
        ensures fault { broken self.new ≡ is_err result };

    /// The number of bytes of the last file.
    fn size(&self) -> u64
        ensures { IfSome (holds self.now) (λ bytes. result ≡ length bytes.written) };
}
