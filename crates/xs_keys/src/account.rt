//! The count of the bytes of the keys, and the bound for additions.
ghost use Rattle.std.specs.Prelude.{◌≡◌, ◌+◌, ◌^◌, ◌%◌, ◌<◌, Ok, Err, if◌then◌else◌};
ghost use Rattle.xs_keys.specs.KeysRoom.{is_above};

use std::alloc::AllocError;

/// Why there is no memory for an addition.
#[derive(Clone, Copy, Debug, PartialEq, Eq)]
pub(crate) enum NoMemory {
    /// The system gave none.
    System,
    /// The count would be above the bound.
    Bound,
}

impl From<AllocError> for NoMemory {
    ghost use Rattle.xs_keys.specs.declared.account.NoMemory.{NoMemory};

    ghost from_gives = { λ _ why. why ≡ NoMemory.System };

    fn from(_refused: AllocError) -> Self {
        Self::System
    }
}

/// The count of the bytes, and its bound. The count is stored modulo 2^128, so no sum is too great for it.
#[derive(Drop)]
pub(crate) struct Account {
    /// The number of bytes that are counted.
    held: u128,
    /// The most bytes when something is added; 0 if there is no bound.
    bound: u64,
    ghost small: { held < 2 ^ 128 },
}

impl Account {
    /// Nothing is counted, and there is no bound.
    pub(crate) fn new() -> Self
        ensures held { result.held ≡ 0 }
        ensures bound { result.bound ≡ 0 }
    {
        Self { held: 0, bound: 0 }
    }

    /// The number of bytes that are counted.
    pub(crate) fn held(&self) -> u128
        ensures { result ≡ self.now.held }
    {
        self.held
    }

    /// Sets the bound in bytes; 0 for none.
    pub(crate) fn set_bound(&mut self, bound: u64)
        ensures { self.new ≡ record self.old { bound = bound } }
    {
        self.bound = bound;
    }

    /// Whether `more` further bytes are within the bound.
    pub(crate) fn admit(&self, more: u128) -> Result<(), NoMemory>
        ensures { result ≡ if is_above self.now.bound self.now.held more then Err NoMemory.Bound else Ok tt }
    {
        let bound = u128::from(self.bound);
        if bound > 0 && (self.held > bound || more > bound - self.held) {
            return Err(NoMemory::Bound);
        }
        Ok(())
    }

    /// Replaces `before` bytes of the count by `after`.
    pub(crate) fn change(&mut self, before: u128, after: u128)
        ensures held { (self.new.held + before) % 2 ^ 128 ≡ (self.old.held + after) % 2 ^ 128 }
        ensures bound { self.new.bound ≡ self.old.bound }
    {
        self.held = self.held.wrapping_sub(before).wrapping_add(after);
    }
}
