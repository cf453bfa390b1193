//! Why the words of a request give no command.
ghost use Rattle.std.specs.Prelude.{◌≡◌};
ghost use Rattle.xs_command.specs.declared.refusal.Refusal.TheVariants.{Said, Memory};

use std::alloc::{AllocError, AllocFailed};
use thiserror::Error;
use xs_resp::Fault;

/// Why the words of a request give no command.
#[derive(Clone, Copy, Debug, PartialEq, Eq, Error)]
pub enum Refusal {
    /// The first fault of the words.
    #[error("the words are no command: {0}")]
    Said(Fault),
    #[error("out of memory")]
    Memory,
}

impl From<Fault> for Refusal {
    ghost from_gives = { λ fault refusal. refusal ≡ Said fault };

    fn from(fault: Fault) -> Refusal {
        Refusal::Said(fault)
    }
}

impl From<AllocError> for Refusal {
    ghost from_gives = { λ _ refusal. refusal ≡ Memory };

    fn from(_error: AllocError) -> Refusal {
        Refusal::Memory
    }
}

impl<T: Drop> From<AllocFailed<T>> for Refusal {
    ghost from_gives = { λ _ refusal. refusal ≡ Memory };

    fn from(_error: AllocFailed<T>) -> Refusal {
        Refusal::Memory
    }
}
