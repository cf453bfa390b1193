//! A keyspace and a clock, without a keeper.
ghost use Rattle.std.specs.Prelude.{◌≡◌, ℕ, false};
ghost use Rattle.xs_keys.specs.Step.{Step};

use crate::answer::Call;
use crate::port::{Port, PortFault};
use std::sync::Wait;
use xs_keys::{Clock, Keyspace};
use xs_resp::Reply;

/// A keyspace to which commands are applied at the moments of a clock. It is never gone.
#[derive(Drop)]
pub struct Alone<C: Clock + Drop> {
    /// The keyspace.
    pub keyspace: Keyspace,
    /// The clock that gives the moment of each call.
    pub clock: C,
}

impl<C: Clock + Drop> Port for Alone<C> {
    ghost replies = { λ old command answer new. (now : ℕ)
        × C.gives old.clock now new.clock × Step old.keyspace now command answer new.keyspace };

    ghost fails = { λ old command new. ⊥ };

    ghost gone = { λ port. false };

    fn wants_words(&self) -> bool {
        false
    }

    fn ask_call<R: Wait>(&mut self, _rt: &R, call: Call) -> Result<Reply, PortFault> {
        let now = self.clock.now();
        Ok(self.keyspace.apply(now, &call.command))
    }
}
