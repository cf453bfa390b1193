//! What a session sends commands to.
use crate::answer::Call;
use std::sync::Wait;
use thiserror::Error;
use xs_command::Command;
use xs_resp::Reply;

/// Why a port gave no reply.
#[derive(Clone, Copy, Debug, PartialEq, Eq, Error)]
pub enum PortFault {
    /// The keeper has stopped.
    #[error("nobody answers any more")]
    Gone,
}

/// What serves commands, one at a time. Each implementation defines which replies are possible.
pub trait Port {
    ghost use Rattle.std.specs.Prelude.{◌≡◌, ◌||◌, Bool, MatchResult, is_err};
    ghost use Rattle.xs_command.specs.WellFormed.{IsWellFormed};
    ghost use Rattle.xs_desk.specs.Calls.{IsFormed};
    ghost use Rattle.xs_command.specs.declared.command.Command.{Command};
    ghost use Rattle.xs_resp.specs.declared.reply.Reply.{Reply};

    /// The state before, the command, the reply, the state after.
    ghost replies: { Self → Command → Reply → Self → Type 0 };

    /// The state before, the command, the state after, if there was no reply.
    ghost fails: { Self → Command → Self → Type 0 };

    /// Whether a call has returned a fault.
    ghost gone: { Self → Bool };

    /// Whether a call has to contain the words that spell its command.
    fn wants_words(&self) -> bool;

    /// Returns the reply to one call. It may wait.
    ///
    /// # Errors
    /// `Gone`, and the port is gone for good. The command may have been executed.
    fn ask_call<R: Wait>(&mut self, rt: &R, call: Call) -> Result<Reply, PortFault>
        requires { IsFormed call }
        ensures asked { MatchResult result
            (λ reply. replies self.old call.command reply self.new) (λ _. fails self.old call.command self.new) }
        ensures fault { gone self.new ≡ (gone self.old || is_err result) };

    /// Returns the reply to one command, without its words. It may wait.
    ///
    /// # Errors
    /// `Gone`, and the port is gone for good. The command may have been executed.
    fn ask<R: Wait>(&mut self, rt: &R, command: Command) -> Result<Reply, PortFault>
        requires { IsWellFormed command }
        ensures asked { MatchResult result
            (λ reply. replies self.old command reply self.new) (λ _. fails self.old command self.new) }
        ensures fault { gone self.new ≡ (gone self.old || is_err result) }
    {
        self.ask_call(
            rt,
            Call {
                command,
                words: None,
            },
        )
    }
}
