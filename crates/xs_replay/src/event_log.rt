//! A log of events, which a crash doesn't lose.
use xs_bytes::Bytes;
use xs_stream::Moment;

/// A call of a log failed. It carries no cause.
#[derive(Clone, Copy, Debug, PartialEq, Eq)]
pub struct LogFailed;

/// A log of events. What was noted is kept once `keep` has returned. After a call has failed the log must not be used
/// any more.
pub trait EventLog {
    ghost use Rattle.std.specs.Prelude.{◌≡◌, ◌++◌, ◌∷◌, [], ℕ, List, Bool, Ok, false, decimal, length, is_err};
    ghost use Rattle.std.specs.Prelude.{MatchResult};
    ghost use Rattle.xs_command.specs.declared.command.Command.{Command};
    ghost use Rattle.xs_command.specs.Read.{command_of_words};
    ghost use Rattle.xs_command.specs.WellFormed.{IsWellFormed};
    ghost use Rattle.xs_keys.specs.Event.{Event};
    ghost use Rattle.xs_tape.specs.Records.{CanBeSpelled, record_words};

    /// It has these events, and a crash leaves at least this many of the first of them. If a call has failed, the last
    /// of them may be written in part.
    ghost has: { Self → List Event → ℕ → Type 0 };

    /// Whether a call has failed.
    ghost broken: { Self → Bool };

    /// Notes the event of a command, which is spelled by these words, after the others.
    fn note(&mut self, now: Moment, words: &[Bytes]) -> Result<(), LogFailed>
        requires sound { broken self.old ≡ false }
        requires short { CanBeSpelled (record_words (decimal now) words.now) }
        ensures noted { (command : Command) (events : List Event) (kept : ℕ) →
            command_of_words words.now ≡ Ok command → IsWellFormed command → has self.old events kept →
            has self.new (events ++ (now, command) ∷ []) kept }
        ensures fault { broken self.new ≡ is_err result };

    /// Keeps all events that were noted.
    fn keep(&mut self) -> Result<(), LogFailed>
        requires sound { broken self.old ≡ false }
        ensures kept { (events : List Event) (kept : ℕ) → has self.old events kept →
            MatchResult result (λ _. has self.new events (length events)) (λ _. has self.new events kept) }
        ensures fault { broken self.new ≡ is_err result };
}
