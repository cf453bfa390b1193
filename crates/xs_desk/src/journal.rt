//! The notes of a keeper on what it has applied.
use crate::answer::Call;
use xs_replay::LogFailed;
use xs_resp::Reply;
use xs_stream::Moment;

/// In a journal a keeper notes what it has applied, before it hands the answers out.
pub trait Journal {
    ghost use Rattle.std.specs.Prelude.{◌≡◌, ℕ, List, true, false, length, MatchResult};
    ghost use Rattle.xs_keys.specs.Event.{Event};
    ghost use Rattle.xs_keys.specs.Content.{Content};
    ghost use Rattle.xs_keys.specs.Step.{Step};
    ghost use Rattle.xs_keys.specs.Waiting.{ChangesNothing};
    ghost use Rattle.xs_desk.specs.Calls.{IsFormed};
    ghost use Rattle.xs_desk.specs.Noting.{Notes, KeepsAtOnce};

    /// These events were noted, and a crash leaves at least this many of the first of them.
    ghost has: { Self → List Event → ℕ → Type 0 };

    /// The content of the keyspace before the first of them.
    ghost start: { Self → Content };

    /// Whether answers wait until `keep` has returned. If not, what is noted is kept at once.
    fn holds_back() -> bool
        ensures { result ≡ false → KeepsAtOnce has };

    /// Notes a call that was applied, unless it changed nothing. If `in_vain` is true, it changed nothing.
    fn note(&mut self, moment: Moment, call: &Call, reply: &Reply, in_vain: bool)
        requires { IsFormed call.now }
        ensures noted { (old new : Content) → Step old moment call.now.command reply.now new →
            (in_vain ≡ true → ChangesNothing old call.now.command) →
            Notes has self.old (moment, call.now.command) old new self.new }
        ensures start { start self.new ≡ start self.old };

    /// Keeps all that was noted.
    fn keep(&mut self) -> Result<(), LogFailed>
        ensures kept { (events : List Event) (kept : ℕ) → has self.old events kept →
            MatchResult result (λ _. has self.new events (length events)) (λ _. has self.new events kept) }
        ensures start { start self.new ≡ start self.old };
}
