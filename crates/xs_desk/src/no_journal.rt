//! A desk without a log.
use crate::answer::Call;
use crate::journal::Journal;
use xs_replay::LogFailed;
use xs_resp::Reply;
use xs_stream::Moment;

/// The journal of a desk without a log: nothing is noted, and each answer is handed out at once.
#[derive(Clone, Copy, Debug, PartialEq, Eq)]
pub struct NoJournal;

impl Journal for NoJournal {
    ghost use Rattle.xs_bytes.specs.SortedMap.{empty};
    ghost use Rattle.xs_desk.specs.Noting.{HasNoLog};

    ghost has = { HasNoLog };

    ghost start = { λ _. empty };

    fn holds_back() -> bool {
        false
    }

    fn note(&mut self, _moment: Moment, _call: &Call, _reply: &Reply, _in_vain: bool) {}

    fn keep(&mut self) -> Result<(), LogFailed> {
        Ok(())
    }
}
