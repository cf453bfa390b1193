//! A desk with a log.
ghost use Rattle.std.specs.Prelude.{◌≡◌};
ghost use Rattle.xs_replay.specs.Calls.{only_reads, is_left_out};

use crate::answer::Call;
use crate::journal::Journal;
use std::marker::Model;
use std::snapshot::Snapshot;
use xs_command::Command;
use xs_keys::Keyspace;
use xs_replay::{EventLog, LogFailed};
use xs_resp::Reply;
use xs_stream::Moment;

/// The journal of a desk with a log: calls that may have changed something are noted, and an answer waits until the
/// log keeps the events of its call and of those before it.
#[derive(Drop)]
pub struct LogJournal<L: EventLog + Drop> {
    log: L,
    // Whether the log must not be used any more.
    failed: bool,
    // The number of events that were noted, and the number of those that are kept.
    noted: u64,
    kept: u64,
    first: Snapshot<Keyspace>,
    start: Snapshot<Keyspace>,
}

impl<L: EventLog + Drop> Model for LogJournal<L> {
    ghost use Rattle.xs_desk.specs.LogJournals.{Logging};

    ghost Value = { Logging L };

    ghost use Rattle.std.specs.Prelude.{◌≡◌, false};

    ghost view = { λ j. record { log = j.log; failed = j.failed; first = j.first.value; start = j.start.value } };

    ghost invariant = { λ j. j.failed ≡ false → L.broken j.log ≡ false };
}

/// Whether a command only reads.
fn reads(command: &Command) -> bool
    ensures { result ≡ only_reads command.now }
{
    matches!(
        command,
        Command::Ping(_)
            | Command::Quit
            | Command::Len { .. }
            | Command::Scan(_)
            | Command::Pending { .. }
            | Command::PendingRows(_)
            | Command::Inspect(_)
    )
}

/// Whether a log leaves out a call with this reply: it only reads, or was refused.
fn may_be_left_out(command: &Command, reply: &Reply) -> bool
    ensures { result ≡ is_left_out command.now reply.now }
{
    reads(command) || matches!(reply, Reply::Error(_))
}

impl<L: EventLog + Drop> LogJournal<L> {
    ghost use Rattle.std.specs.Prelude.{◌≡◌, ◌++◌, ◌∷◌, [], ℕ, List, length, false};
    ghost use Rattle.xs_keys.specs.Event.{Event};
    ghost use Rattle.xs_desk.specs.Calls.{IsFormed};
    ghost use Rattle.xs_desk.specs.LogJournals.{HasEvents, ContinuesLog};

    /// A journal that continues a log, whose events have left the content of this keyspace, from the content `first`.
    pub(crate) fn new(log: L, first: Snapshot<Keyspace>, keyspace: &Keyspace) -> LogJournal<L>
        requires log { ContinuesLog L.has first.value log keyspace.now }
        requires sound { L.broken log ≡ false }
        ensures has { HasEvents L.has result.log result.failed result.first result.start [] 0 }
        ensures first { result.first ≡ first.value }
        ensures start { result.start ≡ keyspace.now }
    {
        LogJournal {
            log,
            failed: false,
            noted: 0,
            kept: 0,
            first,
            start: Snapshot::of(keyspace),
        }
    }

    /// Whether the log must not be used any more.
    pub(crate) fn has_failed(&self) -> bool {
        self.failed
    }

    /// The number of events that are known to be kept, without those that the log had at the start.
    pub(crate) fn events_kept(&self) -> u64 {
        self.kept
    }

    /// Appends the event of a call to the log. If that fails, the log has failed.
    fn append(&mut self, moment: Moment, call: &Call)
        requires { IsFormed call.now }
        ensures noted { (events : List Event) (kept : ℕ) →
            HasEvents L.has self.old.log self.old.failed self.old.first self.old.start events kept →
            HasEvents L.has self.new.log self.new.failed self.new.first self.new.start
            (events ++ (moment, call.now.command) ∷ []) kept }
        ensures start { self.new.start ≡ self.old.start }
    {
        if self.failed {
            return;
        }
        let Some(words) = &call.words else {
            self.failed = true;
            return;
        };
        if self.log.note(moment, words.as_slice()).is_err() {
            self.failed = true;
            return;
        }
        self.noted = self.noted.saturating_add(1);
    }
}

impl<L: EventLog + Drop> Journal for LogJournal<L> {
    ghost use Rattle.xs_desk.specs.LogJournals.{HasEvents};

    ghost has = { λ journal. HasEvents L.has journal.log journal.failed journal.first journal.start };

    ghost start = { λ journal. journal.start };

    fn holds_back() -> bool {
        true
    }

    fn note(&mut self, moment: Moment, call: &Call, reply: &Reply, in_vain: bool) {
        if in_vain {
            return;
        }
        if may_be_left_out(&call.command, reply) {
            return;
        }
        self.append(moment, call);
    }

    fn keep(&mut self) -> Result<(), LogFailed> {
        if self.failed {
            return Err(LogFailed);
        }
        if self.log.keep().is_err() {
            self.failed = true;
            return Err(LogFailed);
        }
        self.kept = self.noted;
        Ok(())
    }
}
