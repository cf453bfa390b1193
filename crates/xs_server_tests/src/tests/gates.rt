//! Work over gates that aren't sockets.
ghost use Rattle.std.specs.Prelude.{◌≡◌, IfOk, IfSome};
ghost use Rattle.xs_work.specs.Gates.{AreFresh};

use super::*;
use crate::tests::fakes::{InTwo, Still, Tally};
use std::sync::atomic::{AtomicU64, Ordering};
use std::sync::{Arc, Wait};
use std::thread::Threads;
use xs_desk::{DeskError, LaneSummary, Summary};
use xs_io::{Failed, Sink, Source};
use xs_session::Manner;
use xs_stream::Moment;
use xs_work::{Gate, GateFault, Register, WorkFault, WorkOutcome, work};

/// The number of looks of a reader for whether it may give more.
const LOOKS: u64 = 1_000_000;

const PONG: &[u8] = b"+PONG\r\n";

/// A clock that is always at moment 1000.
fn still() -> Still {
    Still {
        moment: Moment::new(1000).unwrap(),
    }
}

/// One connection of a gate.
#[derive(Clone, Copy)]
struct Script {
    first: &'static [u8],
    others: &'static [u8],
    wants: u64,
    fails: bool,
}

/// The reader of a connection.
#[derive(Drop)]
struct Incoming(FromRead<InTwo<'static>>);

impl Source for Incoming {
    ghost rest = { λ s. ⟦<FromRead<InTwo<'static>> as Source>⟧.rest s.0 };

    ghost calls = { λ s. ⟦<FromRead<InTwo<'static>> as Source>⟧.calls s.0 };

    ghost broken = { λ s. ⟦<FromRead<InTwo<'static>> as Source>⟧.broken s.0 };

    ghost ended = { λ s. ⟦<FromRead<InTwo<'static>> as Source>⟧.ended s.0 };

    fn read(&mut self, into: &mut [u8]) -> Result<usize, Failed> {
        self.0.read(into)
    }
}

/// The writer of a connection.
#[derive(Drop)]
struct Outgoing(ToWrite<Tally>);

impl Sink for Outgoing {
    ghost held = { λ s. ⟦<ToWrite<Tally> as Sink>⟧.held s.0 };

    ghost calls = { λ s. ⟦<ToWrite<Tally> as Sink>⟧.calls s.0 };

    ghost broken = { λ s. ⟦<ToWrite<Tally> as Sink>⟧.broken s.0 };

    fn write(&mut self, from: &[u8]) -> Result<usize, Failed> {
        self.0.write(from)
    }
}

/// A gate with some connections, which counts the replies to them, and then refuses a connection or ends.
#[derive(Drop)]
struct Scripted {
    connections: &'static [Script],
    refuses: bool,
    counted: Arc<AtomicU64>,
    awaited: Arc<AtomicU64>,
    register: Register<Incoming, Outgoing>,
}

impl Scripted {
    /// The reader and the writer of the next connection. None after the last.
    fn take_next(&mut self) -> Result<Option<(Incoming, Outgoing)>, GateFault>
        ensures same { self.new.register ≡ self.old.register }
        ensures fresh { IfOk result (λ next. IfSome next (λ one. AreFresh (⟦<Incoming as Source>⟧.rest one.0)
            (⟦<Outgoing as Sink>⟧.held one.1))) }
    {
        let [script, left @ ..] = self.connections else {
            return if self.refuses {
                Err(GateFault::Refused)
            } else {
                Ok(None)
            };
        };
        self.connections = left;
        let (Ok(awaited), Ok(counted)) = (
            Arc::try_clone(&self.awaited),
            Arc::try_clone(&self.counted),
        ) else {
            return Err(GateFault::Refused);
        };
        let reader = FromRead::new(InTwo {
            first: script.first,
            others: script.others,
            wants: script.wants,
            counted: awaited,
            looks: LOOKS,
        });
        let writer = ToWrite::new(Tally::new(PONG, script.fails, counted));
        Ok(Some((Incoming(reader), Outgoing(writer))))
    }
}

impl Gate for Scripted {
    type Reader = Incoming;

    type Writer = Outgoing;

    ghost use Rattle.xs_session.specs.declared.manner.Manner.TheVariants.{Plain};
    ghost use Rattle.xs_work.specs.Gates.{with_manner};

    ghost trace = { λ g. with_manner Plain g.register };

    fn manner(&self) -> Manner {
        Manner::Plain
    }

    fn open_next<R: Wait>(&mut self, _rt: &R) -> Result<Option<(Incoming, Outgoing)>, GateFault> {
        match self.take_next() {
            Ok(Some(connection)) => {
                self.register.give(&connection);
                Ok(Some(connection))
            }
            Ok(None) => {
                self.register.end();
                Ok(None)
            }
            Err(fault) => {
                self.register.end();
                Err(fault)
            }
        }
    }

    fn close(&mut self, reader: Incoming, writer: Outgoing) {
        self.register.take_back(&(reader, writer));
    }
}

/// A complete PING.
const PING: Script = Script {
    first: b"*1\r\n$4\r\nPING\r\n",
    others: b"",
    wants: 0,
    fails: false,
};

/// A PING whose end comes after the other gate's replies are counted.
const LATE_PING: Script = Script {
    first: b"*1\r\n$4\r\nPI",
    others: b"NG\r\n",
    wants: 1,
    fails: false,
};

/// A PING whose reply can't be written.
const UNHEARD_PING: Script = Script {
    first: b"*1\r\n$4\r\nPING\r\n",
    others: b"",
    wants: 0,
    fails: true,
};

/// Why work failed, and the summary that it has all the same.
type Fault = (WorkFault, Option<Summary>);

/// The summary of the outcome of work.
fn summary_of(outcome: Option<WorkOutcome<Scripted>>) -> Option<Summary> {
    match outcome {
        Some(outcome) => Some(outcome.summary),
        None => None,
    }
}

/// Works over two gates, each of which may wait for the replies to the other one. Returns the result of `work`, and the
/// number of replies that were counted at each.
fn work_over<R: Threads + Wait + Copy + Send + 'static>(
    rt: &R,
    alloc: Global,
    one: &'static [Script],
    other: &'static [Script],
    other_refuses: bool,
) -> Result<(Result<Summary, Fault>, u64, u64), AllocError> {
    let counted = Arc::new(alloc, AtomicU64::new(0))?;
    let counted_there = Arc::new(alloc, AtomicU64::new(0))?;
    let mut gates = Vec::new(alloc);
    gates.push(Scripted {
        connections: one,
        refuses: false,
        counted: Arc::try_clone(&counted)?,
        awaited: Arc::try_clone(&counted_there)?,
        register: Register::new(),
    })?;
    gates.push(Scripted {
        connections: other,
        refuses: other_refuses,
        counted: Arc::try_clone(&counted_there)?,
        awaited: Arc::try_clone(&counted)?,
        register: Register::new(),
    })?;
    let worked = match work(rt, alloc, gates, 16, still()) {
        Ok(outcome) => Ok(outcome.summary),
        Err(failed) => Err((failed.fault, summary_of(failed.outcome))),
    };
    Ok((
        worked,
        counted.load(Ordering::SeqCst),
        counted_there.load(Ordering::SeqCst),
    ))
}

fn served(count: u64) -> LaneSummary {
    LaneSummary {
        served: count,
        left: 0,
        untaken: 0,
    }
}

// The first connection gets its end only after the second one is answered: each has a thread of its own, and both are
// served by one keeper.
#[test]
fn gate_two_connections(rt: HostRuntime) -> Result<(), Fail> {
    let (worked, one, other) = work_over(&rt, rt.alloc(), &[LATE_PING], &[PING], false)?;
    assert_eq!(rt; (one, other), (1, 1));
    let summary = worked.ok().ok_or("a summary")?;
    assert_eq!(rt; summary.lanes.as_slice(), [served(1), served(1)].as_slice());
    Ok(())
}

#[test]
fn a_gate_that_refuses_ends_alone(rt: HostRuntime) -> Result<(), Fail> {
    let (worked, one, _) = work_over(&rt, rt.alloc(), &[PING], &[], true)?;
    assert_eq!(rt; one, 1);
    let (fault, summary) = worked.err().ok_or("a fault")?;
    assert_eq!(rt; fault, WorkFault::Gate);
    let lanes = summary.ok_or("a summary")?.lanes;
    assert_eq!(rt; lanes.as_slice(), [served(1), served(0)].as_slice());
    Ok(())
}

#[test]
fn a_failed_connection_ends_alone(rt: HostRuntime) -> Result<(), Fail> {
    let (worked, one, other) = work_over(
        &rt,
        rt.alloc(),
        &[UNHEARD_PING, PING],
        &[PING, PING],
        false,
    )?;
    assert_eq!(rt; (one, other), (1, 2));
    let summary = worked.ok().ok_or("a summary")?;
    assert_eq!(rt; summary.lanes.as_slice(), [served(2), served(2)].as_slice());
    Ok(())
}

// With any one allocation refused, in any thread, work returns a summary or reports what it lacked; then it succeeds.
#[test]
fn a_refused_work_is_done_again(rt: HostRuntime) -> Result<(), Fail> {
    if let Ok((Err((fault, _)), _, _)) = work_over(&rt, rt.alloc(), &[PING], &[PING], false) {
        assert!(rt;
            matches!(
                fault,
                WorkFault::Desk(DeskError::Memory) | WorkFault::Start | WorkFault::Memory
            )
        );
    }
    let (worked, one, other) = work_over(&rt, rt.alloc(), &[PING], &[PING], false)?;
    assert_eq!(rt; (one, other), (1, 1));
    let summary = worked.ok().ok_or("a summary")?;
    assert_eq!(rt; summary.lanes.as_slice(), [served(1), served(1)].as_slice());
    Ok(())
}

#[test]
fn without_a_gate_there_is_no_desk(rt: HostRuntime) -> Result<(), Fail> {
    let alloc = rt.alloc();
    let gates: Vec<Scripted> = Vec::new(alloc);
    let failed = work(&rt, alloc, gates, 16, still()).err().ok_or("a fault")?;
    assert_eq!(rt; failed.fault, WorkFault::Desk(DeskError::Lanes));
    Ok(())
}
