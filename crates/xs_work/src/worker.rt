//! A worker: it serves the connections of one gate through one lane.
ghost use Rattle.std.specs.Prelude.{is_err};
ghost use Rattle.xs_desk.specs.KeptRings.{KeepsSide};
ghost use Rattle.xs_work.specs.Gates.{seen};
ghost use Rattle.xs_work.specs.Workers.{ServesOne, Works};

use crate::ahead::{AheadFault, serve_ahead};
use crate::gate::{Gate, GateFault};
use crate::lifecycle::Lifecycle;
use crate::mode::Attend;
use crate::session_memory::SessionMemory;
use crate::texts::say;
use std::sync::Wait;
use thiserror::Error;
use xs_desk::{Client, Ended};
use xs_io::{Sink, Source};
use xs_session::{Ending, Manner};

/// A worker before its thread is started.
#[derive(Drop)]
pub struct Worker<G: Drop, P: Drop> {
    pub client: Client,
    pub gate: G,
    /// How it waits for an answer.
    pub pause: P,
    pub memory: SessionMemory,
}

/// Why a worker ended before the end of its gate.
#[derive(Clone, Copy, Debug, PartialEq, Eq, Error)]
pub enum WorkerFault {
    /// It did not begin, because not all threads were started.
    #[error("a thread wasn't started")]
    Start,
    /// Its gate refused a connection.
    #[error("a connection can't be taken")]
    Gate,
    /// Its lane is gone.
    #[error("nobody answers")]
    Lane,
}

/// What is left of a worker.
#[derive(Drop)]
pub struct Worked<G: Drop> {
    /// The end of its lane.
    pub ended: Ended,
    pub gate: G,
    pub outcome: Result<(), WorkerFault>,
}

/// The error for a connection for which there is no memory.
const NO_MEMORY: &[u8] = b"-OOM out of memory\r\n";

/// Serves one connection. If it ends out of memory, that is reported to its client.
///
/// # Errors
/// An `AheadFault`, which ends only this connection, except `Port`.
fn serve_one<S: Source, W: Sink, P: Attend, R: Wait>(
    rt: &R,
    manner: &Manner,
    memory: &mut SessionMemory,
    reader: &mut S,
    writer: &mut W,
    client: &mut Client,
    pause: &P,
) -> Result<Ending, AheadFault>
    ensures { ServesOne manner.now result client.old client.new
        (seen S.Source W.Sink (reader.old, writer.old)) (seen S.Source W.Sink (reader.new, writer.new)) }
{
    let Ok(session) = memory.session() else {
        say(writer, NO_MEMORY);
        return Err(AheadFault::Memory);
    };
    let served = serve_ahead(rt, manner, session, reader, writer, client, pause);
    if served == Err(AheadFault::Memory) {
        say(writer, NO_MEMORY);
        return served;
    }
    served
}

/// Serves the connections of a gate, one after the other, up to the last, and gives each back to the gate. The fault of
/// a connection ends only that connection. If the keeper is gone, no further connection is served.
///
/// # Errors
/// `Gate` or `Lane`.
fn serve_gate<G: Gate, P: Attend, R: Wait>(
    rt: &R,
    memory: &mut SessionMemory,
    gate: &mut G,
    client: &mut Client,
    pause: &P,
) -> Result<(), WorkerFault>
    ensures { Works (is_err result) client.old client.new (G.trace gate.old) (G.trace gate.new) }
{
    for _ in rt.forever() {
        let (mut reader, mut writer) = match gate.open_next(rt) {
            Ok(Some(connection)) => connection,
            Ok(None) => return Ok(()),
            Err(GateFault::Refused) => return Err(WorkerFault::Gate),
        };
        let served = serve_one(
            rt,
            &gate.manner(),
            memory,
            &mut reader,
            &mut writer,
            client,
            pause,
        );
        gate.close(reader, writer);
        if matches!(served, Err(AheadFault::Port)) {
            return Err(WorkerFault::Lane);
        }
    }
    unreachable!()
}

/// Waits until the work begins, serves the gate, and ends the client.
pub fn run_worker<G: Gate + Drop, P: Attend + Drop, R: Wait>(
    rt: &R,
    worker: Worker<G, P>,
    lifecycle: &Lifecycle,
) -> Worked<G>
    ensures side { KeepsSide worker.client result.ended }
    ensures works { Works (is_err result.outcome) worker.client result.ended
        (G.trace worker.gate) (G.trace result.gate) }
{
    let Worker {
        mut client,
        mut gate,
        pause,
        mut memory,
    } = worker;
    if !lifecycle.wait_to_begin(rt) {
        return Worked {
            ended: client.finish(),
            gate,
            outcome: Err(WorkerFault::Start),
        };
    }
    let outcome = serve_gate(rt, &mut memory, &mut gate, &mut client, &pause);
    lifecycle.end_worker();
    Worked {
        ended: client.finish(),
        gate,
        outcome,
    }
}
