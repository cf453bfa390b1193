//! Reads a log, and applies its events.
ghost use Rattle.std.specs.Prelude.{◌≡◌, ◌≢◌, ◌⊎◌, [], ℕ, List, Option, None, Some, Ok, Err, false, length, drop};
ghost use Rattle.std.specs.Prelude.{IfOk, IfErr, OnOk};
ghost use Rattle.xs_io.specs.Passing.{known_by, Consumes, IsAtEnd};
ghost use Rattle.xs_bytes.specs.SortedMap.{empty};
ghost use Rattle.xs_resp.specs.Reading.{request};
ghost use Rattle.xs_resp.specs.Grammar.{spelling};
ghost use Rattle.xs_keys.specs.Event.{Event, event_moment};
ghost use Rattle.xs_keys.specs.Content.{Content};
ghost use Rattle.xs_tape.specs.Heads.{MayBeCut, IsCut};
ghost use Rattle.xs_replay.specs.After.{after, contents_after, moment_after};
ghost use Rattle.xs_replay.specs.Log.{IsRecordOf, HasEvents};
ghost use Rattle.xs_log.specs.Fault.{IsWant};
ghost use Rattle.xs_log.specs.Reading.{IsPartOfLog, TakesRequest, MayStand, IsReadUpTo};

use crate::fault::LogFault;
use crate::header::check_header;
use crate::record::{RecordFault, read_record};
use std::alloc::Global;
use xs_io::{Fill, FillFault, Source};
use xs_keys::Keyspace;
use xs_resp::{Fault, Reply, Request, Requests};
use xs_stream::Moment;
use xs_tape::may_be_cut;

/// The content after the events of logs.
#[derive(Drop)]
pub struct Recovered {
    /// The content.
    pub keyspace: Keyspace,
    /// The moment of the last event, if there is one.
    pub last: Option<Moment>,
    /// The number of events, without those that are in a snapshot. It is reported to users, and no contract refers to
    /// it.
    pub records: u64,
}

impl Recovered {
    /// The content before any event.
    pub fn new(alloc: Global) -> Self
        ensures keyspace { result.keyspace ≡ empty }
        ensures last { result.last ≡ None }
    {
        Self {
            keyspace: Keyspace::new(alloc),
            last: None,
            records: 0,
        }
    }

    /// The content of a snapshot.
    pub fn of_snapshot(keyspace: Keyspace, last: Option<Moment>) -> Self
        ensures keyspace { result.keyspace ≡ keyspace }
        ensures last { result.last ≡ last }
    {
        Self {
            keyspace,
            last,
            records: 0,
        }
    }
}

/// The extent of a log.
#[derive(Clone, Copy, Debug, PartialEq, Eq)]
pub struct Extent {
    /// The number of bytes of the header and the records. If it is 0, the log has no header yet.
    pub whole: u64,
    /// The number of bytes of an unfinished record after them.
    pub part: u64,
}

/// Applies the event of a record of `len` bytes.
fn apply_record(
    alloc: Global,
    recovered: &mut Recovered,
    sent: &Request<'_>,
    len: usize,
) -> Result<(), RecordFault>
    requires { sent.now ≢ [] → len ≡ length (spelling sent.now) }
    ensures ok { OnOk result ((event : Event) × IsRecordOf sent.now event
        × (recovered.new.keyspace ≡ after recovered.old.keyspace event)
        × (recovered.new.last ≡ Some (event_moment event))) }
    ensures damaged { result ≡ Err RecordFault.Damaged → (event : Event) → IsRecordOf sent.now event → ⊥ }
{
    match read_record(alloc, sent, len) {
        Err(fault) => Err(fault),
        Ok((now, command)) => match recovered.keyspace.apply(now, &command) {
            Reply::Error(Fault::Memory) => Err(RecordFault::Memory),
            _ => {
                recovered.last = Some(now);
                recovered.records = recovered.records.saturating_add(1);
                Ok(())
            }
        },
    }
}

/// Takes the request at a byte, which has `len` bytes: the header, or a record, whose event is applied.
fn take_request(
    alloc: Global,
    number: u64,
    at: u64,
    recovered: &mut Recovered,
    sent: &Request<'_>,
    len: usize,
) -> Result<(), LogFault>
    requires { sent.now ≢ [] → len ≡ length (spelling sent.now) }
    ensures ok { OnOk result (TakesRequest number at sent.now recovered.old.keyspace recovered.old.last
        recovered.new.keyspace recovered.new.last) }
    ensures err { IfErr result (λ fault. IsWant fault ⊎ (MayStand number at sent.now → ⊥)) }
{
    if at == 0 {
        return check_header(alloc, number, sent, len);
    }
    match apply_record(alloc, recovered, sent, len) {
        Ok(()) => Ok(()),
        Err(RecordFault::Memory) => Err(LogFault::Memory),
        Err(RecordFault::Damaged) => Err(LogFault::Damaged(at)),
    }
}

/// Takes the next request if it is complete, and returns whether it was.
fn take_next(
    alloc: Global,
    number: u64,
    requests: &mut Requests,
    recovered: &mut Recovered,
    at: &mut u64,
) -> Result<bool, LogFault>
    ensures ok { (start : Content) (before : Option ℕ) (seen : List ℕ) →
        IsReadUpTo number start before seen requests.old at.old recovered.old.keyspace recovered.old.last →
        OnOk result (IsReadUpTo number start before seen requests.new at.new
        recovered.new.keyspace recovered.new.last) }
    ensures none { result ≡ Ok false → (rest : List ℕ) × (requests.new ≡ Ok rest) × (request rest ≡ Ok None) }
    ensures err { (start : Content) (before : Option ℕ) (seen : List ℕ) →
        IsReadUpTo number start before seen requests.old at.old recovered.old.keyspace recovered.old.last →
        IsPartOfLog number seen → IfErr result IsWant }
{
    match requests.has_next() {
        Ok(true) => {}
        Ok(false) => return Ok(false),
        Err(_) => return Err(LogFault::Damaged(*at)),
    }
    let len = requests.front_len();
    let Some(end) = at.checked_add(len as u64) else {
        return Err(LogFault::TooLong);
    };
    let sent = requests.front();
    match take_request(alloc, number, *at, recovered, &sent, len) {
        Ok(()) => {}
        Err(fault) => return Err(fault),
    }
    requests.skip();
    *at = end;
    Ok(true)
}

/// The extent of a log that was read to its end, with complete requests up to this byte. What is held after them has to
/// be what a crash may leave of a record.
fn extent_at_end(requests: &Requests, at: u64) -> Result<Extent, LogFault>
    ensures whole { IfOk result (λ extent. extent.whole ≡ at) }
    ensures part { (rest : List ℕ) → requests.now ≡ Ok rest →
        IfOk result (λ extent. (extent.part ≡ length rest) × MayBeCut rest) }
    ensures err { (rest : List ℕ) → requests.now ≡ Ok rest → IsCut rest → IfErr result IsWant }
{
    let part = requests.held_bytes();
    if !may_be_cut(part) {
        return Err(LogFault::Damaged(at));
    }
    Ok(Extent {
        whole: at,
        part: part.len() as u64,
    })
}

/// Reads the log with this number to its end, and applies its events in their order to the content after the logs
/// before it.
///
/// # Errors
/// A `LogFault`. What is recovered must not be used then.
pub fn read_log<R: Source>(
    alloc: Global,
    number: u64,
    recovered: &mut Recovered,
    log: &mut R,
) -> Result<Extent, LogFault>
    // Which bytes were read, and the content after their events.
    ensures ok { IfOk result (λ extent. (bytes : List ℕ) × (events : List Event)
        × Consumes (R.rest log.old) (R.rest log.new) bytes × IsAtEnd (R.rest log.new)
        × HasEvents number bytes events extent.whole extent.part
        × (recovered.new.keyspace ≡ contents_after recovered.old.keyspace events)
        × (recovered.new.last ≡ moment_after recovered.old.last events)) }
    // What follows the complete records may be what a crash left of a record: its lengths haven't changed.
    ensures cut { (bytes : List ℕ) → known_by R.rest log.old ≡ Some bytes →
        IfOk result (λ extent. MayBeCut (drop extent.whole bytes)) }
    // A beginning of a log that was written is never refused.
    ensures err { (bytes : List ℕ) → known_by R.rest log.old ≡ Some bytes → IsPartOfLog number bytes → IfErr result IsWant }
{
    let mut requests = Requests::new(alloc);
    let mut at: u64 = 0;
    for _ in 0..u64::MAX {
        match take_next(alloc, number, &mut requests, recovered, &mut at) {
            Ok(true) => continue,
            Ok(false) => {}
            Err(fault) => return Err(fault),
        }
        match requests.fill(log) {
            Ok(0) => return extent_at_end(&requests, at),
            Ok(_) => {}
            Err(FillFault::Memory) => return Err(LogFault::Memory),
            Err(FillFault::Read) => return Err(LogFault::Device),
        }
    }
    Err(LogFault::TooLong)
}
