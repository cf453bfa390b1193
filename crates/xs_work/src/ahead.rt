//! A connection over a reader, a writer and a lane: its requests are asked ahead of the answers.
ghost use Rattle.std.specs.Prelude.{◌≡◌, ◌⊎◌, ◌++◌, ◌∷◌, [], ℕ, List, true, false, Ok};
ghost use Rattle.std.specs.Prelude.{◌<◌, ◌≤◌, length, OnOk, OnErr, IfErr, MatchResult};
ghost use Rattle.xs_io.specs.Passing.{Appends, Consumes};
ghost use Rattle.xs_io.specs.DeviceState.{WriterState, input_of, output_of};
ghost use Rattle.xs_resp.specs.declared.reply.Reply.{Reply};
ghost use Rattle.xs_resp.specs.LeftToWrite.{bytes_left};
ghost use Rattle.xs_command.specs.declared.command.Command.{Command};
ghost use Rattle.xs_desk.specs.Calls.{IsFormed};
ghost use Rattle.xs_desk.specs.Callers.{Caller};
ghost use Rattle.xs_session.specs.declared.manner.Manner.{Manner};
ghost use Rattle.xs_session.specs.Places.{has_open, NoneReady};
ghost use Rattle.xs_session.specs.Session.{IsNew, SessionIsAfter, Waits};
ghost use Rattle.xs_work.specs.Ahead.{IsPart, IsAheadAfter, AheadEnds, AheadFails, ServesAhead, IsDone, IsLost};
ghost use Rattle.xs_work.specs.Ahead.{BreaksOff};
ghost use Rattle.xs_work.specs.Ahead.{HasCauseOf};

use crate::mode::Attend;
use std::alloc::{AllocError, Global};
use std::sync::Wait;
use thiserror::Error;
use xs_bytes::Bytes;
use xs_command::Words;
use xs_connection::Inform;
use xs_desk::{Call, Client, Pause, PortFault};
use xs_io::{FillFault, Sink, Source, write_all};
use xs_session::{Ending, Manner, Next, Session};

/// Why a connection ended before its end.
#[derive(Clone, Copy, Debug, PartialEq, Eq, Error)]
pub enum AheadFault {
    /// The reader failed.
    #[error("reading failed")]
    Read,
    /// The writer failed. What was asked is executed, and some of the answers aren't sent completely.
    #[error("writing failed")]
    Write,
    /// Out of memory.
    #[error("out of memory")]
    Memory,
    /// The lane is gone.
    #[error("nobody answers")]
    Port,
}

/// Hands in the next answer of the lane, if one is waited for and has come. Returns whether it did.
fn take_answer(session: &mut Session, client: &mut Client) -> bool
    ensures after { (first : Caller) (manner : Manner) (read : List ℕ) (asked put : List Command) (sent : List ℕ) →
        IsAheadAfter first client.old manner read asked put sent session.old →
        IsAheadAfter first client.new manner read asked put sent session.new }
    ensures owed { session.new.owed ≡ session.old.owed }
    ensures ended { session.new.ended ≡ session.old.ended }
    ensures held { session.new.requests ≡ session.old.requests }
{
    if !session.is_open() {
        return false;
    }
    match client.take() {
        Some(answer) => {
            session.hand_in(answer.reply);
            true
        }
        None => false,
    }
}

/// Waits for the next answer of the lane, and hands it in.
fn receive<P: Pause, T: Wait>(
    rt: &T,
    session: &mut Session,
    client: &mut Client,
    pause: &P,
) -> Result<(), PortFault>
    ensures after { (first : Caller) (manner : Manner) (read : List ℕ) (asked put : List Command) (sent : List ℕ) →
        IsAheadAfter first client.old manner read asked put sent session.old →
        IsAheadAfter first client.new manner read asked put sent session.new }
    ensures owed { session.new.owed ≡ session.old.owed }
    ensures ended { session.new.ended ≡ session.old.ended }
    ensures held { session.new.requests ≡ session.old.requests }
{
    for _ in rt.forever() {
        let gone = client.is_gone();
        if take_answer(session, client) {
            return Ok(());
        }
        if gone {
            return Err(PortFault::Gone);
        }
        pause.pause(rt, client);
    }
    unreachable!()
}

/// Submits a call that is asked. It must not wait if EXEC released it. While the lane has no room for it, an answer is
/// taken first.
fn submit<P: Pause, T: Wait>(
    rt: &T,
    session: &mut Session,
    client: &mut Client,
    pause: &P,
    call: Call,
) -> Result<(), PortFault>
    requires { IsFormed call }
    ensures after { (first : Caller) (manner : Manner) (read : List ℕ) (asked put : List Command) (sent : List ℕ) →
        IsAheadAfter first client.old manner read asked put sent session.old → MatchResult result
        (λ _. IsAheadAfter first client.new manner read asked (put ++ call.command ∷ []) sent session.new)
        (λ _. IsAheadAfter first client.new manner read asked put sent session.new) }
{
    let mut call = call;
    for _ in rt.forever() {
        match client.submit_call(call) {
            Ok(_) => {
                if session.hurries {
                    client.hurry();
                }
                return Ok(());
            }
            Err(back) => call = back,
        }
        if !session.is_open() {
            return Err(PortFault::Gone);
        }
        receive(rt, session, client, pause)?;
    }
    unreachable!()
}

/// Sends the unsent bytes, piece by piece.
pub fn send_unsent<W: Sink>(writer: &mut W, session: &mut Session) -> Result<(), AheadFault>
    ensures exact { (more : List ℕ) × Appends (W.held writer.old) (W.held writer.new) more × MatchResult result
        (λ _. more ≡ bytes_left session.old.owed) (λ _. IsPart more (bytes_left session.old.owed)) }
    ensures sends { (manner : Manner) (read : List ℕ) (asked : List Command) (got : List Reply) (sent : List ℕ) →
        SessionIsAfter manner read asked got sent session.old →
        (more : List ℕ) × Appends (W.held writer.old) (W.held writer.new) more × MatchResult result
        (λ _. SessionIsAfter manner read asked got (sent ++ more) session.new)
        (λ _. BreaksOff manner read asked got sent more session.new) }
    ensures none { OnOk result (bytes_left session.new.owed ≡ []) }
    ensures places { session.new.places ≡ session.old.places }
    ensures ended { session.new.ended ≡ session.old.ended }
    ensures held { session.new.requests ≡ session.old.requests }
    ensures broken { OnErr result (W.broken writer.new ≡ true) }
{
    'pieces: while !session.output().is_empty() {
        match write_all(writer, session.output()) {
            Ok(_) => session.mark_sent(),
            Err(_) => return Err(AheadFault::Write),
        }
    }
    Ok(())
}

/// Gathers the answers that are there, in their order, up to the first that is waited for, as far as there is room.
/// Returns whether one was there.
fn gather_answers(session: &mut Session) -> bool
    ensures after { (manner : Manner) (read : List ℕ) (asked : List Command) (got : List Reply) (sent : List ℕ) →
        SessionIsAfter manner read asked got sent session.old → SessionIsAfter manner read asked got sent session.new }
    ensures none { result ≡ false → session.new ≡ session.old }
    ensures last { result ≡ false → session.old.owed.behind ≡ [] → NoneReady session.old.places }
    ensures fewer { result ≡ true → length session.new.places < length session.old.places }
    ensures open { has_open session.new.places ≡ has_open session.old.places }
    ensures ended { session.new.ended ≡ session.old.ended }
    ensures held { session.new.requests ≡ session.old.requests }
{
    if !session.begin_answer() {
        return false;
    }
    'answers: while session.begin_answer() {}
    true
}

/// Sends all answers that are there, in their order, up to the first that is waited for.
fn send_ready<W: Sink>(writer: &mut W, session: &mut Session) -> Result<(), AheadFault>
    ensures sends { (manner : Manner) (read : List ℕ) (asked : List Command) (got : List Reply) (sent : List ℕ) →
        SessionIsAfter manner read asked got sent session.old →
        (more : List ℕ) × Appends (W.held writer.old) (W.held writer.new) more × MatchResult result
        (λ _. SessionIsAfter manner read asked got (sent ++ more) session.new)
        (λ _. BreaksOff manner read asked got sent more session.new) }
    ensures none { OnOk result ((bytes_left session.new.owed ≡ []) × NoneReady session.new.places) }
    ensures open { has_open session.new.places ≡ has_open session.old.places }
    ensures ended { session.new.ended ≡ session.old.ended }
    ensures held { session.new.requests ≡ session.old.requests }
    ensures broken { OnErr result (W.broken writer.new ≡ true) }
{
    gather_answers(session);
    match send_unsent(writer, session) {
        Ok(()) => {}
        Err(fault) => return Err(fault),
    }
    'answers: while gather_answers(session) {
        match send_unsent(writer, session) {
            Ok(()) => {}
            Err(fault) => return Err(fault),
        }
    }
    Ok(())
}

/// Takes the answers that are waited for after the writer has failed, so the next connection gets none of them. Returns
/// how the connection ends.
fn give_up<P: Pause, T: Wait>(
    rt: &T,
    session: &mut Session,
    client: &mut Client,
    pause: &P,
) -> AheadFault
    ensures after { (first : Caller) (manner : Manner) (read : List ℕ) (asked put : List Command) (sent : List ℕ) →
        IsAheadAfter first client.old manner read asked put sent session.old →
        IsAheadAfter first client.new manner read asked put sent session.new }
    ensures fault { ((result ≡ AheadFault.Write) × (has_open session.new.places ≡ false)
        × (length session.new.places ≤ 32)) ⊎ (result ≡ AheadFault.Port) }
    ensures owed { session.new.owed ≡ session.old.owed }
{
    for _ in rt.forever() {
        if !session.is_open() {
            return AheadFault::Write;
        }
        match receive(rt, session, client, pause) {
            Ok(()) => {}
            Err(_) => return AheadFault::Port,
        }
    }
    unreachable!()
}

/// Sends the answers that are there before it waits for one.
fn send_before<W: Sink, P: Pause, T: Wait>(
    rt: &T,
    session: &mut Session,
    writer: &mut W,
    client: &mut Client,
    pause: &P,
) -> Result<(), AheadFault>
    ensures after { (first : Caller) (manner : Manner) (read : List ℕ) (asked put : List Command) (sent : List ℕ) →
        IsAheadAfter first client.old manner read asked put sent session.old →
        (more : List ℕ) × Appends (W.held writer.old) (W.held writer.new) more × MatchResult result
        (λ _. IsAheadAfter first client.new manner read asked put (sent ++ more) session.new)
        (λ fault. AheadFails fault first client.new manner read asked put (sent ++ more)) }
    ensures none { OnOk result ((bytes_left session.new.owed ≡ []) × NoneReady session.new.places) }
    ensures open { OnOk result (has_open session.new.places ≡ has_open session.old.places) }
    ensures ended { OnOk result (session.new.ended ≡ session.old.ended) }
    ensures held { OnOk result (session.new.requests ≡ session.old.requests) }
    ensures cause { IfErr result (λ fault. IsLost fault (W.broken writer.new)) }
{
    match send_ready(writer, session) {
        Ok(()) => Ok(()),
        Err(_) => Err(give_up(rt, session, client, pause)),
    }
}

/// Gathers the answers that are there, and waits for the next one until they are to be sent. Returns whether it has
/// come.
fn receive_briefly<P: Pause, T: Wait>(
    rt: &T,
    session: &mut Session,
    client: &mut Client,
    pause: &P,
) -> Result<bool, PortFault>
    ensures after { (first : Caller) (manner : Manner) (read : List ℕ) (asked put : List Command) (sent : List ℕ) →
        IsAheadAfter first client.old manner read asked put sent session.old →
        IsAheadAfter first client.new manner read asked put sent session.new }
    ensures ended { session.new.ended ≡ session.old.ended }
    ensures held { session.new.requests ≡ session.old.requests }
{
    gather_answers(session);
    if session.output().is_empty() {
        return Ok(false);
    }
    for _ in rt.forever() {
        let gone = client.is_gone();
        if take_answer(session, client) {
            return Ok(true);
        }
        if gone {
            return Err(PortFault::Gone);
        }
        if pause.pause_briefly(rt, client) {
            return Ok(false);
        }
    }
    unreachable!()
}

/// Takes an answer if one is waited for, and returns whether it did; else all unsent bytes are sent. It waits long only
/// after what is there is sent.
fn settle<W: Sink, P: Pause, T: Wait>(
    rt: &T,
    session: &mut Session,
    writer: &mut W,
    client: &mut Client,
    pause: &P,
) -> Result<bool, AheadFault>
    ensures after { (first : Caller) (manner : Manner) (read : List ℕ) (asked put : List Command) (sent : List ℕ) →
        IsAheadAfter first client.old manner read asked put sent session.old →
        (more : List ℕ) × Appends (W.held writer.old) (W.held writer.new) more × MatchResult result
        (λ _. IsAheadAfter first client.new manner read asked put (sent ++ more) session.new)
        (λ fault. AheadFails fault first client.new manner read asked put (sent ++ more)) }
    ensures done { result ≡ Ok false → IsDone session.new.places (bytes_left session.new.owed) }
    ensures ended { OnOk result (session.new.ended ≡ session.old.ended) }
    ensures held { OnOk result (session.new.requests ≡ session.old.requests) }
    ensures cause { IfErr result (λ fault. IsLost fault (W.broken writer.new)) }
{
    if take_answer(session, client) {
        return Ok(true);
    }
    if !session.is_open() {
        return match send_before(rt, session, writer, client, pause) {
            Ok(()) => Ok(false),
            Err(fault) => Err(fault),
        };
    }
    match receive_briefly(rt, session, client, pause) {
        Ok(true) => return Ok(true),
        Ok(false) => {}
        Err(_) => return Err(AheadFault::Port),
    }
    match send_before(rt, session, writer, client, pause) {
        Ok(()) => {}
        Err(fault) => return Err(fault),
    }
    match receive(rt, session, client, pause) {
        Ok(()) => Ok(true),
        Err(_) => Err(AheadFault::Port),
    }
}

/// Makes room for further answers: those that are there are gathered; if none is, it settles. If nothing is left to do,
/// the session waits for memory, and other threads go on meanwhile.
fn make_room<W: Sink, P: Attend, T: Wait>(
    rt: &T,
    session: &mut Session,
    writer: &mut W,
    client: &mut Client,
    pause: &P,
) -> Result<(), AheadFault>
    ensures after { (first : Caller) (manner : Manner) (read : List ℕ) (asked put : List Command) (sent : List ℕ) →
        IsAheadAfter first client.old manner read asked put sent session.old →
        (more : List ℕ) × Appends (W.held writer.old) (W.held writer.new) more × MatchResult result
        (λ _. IsAheadAfter first client.new manner read asked put (sent ++ more) session.new)
        (λ fault. AheadFails fault first client.new manner read asked put (sent ++ more)) }
    ensures cause { IfErr result (λ fault. IsLost fault (W.broken writer.new)) }
{
    if gather_answers(session) {
        return Ok(());
    }
    if !session.is_open() && session.output().is_empty() {
        pause.rest();
        return Ok(());
    }
    match settle(rt, session, writer, client, pause) {
        Ok(_) => Ok(()),
        Err(fault) => Err(fault),
    }
}

/// Reads bytes into a session that waits for them. If the connection ends, its end is the error.
fn read_on<R: Source>(
    reader: &mut R,
    session: &mut Session,
) -> Result<(), Result<Ending, AheadFault>>
    requires waits { Waits session.old.ended session.old.requests }
    requires done { IsDone session.old.places (bytes_left session.old.owed) }
    ensures reads { (manner : Manner) (read : List ℕ) (asked : List Command) (got : List Reply) (sent : List ℕ) →
        SessionIsAfter manner read asked got sent session.old →
        (more : List ℕ) × Consumes (R.rest reader.old) (R.rest reader.new) more
        × SessionIsAfter manner (read ++ more) asked got sent session.new }
    ensures ends { IfErr result (λ end. AheadEnds end session.new.ended session.new.requests session.new.places
        (bytes_left session.new.owed)) }
    ensures done { IsDone session.new.places (bytes_left session.new.owed) }
    ensures cause { (output : WriterState) → IfErr result (λ end. HasCauseOf end (input_of R.Source reader.new) output) }
{
    match session.read_from(reader) {
        Ok(0) => Err(Ok(session.end())),
        Ok(_) => Ok(()),
        Err(FillFault::Memory) => Err(Err(AheadFault::Memory)),
        Err(FillFault::Read) => Err(Err(AheadFault::Read)),
    }
}

/// What a worker reports about its server.
#[derive(Drop)]
struct Informant<'a, P> {
    worker: &'a P,
}

impl<P: Attend> Inform for Informant<'_, P> {
    fn inform(&self, alloc: Global, sections: &Words<'_>) -> Result<Bytes, AllocError> {
        self.worker.inform(alloc, sections)
    }
}

/// If a password is required, removes the client's deadline once it has given it, and sets one again if RESET has taken
/// the permission away.
fn greet<P: Attend>(manner: &Manner, session: &Session, pause: &P) {
    if !matches!(manner, Manner::Full(Some(_))) {
        return;
    }
    if manner.is_stranger(&session.standing) {
        pause.ask_for_password();
    } else {
        pause.let_in();
    }
}

/// One step of a connection: a request is taken, or an answer, or all unsent bytes are sent and more is read. If the
/// connection ends, its end is the error.
fn step<R: Source, W: Sink, P: Attend, T: Wait>(
    rt: &T,
    manner: &Manner,
    session: &mut Session,
    reader: &mut R,
    writer: &mut W,
    client: &mut Client,
    pause: &P,
) -> Result<(), Result<Ending, AheadFault>>
    ensures steps { (first : Caller) (read : List ℕ) (asked : List Command) (sent : List ℕ) →
        IsAheadAfter first client.old manner.now read asked asked sent session.old →
        (came went : List ℕ) × Consumes (R.rest reader.old) (R.rest reader.new) came
        × Appends (W.held writer.old) (W.held writer.new) went × MatchResult result
        (λ _. (now : List Command)
        × IsAheadAfter first client.new manner.now (read ++ came) now now (sent ++ went) session.new)
        (λ end. ServesAhead end first client.new manner.now (read ++ came) (sent ++ went)
        × HasCauseOf end (input_of R.Source reader.new) (output_of W.Sink writer.new)) }
{
    let informant = Informant { worker: pause };
    match session.advance(manner, &informant, client.wants_words()) {
        Next::Goes => {
            greet(manner, session, pause);
            Ok(())
        }
        Next::Asks(call) => match submit(rt, session, client, pause, call) {
            Ok(()) => Ok(()),
            Err(_) => Err(Err(AheadFault::Port)),
        },
        Next::Full => match make_room(rt, session, writer, client, pause) {
            Ok(()) => Ok(()),
            Err(fault) => Err(Err(fault)),
        },
        Next::Ends(ending) => match settle(rt, session, writer, client, pause) {
            Ok(true) => Ok(()),
            Ok(false) => Err(Ok(ending)),
            Err(fault) => Err(Err(fault)),
        },
        Next::Waits => match settle(rt, session, writer, client, pause) {
            Ok(true) => Ok(()),
            Ok(false) => {
                pause.note(session.tally);
                read_on(reader, session)
            }
            Err(fault) => Err(Err(fault)),
        },
    }
}

/// Serves a connection through a lane. The commands of its requests are submitted as they are read, while there is room
/// for them, and nothing is read while one of them is open; the answers are sent in the order of the requests.
///
/// # Errors
/// An `AheadFault`. What was asked is executed.
pub fn serve_ahead<R: Source, W: Sink, P: Attend, T: Wait>(
    rt: &T,
    manner: &Manner,
    session: &mut Session,
    reader: &mut R,
    writer: &mut W,
    client: &mut Client,
    pause: &P,
) -> Result<Ending, AheadFault>
    ensures serves { (read sent : List ℕ)
        × Consumes (R.rest reader.old) (R.rest reader.new) read × Appends (W.held writer.old) (W.held writer.new) sent
        × ServesAhead result client.old client.new manner.now read sent }
    ensures cause { HasCauseOf result (input_of R.Source reader.new) (output_of W.Sink writer.new) }
    ensures clear { IsNew manner.now session.new }
{
    session.clear(manner);
    for _ in rt.forever() {
        match step(rt, manner, session, reader, writer, client, pause) {
            Ok(()) => {}
            Err(end) => {
                pause.note(session.tally);
                session.clear(manner);
                return end;
            }
        }
    }
    unreachable!()
}
