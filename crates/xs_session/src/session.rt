//! The session of a connection.
ghost use Rattle.std.specs.Prelude.{◌≡◌, ◌≢◌, ◌+◌, ◌<◌, ◌≤◌, ◌++◌, ◌∷◌, ◌⊎◌, List, ℕ, [], Ok, Err, Some, None};
ghost use Rattle.std.specs.Prelude.{true, false, length, is_some, if◌then◌else◌, IfOk, OnErr};
ghost use Rattle.xs_io.specs.Passing.{Keeps};
ghost use Rattle.xs_io.specs.Device.{counter_at, Gave};
ghost use Rattle.xs_io.specs.declared.fill.FillFault.{FillFault};
ghost use Rattle.xs_resp.specs.declared.reply.Reply.{Reply};
ghost use Rattle.xs_resp.specs.HeldBytes.{HasNext, Skips, front_of, holds_bytes, with_piece};
ghost use Rattle.xs_resp.specs.ReplyText.{text};
ghost use Rattle.xs_resp.specs.LeftToWrite.{bytes_left};
ghost use Rattle.xs_command.specs.declared.command.Command.{Command};
ghost use Rattle.xs_desk.specs.declared.answer.Call.{Call};
ghost use Rattle.xs_desk.specs.Calls.{IsFormed};
ghost use Rattle.xs_session.specs.declared.ending.Ending.{Ending};
ghost use Rattle.xs_session.specs.declared.places.Place.TheVariants as place;
ghost use Rattle.xs_session.specs.Places.{is_open, has_open, fill_first, NoneReady};
ghost use Rattle.xs_session.specs.Answers.{is_alone};
ghost use Rattle.xs_session.specs.Session.{SessionIsAfter, IsNew, IsGathered, Waits, Takes, TakesPlace, AsksOrWaits};
ghost use Rattle.xs_session.specs.Taking.{IsUnknown};
ghost use Rattle.xs_session.specs.Session.{asked_in, ending_of, IsFirst, IsHeard, ReleasesOrWaits};
ghost use Rattle.xs_command.specs.Read.{command_of_words};
ghost use Rattle.xs_command.specs.WellFormed.{IsWellFormed};
ghost use Rattle.xs_desk.specs.Calls.{AreWordsOf};
ghost use Rattle.xs_connection.specs.Transaction.{released_of};
ghost use Rattle.xs_connection.specs.declared.transaction.Transaction.{Transaction};
ghost use Rattle.xs_session.specs.declared.manner.Manner.{Manner};

use crate::ending::Ending;
use crate::informing::take_info;
use crate::manner::Manner;
use crate::places::{AHEAD, Place, Places};
use crate::releasing::command_of_released;
use crate::reserve::Reserve;
use crate::strangers::is_too_much;
use crate::taking::{Taking, names_addition, take_request};
use crate::tally::Tally;
use std::alloc::{AllocError, Global};
use xs_bytes::U63;
use xs_command::Command;
use xs_connection::{Inform, Standing};
use xs_desk::Call;
use xs_io::{Fill, FillFault, Source};
use xs_resp::{Encoder, Fault, Reply, Request, Requests};

/// What a session does next.
#[derive(Debug, Drop)]
pub enum Next {
    /// It goes on.
    Goes,
    /// This call is asked. `hand_in` takes its reply.
    Asks(Call),
    /// It waits for bytes.
    Waits,
    /// It takes no further request until answers that it waits for are there, and are gathered. If it waits for none,
    /// it waits for memory: the caller lets other threads go on, and tries again.
    Full,
    /// It takes no further request.
    Ends(Ending),
}

/// The bytes of requests that can be held without more memory: those of one read, and twice a request of 16 KiB.
const REQUEST_BYTES: usize = 131_072;

/// How often a session waits at most for a piece of its reserve before it takes requests without one.
const MOST_WAITS: u32 = 20;

/// The most sessions at once.
const MOST_SESSIONS: u64 = 1024;

/// A session: the bytes that were read and aren't taken yet, the places of the answers to the requests that were taken,
/// and the unsent bytes of the answers that are begun.
#[derive(Drop)]
pub struct Session {
    alloc: Global,
    reserve: Reserve,
    /// The state of the connection.
    pub standing: Standing,
    pub requests: Requests,
    pub places: Places,
    /// The unsent bytes.
    pub owed: Encoder,
    /// Why no further request is taken.
    pub ended: Option<Ending>,
    /// Whether every answer has to be gathered before a request is taken: the last command was asked alone, or the next
    /// one will be.
    pub alone: bool,
    /// Whether EXEC released the last command: then a read with BLOCK must not wait.
    pub hurries: bool,
    /// The number of answers, in this session and in those before it over the same memory.
    pub tally: Tally,
    // The most answers that may have places: fewer while memory is refused.
    most: usize,
    // How often it may still wait for a piece of its reserve until there is one again.
    waits_left: u32,
}

/// How a session ends after a command, if it does.
fn end_by(command: &Command) -> Option<Ending>
    ensures { result ≡ ending_of command.now }
{
    match command {
        Command::Quit => Some(Ending::Quit),
        _ => None,
    }
}

/// A new connection with this number.
fn first_standing(alloc: Global, manner: &Manner, id: U63) -> Standing
    ensures { IsFirst manner.now result }
{
    match manner {
        Manner::Plain => Standing::new(alloc, &None, id),
        Manner::Full(wanted) => Standing::new(alloc, wanted, id),
    }
}

/// The number of the next connection over the same memory. It differs from those over other memory.
fn next_id(id: U63) -> U63 {
    let next = id.get().checked_add(MOST_SESSIONS);
    next.and_then(U63::checked).unwrap_or(id)
}

/// Whether the reply to a command may have any size, or may take long.
fn is_alone(command: &Command) -> bool
    ensures { result ≡ is_alone command.now }
{
    matches!(
        command,
        Command::Scan(_)
            | Command::ReadGroup(_)
            | Command::PendingRows(_)
            | Command::Claim(_)
            | Command::AutoClaim(_)
            | Command::Inspect(_)
    )
}

/// The most answers that may have places after a reply: one if memory was refused, and then one more with each reply.
/// So a client that adds while memory is full has few commands that only take memory.
fn next_most(most: usize, reply: &Reply) -> usize {
    if matches!(reply, Reply::Error(Fault::Memory)) {
        return 1;
    }
    most.saturating_add(1).min(AHEAD)
}

/// Fills the reserve as far as memory is found. Returns whether a request has to wait, because the reserve is empty.
/// Additions don't wait, and others at most `MOST_WAITS` times.
fn waits_for_memory(
    alloc: Global,
    reserve: &mut Reserve,
    waits_left: &mut u32,
    words: Request<'_>,
) -> bool {
    let _ = reserve.fill(alloc);
    if !reserve.is_empty() {
        *waits_left = MOST_WAITS;
        return false;
    }
    if *waits_left == 0 || names_addition(words) {
        return false;
    }
    *waits_left -= 1;
    true
}

impl Session {
    ghost use Rattle.xs_io.specs.declared.fill.FillFault.{FillFault};
    ghost use Rattle.xs_session.specs.declared.ending.Ending.{Ending};

    /// A session before its first byte, with all the memory that small requests need. Its connection has the number
    /// `id`.
    pub fn new(alloc: Global, manner: &Manner, id: U63) -> Result<Self, AllocError>
        ensures { IfOk result (IsNew manner.now) }
    {
        Ok(Self {
            alloc,
            reserve: Reserve::new(alloc)?,
            standing: first_standing(alloc, manner, id),
            requests: Requests::with_capacity(alloc, REQUEST_BYTES)?,
            places: Places::new(alloc)?,
            owed: Encoder::new(alloc)?,
            ended: None,
            alone: false,
            hurries: false,
            tally: Tally::default(),
            most: AHEAD,
            waits_left: MOST_WAITS,
        })
    }

    /// Begins the next session, with the memory of this one.
    pub fn clear(&mut self, manner: &Manner)
        ensures { IsNew manner.now self.new }
    {
        self.standing = first_standing(self.alloc, manner, next_id(self.standing.id));
        self.requests.clear();
        self.places.clear();
        self.owed.clear();
        self.ended = None;
        self.alone = false;
        self.hurries = false;
        self.most = AHEAD;
        self.waits_left = MOST_WAITS;
    }

    /// Whether every answer is begun, and all unsent bytes are gathered.
    fn is_gathered(&self) -> bool
        ensures { result ≡ true → IsGathered self.now }
    {
        self.places.is_empty() && self.owed.is_gathered()
    }

    /// Whether the next request has to wait until every answer is gathered.
    fn waits_alone(&mut self) -> bool
        ensures waits { result ≡ true → self.new ≡ self.old }
        ensures goes { result ≡ false → self.new ≡ record self.old { alone = false } }
        ensures settled { result ≡ false → self.old.alone ≡ true → IsGathered self.old }
    {
        if !self.alone {
            return false;
        }
        if !self.is_gathered() {
            return true;
        }
        self.alone = false;
        false
    }

    /// Takes the next request, if there is one and room for its answer. A call has its words if `wants_words` is true.
    /// `inform` gives the text of INFO.
    ///
    /// A command whose reply may have any size, or may take long, is asked only once every answer before it is
    /// gathered, and the next one once its own is. So at most one reply of any size is held.
    pub fn advance<I: Inform>(&mut self, manner: &Manner, inform: &I, wants_words: bool) -> Next
        ensures after { (read : List ℕ) (asked : List Command) (got : List Reply) (sent : List ℕ) →
            SessionIsAfter manner.now read asked got sent self.old →
            SessionIsAfter manner.now read (asked ++ asked_in result) got sent self.new }
        ensures formed { (call : Call) → result ≡ Next.Asks call → IsFormed call }
        ensures words { wants_words ≡ true → (call : Call) → result ≡ Next.Asks call → is_some call.words ≡ true }
        ensures alone { (call : Call) → result ≡ Next.Asks call →
            (self.old.alone ≡ true) ⊎ (is_alone call.command ≡ true) → IsGathered self.old }
        ensures ended { (ending : Ending) → result ≡ Next.Ends ending → self.new.ended ≡ Some ending }
        ensures waits { result ≡ Next.Waits → Waits self.new.ended self.new.requests }
        ensures heard { released_of self.old.standing.transaction ≡ [] →
            IsHeard manner.now self.old.standing self.old.requests result }
        ensures released { result ≡ Next.Waits → released_of self.new.standing.transaction ≡ [] }
        ensures places { TakesPlace result self.old.places self.new.places }
        ensures owed { self.new.owed ≡ self.old.owed }
    {
        match self.ended {
            Some(ending) => return Next::Ends(ending),
            None => {}
        }
        if !self.places.has_room(self.most) || self.waits_alone() {
            return Next::Full;
        }
        match self.standing.transaction.next() {
            Some(_) => self.run_next(wants_words),
            None => self.take_next(manner, inform, wants_words),
        }
    }

    /// Takes the next of the requests that EXEC has released. There has to be one, and room for its answer.
    fn run_next(&mut self, wants_words: bool) -> Next
        requires released { 0 < length (released_of self.old.standing.transaction) }
        requires room { length self.old.places < 32 }
        requires going { self.old.ended ≡ None }
        requires several { self.old.alone ≡ false }
        ensures after { (manner : Manner) (read : List ℕ) (asked : List Command) (got : List Reply) (sent : List ℕ) →
            SessionIsAfter manner read asked got sent self.old →
            SessionIsAfter manner read (asked ++ asked_in result) got sent self.new }
        ensures goes { Takes wants_words result }
        ensures alone { (call : Call) → result ≡ Next.Asks call → is_alone call.command ≡ true → IsGathered self.old }
        ensures places { TakesPlace result self.old.places self.new.places }
        ensures owed { self.new.owed ≡ self.old.owed }
    {
        let words = self.standing.transaction.next().unwrap();
        let said = command_of_released(
            self.alloc,
            &mut self.reserve,
            wants_words,
            words.as_slice(),
        );
        match said {
            Ok(command) => self.ask_released(wants_words, command),
            Err(reply) => {
                let _ = self.standing.transaction.take_next();
                self.places.say(reply);
                Next::Goes
            }
        }
    }

    /// Asks a command that EXEC has released, unless it is to be asked alone and some answer isn't gathered.
    fn ask_released(&mut self, wants_words: bool, command: Command) -> Next
        requires said { (words : List (List ℕ)) × (others : List (List (List ℕ)))
            × (self.old.standing.transaction ≡ Transaction.Released (words ∷ others))
            × (command_of_words words ≡ Ok command) × (wants_words ≡ true → AreWordsOf words command) }
        requires formed { IsWellFormed command }
        requires room { length self.old.places < 32 }
        requires several { self.old.alone ≡ false }
        ensures asks { ReleasesOrWaits self.old command result self.new }
        ensures goes { Takes wants_words result }
        ensures owed { self.new.owed ≡ self.old.owed }
    {
        if self.waits_for_others(&command) {
            return Next::Full;
        }
        let words = self.standing.transaction.take_next();
        self.places.ask(Place::Awaits);
        self.ended = end_by(&command);
        self.hurries = true;
        Next::Asks(Call {
            command,
            words: wants_words.then_some(words),
        })
    }

    /// Whether a command has to wait, because it is to be asked alone and some answer isn't gathered. If it is to be
    /// asked alone and needn't wait, the next one waits for its answer.
    fn waits_for_others(&mut self, command: &Command) -> bool
        requires several { self.old.alone ≡ false }
        ensures waits { result ≡ true → self.new ≡ record self.old { alone = true } }
        ensures goes { result ≡ false → self.new ≡ record self.old { alone = is_alone command.now } }
        ensures gathered { result ≡ false → is_alone command.now ≡ true → IsGathered self.old }
    {
        if !is_alone(command) {
            return false;
        }
        self.alone = true;
        !self.is_gathered()
    }

    /// Takes the next request, if there is one. There has to be room for its answer.
    fn take_next<I: Inform>(&mut self, manner: &Manner, inform: &I, wants_words: bool) -> Next
        requires room { length self.old.places < 32 }
        requires going { self.old.ended ≡ None }
        requires several { self.old.alone ≡ false }
        requires nothing { released_of self.old.standing.transaction ≡ [] }
        ensures after { (read : List ℕ) (asked : List Command) (got : List Reply) (sent : List ℕ) →
            SessionIsAfter manner.now read asked got sent self.old →
            SessionIsAfter manner.now read (asked ++ asked_in result) got sent self.new }
        ensures formed { (call : Call) → result ≡ Next.Asks call → IsFormed call }
        ensures words { wants_words ≡ true → (call : Call) → result ≡ Next.Asks call → is_some call.words ≡ true }
        ensures alone { (call : Call) → result ≡ Next.Asks call → is_alone call.command ≡ true → IsGathered self.old }
        ensures ended { (ending : Ending) → result ≡ Next.Ends ending → self.new.ended ≡ Some ending }
        ensures waits { result ≡ Next.Waits → Waits self.new.ended self.new.requests }
        ensures heard { IsHeard manner.now self.old.standing self.old.requests result }
        ensures released { result ≡ Next.Waits → released_of self.new.standing.transaction ≡ [] }
        ensures places { TakesPlace result self.old.places self.new.places }
        ensures owed { self.new.owed ≡ self.old.owed }
    {
        let Ok(is_whole) = self.requests.has_next() else {
            return self.refuse();
        };
        if manner.is_stranger(&self.standing) && is_too_much(&self.requests, is_whole) {
            return self.refuse();
        }
        if !is_whole {
            return Next::Waits;
        }
        if waits_for_memory(
            self.alloc,
            &mut self.reserve,
            &mut self.waits_left,
            self.requests.front(),
        ) {
            return Next::Full;
        }
        self.take_front(manner, inform, wants_words)
    }

    /// Takes no further request. The protocol error is the last answer.
    fn refuse(&mut self) -> Next
        requires room { length self.old.places < 32 }
        ensures ends { result ≡ Next.Ends Ending.Protocol }
        ensures after { self.new ≡ record self.old {
          places = self.old.places ++ place.Answer (Reply.Error Fault.Protocol) ∷ [];
          ended = Some Ending.Protocol;
        } }
    {
        self.places.say(Reply::Error(Fault::Protocol));
        self.ended = Some(Ending::Protocol);
        Next::Ends(Ending::Protocol)
    }

    /// Takes the request at the front, unless it has to wait for the replies before it.
    fn take_front<I: Inform>(&mut self, manner: &Manner, inform: &I, wants_words: bool) -> Next
        requires whole { HasNext self.old.requests }
        requires room { length self.old.places < 32 }
        requires going { self.old.ended ≡ None }
        requires several { self.old.alone ≡ false }
        requires nothing { released_of self.old.standing.transaction ≡ [] }
        ensures after { (read : List ℕ) (asked : List Command) (got : List Reply) (sent : List ℕ) →
            SessionIsAfter manner.now read asked got sent self.old →
            SessionIsAfter manner.now read (asked ++ asked_in result) got sent self.new }
        ensures goes { Takes wants_words result }
        ensures alone { (call : Call) → result ≡ Next.Asks call → is_alone call.command ≡ true → IsGathered self.old }
        ensures places { TakesPlace result self.old.places self.new.places }
        ensures owed { self.new.owed ≡ self.old.owed }
    {
        let words = self.requests.front();
        if words.is_empty() {
            self.requests.skip();
            return Next::Goes;
        }
        let taken = take_request(
            self.alloc,
            &mut self.reserve,
            wants_words,
            manner,
            inform,
            &mut self.standing,
            words,
        );
        match taken {
            Taking::Asks(call) => {
                if self.take_call(&call.command, Place::Awaits) {
                    Next::Asks(call)
                } else {
                    Next::Full
                }
            }
            Taking::Says(reply) => self.say(reply),
            Taking::Info => self.inform(manner, inform, wants_words),
        }
    }

    /// Answers the request at the front at once.
    fn say(&mut self, answer: Reply) -> Next
        requires whole { HasNext self.old.requests }
        requires room { length self.old.places < 32 }
        ensures goes { result ≡ Next.Goes }
        ensures skips { Skips self.old.requests self.new.requests }
        ensures after { self.new ≡ record self.old {
          requests = self.new.requests;
          places = self.old.places ++ place.Answer answer ∷ [];
        } }
    {
        self.requests.skip();
        self.places.say(answer);
        Next::Goes
    }

    /// Takes INFO, which is at the front, once every answer is gathered: it reports what was answered before it.
    fn inform<I: Inform>(&mut self, manner: &Manner, inform: &I, wants_words: bool) -> Next
        requires whole { HasNext self.old.requests }
        requires room { length self.old.places < 32 }
        requires going { self.old.ended ≡ None }
        requires several { self.old.alone ≡ false }
        requires nothing { released_of self.old.standing.transaction ≡ [] }
        requires some { 0 < length (front_of self.old.requests) }
        requires unknown { IsUnknown manner.now self.old.standing (front_of self.old.requests) }
        ensures after { (read : List ℕ) (asked : List Command) (got : List Reply) (sent : List ℕ) →
            SessionIsAfter manner.now read asked got sent self.old →
            SessionIsAfter manner.now read (asked ++ asked_in result) got sent self.new }
        ensures goes { Takes wants_words result }
        ensures alone { (call : Call) → result ≡ Next.Asks call → is_alone call.command ≡ true → IsGathered self.old }
        ensures places { TakesPlace result self.old.places self.new.places }
        ensures owed { self.new.owed ≡ self.old.owed }
    {
        if !self.is_gathered() {
            return Next::Full;
        }
        let words = self.requests.front();
        match take_info(
            self.alloc,
            wants_words,
            manner,
            inform,
            &mut self.standing,
            words,
        ) {
            Ok((call, information)) => {
                if self.take_call(&call.command, Place::AwaitsKeys(information)) {
                    Next::Asks(call)
                } else {
                    Next::Full
                }
            }
            Err(reply) => self.say(reply),
        }
    }

    /// Takes the request at the front and waits for its answer at this place, unless its command is to be asked alone
    /// and some answer isn't gathered. Returns whether it did.
    fn take_call(&mut self, command: &Command, place: Place) -> bool
        requires whole { HasNext self.old.requests }
        requires room { length self.old.places < 32 }
        requires several { self.old.alone ≡ false }
        requires waits { is_open place ≡ true }
        ensures asks { AsksOrWaits self.old command.now place result self.new }
        ensures owed { self.new.owed ≡ self.old.owed }
    {
        if self.waits_for_others(command) {
            return false;
        }
        self.requests.skip();
        self.places.ask(place);
        self.ended = end_by(command);
        self.hurries = false;
        true
    }

    /// Whether a command that was asked has no reply yet. At most 32 answers are waited for or not begun.
    pub fn is_open(&self) -> bool
        ensures open { result ≡ has_open self.now.places }
        ensures few { length self.now.places ≤ 32 }
    {
        self.places.is_open()
    }

    /// Takes the reply to the first command that was asked and hasn't one. While memory is refused, fewer commands are
    /// asked ahead.
    pub fn hand_in(&mut self, reply: Reply)
        requires { has_open self.old.places ≡ true }
        ensures after { (manner : Manner) (read : List ℕ) (asked : List Command) (got : List Reply) (sent : List ℕ) →
            SessionIsAfter manner read asked got sent self.old →
            SessionIsAfter manner read asked (got ++ reply ∷ []) sent self.new }
        ensures owed { self.new.owed ≡ self.old.owed }
        ensures places { self.new.places ≡ fill_first reply self.old.places }
        ensures ended { self.new.ended ≡ self.old.ended }
        ensures held { self.new.requests ≡ self.old.requests }
    {
        self.most = next_most(self.most, &reply);
        self.places.answer(reply);
    }

    /// Begins the next answer, if it is there and all unsent bytes are gathered. Returns whether it did.
    pub fn begin_answer(&mut self) -> bool
        ensures after { (manner : Manner) (read : List ℕ) (asked : List Command) (got : List Reply) (sent : List ℕ) →
            SessionIsAfter manner read asked got sent self.old → SessionIsAfter manner read asked got sent self.new }
        ensures none { result ≡ false → self.new ≡ self.old }
        ensures last { result ≡ false → self.old.owed.behind ≡ [] → NoneReady self.old.places }
        ensures fewer { result ≡ true → length self.new.places < length self.old.places }
        ensures begins { result ≡ true → (reply : Reply) × (self.old.places ≡ place.Answer reply ∷ self.new.places)
            × (bytes_left self.new.owed ≡ bytes_left self.old.owed ++ text reply) }
        ensures open { has_open self.new.places ≡ has_open self.old.places }
        ensures ended { self.new.ended ≡ self.old.ended }
        ensures held { self.new.requests ≡ self.old.requests }
    {
        if !self.owed.is_gathered() {
            return false;
        }
        let Some(reply) = self.places.next() else {
            return false;
        };
        self.tally.count(&reply);
        self.owed.begin(reply);
        true
    }

    /// The front of the unsent bytes. It is empty only if there are none.
    pub fn output(&self) -> &[u8]
        ensures value { result.now ≡ self.now.owed.piece }
        ensures all { result.now ≡ [] → bytes_left self.now.owed ≡ [] }
    {
        self.owed.piece()
    }

    /// Notes that the front of the unsent bytes is written.
    pub fn mark_sent(&mut self)
        ensures after { (manner : Manner) (read : List ℕ) (asked : List Command) (got : List Reply) (sent : List ℕ) →
            SessionIsAfter manner read asked got sent self.old →
            SessionIsAfter manner read asked got (sent ++ self.old.owed.piece) self.new }
        ensures owed { bytes_left self.new.owed ≡ self.old.owed.behind }
        ensures places { self.new.places ≡ self.old.places }
        ensures ended { self.new.ended ≡ self.old.ended }
        ensures held { self.new.requests ≡ self.old.requests }
    {
        self.owed.advance();
    }

    /// Reads bytes, at most 64 KiB, and returns their number: 0 only at the end.
    ///
    /// # Errors
    /// It is unchanged.
    pub fn read_from<R: Source>(&mut self, reader: &mut R) -> Result<usize, FillFault>
        requires { self.old.ended ≡ None }
        ensures ok { IfOk result (λ n. Gave (R.rest reader.old) (R.rest reader.new) (R.ended reader.new) n
            (λ more. (self.new.requests ≡ with_piece self.old.requests more)
            × ((manner : Manner) (read : List ℕ) (asked : List Command) (got : List Reply) (sent : List ℕ) →
            SessionIsAfter manner read asked got sent self.old →
            SessionIsAfter manner (read ++ more) asked got sent self.new))) }
        ensures none { result ≡ Ok 0 → self.new ≡ self.old }
        ensures err { OnErr result ((self.new ≡ self.old) × Keeps (R.rest reader.old) (R.rest reader.new)) }
        ensures memory { result ≡ Err FillFault.Memory → reader.new ≡ reader.old }
        ensures read { result ≡ Err FillFault.Read → R.broken reader.new ≡ true }
        ensures counted { result ≢ Err FillFault.Memory → R.calls reader.new ≡ counter_at (R.calls reader.old + 1) }
        ensures same { (self.new.places ≡ self.old.places) × (self.new.owed ≡ self.old.owed)
            × (self.new.ended ≡ self.old.ended) }
    {
        self.requests.fill(reader)
    }

    /// How the session ends at the end of the input.
    pub fn end(&self) -> Ending
        ensures { result ≡ (if holds_bytes self.now.requests then Ending.Cut else Ending.Closed) }
    {
        if self.requests.partial() {
            Ending::Cut
        } else {
            Ending::Closed
        }
    }
}
