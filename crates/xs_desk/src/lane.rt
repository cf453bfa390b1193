//! A client that waits for each answer.
ghost use Rattle.std.specs.Prelude.{◌≡◌, ◌++◌, ◌∷◌, [], length, MatchResult};
ghost use Rattle.xs_desk.specs.Calls.{IsFormed};
ghost use Rattle.xs_desk.specs.Asking.{Submits, Takes, Receives, Asks, AskFails};

use crate::answer::{Answer, Call};
use crate::client::Client;
use crate::port::{Port, PortFault};
use std::marker::Model;
use std::sync::Wait;
use xs_resp::Reply;

/// How the client of a lane waits for an answer.
pub trait Pause {
    /// Waits after a look that has found no answer, and before the next one. It may return at once.
    fn pause<R: Wait>(&self, rt: &R, client: &Client);

    /// Waits in the same way while other answers are gathered. Returns whether they are to be sent before it waits any
    /// longer.
    fn pause_briefly<R: Wait>(&self, rt: &R, client: &Client) -> bool;
}

/// It waits like `Client::idle`.
#[derive(Clone, Copy, Debug, PartialEq, Eq)]
pub struct Idle;

impl Pause for Idle {
    fn pause<R: Wait>(&self, rt: &R, client: &Client) {
        client.idle(rt);
    }

    fn pause_briefly<R: Wait>(&self, rt: &R, client: &Client) -> bool {
        client.idle(rt);
        false
    }
}

/// The port of a client. Contracts see the client, and whether the keeper is known to be gone.
#[derive(Drop)]
pub struct Lane<P: Drop = Idle> {
    client: Client,
    pause: P,
    gone: bool,
}

impl<P: Drop> Model for Lane<P> {
    ghost use Rattle.xs_desk.specs.Asking.{Asker};

    ghost Value = { Asker };

    ghost view = { λ l. record { client = l.client; gone = l.gone } };
}

impl Lane<Idle> {
    ghost use Rattle.std.specs.Prelude.{◌≡◌, false};

    /// A port of this client. It takes no memory.
    pub fn new(client: Client) -> Lane<Idle>
        ensures { result ≡ record { client = client; gone = false } }
    {
        Lane::with_pause(client, Idle)
    }
}

impl<P: Drop> Lane<P> {
    ghost use Rattle.std.specs.Prelude.{◌≡◌, false};

    /// A port of this client, which waits for an answer by `pause`. It takes no memory.
    pub fn with_pause(client: Client, pause: P) -> Lane<P>
        ensures { result ≡ record { client = client; gone = false } }
    {
        Lane {
            client,
            pause,
            gone: false,
        }
    }

    /// Returns the client. It takes no memory.
    pub fn end(self) -> Client
        ensures { result ≡ self.client }
    {
        self.client
    }
}

/// Waits for the next answer.
fn next_answer<P: Pause, R: Wait>(
    rt: &R,
    client: &mut Client,
    pause: &P,
) -> Result<Answer, PortFault>
    ensures { MatchResult result
        (λ answer. client.new ≡ record client.old { taken = client.old.taken ++ answer ∷ [] })
        (λ _. client.new ≡ client.old) }
{
    for _ in rt.forever() {
        let gone = client.is_gone();
        if let Some(answer) = client.take() {
            return Ok(answer);
        }
        if gone {
            return Err(PortFault::Gone);
        }
        pause.pause(rt, client);
    }
    unreachable!()
}

/// Submits the command. While there is no room for it, it takes an older answer: with each of them a call has left its
/// ring.
#[tactic(auto, using(crate::proofs::Askings::steps))]
fn submit<P: Pause, R: Wait>(
    rt: &R,
    client: &mut Client,
    pause: &P,
    call: Call,
) -> Result<u64, PortFault>
    requires { IsFormed call }
    ensures { MatchResult result
        (λ ticket. (ticket ≡ length client.old.submitted) × Submits client.old call.command client.new)
        (λ _. Takes client.old client.new) }
{
    let mut call = call;
    for _ in rt.forever() {
        match client.submit_call(call) {
            Ok(ticket) => return Ok(ticket),
            Err(back) => call = back,
        }
        let _older = next_answer(rt, client, pause)?;
    }
    unreachable!()
}

/// Takes answers up to the one with the ticket.
#[tactic(auto, using(crate::proofs::Askings::steps))]
fn receive<P: Pause, R: Wait>(
    rt: &R,
    client: &mut Client,
    pause: &P,
    ticket: u64,
) -> Result<Reply, PortFault>
    ensures { MatchResult result (λ reply. Receives client.old ticket reply client.new)
        (λ _. Takes client.old client.new) }
{
    for _ in rt.forever() {
        let answer = next_answer(rt, client, pause)?;
        if answer.ticket == ticket {
            return Ok(answer.reply);
        }
    }
    unreachable!()
}

fn ask_of<P: Pause, R: Wait>(
    rt: &R,
    client: &mut Client,
    pause: &P,
    call: Call,
) -> Result<Reply, PortFault>
    requires { IsFormed call }
    ensures { MatchResult result (λ reply. Asks client.old call.command reply client.new)
        (λ _. AskFails client.old call.command client.new) }
{
    let ticket = submit(rt, client, pause, call)?;
    receive(rt, client, pause, ticket)
}

impl<P: Pause + Drop> Port for Lane<P> {
    ghost use Rattle.xs_desk.specs.Asking.{Asks, AskFails};

    ghost replies = { λ old command reply new. Asks old.client command reply new.client };

    ghost fails = { λ old command new. AskFails old.client command new.client };

    ghost gone = { λ lane. lane.gone };

    fn wants_words(&self) -> bool {
        self.client.wants_words()
    }

    fn ask_call<R: Wait>(&mut self, rt: &R, call: Call) -> Result<Reply, PortFault> {
        let asked = ask_of(rt, &mut self.client, &self.pause, call);
        if asked.is_err() {
            self.gone = true;
        }
        asked
    }
}
