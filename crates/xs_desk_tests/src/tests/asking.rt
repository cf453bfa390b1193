//! A client that submits several calls at once, and stores the answer to each.
ghost use Rattle.xs_command.specs.WellFormed.{IsWellFormed};
ghost use Rattle.xs_desk.specs.KeptRings.{KeepsSide};

use super::lines::Line;
use std::alloc::{AllocError, Global};
use std::sync::Wait;
use xs_command::Command;
use xs_desk::{Answer, Client};
use xs_stream::Moment;
use xs_testing::{Job, MOST_TURNS, text_of};

/// The answer to a call.
#[derive(Drop)]
pub struct Told {
    pub line: Line,
    pub ticket: u64,
    pub place: u64,
    pub moment: Moment,
    pub text: Vec<u8>,
}

/// Submits a line, or lines, a number of times.
#[derive(Drop)]
pub struct Asking {
    alloc: Global,
    line: Line,
    times: u64,
    submitted: u64,
    pub told: Vec<Told>,
}

/// Whether there was room for the command.
fn is_submitted(client: &mut Client, command: Command) -> bool
    requires { IsWellFormed command }
    ensures { KeepsSide client.old client.new }
{
    match client.submit(command) {
        Ok(_) => true,
        Err(full) => {
            drop(full);
            false
        }
    }
}

impl Asking {
    ghost use Rattle.xs_desk.specs.KeptRings.{KeepsSide};

    pub fn new(alloc: Global, line: Line, times: u64) -> Asking {
        Asking {
            alloc,
            line,
            times,
            submitted: 0,
            told: Vec::new(alloc),
        }
    }

    /// Whether its first place comes after the first one of another, and before that one's last.
    pub fn begins_within(&self, other: &Asking) -> bool {
        match (self.told.first(), other.told.first(), other.told.last()) {
            (Some(own), Some(first), Some(last)) => {
                first.place < own.place && own.place < last.place
            }
            _ => false,
        }
    }

    /// Submits the next call, if one is left and there is room for it.
    fn submit(&mut self, client: &mut Client)
        ensures { KeepsSide client.old client.new }
    {
        if self.submitted >= self.times {
            return;
        }
        let Ok(command) = self.line.of_call(self.submitted).command(self.alloc) else {
            return;
        };
        if is_submitted(client, command) {
            self.submitted = self.submitted.saturating_add(1);
        }
    }

    fn keep(&mut self, answer: Answer) -> Result<(), AllocError> {
        let text = text_of(self.alloc, &answer.reply)?;
        self.told.push(Told {
            line: self.line.of_call(answer.ticket),
            ticket: answer.ticket,
            place: answer.place,
            moment: answer.moment,
            text,
        })?;
        Ok(())
    }

    /// Takes the next answer, if it has come.
    fn take(&mut self, client: &mut Client) -> bool
        ensures { KeepsSide client.old client.new }
    {
        match client.take() {
            Some(answer) => self.keep(answer).is_ok(),
            None => false,
        }
    }
}

impl Job for Asking {
    #[tactic(auto, using(xs_testing::proofs::Sides::steps))]
    fn run<R: Wait>(&mut self, rt: &R, client: Client) -> Client {
        let mut client = client;
        for _ in 0..MOST_TURNS {
            self.submit(&mut client);
            if self.take(&mut client) {
                continue;
            }
            if self.told.len() as u64 >= self.times {
                break;
            }
            client.idle(rt);
        }
        client
    }
}

/// Whether each call was answered once, with tickets from `first` on, and at places that ascend.
pub fn is_in_order(asking: &Asking, first: u64) -> bool {
    let mut ticket = first;
    let mut least = 0;
    for told in &asking.told {
        if told.ticket != ticket || told.place < least {
            return false;
        }
        ticket = told.ticket.saturating_add(1);
        least = told.place.saturating_add(1);
    }
    asking.told.len() as u64 == asking.times
}

fn move_all(from: Vec<Told>, to: &mut Vec<Told>) -> Result<(), AllocError> {
    for told in from {
        to.push(told)?;
    }
    Ok(())
}

/// The answers to all calls, in the order of the places.
pub fn by_place(alloc: Global, jobs: Vec<Asking>) -> Result<Vec<Told>, AllocError> {
    let mut all = Vec::new(alloc);
    for job in jobs {
        let Asking { told, .. } = job;
        move_all(told, &mut all)?;
    }
    all.sort_by_key(|told| told.place)?;
    Ok(all)
}
