//! What is done to a desk in one thread, step by step, with the expected results.
ghost use Rattle.xs_desk.specs.Calls.{IsFormed};

use std::alloc::Global;
use std::process::Abort;
use std::sync::Wait;
use std::test::Fail;
use std::thread;
use std::time::{Clock, Duration};
use xs_desk::{Call, Client, Journal, Keeper, NoJournal};
use xs_testing::{Still, read_call, text_of};

/// A step. The first number of those that name a lane is the lane's.
#[derive(Clone, Copy, Drop)]
pub enum Step {
    /// There is room for the line.
    Asks(usize, &'static str),
    /// A turn serves this many calls.
    Turn(u64),
    /// A turn serves some number of calls.
    SomeTurn,
    /// This many lanes get answers that were held back.
    Settled(u64),
    /// The next answer is this text.
    Told(usize, &'static str),
    /// The next answer begins with this text.
    ToldOf(usize, &'static str),
    /// There is no answer.
    ToldNothing(usize),
    /// The line is the only one served in the next turn, and gets this text.
    Answered(usize, &'static str, &'static str),
    /// The lane whose call has waited, and which is the only one that the next turn looks at.
    Due(Option<usize>),
    Postponed(usize),
    Hurried(usize),
    /// This many milliseconds pass.
    Slept(u64),
    ClockRead,
}

/// A keeper and its clients.
#[derive(Drop)]
pub struct SmallDesk<J: Journal + Drop = NoJournal> {
    pub alloc: Global,
    pub keeper: Keeper<J>,
    pub clients: Vec<Client>,
    pub clock: Still,
}

/// Whether there is room for the call.
pub fn submits(client: &mut Client, call: Call) -> bool
    requires { IsFormed call }
{
    client.submit_call(call).is_ok()
}

impl<J: Journal + Drop> SmallDesk<J> {
    /// Whether there is room for the line.
    pub fn asks(&mut self, lane: usize, line: &str) -> Result<bool, Fail> {
        let client = self.clients.get_mut(lane).ok_or("a client")?;
        Ok(submits(client, read_call(self.alloc, line)?))
    }

    /// The number of calls that a turn serves.
    pub fn turn(&mut self) -> Option<u64> {
        self.keeper.turn(&mut self.clock).ok()
    }

    /// The number of lanes that get answers that were held back.
    pub fn settle(&mut self) -> Option<u64> {
        self.keeper.settle().ok()
    }

    /// The next answer of a lane, or nothing.
    pub fn told(&mut self, lane: usize) -> Result<Option<Vec<u8>>, Fail> {
        let client = self.clients.get_mut(lane).ok_or("a client")?;
        match client.take() {
            Some(answer) => Ok(Some(text_of(self.alloc, &answer.reply)?)),
            None => Ok(None),
        }
    }

    fn is_told(&mut self, lane: usize, text: &str) -> Result<bool, Fail> {
        let told = self.told(lane)?.ok_or("an answer")?;
        Ok(told.as_slice() == text.as_bytes())
    }

    fn is_told_of(&mut self, lane: usize, text: &str) -> Result<bool, Fail> {
        let told = self.told(lane)?.ok_or("an answer")?;
        Ok(told.as_slice().starts_with(text.as_bytes()))
    }

    fn answers(&mut self, lane: usize, line: &str, text: &str) -> Result<bool, Fail> {
        Ok(self.asks(lane, line)? && self.turn() == Some(1) && self.is_told(lane, text)?)
    }

    fn hurry(&self, lane: usize) -> Result<(), Fail> {
        self.clients.get(lane).ok_or("a client")?.hurry();
        Ok(())
    }

    /// Whether the step has the expected result.
    fn does<R: Clock + Wait>(&mut self, rt: &R, step: Step) -> Result<bool, Fail> {
        match step {
            Step::Asks(lane, line) => return self.asks(lane, line),
            Step::Turn(served) => return Ok(self.turn() == Some(served)),
            Step::SomeTurn => return Ok(self.turn().is_some()),
            Step::Settled(lanes) => return Ok(self.settle() == Some(lanes)),
            Step::Told(lane, text) => return self.is_told(lane, text),
            Step::ToldOf(lane, text) => return self.is_told_of(lane, text),
            Step::ToldNothing(lane) => return Ok(self.told(lane)?.is_none()),
            Step::Answered(lane, line, text) => return self.answers(lane, line, text),
            Step::Due(lane) => return Ok(self.keeper.next_due() == lane),
            Step::Postponed(lane) => self.keeper.postpone(rt, lane),
            Step::Hurried(lane) => self.hurry(lane)?,
            Step::Slept(millis) => thread::sleep(rt, Duration::from_millis(millis)),
            Step::ClockRead => self.keeper.read_clock(rt),
        }
        Ok(true)
    }
}

/// Each of these steps has the expected result.
pub fn play<J: Journal + Drop, R: Abort + Clock + Wait>(
    rt: &R,
    desk: &mut SmallDesk<J>,
    steps: &[Step],
) -> Result<(), Fail> {
    for (number, step) in steps.iter().enumerate() {
        assert!(rt; desk.does(rt, *step)?, "step {number}");
    }
    Ok(())
}
