//! One desk in one thread.
use super::desks::{new_desk, reply_of};
use std::alloc::{AllocError, Global};
use std::process::Abort;
use std::test::Fail;
use xs_command::Command;
use xs_desk::{DeskError, Full, LaneSummary, next_place};
use xs_testing::{Still, Trial, read, text_of};

/// The summary of a lane.
fn lane(served: u64, left: u64, untaken: u64) -> LaneSummary {
    LaneSummary {
        served,
        left,
        untaken,
    }
}

const ADDITION: &str = "XADD s * f v";

#[test]
fn lanes_and_places_have_bounds(rt: HostRuntime) -> Result<(), Fail> {
    for (lanes, depth, fault) in [
        (0, 1, DeskError::Lanes),
        (65, 1, DeskError::Lanes),
        (0, 0, DeskError::Lanes),
        (1, 0, DeskError::Depth),
        (64, 65_537, DeskError::Depth),
    ] {
        assert!(rt;
            matches!(new_desk(rt.alloc(), lanes, depth), Err(told) if told == fault),
            "{lanes}, {depth}"
        );
    }
    assert!(rt; new_desk(rt.alloc(), 64, 1).is_ok());
    assert!(rt; new_desk(rt.alloc(), 1, 65_536).is_ok());
    Ok(())
}

// `Exhausted`, which no run reaches, depends on this.
#[test]
fn the_greatest_place_is_the_last(rt: HostRuntime) {
    assert_eq!(rt; next_place(0), Some(1));
    assert_eq!(rt; next_place(u64::MAX - 1), Some(u64::MAX));
    assert_eq!(rt; next_place(u64::MAX), None);
}

fn shown(alloc: Global, command: Command) -> Result<String, AllocError> {
    format!(in alloc; "{command:?}")
}

/// A desk in one thread, whose lanes have a place each, and the clock of its calls.
#[derive(Drop)]
struct Scene {
    alloc: Global,
    trial: Trial,
    clock: Still,
}

impl Scene {
    fn new(alloc: Global, lanes: usize) -> Result<Scene, Fail> {
        Ok(Scene {
            alloc,
            trial: Trial::new(alloc, lanes, 1)?,
            clock: Still::at(1000).ok_or("a moment")?,
        })
    }

    /// Whether a line is submitted, with this ticket.
    fn submits(&mut self, lane: usize, line: &str, wanted: u64) -> Result<bool, Fail> {
        let command = read(self.alloc, line)?;
        Ok(self.trial.submit(lane, command).ok() == Some(wanted))
    }

    /// Whether an addition for which there is no room is returned unchanged.
    fn is_handed_back(&mut self) -> Result<bool, Fail> {
        let wanted = shown(self.alloc, read(self.alloc, ADDITION)?)?;
        match self.trial.submit(0, read(self.alloc, ADDITION)?) {
            Ok(_) => Ok(false),
            Err(Full(back)) => Ok(shown(self.alloc, back)?.as_bytes() == wanted.as_bytes()),
        }
    }

    /// The number of calls that a turn serves.
    fn turn(&mut self) -> Option<u64> {
        self.trial.turn(&mut self.clock).ok()
    }

    fn takes_nothing(&mut self, lane: usize) -> bool {
        self.trial.take(lane).is_none()
    }

    /// Whether the next answer has this ticket and place, and this text.
    fn takes(&mut self, lane: usize, wanted: (u64, u64), text: &str) -> Result<bool, Fail> {
        let answer = self.trial.take(lane).ok_or("an answer")?;
        let told = text_of(self.alloc, &answer.reply)?;
        Ok(
            (answer.ticket, answer.place) == wanted
                && answer.moment.get() == 1000
                && told.as_slice() == text.as_bytes(),
        )
    }
}

/// Lane 0 gets an answer to an addition, which isn't taken, and submits the next one.
fn is_stuck<R: Abort>(rt: &R, scene: &mut Scene, ticket: u64) -> Result<(), Fail> {
    assert!(rt; scene.submits(0, ADDITION, ticket)?);
    assert_eq!(rt; scene.turn(), Some(1));
    assert!(rt; scene.submits(0, ADDITION, ticket.saturating_add(1))?);
    Ok(())
}

// Lane 0 has a place for one command and one answer: a second command has none, and a call whose answer has no place
// stays.
#[test]
fn serves_one_call_after_the_other(rt: HostRuntime) -> Result<(), Fail> {
    let mut scene = Scene::new(rt.alloc(), 2)?;
    assert!(rt; scene.submits(0, ADDITION, 0)?);
    assert!(rt; scene.is_handed_back()?);
    assert_eq!(rt; scene.turn(), Some(1));
    assert!(rt; scene.takes(0, (0, 0), "$6\r\n1000-0\r\n")?);
    assert!(rt; scene.takes_nothing(0));
    is_stuck(&rt, &mut scene, 1)?;
    assert_eq!(rt; scene.turn(), Some(0));
    let Scene { trial, clock, .. } = scene;
    let summary = trial.close_late(rt.alloc()).ok_or("a summary")?;
    assert!(rt; summary.lanes.as_slice() == [lane(2, 1, 1), lane(0, 0, 0)].as_slice());
    let length = reply_of(rt.alloc(), summary.keyspace, clock.moment, "XLEN s")?;
    assert!(rt; length.as_slice() == b":2\r\n".as_slice());
    Ok(())
}

/// Lanes 1 and 2 are both answered in one turn.
fn both_are_answered<R: Abort>(rt: &R, scene: &mut Scene, number: u64) -> Result<(), Fail> {
    assert!(rt; scene.submits(1, "PING", number)? && scene.submits(2, "XLEN s", number)?);
    assert_eq!(rt; scene.turn(), Some(2));
    let place = number.saturating_mul(2).saturating_add(1);
    assert!(rt; scene.takes(1, (number, place), "+PONG\r\n")?);
    assert!(rt; scene.takes(2, (number, place.saturating_add(1)), ":1\r\n")?);
    Ok(())
}

// A lane that takes nothing doesn't hold up others.
#[test]
fn a_stuck_lane_holds_up_nobody(rt: HostRuntime) -> Result<(), Fail> {
    let mut scene = Scene::new(rt.alloc(), 3)?;
    is_stuck(&rt, &mut scene, 0)?;
    for number in 0..100 {
        both_are_answered(&rt, &mut scene, number)?;
    }
    let Scene { trial, .. } = scene;
    let summary = trial.close(rt.alloc()).ok_or("a summary")?;
    let wanted = [lane(1, 1, 1), lane(100, 0, 0), lane(100, 0, 0)];
    assert!(rt; summary.lanes.as_slice() == wanted.as_slice());
    Ok(())
}
