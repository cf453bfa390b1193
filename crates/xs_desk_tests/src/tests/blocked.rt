//! Calls that wait, in one thread.
use super::desks::new_desk;
use super::steps::Step::{
    Answered, Asks, ClockRead, Due, Hurried, Postponed, Slept, SomeTurn, Told, ToldNothing, ToldOf,
    Turn,
};
use super::steps::{SmallDesk, Step, play};
use std::alloc::Global;
use std::process::Abort;
use std::sync::Wait;
use std::test::Fail;
use std::time::Clock;
use xs_testing::Still;

const READ: &str = "XREADGROUP GROUP g c COUNT 1 BLOCK 0 STREAMS s >";

const NULL: &str = "*-1\r\n";

/// The replies with one entry.
const FIRST: &str = "*1\r\n*2\r\n$1\r\ns\r\n*1\r\n*2\r\n$3\r\n1-1\r\n*2\r\n$1\r\nf\r\n$1\r\nv\r\n";

const SECOND: &str = "*1\r\n*2\r\n$1\r\ns\r\n*1\r\n*2\r\n$3\r\n2-1\r\n*2\r\n$1\r\nf\r\n$1\r\nv\r\n";

/// Plays these steps on a desk of three lanes, whose keeper lets calls wait, with a group that has nothing new.
fn wait<R: Abort + Clock + Wait>(rt: &R, alloc: Global, steps: &[Step]) -> Result<(), Fail> {
    let (mut keeper, clients) = new_desk(alloc, 3, 4)?;
    keeper.let_wait();
    let mut desk = SmallDesk {
        alloc,
        keeper,
        clients,
        clock: Still::at(1000).ok_or("a clock")?,
    };
    let group = Answered(2, "XGROUP CREATE s g 0 MKSTREAM", "+OK\r\n");
    play(rt, &mut desk, &[group])?;
    play(rt, &mut desk, steps)
}

// The one that has waited longest gets the entry; the other waits on, and gets the next.
#[test]
fn calls_wait_in_their_order(rt: HostRuntime) -> Result<(), Fail> {
    let steps = [
        Asks(1, READ),
        Turn(0),
        Asks(0, READ),
        Turn(0),
        Answered(2, "XADD s 1-1 f v", "$3\r\n1-1\r\n"),
        Due(Some(1)),
        Turn(1),
        Told(1, FIRST),
        Turn(0),
        Turn(0),
        Due(None),
        ToldNothing(0),
        Answered(2, "XADD s 2-1 f v", "$3\r\n2-1\r\n"),
        Turn(1),
        Told(0, SECOND),
    ];
    wait(&rt, rt.alloc(), &steps)
}

// An addition ends the turn: a lane after it that asks at the same time doesn't overtake the one that waits, and is
// served in the turn after.
#[test]
fn nobody_overtakes_one_who_waits(rt: HostRuntime) -> Result<(), Fail> {
    let steps = [
        Asks(2, READ),
        Turn(0),
        Asks(0, "XADD s 1-1 f v"),
        Asks(1, "XREADGROUP GROUP g c COUNT 1 STREAMS s >"),
        Turn(1),
        Turn(1),
        Told(2, FIRST),
        ToldNothing(1),
        Turn(1),
        Told(1, NULL),
    ];
    wait(&rt, rt.alloc(), &steps)
}

// Lane 0 adds again and again, and others wait for it each time; lane 1, after it, is served all the same.
#[test]
fn a_turn_that_is_cut_short_is_resumed(rt: HostRuntime) -> Result<(), Fail> {
    let steps = [
        Asks(2, "XREADGROUP GROUP g c BLOCK 0 STREAMS t s > >"),
        Turn(1),
        Asks(2, "XREADGROUP GROUP g c BLOCK 0 STREAMS s >"),
        Turn(0),
        Asks(1, "PING"),
        Asks(0, "XADD s MAXLEN 0 * f v"),
        Asks(0, "XADD s MAXLEN 0 * f v"),
        Asks(0, "XADD s MAXLEN 0 * f v"),
        Asks(0, "XADD s MAXLEN 0 * f v"),
        SomeTurn,
        SomeTurn,
        SomeTurn,
        Told(1, "+PONG\r\n"),
    ];
    wait(&rt, rt.alloc(), &steps)
}

// Another key, or an addition that is removed at once, ends no wait. If something is missing, that is reported at once.
#[test]
fn a_wait_ends_only_if_its_answer_is_another_one(rt: HostRuntime) -> Result<(), Fail> {
    let steps = [
        Asks(0, READ),
        Turn(0),
        Answered(2, "XADD t 1-1 f v", "$3\r\n1-1\r\n"),
        Turn(0),
        Answered(2, "XADD s MAXLEN 0 1-1 f v", "$3\r\n1-1\r\n"),
        Turn(0),
        ToldNothing(0),
        Asks(2, "DEL s"),
        Turn(1),
        Turn(1),
        ToldOf(0, "-NOGROUP"),
        Asks(0, READ),
        Turn(1),
    ];
    wait(&rt, rt.alloc(), &steps)
}

// A wait ends by its time, and the calls after it are served later.
#[test]
fn a_wait_ends_by_its_time(rt: HostRuntime) -> Result<(), Fail> {
    let steps = [
        Asks(0, "XREADGROUP GROUP g c BLOCK 20 STREAMS s >"),
        Asks(0, "PING"),
        Turn(0),
        ClockRead,
        Turn(0),
        Slept(40),
        ClockRead,
        Turn(1),
        Told(0, NULL),
        Turn(1),
        Told(0, "+PONG\r\n"),
    ];
    wait(&rt, rt.alloc(), &steps)
}

// A client that hurries its call is answered in the next turn, whether the call waits already or not. Its next call
// waits.
#[test]
fn a_client_ends_its_wait(rt: HostRuntime) -> Result<(), Fail> {
    let steps = [
        Asks(1, READ),
        Turn(0),
        Hurried(1),
        Turn(1),
        Told(1, NULL),
        Asks(1, READ),
        Hurried(1),
        Turn(1),
        Told(1, NULL),
        Asks(1, READ),
        Turn(0),
    ];
    wait(&rt, rt.alloc(), &steps)
}

// If a client has left, its call lets those after it come first, and is answered when its second is over.
#[test]
fn one_that_has_left_comes_last(rt: HostRuntime) -> Result<(), Fail> {
    let steps = [
        Asks(1, READ),
        Turn(0),
        Asks(0, READ),
        Turn(0),
        Answered(2, "XADD s 1-1 f v", "$3\r\n1-1\r\n"),
        Due(Some(1)),
        Postponed(1),
        Due(Some(0)),
        Turn(1),
        Told(0, FIRST),
        ClockRead,
        Turn(0),
        Slept(1100),
        ClockRead,
        Turn(1),
        Told(1, NULL),
    ];
    wait(&rt, rt.alloc(), &steps)
}
