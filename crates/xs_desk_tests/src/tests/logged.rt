//! A desk with a log: an answer is handed out once the log keeps the events of its call and of those before it.
use super::counting_log::{CountingLog, Counts};
use super::steps::Step::{Asks, Settled, Told, ToldNothing, Turn};
use super::steps::{SmallDesk, play, submits};
use std::alloc::Global;
use std::snapshot::Snapshot;
use std::sync::Arc;
use std::sync::atomic::AtomicU64;
use std::test::Fail;
use xs_desk::{Call, Client, LogJournal, logged_desk};
use xs_keys::Keyspace;
use xs_testing::{Still, read};

const ADDITION: &str = "XADD s * f v";

type LoggedDesk = SmallDesk<LogJournal<CountingLog>>;

/// A desk of two lanes with this depth, whose log fails after `calls` calls, and the figures of the log.
fn new_logged(alloc: Global, depth: usize, calls: u64) -> Result<(LoggedDesk, Arc<Counts>), Fail> {
    let counts = Arc::new(
        alloc,
        Counts {
            noted: AtomicU64::new(0),
            kept: AtomicU64::new(0),
            calls_left: AtomicU64::new(calls),
        },
    )?;
    let log = CountingLog {
        counts: Arc::try_clone(&counts)?,
        broken: false,
    };
    let keyspace = Keyspace::new(alloc);
    let first = Snapshot::of(&keyspace);
    let (keeper, clients) = logged_desk(alloc, 2, depth, keyspace, first, log)?;
    let desk = SmallDesk {
        alloc,
        keeper,
        clients,
        clock: Still::at(1000).ok_or("a moment")?,
    };
    Ok((desk, counts))
}

fn want_words(clients: &Vec<Client>) -> bool {
    for client in clients {
        if !client.wants_words() {
            return false;
        }
    }
    true
}

#[test]
fn answers_wait_for_the_log(rt: HostRuntime) -> Result<(), Fail> {
    let (mut desk, counts) = new_logged(rt.alloc(), 4, 100)?;
    assert!(rt; want_words(&desk.clients));
    let served = [
        Asks(0, ADDITION),
        Asks(0, "XLEN s"),
        Asks(1, "PING"),
        Turn(2),
        Turn(1),
        Turn(0),
    ];
    play(&rt, &mut desk, &served)?;
    assert_eq!(rt; counts.seen(), (1, 0));
    play(
        &rt,
        &mut desk,
        &[ToldNothing(0), ToldNothing(1), Settled(2)],
    )?;
    assert_eq!(rt; counts.seen(), (1, 1));
    let told = [
        Told(0, "$6\r\n1000-0\r\n"),
        Told(0, ":1\r\n"),
        Told(1, "+PONG\r\n"),
        Settled(0),
    ];
    play(&rt, &mut desk, &told)
}

// The second addition, the second group and both reports are not among the events.
#[test]
fn what_changes_nothing_is_not_noted(rt: HostRuntime) -> Result<(), Fail> {
    let (mut desk, counts) = new_logged(rt.alloc(), 16, 100)?;
    for line in [
        "XADD s 5-1 f v",
        "XADD s 5-1 f v",
        "XGROUP CREATE s g 0",
        "XGROUP CREATE s g 0",
        "XRANGE s - +",
        "XPENDING s g",
        "XREADGROUP GROUP g c STREAMS s >",
        "XACK s g 5-1",
    ] {
        assert!(rt; desk.asks(0, line)? && desk.turn() == Some(1), "{line}");
    }
    assert_eq!(rt; counts.seen(), (4, 0));
    Ok(())
}

// Answers that are held back take the places of a lane: a round ends when they are full.
#[test]
fn a_lane_holds_back_as_many_as_it_has_places(rt: HostRuntime) -> Result<(), Fail> {
    let (mut desk, _counts) = new_logged(rt.alloc(), 2, 100)?;
    let steps = [
        Asks(0, ADDITION),
        Turn(1),
        Asks(0, ADDITION),
        Turn(1),
        Asks(0, "XLEN s"),
        Turn(0),
        Settled(1),
        Told(0, "$6\r\n1000-0\r\n"),
        Turn(1),
        Told(0, "$6\r\n1000-1\r\n"),
        ToldNothing(0),
        Settled(1),
        Told(0, ":2\r\n"),
    ];
    play(&rt, &mut desk, &steps)
}

/// Whether the log keeps an addition, and whether it is answered.
fn adds(desk: &mut LoggedDesk) -> Result<(bool, bool), Fail> {
    if !desk.asks(0, ADDITION)? {
        return Err(Fail::from("a full lane"));
    }
    let _ = desk.turn();
    let settled = desk.settle().is_some();
    Ok((settled, desk.told(0)?.is_some()))
}

// Calls of the log: a note, a keep, a note, a keep.
#[test]
fn nothing_is_handed_out_behind_a_failure(rt: HostRuntime) -> Result<(), Fail> {
    for (calls, kept) in [(0, false), (1, false), (2, true), (3, true)] {
        let (mut desk, _counts) = new_logged(rt.alloc(), 4, calls)?;
        assert_eq!(rt; adds(&mut desk)?, (kept, kept), "{calls}");
        assert_eq!(rt; adds(&mut desk)?, (false, false), "{calls}");
        assert!(rt; desk.clients.first().ok_or("a client")?.is_gone());
    }
    Ok(())
}

/// Whether there is room for an addition without its words.
fn adds_without_words(desk: &mut LoggedDesk) -> Result<bool, Fail> {
    let client = desk.clients.get_mut(0).ok_or("a client")?;
    let command = read(desk.alloc, ADDITION)?;
    let words = None;
    Ok(submits(client, Call { command, words }))
}

#[test]
fn a_call_without_words_fails_the_log(rt: HostRuntime) -> Result<(), Fail> {
    let (mut desk, _counts) = new_logged(rt.alloc(), 4, 100)?;
    assert!(rt; adds_without_words(&mut desk)?);
    assert_eq!(rt; desk.turn(), Some(1));
    assert!(rt; desk.settle().is_none());
    assert!(rt; desk.told(0)?.is_none());
    Ok(())
}
