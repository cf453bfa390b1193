//! Clients that wait for each answer over their lanes, and a keeper that is idle.
use std::alloc::{AllocError, Global};
use std::sync::Wait;
use std::test::Fail;
use xs_command::Refusal;
use xs_desk::{Client, Lane, Port};
use xs_keys::Clock;
use xs_resp::Reply;
use xs_stream::Moment;
use xs_testing::{Job, Trial, read};

/// How often each client submits.
const TIMES: u64 = 500;

/// A clock that leaps. By it calls don't follow fast, so a side that waits parks without a yield.
#[derive(Clone, Copy)]
struct Leaping {
    calls: u64,
}

impl Clock for Leaping {
    ghost gives = { λ old now new. Unit {0} };

    fn now(&mut self) -> Moment {
        self.calls = self.calls.wrapping_add(1);
        Moment::new(self.calls % 1_000_000 * 1000).unwrap()
    }
}

/// Submits additions, and counts the replies that aren't errors.
#[derive(Drop)]
struct Adding {
    alloc: Global,
    answered: u64,
}

impl Job for Adding {
    #[tactic(auto, using(xs_testing::proofs::Sides::steps))]
    fn run<R: Wait>(&mut self, rt: &R, client: Client) -> Client {
        let mut lane = Lane::new(client);
        for _ in 0..TIMES {
            let Ok(command) = read(self.alloc, "XADD s * f v") else {
                break;
            };
            match lane.ask(rt, command) {
                Ok(Reply::Error(_)) | Err(_) => {}
                Ok(_) => self.answered = self.answered.saturating_add(1),
            }
        }
        lane.end()
    }
}

fn adders(alloc: Global, lanes: u64) -> Result<Vec<Adding>, AllocError> {
    let mut jobs = Vec::new(alloc);
    for _ in 0..lanes {
        jobs.push(Adding { alloc, answered: 0 })?;
    }
    Ok(jobs)
}

/// Submits XLEN of the stream. Returns the length, and the place of the call.
fn length(
    alloc: Global,
    trial: &mut Trial,
    clock: &mut Leaping,
) -> Result<Option<(u64, u64)>, Refusal> {
    let command = read(alloc, "XLEN s")?;
    let Some(answer) = trial.call(0, clock, command) else {
        return Ok(None);
    };
    let Some(length) = number_of(&answer.reply) else {
        return Ok(None);
    };
    Ok(Some((answer.place, length)))
}

/// The number of a reply.
fn number_of(reply: &Reply) -> Option<u64> {
    match reply {
        Reply::Int(number) => Some(number.get()),
        _ => None,
    }
}

#[test]
fn each_call_is_answered_once(rt: HostRuntime) -> Result<(), Fail> {
    let alloc = rt.alloc();
    let mut clock = Leaping { calls: 0 };
    for (lanes, depth) in [(1, 1), (2, 16), (8, 1), (64, 4)] {
        let jobs = adders(alloc, lanes)?;
        let trial = Trial::new(alloc, lanes as usize, depth)?;
        let (mut trial, jobs) = trial.together(&rt, alloc, clock, jobs)?;
        for job in &jobs {
            assert_eq!(rt; job.answered, TIMES);
        }
        let all = lanes.saturating_mul(TIMES);
        assert_eq!(rt; length(alloc, &mut trial, &mut clock)?, Some((all, all)));
    }
    Ok(())
}
