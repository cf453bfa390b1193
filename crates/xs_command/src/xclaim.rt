//! XCLAIM.
ghost use Rattle.std.specs.Prelude.{◌≡◌};
ghost use Rattle.xs_command.specs.Words.{Gives};
ghost use Rattle.xs_command.specs.Xclaim.{claim_time_of, claim_option, xclaim};

use crate::command::{ClaimCommand, Command};
use crate::integer::Integer;
use crate::options::{Options, read_options};
use crate::refusal::Refusal;
use crate::word::Word;
use crate::words::Words;
use std::alloc::Global;
use xs_group::{ClaimRule, ClaimTime};
use xs_resp::Fault;

impl Options for ClaimRule {
    ghost option = { claim_option };

    /// `IDLE ms`, `TIME ms`, `RETRYCOUNT n` or `JUSTID`. FORCE and LASTID aren't supported.
    #[tactic(auto, unfolding(crate::specs::Xclaim::claim_option))]
    fn option<'a>(
        self,
        _alloc: Global,
        name: Word<'a>,
        words: Words<'a>,
    ) -> Result<(Self, Option<Words<'a>>), Refusal> {
        let mut rule = self;
        if name.is(b"idle") {
            let (idle, words) = words.integer()?;
            rule.when = ClaimTime::Idle(idle.at_least_zero());
            return Ok((rule, Some(words)));
        }
        if name.is(b"time") {
            let (time, words) = words.integer()?;
            rule.when = time_of(time);
            return Ok((rule, Some(words)));
        }
        if name.is(b"retrycount") {
            let (count, words) = words.natural()?;
            rule.retry = Some(count);
            return Ok((rule, Some(words)));
        }
        if name.is(b"justid") {
            rule.just_id = true;
            return Ok((rule, Some(words)));
        }
        if name.is(b"force") || name.is(b"lastid") {
            return Err(Refusal::Said(Fault::Unsupported));
        }
        Ok((rule, None))
    }
}

/// A moment that was given; a negative one is that of the claim.
fn time_of(time: Integer) -> ClaimTime
    ensures { result ≡ claim_time_of time }
{
    match time {
        Integer::Negative => ClaimTime::Now,
        Integer::Natural(millis) => ClaimTime::At(millis.get()),
    }
}

/// `XCLAIM key group consumer minidle id [id ..] [IDLE ms] [TIME ms] [RETRYCOUNT n] [JUSTID]`
#[tactic(auto, unfolding(crate::specs::Xclaim::xclaim))]
pub(crate) fn read(alloc: Global, words: &Words<'_>) -> Result<Command, Refusal>
    ensures { Gives result (xclaim words.now) }
{
    let (key, words) = words.name(alloc)?;
    let (group, words) = words.name(alloc)?;
    let (consumer, words) = words.name(alloc)?;
    let (idle, words) = words.integer()?;
    let (ids, words) = words.ids(alloc)?;
    let plain = ClaimRule {
        min_idle: idle.at_least_zero(),
        when: ClaimTime::Now,
        retry: None,
        just_id: false,
    };
    let (rule, words) = read_options(alloc, plain, words)?;
    let claim = ClaimCommand {
        key,
        group,
        consumer,
        rule,
        ids,
    };
    words.only(Command::Claim(claim), Fault::Syntax)
}
