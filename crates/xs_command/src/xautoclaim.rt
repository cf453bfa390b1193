//! XAUTOCLAIM.
ghost use Rattle.xs_command.specs.Words.{Gives};
ghost use Rattle.xs_command.specs.Xautoclaim.{xautoclaim};

use crate::command::{AutoClaimCommand, Command};
use crate::options::{Options, read_options};
use crate::refusal::Refusal;
use crate::word::Word;
use crate::words::Words;
use std::alloc::Global;
use xs_group::{ClaimRule, ClaimTime};
use xs_resp::Fault;

/// The options of XAUTOCLAIM that were read.
#[derive(Clone, Copy, Debug, PartialEq, Eq)]
pub(crate) struct AutoClaimOptions {
    limit: u64,
    just_id: bool,
}

impl Options for AutoClaimOptions {
    ghost use Rattle.xs_command.specs.Xautoclaim.{auto_claim_option};

    ghost option = { auto_claim_option };

    /// `COUNT n`, with n at least 1, or `JUSTID`.
    #[tactic(auto, unfolding(crate::specs::Xautoclaim::auto_claim_option))]
    fn option<'a>(
        self,
        _alloc: Global,
        name: Word<'a>,
        words: Words<'a>,
    ) -> Result<(Self, Option<Words<'a>>), Refusal> {
        let Self { limit, just_id } = self;
        if name.is(b"count") {
            let (limit, words) = words.natural()?;
            let limit = limit.get();
            if limit == 0 {
                return Err(Refusal::Said(Fault::NotInteger));
            }
            return Ok((Self { limit, just_id }, Some(words)));
        }
        if name.is(b"justid") {
            let just_id = true;
            return Ok((Self { limit, just_id }, Some(words)));
        }
        Ok((self, None))
    }
}

/// `XAUTOCLAIM key group consumer minidle start [COUNT n] [JUSTID]`
#[tactic(auto, unfolding(crate::specs::Xautoclaim::xautoclaim))]
pub(crate) fn read(alloc: Global, words: &Words<'_>) -> Result<Command, Refusal>
    ensures { Gives result (xautoclaim words.now) }
{
    let (key, words) = words.name(alloc)?;
    let (group, words) = words.name(alloc)?;
    let (consumer, words) = words.name(alloc)?;
    let (idle, words) = words.integer()?;
    let (start, words) = words.low()?;
    let none = AutoClaimOptions {
        limit: 100,
        just_id: false,
    };
    let (AutoClaimOptions { limit, just_id }, words) = read_options(alloc, none, words)?;
    let rule = ClaimRule {
        min_idle: idle.at_least_zero(),
        when: ClaimTime::Now,
        retry: None,
        just_id,
    };
    let claim = AutoClaimCommand {
        key,
        group,
        consumer,
        rule,
        start,
        limit,
    };
    words.only(Command::AutoClaim(claim), Fault::Syntax)
}
