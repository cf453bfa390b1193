//! XPENDING.
ghost use Rattle.xs_command.specs.Words.{Gives};
ghost use Rattle.xs_command.specs.Xpending.{optional, pending_rows, idle_rows, form, xpending};

use crate::command::{Command, PendingRowsCommand};
use crate::refusal::Refusal;
use crate::words::Words;
use std::alloc::Global;
use xs_bytes::Bytes;
use xs_resp::Fault;
use xs_stream::Range;

/// `XPENDING key group`, and nothing or `[IDLE ms] low high count [consumer]`
#[tactic(auto, unfolding(crate::specs::Xpending::xpending))]
pub(crate) fn read(alloc: Global, words: &Words<'_>) -> Result<Command, Refusal>
    ensures { Gives result (xpending words.now) }
{
    let (key, words) = words.name(alloc)?;
    let (group, words) = words.name(alloc)?;
    read_form(alloc, key, group, &words)
}

/// Reads the long form, or the short one if no words are left. The number of words is checked first.
#[tactic(auto, unfolding(crate::specs::Xpending::form, crate::specs::Words::word))]
fn read_form(alloc: Global, key: Bytes, group: Bytes, words: &Words<'_>) -> Result<Command, Refusal>
    ensures { Gives result (form key group words.now) }
{
    let Ok((first, behind)) = words.word() else {
        return Ok(Command::Pending { key, group });
    };
    if first.is(b"idle") {
        return match behind.len() {
            4 | 5 => read_idle_rows(alloc, key, group, &behind),
            _ => Err(Refusal::Said(Fault::Syntax)),
        };
    }
    match words.len() {
        3 | 4 => read_rows(alloc, key, group, 0, words),
        _ => Err(Refusal::Said(Fault::Syntax)),
    }
}

/// `ms low high count [consumer]`, after IDLE.
#[tactic(auto, unfolding(crate::specs::Xpending::idle_rows))]
fn read_idle_rows(
    alloc: Global,
    key: Bytes,
    group: Bytes,
    words: &Words<'_>,
) -> Result<Command, Refusal>
    ensures { Gives result (idle_rows key group words.now) }
{
    let (idle, words) = words.integer()?;
    read_rows(alloc, key, group, idle.at_least_zero(), &words)
}

/// `low high count [consumer]`
#[tactic(auto, unfolding(crate::specs::Xpending::pending_rows))]
fn read_rows(
    alloc: Global,
    key: Bytes,
    group: Bytes,
    min_idle: u64,
    words: &Words<'_>,
) -> Result<Command, Refusal>
    ensures { Gives result (pending_rows key group min_idle words.now) }
{
    let (low, words) = words.low()?;
    let (high, words) = words.high()?;
    let (count, words) = words.integer()?;
    let (consumer, words) = optional(alloc, words)?;
    let rows = PendingRowsCommand {
        key,
        group,
        min_idle,
        range: Range { low, high },
        limit: count.at_least_zero(),
        consumer,
    };
    words.only(Command::PendingRows(rows), Fault::Syntax)
}

/// The next word as a name, if there is one.
#[tactic(auto, unfolding(crate::specs::Xpending::optional, crate::specs::Words::word))]
fn optional(alloc: Global, words: Words<'_>) -> Result<(Option<Bytes>, Words<'_>), Refusal>
    ensures { Gives result (optional words.entry) }
{
    let Ok((word, behind)) = words.word() else {
        return Ok((None, words));
    };
    let name = word.copy(alloc)?;
    Ok((Some(name), behind))
}
