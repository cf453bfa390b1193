//! XRANGE and XREVRANGE.
ghost use Rattle.xs_command.specs.Words.{Gives};
ghost use Rattle.xs_command.specs.Xrange.{xrange, xrevrange};

use crate::command::{Command, RangeCommand};
use crate::options::{Options, read_options};
use crate::refusal::Refusal;
use crate::word::Word;
use crate::words::Words;
use std::alloc::Global;
use xs_resp::Fault;
use xs_stream::Range;

impl Options for Option<u64> {
    ghost use Rattle.xs_command.specs.Xrange.{scan_option};

    ghost option = { scan_option };

    /// `COUNT n`. A negative number counts as 0.
    #[tactic(auto, unfolding(crate::specs::Xrange::scan_option))]
    fn option<'a>(
        self,
        _alloc: Global,
        name: Word<'a>,
        words: Words<'a>,
    ) -> Result<(Self, Option<Words<'a>>), Refusal> {
        if name.is(b"count") {
            let (count, words) = words.integer()?;
            return Ok((Some(count.at_least_zero()), Some(words)));
        }
        Ok((self, None))
    }
}

/// `XRANGE key low high [COUNT n]`
#[tactic(auto, unfolding(crate::specs::Xrange::xrange))]
pub(crate) fn read(alloc: Global, words: &Words<'_>) -> Result<Command, Refusal>
    ensures { Gives result (xrange words.now) }
{
    let (key, words) = words.name(alloc)?;
    let (low, words) = words.low()?;
    let (high, words) = words.high()?;
    let (limit, words) = read_options(alloc, None, words)?;
    let scan = RangeCommand {
        key,
        range: Range { low, high },
        limit,
        reversed: false,
    };
    words.only(Command::Scan(scan), Fault::Syntax)
}

/// `XREVRANGE key high low [COUNT n]`
#[tactic(auto, unfolding(crate::specs::Xrange::xrevrange))]
pub(crate) fn read_reversed(alloc: Global, words: &Words<'_>) -> Result<Command, Refusal>
    ensures { Gives result (xrevrange words.now) }
{
    let (key, words) = words.name(alloc)?;
    let (high, words) = words.high()?;
    let (low, words) = words.low()?;
    let (limit, words) = read_options(alloc, None, words)?;
    let scan = RangeCommand {
        key,
        range: Range { low, high },
        limit,
        reversed: true,
    };
    words.only(Command::Scan(scan), Fault::Syntax)
}
