//! The options MAXLEN and MINID of XADD and XTRIM. A command may have only one of them.
ghost use Rattle.std.specs.Prelude.{◌≡◌};
ghost use Rattle.xs_command.specs.Trim.{max_len, min_id, first_trim, trim_option};

use crate::options::Options;
use crate::refusal::Refusal;
use crate::word::Word;
use crate::words::Words;
use std::alloc::Global;
use xs_resp::Fault;
use xs_stream::Trim;

impl Options for Option<Trim> {
    ghost option = { trim_option };

    /// `MAXLEN [=|~] count` or `MINID [=|~] id`. LIMIT isn't supported.
    #[tactic(auto, unfolding(crate::specs::Trim::trim_option))]
    fn option<'a>(
        self,
        _alloc: Global,
        name: Word<'a>,
        words: Words<'a>,
    ) -> Result<(Self, Option<Words<'a>>), Refusal> {
        if name.is(b"maxlen") {
            return Ok(first_trim(self, read_max_len(words))?);
        }
        if name.is(b"minid") {
            return Ok(first_trim(self, read_min_id(words))?);
        }
        if name.is(b"limit") {
            return Err(Refusal::Said(Fault::Unsupported));
        }
        Ok((self, None))
    }
}

/// A trim that was read, if there is none before it.
fn first_trim<'a>(
    earlier: Option<Trim>,
    read: Result<(Trim, Words<'a>), Fault>,
) -> Result<(Option<Trim>, Option<Words<'a>>), Fault>
    ensures { result ≡ first_trim earlier read.entry }
{
    if earlier.is_some() {
        return Err(Fault::Syntax);
    }
    let (trim, words) = read?;
    Ok((Some(trim), Some(words)))
}

/// Reads what follows MAXLEN. `~` trims exactly, as `=` does.
#[tactic(auto, unfolding(crate::specs::Trim::max_len))]
fn read_max_len(words: Words<'_>) -> Result<(Trim, Words<'_>), Fault>
    ensures { result ≡ max_len words.entry }
{
    let (count, words) = words.behind_sign().natural()?;
    Ok((Trim::MaxLen(count.get()), words))
}

/// Reads what follows MINID.
#[tactic(auto, unfolding(crate::specs::Trim::min_id))]
fn read_min_id(words: Words<'_>) -> Result<(Trim, Words<'_>), Fault>
    ensures { result ≡ min_id words.entry }
{
    let (id, words) = words.behind_sign().id()?;
    Ok((Trim::MinId(id), words))
}
