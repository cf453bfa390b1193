//! Options of a command. They come in any order, and the last of a repeated one counts.
ghost use Rattle.std.specs.Prelude.{◌≡◌, List, ℕ, Option, Result};
ghost use Rattle.xs_resp.specs.declared.fault.Fault.{Fault};
ghost use Rattle.xs_command.specs.Words.{Gives};
ghost use Rattle.xs_command.specs.Options.{many};

use crate::refusal::Refusal;
use crate::word::Word;
use crate::words::Words;
use std::alloc::Global;

/// The options of a command that were read so far.
pub trait Options: Sized + Drop {
    ghost option: { Self → List ℕ → List (List ℕ) → Result (Self × Option (List (List ℕ))) Fault };

    /// Reads an option of this name, whose further words come next. It returns the words after the option, or None if
    /// the name isn't an option.
    fn option<'a>(
        self,
        alloc: Global,
        name: Word<'a>,
        words: Words<'a>,
    ) -> Result<(Self, Option<Words<'a>>), Refusal>
        ensures { Gives result (option self name.entry words.entry) };
}

/// Reads options while words are options.
pub fn read_options<'a, S: Options>(
    alloc: Global,
    none: S,
    words: Words<'a>,
) -> Result<(S, Words<'a>), Refusal>
    ensures { Gives result (many S.option none words.entry) }
{
    let mut state = none;
    let mut left = words;
    for _option in 0..left.len() {
        let Ok((name, rest)) = left.word() else {
            return Ok((state, left));
        };
        let (read, behind) = state.option(alloc, name, rest)?;
        let Some(behind) = behind else {
            return Ok((read, left));
        };
        state = read;
        left = behind;
    }
    Ok((state, left))
}
