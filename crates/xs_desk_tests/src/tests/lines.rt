//! The lines that are submitted: a line that is given, or one of any kind, made at random.
ghost use Rattle.std.specs.Prelude.{◌<◌, IfOk};
ghost use Rattle.xs_command.specs.WellFormed.{IsWellFormed};

use std::alloc::{AllocError, Global};
use xs_bytes::Bytes;
use xs_command::{Command, Refusal};
use xs_testing::{read, read_words};

/// A line, or the seed of one.
#[derive(Clone, Copy, Drop)]
pub enum Line {
    Given(&'static str),
    AtRandom(u64),
}

/// Kinds of lines. `%k` is replaced by a key, `%g` by a group, `%c` by a consumer, `%i` by an id, and `%n` by a number.
const KINDS: [&str; 45] = [
    "XADD %k * f %n",
    "XADD %k * f %n",
    "XADD %k * f %n",
    "XADD %k * f %n",
    "XADD %k * f %n e %n",
    "XADD %k %i f %n",
    "XADD %k NOMKSTREAM * f %n",
    "XADD %k MAXLEN %n * f %n",
    "XADD %k MINID %i * f %n",
    "XDEL %k %i %i",
    "XDEL %k %i",
    "XTRIM %k MAXLEN %n",
    "XTRIM %k MINID %i",
    "XLEN %k",
    "XRANGE %k - + COUNT %n",
    "XREVRANGE %k + %i",
    "XGROUP CREATE %k %g 0 MKSTREAM",
    "XGROUP CREATE %k %g 0 MKSTREAM",
    "XGROUP CREATE %k %g $",
    "XGROUP CREATECONSUMER %k %g %c",
    "XGROUP DELCONSUMER %k %g %c",
    "XGROUP DESTROY %k %g",
    "XREADGROUP GROUP %g %c COUNT %n STREAMS %k >",
    "XREADGROUP GROUP %g %c COUNT %n STREAMS %k >",
    "XREADGROUP GROUP %g %c STREAMS %k >",
    "XREADGROUP GROUP %g %c NOACK STREAMS %k >",
    "XREADGROUP GROUP %g %c COUNT %n STREAMS s t u > > >",
    "XREADGROUP GROUP %g %c COUNT %n STREAMS %k 0",
    "XREADGROUP GROUP %g %c COUNT %n STREAMS %k %i",
    "XACK %k %g %i %i %i",
    "XACK %k %g %i",
    "XPENDING %k %g",
    "XPENDING %k %g - + 10",
    "XPENDING %k %g IDLE %n - + %n %c",
    "XCLAIM %k %g %c 0 %i %i",
    "XCLAIM %k %g %c 0 %i %i JUSTID",
    "XCLAIM %k %g %c %n %i IDLE %n RETRYCOUNT %n",
    "XAUTOCLAIM %k %g %c 0 -",
    "XAUTOCLAIM %k %g %c 0 - COUNT %n",
    "XAUTOCLAIM %k %g %c %n %i JUSTID",
    "DEL %k",
    "DEL s t",
    "PING",
    "PING hello",
    "QUIT",
];

const KEYS: [&str; 3] = ["s", "t", "u"];

const GROUPS: [&str; 2] = ["g", "h"];

const CONSUMERS: [&str; 4] = ["a", "b", "c", "d"];

const NUMBERS: [&str; 8] = ["1", "2", "3", "4", "5", "6", "7", "8"];

const SEQUENCES: [&str; 6] = ["0", "1", "2", "3", "4", "5"];

/// Random numbers, by SplitMix64.
#[derive(Drop)]
struct Dice {
    state: u64,
}

impl Dice {
    fn next(&mut self) -> u64 {
        self.state = self.state.wrapping_add(0x9e37_79b9_7f4a_7c15);
        let mixed = (self.state ^ (self.state >> 30)).wrapping_mul(0xbf58_476d_1ce4_e5b9);
        let mixed = (mixed ^ (mixed >> 27)).wrapping_mul(0x94d0_49bb_1331_11eb);
        mixed ^ (mixed >> 31)
    }

    fn one_of(&mut self, words: &[&'static str]) -> &'static str {
        if words.is_empty() {
            return "";
        }
        words[(self.next() % words.len() as u64) as usize]
    }

    fn kind(&mut self) -> &'static str {
        self.one_of(&KINDS)
    }

    /// The word that replaces this one.
    fn word(&mut self, alloc: Global, word: &[u8]) -> Result<Bytes, AllocError> {
        let one = match word {
            b"%k" => self.one_of(&KEYS),
            b"%g" => self.one_of(&GROUPS),
            b"%c" => self.one_of(&CONSUMERS),
            b"%n" => self.one_of(&NUMBERS),
            b"%i" => return self.id(alloc),
            _ => return Bytes::from_slice(alloc, word),
        };
        Bytes::from_slice(alloc, one.as_bytes())
    }

    fn id(&mut self, alloc: Global) -> Result<Bytes, AllocError> {
        let millis = self.one_of(&NUMBERS);
        let sequence = self.one_of(&SEQUENCES);
        Bytes::join(alloc, millis.as_bytes(), b'-', sequence.as_bytes())
    }
}

fn at_random(alloc: Global, seed: u64) -> Result<Command, Refusal>
    ensures { IfOk result (λ command. IsWellFormed command) }
{
    let mut dice = Dice { state: seed };
    dice.state = dice.next();
    let mut words = Vec::new(alloc);
    for word in dice.kind().split(' ') {
        words.push(dice.word(alloc, word.as_bytes())?)?;
    }
    read_words(alloc, words.as_slice())
}

impl Line {
    /// The line of the call with this number.
    pub fn of_call(self, number: u64) -> Line {
        match self {
            Line::Given(line) => Line::Given(line),
            Line::AtRandom(seed) => Line::AtRandom(seed.wrapping_add(number)),
        }
    }

    pub fn command(self, alloc: Global) -> Result<Command, Refusal>
        ensures { IfOk result (λ command. IsWellFormed command) }
    {
        match self {
            Line::Given(line) => read(alloc, line),
            Line::AtRandom(seed) => at_random(alloc, seed),
        }
    }
}
