//! Sets of lanes.
ghost use Rattle.std.specs.Prelude.{◌≤◌, ◌<◌, ◌^◌, IfSome};

use crate::opening::MOST_LANES;

/// The number of lanes for which a word has bits.
const WORD: usize = 64;

/// The number of words for all lanes that a desk can have.
const WORDS: usize = MOST_LANES / WORD;

/// A set of lanes: a bit for each, the lowest of the first word for lane 0.
#[derive(Clone, Copy, Debug, PartialEq, Eq)]
pub(crate) struct LaneSet {
    words: [u64; WORDS],
}

/// The index of the word with the bit of a lane.
pub(crate) fn word_of(lane: usize) -> usize {
    lane / WORD
}

/// The bit of a lane in its word.
pub(crate) fn bit_of(lane: usize) -> u64 {
    1u64.wrapping_shl((lane % WORD) as u32)
}

impl LaneSet {
    /// The empty set.
    pub fn new() -> LaneSet {
        LaneSet { words: [0; WORDS] }
    }

    /// Whether the lane is in the set.
    pub fn has(&self, lane: usize) -> bool {
        self.word(word_of(lane)) & bit_of(lane) != 0
    }

    pub fn insert(&mut self, lane: usize) {
        self.insert_bits(word_of(lane), bit_of(lane));
    }

    pub fn remove(&mut self, lane: usize) {
        if let Some(word) = self.words.get_mut(word_of(lane)) {
            *word &= !bit_of(lane);
        }
    }

    /// The word at a place: the bits of 64 lanes.
    pub fn word(&self, place: usize) -> u64 {
        match self.words.get(place) {
            Some(word) => *word,
            None => 0,
        }
    }

    /// Adds the lanes that have these bits in the word at a place.
    pub fn insert_bits(&mut self, place: usize, bits: u64) {
        if let Some(word) = self.words.get_mut(place) {
            *word |= bits;
        }
    }

    /// The first lane of the set that is at least `from` and below `end`.
    pub fn first_from(&self, from: usize, end: usize) -> Option<usize>
        requires { end < 2 ^ 63 }
        ensures { IfSome result (λ lane. (from ≤ lane) × (lane < end)) }
    {
        let mut from = from;
        while from < end {
            let left = self.word(word_of(from)).wrapping_shr((from % WORD) as u32);
            if left != 0 {
                return Some(from + left.trailing_zeros() as usize).filter(|lane| *lane < end);
            }
            from += WORD - from % WORD;
        }
        None
    }
}
