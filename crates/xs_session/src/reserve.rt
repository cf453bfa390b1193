//! Memory that a worker keeps for the requests of consumers.
ghost use Rattle.std.specs.Prelude.{◌≡◌, ◌==◌, ◌≤◌, ◌-◌, length, OnOk, IfOk, not};

use std::alloc::{AllocError, Global};
use std::marker::Model;

/// The number of small pieces in a full reserve. `SMALL_PIECE` is the size of each in bytes, which is enough for most
/// commands. Pieces of less than half that size, given back, would be kept by the C library for requests of the very
/// same size.
const SMALL_PIECES: usize = 8;

const SMALL_PIECE: usize = 2048;

/// The number of large pieces in a full reserve. `GREAT_PIECE` is the size of each in bytes. Together they are enough
/// for the command of a request of up to 16 KiB. The C library maps pieces of this size by themselves, and gives them
/// back to the system. So a thread that has taken no memory before can get it.
const GREAT_PIECES: usize = 2;

const GREAT_PIECE: usize = 131_072;

/// Unused memory. It is filled before each request, and given back piece by piece, the small ones first, while memory
/// is refused for a command. So most commands take little of it, and little fills it again. A contract sees the number
/// of its pieces.
#[derive(Drop)]
pub struct Reserve {
    small: Vec<Vec<u8>>,
    great: Vec<Vec<u8>>,
}

impl Model for Reserve {
    ghost use Rattle.std.specs.Prelude.{ℕ, length, ◌+◌, ◌≤◌};

    ghost Value = { ℕ };

    ghost view = { λ r. length r.small.items + length r.great.items };

    ghost invariant = { λ r. (length r.small.items ≤ 8) × (length r.great.items ≤ 2) };
}

/// Adds pieces of `bytes` bytes until there are `count`. If memory runs out, those that were added stay.
fn add_pieces(
    alloc: Global,
    pieces: &mut Vec<Vec<u8>>,
    count: usize,
    bytes: usize,
) -> Result<(), AllocError>
    requires { length pieces.old.items ≤ count }
    ensures most { length pieces.new.items ≤ count }
    ensures all { OnOk result (length pieces.new.items ≡ count) }
{
    while pieces.len() < count {
        let piece = Vec::with_capacity(alloc, bytes)?;
        pieces.push(piece)?;
    }
    Ok(())
}

impl Reserve {
    /// A full reserve.
    pub fn new(alloc: Global) -> Result<Self, AllocError>
        ensures { IfOk result (λ reserve. reserve ≡ 10) }
    {
        let mut reserve = Self {
            small: Vec::with_capacity(alloc, SMALL_PIECES)?,
            great: Vec::with_capacity(alloc, GREAT_PIECES)?,
        };
        reserve.fill(alloc)?;
        Ok(reserve)
    }

    /// Fills it. If memory runs out, the pieces that were added stay.
    pub fn fill(&mut self, alloc: Global) -> Result<(), AllocError>
        ensures { OnOk result (self.new ≡ 10) }
    {
        add_pieces(alloc, &mut self.small, SMALL_PIECES, SMALL_PIECE)?;
        add_pieces(alloc, &mut self.great, GREAT_PIECES, GREAT_PIECE)
    }

    /// Whether there is no piece.
    pub fn is_empty(&self) -> bool
        ensures { result ≡ (self.now == 0) }
    {
        self.small.is_empty() && self.great.is_empty()
    }

    /// Gives a piece back. Returns whether there was one.
    pub fn give_back(&mut self) -> bool
        ensures some { result ≡ not (self.old == 0) }
        ensures fewer { self.new ≡ self.old - 1 }
    {
        self.small.pop().is_some() || self.great.pop().is_some()
    }
}
