//! Memory that is reserved for the commands of consumers.
ghost use Rattle.std.specs.Prelude.{◌≡◌, ◌==◌, OnOk, not};

use std::alloc::{AllocError, Global};
use std::marker::Model;

/// The number of pieces of a full reserve: 4 MiB of memory.
const PIECES: usize = 64;

/// The number of bytes of a piece. The C library maps larger ones by themselves, and gives them back to the system.
const PIECE_BYTES: usize = 65_000;

/// The most bytes of a reply for which the pieces have room.
const SMALL_REPLY: usize = 1 << 20;

/// A buffer that grows while a reply is made may be copied into one of twice its size.
const GROWTH: usize = 3;

/// The number of replies of the greatest entry for which there is room, so two or three such entries may be in one
/// reply.
const REPLIES: usize = 2;

/// The most bytes that the name of a field and its value take in a reply in addition to their own.
const FIELD_BYTES: usize = 64;

/// The most bytes that it takes to make the reply of one entry with `fields` fields, whose names and values have
/// `bytes` bytes together.
pub(crate) fn reply_bytes(fields: usize, bytes: u128) -> usize {
    let bytes = usize::try_from(bytes).unwrap_or(usize::MAX);
    fields
        .saturating_mul(FIELD_BYTES)
        .saturating_add(bytes)
        .saturating_mul(GROWTH)
}

/// Memory that no command uses. It is filled before each addition, and given back if memory is refused for a command of
/// a consumer. So if memory runs out, additions are refused first. A contract sees the number of its pieces.
///
/// The reply of one entry always gets memory: if it takes more than the pieces are for, as much memory is reserved
/// besides them. That room stays when the entry is removed.
#[derive(Drop)]
pub(crate) struct Reserve {
    pieces: Vec<Vec<u8>>,
    // For the reply of the greatest entry.
    room: Vec<u8>,
    // The bytes of the reply of the greatest entry that was added.
    greatest: usize,
    // Whether it was given back, and isn't full again yet.
    is_lent: bool,
    // The number of bytes outside it that are left to others.
    left_free: usize,
    // The bytes of replies that were added since the last look for the bytes of others.
    unlooked: usize,
}

impl Model for Reserve {
    ghost use Rattle.std.specs.Prelude.{ℕ, length, ◌≤◌};

    ghost Value = { ℕ };

    ghost view = { λ r. length r.pieces.items };

    ghost invariant = { λ r. length r.pieces.items ≤ 64 };
}

impl Reserve {
    /// A reserve without pieces. It takes no memory.
    pub(crate) fn new(alloc: Global) -> Self
        ensures { result ≡ 0 }
    {
        Self {
            pieces: Vec::new(alloc),
            room: Vec::new(alloc),
            greatest: 0,
            is_lent: false,
            left_free: 0,
            unlooked: 0,
        }
    }

    /// Sets how many bytes have to be free in one piece outside it when it is filled.
    pub(crate) fn leave_free(&mut self, bytes: usize)
        ensures { self.new ≡ self.old }
    {
        self.left_free = bytes;
    }

    /// Checks that the bytes that are left to others are free, before an addition whose reply takes `reply_bytes`
    /// bytes: at the first addition, and then each time that replies of a piece's size were added.
    fn look(&mut self, alloc: Global, reply_bytes: usize) -> Result<(), AllocError>
        ensures { self.new ≡ self.old }
    {
        if self.left_free == 0 {
            return Ok(());
        }
        if self.unlooked != 0 && self.unlooked < PIECE_BYTES {
            self.unlooked = self.unlooked.saturating_add(reply_bytes);
            return Ok(());
        }
        let _free: Vec<u8> = Vec::with_capacity(alloc, self.left_free)?;
        self.unlooked = reply_bytes.max(1);
        Ok(())
    }

    /// Fills it before an addition of an entry whose reply takes `reply_bytes` bytes. It is refused if the bytes that
    /// are left to others aren't free. If memory runs out, the pieces that were added stay.
    pub(crate) fn admit(&mut self, alloc: Global, reply_bytes: usize) -> Result<(), AllocError>
        ensures { OnOk result (self.new ≡ 64) }
    {
        self.fill(alloc, reply_bytes)?;
        self.look(alloc, reply_bytes)
    }

    /// Fills it, also for an entry whose reply takes `reply_bytes` bytes. If memory runs out, the pieces that were
    /// added stay.
    fn fill(&mut self, alloc: Global, reply_bytes: usize) -> Result<(), AllocError>
        ensures { OnOk result (self.new ≡ 64) }
    {
        while self.pieces.len() < PIECES {
            let piece = Vec::with_capacity(alloc, PIECE_BYTES)?;
            self.pieces.push(piece)?;
        }
        let greatest = reply_bytes.max(self.greatest);
        let wanted = greatest.saturating_mul(REPLIES);
        if greatest > SMALL_REPLY && wanted > self.room.capacity() {
            self.room = Vec::with_capacity(alloc, wanted)?;
        }
        self.is_lent = false;
        Ok(())
    }

    /// Fills it again as far as memory is found, if it was given back.
    pub(crate) fn take_back(&mut self, alloc: Global) {
        if self.is_lent {
            let _ = self.fill(alloc, 0);
        }
    }

    /// An entry was added whose reply takes `reply_bytes` bytes: from now on the reserve is full only with room for it.
    pub(crate) fn hold(&mut self, reply_bytes: usize)
        ensures { self.new ≡ self.old }
    {
        self.greatest = self.greatest.max(reply_bytes);
    }

    /// The bytes of the reply of the greatest entry that was added.
    pub(crate) fn greatest(&self) -> usize {
        self.greatest
    }

    /// Gives all its memory back. Returns whether there was any.
    pub(crate) fn give_back(&mut self, alloc: Global) -> bool
        ensures some { result ≡ not (self.old == 0) }
        ensures none { self.new ≡ 0 }
    {
        let some = !self.pieces.is_empty();
        self.pieces.clear();
        self.room = Vec::new(alloc);
        self.is_lent = true;
        some
    }
}
