//! A writer of a snapshot, piece by piece.
ghost use Rattle.std.specs.Prelude.{◌≡◌, ◌≢◌, ◌∷◌, [], ◌++◌, ◌+◌, ◌-◌, ◌<◌, ◌^◌, ℕ, List, Option, Err, false, true};
ghost use Rattle.std.specs.Prelude.{IfOk, OnOk};
ghost use Rattle.xs_replay.specs.Pieces as content;
ghost use Rattle.xs_replay.specs.SnapshotWords.{values_of};
ghost use Rattle.xs_log.specs.SnapshotPieces.{AreShort};
ghost use Rattle.xs_log.specs.SnapshotWriting.{IsEmptyFile, HasPut, KeepsPieces};

use crate::piece_values::{consumer_values, entry_values, group_values, key_values, row_values};
use crate::piece_words::{CONSUMER, ENTRY, GROUP, KEY, ROW};
use crate::snapshot_output::{KEPT_EACH, WriteFault, put_end, put_header, put_piece};
use std::alloc::Global;
use std::marker::Model;
use xs_bytes::{Bytes, U63};
use xs_stream::{Id, Moment, PackedFields};
use xs_tape::{LogWriter, Tape};

/// A writer of a snapshot. The parts of a piece are lent to it. After an error it must not be used any more.
#[derive(Drop)]
pub struct SnapshotWriter<T: Tape + Drop> {
    alloc: Global,
    writer: LogWriter<T>,
    // The words of the last entry, whose memory is used again.
    words: Vec<Bytes>,
    // The number of pieces that were put.
    count: u64,
    // Once the tape has this many bytes, it has to keep them.
    keep_at: u64,
}

impl<T: Tape + Drop> Model for SnapshotWriter<T> {
    ghost use Rattle.xs_log.specs.SnapshotWriting.{SnapshotWriting};

    ghost Value = { SnapshotWriting };

    ghost view = { λ w. record { writing = w.writer; count = w.count } };
}

impl<T: Tape + Drop> SnapshotWriter<T> {
    /// Begins a snapshot in the last file of a tape, which has to be empty. Its number is that of the log after it, and
    /// its moment that of the last event before it, if there was one.
    ///
    /// # Errors
    /// A `WriteFault`.
    pub fn begin(
        alloc: Global,
        tape: T,
        number: u64,
        moment: Option<Moment>,
    ) -> Result<Self, WriteFault>
        requires { T.broken tape ≡ false }
        ensures has { IfOk result (λ writer. (closed : List (List ℕ)) → IsEmptyFile closed (T.holds tape) →
            HasPut number closed writer moment []) }
        ensures none { IfOk result (λ writer. writer.count ≡ 0) }
        ensures sound { IfOk result (λ writer. writer.writing.broken ≡ false) }
        ensures short { result ≢ Err WriteFault.TooLong }
    {
        let Ok(mut writer) = LogWriter::new(alloc, tape) else {
            return Err(WriteFault::Memory);
        };
        match put_header(alloc, &mut writer, number, moment) {
            Ok(()) => {}
            Err(fault) => return Err(fault),
        }
        Ok(Self {
            alloc,
            writer,
            words: Vec::new(alloc),
            count: 0,
            keep_at: KEPT_EACH,
        })
    }

    /// Puts a key: its name, its top id, the number of entries ever added, and the greatest id ever deleted.
    ///
    /// # Errors
    /// A `WriteFault`.
    pub fn put_key(
        &mut self,
        name: &[u8],
        top: Id,
        added: u128,
        deleted: Id,
    ) -> Result<(), WriteFault>
        requires { self.old.writing.broken ≡ false }
        ensures has { (number : ℕ) (closed : List (List ℕ)) (moment : Option ℕ) (pieces : List content.Piece) →
            HasPut number closed self.old moment pieces →
            OnOk result (HasPut number closed self.new moment
            (pieces ++ content.of_key name.now top added deleted ∷ [])) }
        ensures count { OnOk result (self.new.count ≡ self.old.count + 1) }
        ensures sound { OnOk result (self.new.writing.broken ≡ false) }
        ensures device { result ≡ Err WriteFault.Device → self.new.writing.broken ≡ true }
        ensures long { result ≡ Err WriteFault.TooLong →
            AreShort (values_of (content.of_key name.now top added deleted)) →
            self.old.count < 2 ^ 64 - 1 → ⊥ }
    {
        let Ok(values) = key_values(self.alloc, name, top, added, deleted) else {
            return Err(WriteFault::Memory);
        };
        put_piece(
            &mut self.writer,
            &mut self.count,
            &mut self.keep_at,
            KEY,
            &values,
        )
    }

    /// Puts an entry of the last key.
    ///
    /// # Errors
    /// A `WriteFault`.
    pub fn put_entry(&mut self, id: Id, fields: PackedFields<'_>) -> Result<(), WriteFault>
        requires { self.old.writing.broken ≡ false }
        ensures has { (number : ℕ) (closed : List (List ℕ)) (moment : Option ℕ) (pieces : List content.Piece) →
            HasPut number closed self.old moment pieces →
            OnOk result (HasPut number closed self.new moment (pieces ++ content.of_entry id fields.entry ∷ [])) }
        ensures count { OnOk result (self.new.count ≡ self.old.count + 1) }
        ensures sound { OnOk result (self.new.writing.broken ≡ false) }
        ensures device { result ≡ Err WriteFault.Device → self.new.writing.broken ≡ true }
        ensures long { result ≡ Err WriteFault.TooLong → AreShort (values_of (content.of_entry id fields.entry)) →
            self.old.count < 2 ^ 64 - 1 → ⊥ }
    {
        let Ok(()) = entry_values(self.alloc, &mut self.words, id, fields) else {
            return Err(WriteFault::Memory);
        };
        put_piece(
            &mut self.writer,
            &mut self.count,
            &mut self.keep_at,
            ENTRY,
            &self.words,
        )
    }

    /// Puts a group of the last key: its name and its cursor.
    ///
    /// # Errors
    /// A `WriteFault`.
    pub fn put_group(&mut self, name: &[u8], cursor: Id) -> Result<(), WriteFault>
        requires { self.old.writing.broken ≡ false }
        ensures has { (number : ℕ) (closed : List (List ℕ)) (moment : Option ℕ) (pieces : List content.Piece) →
            HasPut number closed self.old moment pieces →
            OnOk result (HasPut number closed self.new moment (pieces ++ content.of_group name.now cursor ∷ [])) }
        ensures count { OnOk result (self.new.count ≡ self.old.count + 1) }
        ensures sound { OnOk result (self.new.writing.broken ≡ false) }
        ensures device { result ≡ Err WriteFault.Device → self.new.writing.broken ≡ true }
        ensures long { result ≡ Err WriteFault.TooLong → AreShort (values_of (content.of_group name.now cursor)) →
            self.old.count < 2 ^ 64 - 1 → ⊥ }
    {
        let Ok(values) = group_values(self.alloc, name, cursor) else {
            return Err(WriteFault::Memory);
        };
        put_piece(
            &mut self.writer,
            &mut self.count,
            &mut self.keep_at,
            GROUP,
            &values,
        )
    }

    /// Puts a consumer of the last group: its name and its moment.
    ///
    /// # Errors
    /// A `WriteFault`.
    pub fn put_consumer(&mut self, name: &[u8], seen: Moment) -> Result<(), WriteFault>
        requires { self.old.writing.broken ≡ false }
        ensures has { (number : ℕ) (closed : List (List ℕ)) (moment : Option ℕ) (pieces : List content.Piece) →
            HasPut number closed self.old moment pieces →
            OnOk result (HasPut number closed self.new moment (pieces ++ content.of_consumer name.now seen ∷ [])) }
        ensures count { OnOk result (self.new.count ≡ self.old.count + 1) }
        ensures sound { OnOk result (self.new.writing.broken ≡ false) }
        ensures device { result ≡ Err WriteFault.Device → self.new.writing.broken ≡ true }
        ensures long { result ≡ Err WriteFault.TooLong → AreShort (values_of (content.of_consumer name.now seen)) →
            self.old.count < 2 ^ 64 - 1 → ⊥ }
    {
        let Ok(values) = consumer_values(self.alloc, name, seen) else {
            return Err(WriteFault::Memory);
        };
        put_piece(
            &mut self.writer,
            &mut self.count,
            &mut self.keep_at,
            CONSUMER,
            &values,
        )
    }

    /// Puts a pending row of the last group: the entry's id, the consumer that has it, when it was last delivered, and
    /// how often.
    ///
    /// # Errors
    /// A `WriteFault`.
    pub fn put_row(
        &mut self,
        id: Id,
        consumer: &[u8],
        time: Moment,
        deliveries: U63,
    ) -> Result<(), WriteFault>
        requires { self.old.writing.broken ≡ false }
        ensures has { (number : ℕ) (closed : List (List ℕ)) (moment : Option ℕ) (pieces : List content.Piece) →
            HasPut number closed self.old moment pieces →
            OnOk result (HasPut number closed self.new moment (pieces
            ++ content.of_row id (record { consumer = consumer.now; time = time; count = deliveries }) ∷ [])) }
        ensures count { OnOk result (self.new.count ≡ self.old.count + 1) }
        ensures sound { OnOk result (self.new.writing.broken ≡ false) }
        ensures device { result ≡ Err WriteFault.Device → self.new.writing.broken ≡ true }
        ensures long { result ≡ Err WriteFault.TooLong → AreShort (values_of
            (content.of_row id (record { consumer = consumer.now; time = time; count = deliveries }))) →
            self.old.count < 2 ^ 64 - 1 → ⊥ }
    {
        let Ok(values) = row_values(self.alloc, id, consumer, time, deliveries) else {
            return Err(WriteFault::Memory);
        };
        put_piece(
            &mut self.writer,
            &mut self.count,
            &mut self.keep_at,
            ROW,
            &values,
        )
    }

    /// Puts the end, with the number of pieces, and has the tape keep all.
    ///
    /// # Errors
    /// A `WriteFault`. It isn't known then what is kept.
    pub fn end(&mut self) -> Result<(), WriteFault>
        requires { self.old.writing.broken ≡ false }
        // The last file of the tape is a snapshot of the pieces that were put, and all of it is kept.
        ensures keeps { (number : ℕ) (closed : List (List ℕ)) (moment : Option ℕ) (pieces : List content.Piece) →
            HasPut number closed self.old moment pieces →
            OnOk result (KeepsPieces number closed self.new.writing.holds moment pieces) }
        ensures sound { OnOk result (self.new.writing.broken ≡ false) }
        ensures device { result ≡ Err WriteFault.Device → self.new.writing.broken ≡ true }
        ensures short { result ≢ Err WriteFault.TooLong }
    {
        put_end(self.alloc, &mut self.writer, self.count)
    }

    /// The tape.
    pub fn tape(&self) -> &T
        ensures { T.holds result.now ≡ self.now.writing.holds }
    {
        self.writer.tape()
    }

    /// Returns the tape, without what is pending. After `end` nothing is pending.
    pub fn into_tape(self) -> T
        ensures holds { T.holds result ≡ self.writing.holds }
        ensures broken { T.broken result ≡ self.writing.broken }
    {
        self.writer.into_tape()
    }
}
