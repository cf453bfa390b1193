//! A keyspace that is built from the pieces of a snapshot.
ghost use Rattle.std.specs.Prelude.{◌≡◌, ◌++◌, ◌∷◌, [], true, None, is_some, IfOk, IfSome};
ghost use Rattle.xs_bytes.specs.SortedMap.{empty};
ghost use Rattle.xs_replay.specs.Pieces.{of_key, of_entry, of_group, of_consumer, of_row, pieces_of};
ghost use Rattle.xs_log.specs.PieceOf.{piece_of};
ghost use Rattle.xs_snapshot.specs.Building.{pieces_if_there, pieces_of_key_so_far, pieces_so_far};
ghost use Rattle.xs_snapshot.specs.NextPiece.{is_whole, may_follow, IsInOrder};
ghost use Rattle.xs_snapshot.specs.Restorable.{IsRestorable};

use crate::key_builder::KeyBuilder;
use std::alloc::{AllocError, Global};
use std::marker::Model;
use xs_bytes::{Bytes, U63};
use xs_keys::Keyspace;
use xs_log::Piece;
use xs_stream::{Field, Id, Moment};

/// A keyspace that is built from the pieces of a snapshot, one after the other. A contract sees what it has so far. It
/// never searches: each piece goes after the last one. After an error or a refusal it must not be used any more.
#[derive(Drop)]
pub struct KeyspaceBuilder {
    alloc: Global,
    // The keys before the last one.
    keyspace: Keyspace,
    // The last key, if there is one.
    key: Option<KeyBuilder>,
}

impl Model for KeyspaceBuilder {
    ghost use Rattle.xs_snapshot.specs.Building.{Building};
    ghost use Rattle.xs_snapshot.specs.BuildingCodes.{coded_building};
    ghost use Rattle.xs_snapshot.specs.SoFar.{IsKeyspaceSoFar};

    ghost Value = { Building };

    ghost coded = { coded_building };

    ghost view = { λ b. record { content = b.keyspace; key = b.key } };

    ghost invariant = { λ b. IsKeyspaceSoFar b.keyspace b.key };
}

/// Appends the last key, if there is one, to the others. Returns whether it is complete and its name is above theirs.
fn push_key(keyspace: &mut Keyspace, last: Option<KeyBuilder>) -> Result<bool, AllocError>
    ensures next { IfOk result (λ put. put
        ≡ is_whole (record { content = keyspace.old; key = last })) }
    ensures behind { IfOk result (λ put. put ≡ true → pieces_of keyspace.new
        ≡ pieces_of keyspace.old ++ pieces_if_there pieces_of_key_so_far last) }
    ensures restorable { IsRestorable keyspace.old → IsRestorable keyspace.new }
{
    let Some(last) = last else {
        return Ok(true);
    };
    match last.finish()? {
        Some((name, slot)) => keyspace.restore_key(name, slot),
        None => Ok(false),
    }
}

impl KeyspaceBuilder {
    /// A builder without pieces.
    pub fn new(alloc: Global) -> Self
        ensures value { result ≡ record { content = empty; key = None } }
        ensures order { IsInOrder result }
    {
        Self {
            alloc,
            keyspace: Keyspace::new(alloc),
            key: None,
        }
    }

    /// Appends a piece, and returns whether it did. It refuses a piece that can't follow those before it in any
    /// content: an entry after a group, a consumer after a row, ids or names that don't ascend, a row of a consumer
    /// that isn't in the group or above the cursor of the group, an entry or a group before any key, a consumer or a
    /// row before any group, and a key or a group after one that isn't complete.
    pub fn put(&mut self, piece: Piece) -> Result<bool, AllocError>
        ensures next { IfOk result (λ put. put ≡ may_follow self.old (piece_of piece)) }
        ensures behind { IfOk result (λ put. put ≡ true → pieces_so_far self.new
            ≡ pieces_so_far self.old ++ piece_of piece ∷ []) }
        ensures order { IsInOrder self.new }
    {
        match piece {
            Piece::Key {
                name,
                top,
                added,
                deleted,
            } => self.put_key(name, top, added, deleted),
            Piece::Entry { id, fields } => self.put_entry(id, fields.as_slice()),
            Piece::Group { name, cursor } => self.put_group(name, cursor),
            Piece::Consumer { name, moment } => self.put_consumer(name, moment),
            Piece::Row {
                id,
                consumer,
                time,
                count,
            } => self.put_row(id, &consumer, time, count),
        }
    }

    /// The keyspace. None if the last key isn't complete.
    pub fn finish(self) -> Result<Option<Keyspace>, AllocError>
        ensures whole { IfOk result (λ found. is_some found ≡ is_whole self) }
        ensures pieces { IfOk result (λ found. IfSome found (λ keyspace. pieces_of keyspace ≡ pieces_so_far self)) }
        ensures restorable { IfOk result (λ found. IfSome found IsRestorable) }
    {
        let Self {
            mut keyspace,
            key,
            ..
        } = self;
        if push_key(&mut keyspace, key)? {
            return Ok(Some(keyspace));
        }
        Ok(None)
    }

    fn put_key(
        &mut self,
        name: Bytes,
        top: Id,
        added: u128,
        deleted: Id,
    ) -> Result<bool, AllocError>
        ensures next { IfOk result (λ put. put ≡ may_follow self.old (of_key name top added deleted)) }
        ensures behind { IfOk result (λ put. put ≡ true → pieces_so_far self.new
            ≡ pieces_so_far self.old ++ of_key name top added deleted ∷ []) }
        ensures order { IsInOrder self.new }
    {
        let last = self
            .key
            .replace(KeyBuilder::new(self.alloc, name, top, added, deleted));
        push_key(&mut self.keyspace, last)
    }

    fn put_entry(&mut self, id: Id, fields: &[Field]) -> Result<bool, AllocError>
        ensures next { IfOk result (λ put. put ≡ may_follow self.old (of_entry id fields.now)) }
        ensures behind { IfOk result (λ put. put ≡ true → pieces_so_far self.new
            ≡ pieces_so_far self.old ++ of_entry id fields.now ∷ []) }
        ensures order { IsInOrder self.new }
    {
        self.keyspace.hold_room(fields);
        match &mut self.key {
            Some(key) => key.put_entry(id, fields),
            None => Ok(false),
        }
    }

    fn put_group(&mut self, name: Bytes, cursor: Id) -> Result<bool, AllocError>
        ensures next { IfOk result (λ put. put ≡ may_follow self.old (of_group name cursor)) }
        ensures behind { IfOk result (λ put. put ≡ true → pieces_so_far self.new
            ≡ pieces_so_far self.old ++ of_group name cursor ∷ []) }
        ensures order { IsInOrder self.new }
    {
        match &mut self.key {
            Some(key) => key.put_group(self.alloc, name, cursor),
            None => Ok(false),
        }
    }

    fn put_consumer(&mut self, name: Bytes, moment: Moment) -> Result<bool, AllocError>
        ensures next { IfOk result (λ put. put ≡ may_follow self.old (of_consumer name moment)) }
        ensures behind { IfOk result (λ put. put ≡ true → pieces_so_far self.new
            ≡ pieces_so_far self.old ++ of_consumer name moment ∷ []) }
        ensures order { IsInOrder self.new }
    {
        match &mut self.key {
            Some(key) => key.put_consumer(self.alloc, name, moment),
            None => Ok(false),
        }
    }

    fn put_row(
        &mut self,
        id: Id,
        consumer: &Bytes,
        time: Moment,
        count: U63,
    ) -> Result<bool, AllocError>
        ensures next { IfOk result (λ put. put ≡ may_follow self.old
            (of_row id (record { consumer = consumer.now; time = time; count = count }))) }
        ensures behind { IfOk result (λ put. put ≡ true → pieces_so_far self.new ≡ pieces_so_far self.old
            ++ of_row id (record { consumer = consumer.now; time = time; count = count }) ∷ []) }
        ensures order { IsInOrder self.new }
    {
        match &mut self.key {
            Some(key) => key.put_row(self.alloc, id, consumer, time, count),
            None => Ok(false),
        }
    }
}
