//! A key that is built from its pieces.
ghost use Rattle.std.specs.Prelude.{◌≡◌, ◌++◌, ◌∷◌, [], true, None, false, is_some, IfOk, IfSome, OnErr};
ghost use Rattle.std.specs.List.{flat_map};
ghost use Rattle.xs_bytes.specs.SortedMap.{empty};
ghost use Rattle.xs_keys.specs.KeysRoom.{key_state_of};
ghost use Rattle.xs_replay.specs.Pieces.{of_entry, of_group, of_consumer, of_row, pieces_of_group, pieces_of_key};
ghost use Rattle.xs_snapshot.specs.Building.{pieces_if_there, pieces_of_key_so_far};
ghost use Rattle.xs_snapshot.specs.NextPiece.{is_next_entry, has_next_consumer, has_next_row, is_past_if_there};
ghost use Rattle.xs_snapshot.specs.NextPiece.{may_end, AreGroupsFirst};
ghost use Rattle.xs_snapshot.specs.Restorable.{IsRestorableKey};
ghost use Rattle.xs_snapshot.specs.SoFar.{AreRestorableGroups};

use crate::group_builder::GroupBuilder;
use std::alloc::{AllocError, Global};
use std::marker::Model;
use xs_bytes::{Bytes, U63};
use xs_keys::{Groups, NameMap, Slot};
use xs_stream::{Field, Id, Moment, Stream};

/// The last key of a keyspace that is read from a snapshot. A contract sees what it has so far.
#[derive(Drop)]
pub(crate) struct KeyBuilder {
    name: Bytes,
    top: Id,
    added: u128,
    deleted: Id,
    // The entries.
    stream: Stream,
    // The groups before the last one.
    groups: Groups,
    // The last group, if there is one.
    group: Option<GroupBuilder>,
}

impl Model for KeyBuilder {
    ghost use Rattle.xs_snapshot.specs.Building.{KeySoFar};
    ghost use Rattle.xs_snapshot.specs.BuildingCodes.{coded_key_so_far};
    ghost use Rattle.xs_snapshot.specs.SoFar.{IsKeySoFar};

    ghost Value = { KeySoFar };

    ghost coded = { coded_key_so_far };

    ghost view = { λ b. record {
      key = (
        b.name,
        record {
          stream = record { top = b.top; entries = b.stream.entries; added = b.added; deleted = b.deleted };
          groups = b.groups;
        },
      );
      group = b.group;
    } };

    ghost invariant = { λ b. IsKeySoFar b.stream b.groups b.group };
}

/// Appends the last group, if there is one, to the others. Returns whether its name is above theirs.
fn push_group(groups: &mut Groups, last: Option<GroupBuilder>) -> Result<bool, AllocError>
    ensures next { IfOk result (λ put. put ≡ is_past_if_there last groups.old) }
    ensures behind { IfOk result (λ put. put ≡ true → flat_map pieces_of_group groups.new.entries
        ≡ flat_map pieces_of_group groups.old.entries ++ pieces_if_there pieces_of_group last) }
    ensures restorable { AreRestorableGroups groups.old.entries → AreRestorableGroups groups.new.entries }
{
    let Some(last) = last else {
        return Ok(true);
    };
    let (name, group) = last.into_parts();
    groups.push(name, group)
}

impl KeyBuilder {
    /// A key without entries and groups, with the top id that it will have, the number of entries that were ever added
    /// to it, and the greatest id that was ever deleted from it.
    pub(crate) fn new(alloc: Global, name: Bytes, top: Id, added: u128, deleted: Id) -> Self
        ensures first { AreGroupsFirst result }
        ensures value { result ≡ record {
          key = (
            name,
            record {
              stream = record { top = top; entries = []; added = added; deleted = deleted };
              groups = empty;
            },
          );
          group = None;
        } }
    {
        Self {
            name,
            top,
            added,
            deleted,
            stream: Stream::new(alloc),
            groups: NameMap::new(alloc),
            group: None,
        }
    }

    /// Appends an entry, and returns whether it did. It refuses, and changes nothing, if the key has a group, or if the
    /// id isn't above those of all entries.
    pub(crate) fn put_entry(&mut self, id: Id, fields: &[Field]) -> Result<bool, AllocError>
        ensures next { IfOk result (λ put. put ≡ is_next_entry id self.old) }
        ensures behind { IfOk result (λ put. put ≡ true → pieces_of_key_so_far self.new
            ≡ pieces_of_key_so_far self.old ++ of_entry id fields.now ∷ []) }
        ensures refused { IfOk result (λ put. put ≡ false → self.new ≡ self.old) }
        ensures err { OnErr result (self.new ≡ self.old) }
        ensures first { AreGroupsFirst self.new }
    {
        if self.group.is_some() || id <= self.stream.top() {
            return Ok(false);
        }
        self.stream.push(id, fields)?;
        Ok(true)
    }

    /// Appends a group without consumers. Returns whether the name of the group before it is above those of the others.
    pub(crate) fn put_group(
        &mut self,
        alloc: Global,
        name: Bytes,
        cursor: Id,
    ) -> Result<bool, AllocError>
        ensures next { IfOk result (λ put. put ≡ is_past_if_there self.old.group self.old.key.1.groups) }
        ensures behind { IfOk result (λ put. put ≡ true → pieces_of_key_so_far self.new
            ≡ pieces_of_key_so_far self.old ++ of_group name cursor ∷ []) }
        ensures first { AreGroupsFirst self.new }
    {
        let last = self.group.replace(GroupBuilder::new(alloc, name, cursor));
        push_group(&mut self.groups, last)
    }

    /// Appends a consumer to the last group, and returns whether it did, like `GroupBuilder::put_consumer`. It refuses
    /// if there is no group.
    pub(crate) fn put_consumer(
        &mut self,
        alloc: Global,
        name: Bytes,
        moment: Moment,
    ) -> Result<bool, AllocError>
        ensures next { IfOk result (λ put. put ≡ has_next_consumer name self.old) }
        ensures behind { IfOk result (λ put. put ≡ true → pieces_of_key_so_far self.new
            ≡ pieces_of_key_so_far self.old ++ of_consumer name moment ∷ []) }
        ensures first { AreGroupsFirst self.new }
    {
        match &mut self.group {
            Some(group) => group.put_consumer(alloc, name, moment),
            None => Ok(false),
        }
    }

    /// Appends a pending row to the last group, and returns whether it did, like `GroupBuilder::put_row`. It refuses if
    /// there is no group.
    pub(crate) fn put_row(
        &mut self,
        alloc: Global,
        id: Id,
        consumer: &Bytes,
        time: Moment,
        count: U63,
    ) -> Result<bool, AllocError>
        ensures next { IfOk result (λ put. put ≡ has_next_row consumer.now id self.old) }
        ensures behind { IfOk result (λ put. put ≡ true → pieces_of_key_so_far self.new
            ≡ pieces_of_key_so_far self.old
            ++ of_row id (record { consumer = consumer.now; time = time; count = count }) ∷ []) }
        ensures first { AreGroupsFirst self.new }
    {
        match &mut self.group {
            Some(group) => group.put_row(alloc, id, consumer, time, count),
            None => Ok(false),
        }
    }

    /// The name of the key, and the key. None if the name of its last group isn't above those of the others, if its top
    /// is below its last entry, or if there aren't enough ids up to its top for all entries that were added.
    pub(crate) fn finish(self) -> Result<Option<(Bytes, Slot)>, AllocError>
        ensures whole { IfOk result (λ found. is_some found ≡ may_end self) }
        ensures name { IfOk result (λ found. IfSome found (λ key. key.0 ≡ self.key.0)) }
        ensures pieces { IfOk result (λ found. IfSome found (λ key. pieces_of_key (key.0, key_state_of key.1)
            ≡ pieces_of_key_so_far self)) }
        ensures restorable { IfOk result (λ found. IfSome found (λ key. IsRestorableKey (key_state_of key.1))) }
    {
        let Self {
            name,
            top,
            added,
            deleted,
            mut stream,
            mut groups,
            group,
        } = self;
        if !push_group(&mut groups, group)? || !stream.restore(top, added, deleted) {
            return Ok(None);
        }
        Ok(Some((name, Slot { stream, groups })))
    }
}
