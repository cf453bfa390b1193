//! A group that is built from its pieces.
ghost use Rattle.std.specs.Prelude.{◌≡◌, ◌++◌, ◌∷◌, [], true, false, IfOk, OnErr, None};
ghost use Rattle.xs_group.specs.GroupState.{new_group};
ghost use Rattle.xs_group.specs.NextRow.{is_next_row};
ghost use Rattle.xs_keys.specs.NextName.{is_past_names};
ghost use Rattle.xs_replay.specs.Pieces.{of_consumer, of_row, pieces_of_group};
ghost use Rattle.xs_snapshot.specs.NextPiece.{is_next_consumer};
ghost use Rattle.xs_snapshot.specs.Restorable.{IsRestorableGroup};

use std::alloc::{AllocError, Global};
use std::marker::Model;
use xs_bytes::{Bytes, U63};
use xs_group::Group;
use xs_stream::{Id, Moment};

/// The last group of a key that is read from a snapshot. A contract sees its name and what it has so far.
#[derive(Drop)]
pub(crate) struct GroupBuilder {
    name: Bytes,
    group: Group,
    // The name of the last consumer, if there is one.
    last_consumer: Option<Bytes>,
}

impl Model for GroupBuilder {
    ghost use Rattle.xs_group.specs.GroupState.{GroupState};
    ghost use Rattle.xs_keys.specs.Event.{Bytes as Name};
    ghost use Rattle.xs_snapshot.specs.BuildingCodes.{coded_named_group};
    ghost use Rattle.xs_snapshot.specs.SoFar.{IsGroupSoFar};

    ghost Value = { Name × GroupState };

    ghost coded = { coded_named_group };

    ghost view = { λ b. (b.name, b.group) };

    ghost invariant = { λ b. IsGroupSoFar b.last_consumer b.group };
}

impl GroupBuilder {
    /// A group without consumers.
    pub(crate) fn new(alloc: Global, name: Bytes, cursor: Id) -> Self
        ensures { result ≡ (name, new_group cursor) }
    {
        Self {
            name,
            group: Group::new(alloc, cursor),
            last_consumer: None,
        }
    }

    /// Whether a name is above those of all consumers.
    fn is_past(&self, name: &Bytes) -> bool
        ensures { result ≡ is_past_names name.now self.now.1.consumers }
    {
        match &self.last_consumer {
            Some(last) => last < name,
            None => true,
        }
    }

    /// Appends a consumer, and returns whether it did. It refuses, and changes nothing, if the group has a row, or if
    /// the name isn't above those of all consumers.
    pub(crate) fn put_consumer(
        &mut self,
        alloc: Global,
        name: Bytes,
        moment: Moment,
    ) -> Result<bool, AllocError>
        ensures next { IfOk result (λ put. put ≡ is_next_consumer name self.old.1) }
        ensures behind { IfOk result (λ put. put ≡ true → pieces_of_group self.new
            ≡ pieces_of_group self.old ++ of_consumer name moment ∷ []) }
        ensures refused { IfOk result (λ put. put ≡ false → self.new ≡ self.old) }
        ensures err { OnErr result (self.new ≡ self.old) }
    {
        if self.group.count_pending() > 0 || !self.is_past(&name) {
            return Ok(false);
        }
        self.group.add_consumer(alloc, &name, moment)?;
        self.last_consumer = Some(name);
        Ok(true)
    }

    /// Appends a pending row, and returns whether it did. It refuses, and changes nothing, if the consumer isn't in the
    /// group, or if the id is above the cursor or not above those of all rows.
    pub(crate) fn put_row(
        &mut self,
        alloc: Global,
        id: Id,
        consumer: &Bytes,
        time: Moment,
        count: U63,
    ) -> Result<bool, AllocError>
        ensures next { IfOk result (λ put. put ≡ is_next_row consumer.now id self.old.1) }
        ensures behind { IfOk result (λ put. put ≡ true → pieces_of_group self.new ≡ pieces_of_group self.old
            ++ of_row id (record { consumer = consumer.now; time = time; count = count }) ∷ []) }
        ensures refused { IfOk result (λ put. put ≡ false → self.new ≡ self.old) }
        ensures err { OnErr result (self.new ≡ self.old) }
    {
        self.group.restore_row(alloc, id, consumer, time, count)
    }

    /// Its name, and the group.
    pub(crate) fn into_parts(self) -> (Bytes, Group)
        ensures value { result ≡ self }
        ensures restorable { IsRestorableGroup self.1 }
    {
        let Self { name, group, .. } = self;
        (name, group)
    }
}
