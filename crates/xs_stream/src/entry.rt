//! Entries as a stream lends them.
ghost use Rattle.std.specs.Prelude.{◌≡◌, IfOk};
ghost use Rattle.xs_stream.specs.StreamContent.{ids_of};

use crate::id::Id;
use crate::packed::fields::PackedFields;
use std::alloc::{AllocError, Global};
use std::marker::Model;
use xs_bytes::List;

/// An entry (Redis Streams, "Entries"), lent by its stream: its id and its fields. A contract sees the pair.
#[derive(Drop)]
pub struct Entry<'a> {
    id: Id,
    fields: PackedFields<'a>,
}

impl<'a> Model for Entry<'a> {
    ghost use Rattle.std.specs.Prelude.{List};
    ghost use Rattle.xs_stream.specs.declared.id.Id.{Id};
    ghost use Rattle.xs_stream.specs.declared.field.Field.{Field};

    ghost Value = { Id × List Field };

    ghost view = { λ s. (s.id, s.fields) };
}

impl<'a> Entry<'a> {
    /// An entry.
    pub(crate) fn new(id: Id, fields: PackedFields<'a>) -> Self
        ensures { result ≡ (id, fields.entry) }
    {
        Self { id, fields }
    }

    /// Its id.
    pub fn id(&self) -> Id
        ensures { result ≡ self.now.0 }
    {
        self.id
    }

    /// Its fields.
    pub fn fields(&self) -> PackedFields<'a>
        ensures { result ≡ self.now.1 }
    {
        self.fields.again()
    }
}

/// The ids of entries.
pub fn ids_of(alloc: Global, entries: &[Entry<'_>]) -> Result<List<Id>, AllocError>
    ensures { IfOk result (λ ids. ids ≡ ids_of entries.now) }
{
    let mut ids = Vec::with_capacity(alloc, entries.len())?;
    for entry in entries {
        ids.push(entry.id())?;
    }
    Ok(List::new(ids))
}
