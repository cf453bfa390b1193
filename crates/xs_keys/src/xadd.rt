//! XADD.
ghost use Rattle.std.specs.Prelude.{◌≡◌, ◌+◌, ◌%◌, ◌^◌, Some, Ok, Err, None, true, is_ok, IfOk, OnErr};
ghost use Rattle.xs_bytes.specs.SortedMap as map;
ghost use Rattle.xs_stream.specs.Id.{id_of_addition};
ghost use Rattle.xs_stream.specs.StreamContent.{state_of};
ghost use Rattle.xs_command.specs.WellFormed.{IsAddId};
ghost use Rattle.xs_keys.specs.KeysRoom.{bytes_of_fields, is_above};
ghost use Rattle.xs_keys.specs.Life.{add_entry};
ghost use Rattle.xs_keys.specs.ContentAfter.{stream_after};
ghost use Rattle.xs_keys.specs.Adding.{text_of, Adds};
ghost use Rattle.xs_keys.specs.ReplyParts.{fault_of_addition};
ghost use Rattle.xs_keys.specs.Step.{Attempt};

use crate::account::{Account, NoMemory};
use crate::keys::{Keys, Slot};
use crate::name_map::NameMap;
use crate::reserve::{Reserve, reply_bytes};
use std::alloc::{AllocError, Global};
use xs_bytes::Bytes;
use xs_command::{AddCommand, Command};
use xs_resp::{Fault, Reply};
use xs_stream::{AddError, Field, Moment, Stream};

/// Why an entry isn't added.
#[derive(Clone, Copy, Debug, PartialEq, Eq)]
enum NotAdded {
    /// It can't have an id.
    Id(AddError),
    /// It can have an id, but there is no memory.
    Memory(NoMemory),
}

impl From<NoMemory> for NotAdded {
    ghost use Rattle.xs_keys.specs.declared.xadd.NotAdded.{NotAdded};

    ghost from_gives = { λ why not_added. not_added ≡ NotAdded.Memory why };

    fn from(why: NoMemory) -> Self {
        Self::Memory(why)
    }
}

impl From<AllocError> for NotAdded {
    ghost use Rattle.xs_keys.specs.declared.account.NoMemory.{NoMemory};
    ghost use Rattle.xs_keys.specs.declared.xadd.NotAdded.{NotAdded};

    ghost from_gives = { λ _ not_added. not_added ≡ NotAdded.Memory NoMemory.System };

    fn from(_refused: AllocError) -> Self {
        Self::Memory(NoMemory::System)
    }
}

/// The number of bytes of the names and values of fields: an entry takes at least as many.
pub(crate) fn bytes_of(fields: &[Field]) -> u128
    ensures { result ≡ bytes_of_fields fields.now }
{
    let mut bytes = 0u128;
    for field in fields {
        bytes = bytes + field.name.len() as u128 + field.value.len() as u128;
    }
    bytes
}

/// Adds an entry to a stream and then trims it. The text of the id is made first, so the stream is unchanged if memory
/// runs out. The bound refuses the addition exactly if its fields are above the bound.
fn try_add(
    reserve: &mut Reserve,
    account: &Account,
    alloc: Global,
    stream: &mut Stream,
    now: Moment,
    add: &AddCommand,
) -> Result<Bytes, NotAdded>
    ensures ok { IfOk result (λ text. (text_of (id_of_addition now stream.old.top add.now.id) ≡ Some text)
        × (state_of stream.new
        ≡ stream_after (add_entry now add.now.id add.now.fields add.now.trim) (state_of stream.old))) }
    ensures id { (error : AddError) → result ≡ Err (NotAdded.Id error)
        → id_of_addition now stream.old.top add.now.id ≡ Err error }
    ensures memory { (why : NoMemory) → result ≡ Err (NotAdded.Memory why)
        → is_ok (id_of_addition now stream.old.top add.now.id) ≡ true }
    ensures bound { result ≡ Err (NotAdded.Memory NoMemory.Bound)
        → is_above account.now.bound account.now.held (bytes_of_fields add.now.fields) ≡ true }
    ensures above { is_above account.now.bound account.now.held (bytes_of_fields add.now.fields) ≡ true
        → is_ok (id_of_addition now stream.old.top add.now.id) ≡ true
        → result ≡ Err (NotAdded.Memory NoMemory.Bound) }
    ensures err { OnErr result (state_of stream.new ≡ state_of stream.old) }
{
    let id = match stream.assign(now, add.id) {
        Ok(id) => id,
        Err(error) => return Err(NotAdded::Id(error)),
    };
    let bytes = bytes_of(add.fields.as_slice());
    account.admit(bytes)?;
    let reply_bytes = reply_bytes(add.fields.len(), bytes);
    reserve.admit(alloc, reply_bytes)?;
    let text = id.text(alloc)?;
    stream.push(id, add.fields.as_slice())?;
    reserve.hold(reply_bytes);
    if let Some(trim) = add.trim {
        let _ = stream.trim(trim);
    }
    Ok(text)
}

/// The error of an entry that can't have an id.
fn fault_of_addition(error: AddError) -> Fault
    ensures { result ≡ fault_of_addition error }
{
    match error {
        AddError::Small => Fault::SmallId,
        AddError::Exhausted => Fault::Exhausted,
        AddError::Memory => Fault::Memory,
    }
}

/// Adds an entry to a stream, and returns the reply.
fn add_to(
    reserve: &mut Reserve,
    account: &mut Account,
    alloc: Global,
    stream: &mut Stream,
    now: Moment,
    add: &AddCommand,
) -> Result<Reply, AllocError>
    ensures adds { Adds (state_of stream.old) now add.now result (state_of stream.new) }
    ensures counted { (account.new.held + stream.old.room) % 2 ^ 128
        ≡ (account.old.held + stream.new.room) % 2 ^ 128 }
{
    let before = stream.room();
    let added = try_add(reserve, account, alloc, stream, now, add);
    account.change(before, stream.room());
    match added {
        Ok(text) => Ok(Reply::Bulk(text)),
        Err(NotAdded::Id(error)) => Ok(Reply::Error(fault_of_addition(error))),
        Err(NotAdded::Memory(_)) => Err(AllocError),
    }
}

/// Adds an entry to a key that doesn't exist, and creates the key if the command may.
fn add_missing(
    keys: &mut Keys,
    reserve: &mut Reserve,
    alloc: Global,
    now: Moment,
    add: &AddCommand,
) -> Result<Reply, AllocError>
    requires missing { map.get keys.old add.now.key ≡ None }
    requires well_formed { IsAddId add.now.id }
    ensures { Attempt keys.old now (Command.Add add.now) result keys.new }
{
    if !add.make {
        return Ok(Reply::NullBulk);
    }
    let key = Bytes::from_slice(alloc, add.key.as_slice())?;
    let mut stream = Stream::new(alloc);
    let Ok(text) = try_add(reserve, &keys.account, alloc, &mut stream, now, add) else {
        return Err(AllocError);
    };
    let groups = NameMap::new(alloc);
    keys.insert(key, Slot { stream, groups })?;
    Ok(Reply::Bulk(text))
}

/// Adds an entry to the stream of a key.
pub fn add(
    keys: &mut Keys,
    reserve: &mut Reserve,
    alloc: Global,
    now: Moment,
    add: &AddCommand,
) -> Result<Reply, AllocError>
    requires { IsAddId add.now.id }
    ensures { Attempt keys.old now (Command.Add add.now) result keys.new }
{
    match keys.slots.get_mut(&add.key) {
        Some(slot) => add_to(
            reserve,
            &mut keys.account,
            alloc,
            &mut slot.stream,
            now,
            add,
        ),
        None => add_missing(keys, reserve, alloc, now, add),
    }
}
