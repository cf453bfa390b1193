//! XGROUP: groups and their consumers.
ghost use Rattle.std.specs.Prelude.{◌≡◌, ◌↔◌, ◌&&◌, ◌+◌, ◌%◌, ◌^◌, length, not, true, None, Err, IfOk, OnOk, OnErr, if◌then◌else◌};
ghost use Rattle.xs_group.specs.GroupRoom.{room_of_group};
ghost use Rattle.xs_keys.specs.KeysRoom.{is_above, room_of_named};
ghost use Rattle.xs_bytes.specs.SortedMap.{empty, get, insert};
ghost use Rattle.xs_group.specs.GroupState.{new_group, has_name, with_consumer};
ghost use Rattle.xs_keys.specs.ContentAfter.{new_key, with_group};
ghost use Rattle.xs_keys.specs.GroupLife.{starting_id};
ghost use Rattle.xs_keys.specs.Grouping.{Creates};
ghost use Rattle.xs_keys.specs.Step.{AppliedAtAnyTime, Attempt, AttemptAtAnyTime};

use crate::account::{Account, NoMemory};
use crate::group_change::change_group;
use crate::keys::{Groups, Keys, Slot};
use crate::let_group::let_group;
use crate::name_map::NameMap;
use crate::reserve::Reserve;
use std::alloc::{AllocError, Global};
use xs_bytes::{Bytes, U63};
use xs_command::{Command, GroupCreateCommand, GroupStart};
use xs_group::Group;
use xs_resp::{Fault, Reply, Simple};
use xs_stream::{Id, Moment, Stream};

/// The id after which a group starts, in a stream with this top.
fn start_id(start: GroupStart, top: Id) -> Id
    ensures { result ≡ starting_id start top }
{
    match start {
        GroupStart::Top => top,
        GroupStart::At(id) => id,
    }
}

/// Inserts a new group among those of a key with this top. Returns the number of bytes that it is counted with. The
/// bound refuses it exactly if these are above the bound.
fn insert_group(
    groups: &mut Groups,
    reserve: &mut Reserve,
    account: &Account,
    alloc: Global,
    top: Id,
    command: &GroupCreateCommand,
) -> Result<u128, NoMemory>
    ensures ok { let group = new_group (starting_id command.now.start top) in
        OnOk result (groups.new ≡ insert groups.old command.now.group group) }
    ensures room { let group = new_group (starting_id command.now.start top) in
        IfOk result (λ room. room ≡ length command.now.group + room_of_group group) }
    ensures bound { let group = new_group (starting_id command.now.start top) in
        let room = length command.now.group + room_of_group group in
        (result ≡ Err NoMemory.Bound) ↔ (is_above account.now.bound account.now.held room ≡ true) }
    ensures err { OnErr result (groups.new ≡ groups.old) }
{
    let group = Group::new(alloc, start_id(command.start, top));
    let room = command.group.len() as u128 + group.room();
    account.admit(room)?;
    reserve.admit(alloc, 0)?;
    let name = Bytes::from_slice(alloc, command.group.as_slice())?;
    groups.insert(name, group)?;
    Ok(room)
}

/// The groups of a new key: the first one. The bound refuses it exactly if it is above the bound.
fn first_groups(
    reserve: &mut Reserve,
    account: &Account,
    alloc: Global,
    top: Id,
    command: &GroupCreateCommand,
) -> Result<Groups, NoMemory>
    ensures ok { let group = new_group (starting_id command.now.start top) in
        IfOk result (λ groups. groups ≡ insert empty command.now.group group) }
    ensures bound { let group = new_group (starting_id command.now.start top) in
        let room = length command.now.group + room_of_group group in
        (result ≡ Err NoMemory.Bound) ↔ (is_above account.now.bound account.now.held room ≡ true) }
{
    let mut groups = NameMap::new(alloc);
    let _ = insert_group(&mut groups, reserve, account, alloc, top, command)?;
    Ok(groups)
}

/// Inserts a new key with its first group. Both come by one insertion, so neither is left if memory runs out.
fn insert_key(
    keys: &mut Keys,
    reserve: &mut Reserve,
    alloc: Global,
    command: &GroupCreateCommand,
) -> Result<(), NoMemory>
    requires { get keys.old command.now.key ≡ None }
    ensures ok { let group = new_group (starting_id command.now.start new_key.stream.top) in
        OnOk result (keys.new ≡ insert keys.old command.now.key (with_group new_key command.now.group group)) }
    ensures err { OnErr result (keys.new ≡ keys.old) }
{
    let key = Bytes::from_slice(alloc, command.key.as_slice())?;
    let stream = Stream::new(alloc);
    let groups = first_groups(reserve, &keys.account, alloc, stream.top(), command)?;
    keys.insert(key, Slot { stream, groups })?;
    Ok(())
}

/// Creates a group among those of a key with this top.
fn create_in(
    groups: &mut Groups,
    reserve: &mut Reserve,
    account: &mut Account,
    alloc: Global,
    top: Id,
    command: &GroupCreateCommand,
) -> Result<Reply, AllocError>
    ensures creates { Creates command.now top groups.old result groups.new }
    ensures counted { (account.new.held + room_of_named room_of_group groups.old.entries) % 2 ^ 128
        ≡ (account.old.held + room_of_named room_of_group groups.new.entries) % 2 ^ 128 }
{
    if groups.contains_key(&command.group) {
        return Ok(Reply::Error(Fault::Busy));
    }
    let Ok(room) = insert_group(groups, reserve, account, alloc, top, command) else {
        return Err(AllocError);
    };
    account.change(0, room);
    Ok(Reply::Simple(Simple::Okay))
}

/// Creates a group of a key that doesn't exist, and the key with it if the command may.
fn create_missing(
    keys: &mut Keys,
    reserve: &mut Reserve,
    alloc: Global,
    command: &GroupCreateCommand,
) -> Result<Reply, AllocError>
    requires { get keys.old command.now.key ≡ None }
    ensures { AttemptAtAnyTime keys.old (Command.GroupCreate command.now) result keys.new }
{
    if !command.make {
        return Ok(Reply::Error(Fault::NoKey));
    }
    match insert_key(keys, reserve, alloc, command) {
        Ok(()) => Ok(Reply::Simple(Simple::Okay)),
        Err(_) => Err(AllocError),
    }
}

/// XGROUP CREATE.
pub fn create(
    keys: &mut Keys,
    reserve: &mut Reserve,
    alloc: Global,
    command: &GroupCreateCommand,
) -> Result<Reply, AllocError>
    ensures { AttemptAtAnyTime keys.old (Command.GroupCreate command.now) result keys.new }
{
    match keys.slots.get_mut(&command.key) {
        Some(slot) => {
            let top = slot.stream.top();
            create_in(
                &mut slot.groups,
                reserve,
                &mut keys.account,
                alloc,
                top,
                command,
            )
        }
        None => create_missing(keys, reserve, alloc, command),
    }
}

/// 1 if `is` is true, else 0.
fn one_where(is: bool) -> Reply
    ensures { result ≡ Reply.Int (if is then 1 else 0) }
{
    Reply::Int(U63::new(u64::from(is)))
}

/// XGROUP DESTROY.
pub fn destroy(keys: &mut Keys, key: &Bytes, group: &Bytes) -> Reply
    ensures { AppliedAtAnyTime keys.old (Command.GroupDestroy key.now group.now) result keys.new }
{
    match keys.slots.get_mut(key) {
        Some(slot) => {
            let removed = slot.groups.remove(group);
            if let Some(gone) = &removed {
                let room = (group.len() as u128).wrapping_add(gone.room());
                keys.account.change(room, 0);
            }
            one_where(removed.is_some())
        }
        None => Reply::Error(Fault::NoKey),
    }
}

/// Adds a consumer to a group, and returns whether it is new. The bound refuses it exactly if it is new, and its name
/// is above the bound.
fn add_consumer(
    account: &Account,
    alloc: Global,
    now: Moment,
    group: &mut Group,
    consumer: &Bytes,
) -> Result<bool, NoMemory>
    ensures made { IfOk result (λ made. made ≡ not (has_name group.old.consumers consumer.now)) }
    ensures ok { OnOk result (group.new ≡ with_consumer consumer.now now group.old) }
    ensures bound { let is_above = is_above account.now.bound account.now.held (length consumer.now) in
        (result ≡ Err NoMemory.Bound) ↔ ((not (has_name group.old.consumers consumer.now) && is_above) ≡ true) }
    ensures err { OnErr result (group.new ≡ group.old) }
{
    if !group.has_consumer(consumer) {
        account.admit(consumer.len() as u128)?;
    }
    let made = group.add_consumer(alloc, consumer, now)?;
    Ok(made)
}

/// XGROUP CREATECONSUMER.
pub fn create_consumer(
    keys: &mut Keys,
    alloc: Global,
    now: Moment,
    key: &Bytes,
    group: &Bytes,
    consumer: &Bytes,
) -> Result<Reply, AllocError>
    ensures { Attempt keys.old now (Command.ConsumerCreate key.now group.now consumer.now) result keys.new }
{
    let_group!(
        slot, group = keys, key, group,
        else { return Ok(Reply::Error(Fault::NoKey)) },
        else { return Ok(Reply::Error(Fault::NoGroup)) }
    );
    let before = group.room();
    let added = add_consumer(&keys.account, alloc, now, group, consumer);
    keys.account.change(before, group.room());
    match added {
        Ok(made) => Ok(one_where(made)),
        Err(_) => Err(AllocError),
    }
}

/// XGROUP DELCONSUMER.
pub fn delete_consumer(keys: &mut Keys, key: &Bytes, group: &Bytes, consumer: &Bytes) -> Reply
    ensures { AppliedAtAnyTime keys.old (Command.ConsumerDelete key.now group.now consumer.now) result keys.new }
{
    let removed = change_group(keys, key, group, |group, _| group.remove_consumer(consumer));
    match removed {
        Ok(count) => Reply::Int(U63::new(count)),
        Err(fault) => Reply::Error(fault),
    }
}
