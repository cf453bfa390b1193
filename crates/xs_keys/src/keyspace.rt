//! The keyspace.
ghost use Rattle.std.specs.Prelude.{◌≡◌, ◌++◌, ◌∷◌, [], IfOk, OnErr, All, true, false};
ghost use Rattle.xs_bytes.specs.SortedMap as map;
ghost use Rattle.xs_command.specs.WellFormed.{IsWellFormed};
ghost use Rattle.xs_keys.specs.Headline.{RunsOn};
ghost use Rattle.xs_keys.specs.KeysRoom.{key_state_of};
ghost use Rattle.xs_keys.specs.NextName.{is_past_names};
ghost use Rattle.xs_keys.specs.Step.{Attempt, Step};

use crate::keys::{Keys, Slot};
use crate::reserve::{Reserve, reply_bytes};
use crate::{
    del, in_vain, inspect, ping, xack, xadd, xautoclaim, xclaim, xdel, xgroup, xlen, xpending,
    xrange, xreadgroup, xtrim,
};
use std::alloc::{AllocError, Global};
use std::marker::Model;
use xs_bytes::Bytes;
use xs_command::{Command, ReadGroupCommand};
use xs_maps::Entries;
use xs_resp::{Fault, Reply, Simple};
use xs_stream::{Field, Moment};

/// The keys and their contents. A contract sees the content of a history.
///
/// If memory runs out, additions and new groups are refused first: a reserve of 4 MiB, and of room for the reply of the
/// greatest entry, is filled before each of them, and given back if memory is refused for another command.
#[derive(Drop)]
pub struct Keyspace {
    keys: Keys,
    reserve: Reserve,
    alloc: Global,
}

impl Model for Keyspace {
    ghost use Rattle.xs_keys.specs.Content.{Content};
    ghost use Rattle.xs_keys.specs.Codes.{coded_content};

    ghost Value = { Content };

    ghost coded = { coded_content };

    ghost view = { λ k. k.keys };
}

impl Keyspace {
    ghost use Rattle.std.specs.Prelude.{length};
    ghost use Rattle.std.specs.Prelude.{map as list_map};
    ghost use Rattle.xs_keys.specs.KeysRoom.{IsRoomOf, key_state_of};
    ghost use Rattle.xs_keys.specs.Waiting.{IsAnsweredNull, IsAnsweredOtherwise, ChangesNothing};

    /// The empty keyspace. It takes no memory.
    pub fn new(alloc: Global) -> Self
        ensures { result ≡ map.empty }
    {
        Self {
            keys: Keys::new(alloc),
            reserve: Reserve::new(alloc),
            alloc,
        }
    }

    /// Sets how many bytes have to be free in one piece, besides all that this holds, when something is added or a
    /// group is created: other threads need memory too, for the commands of consumers.
    pub fn leave_free(&mut self, bytes: usize)
        ensures { self.new ≡ self.old }
    {
        self.reserve.leave_free(bytes);
    }

    /// Sets a bound in bytes; 0 for none. `XADD`, `XGROUP CREATE` and `XGROUP CREATECONSUMER` are answered `OOM` if the
    /// bytes of the keyspace and those that the command adds are together above it.
    pub fn set_bound(&mut self, bytes: u64)
        ensures { self.new ≡ self.old }
    {
        self.keys.set_bound(bytes);
    }

    /// The number of keys.
    pub fn len(&self) -> usize
        ensures { result ≡ length self.now.entries }
    {
        self.keys.len()
    }

    /// The keys with their contents, in the order of the names' bytes.
    pub fn iter(&self) -> Entries<'_, Bytes, Slot>
        ensures { list_map (λ e. (e.0, key_state_of e.1)) result ≡ self.now.entries }
    {
        self.keys.iter()
    }

    /// The number of bytes that they are counted with, modulo 2^128.
    pub fn bytes_held(&self) -> u128
        ensures { IsRoomOf self.now result }
    {
        self.keys.bytes_held()
    }

    /// Appends a key after all others, to a keyspace that is read from a snapshot. Returns whether it did. It refuses,
    /// and changes nothing, if the name isn't above those of all keys.
    pub fn restore_key(&mut self, name: Bytes, slot: Slot) -> Result<bool, AllocError>
        ensures next { IfOk result (λ put. put ≡ is_past_names name self.old) }
        ensures ok { IfOk result (λ put. put ≡ true → self.new ≡ map.insert self.old name (key_state_of slot)) }
        ensures behind { IfOk result (λ put. put ≡ true →
            self.new.entries ≡ self.old.entries ++ (name, key_state_of slot) ∷ []) }
        ensures refused { IfOk result (λ put. put ≡ false → self.new ≡ self.old) }
        ensures err { OnErr result (self.new ≡ self.old) }
    {
        self.keys.push(name, slot)
    }

    /// Holds room in the reserve for the reply of an entry with these fields, which is read from a snapshot: from now
    /// on the reserve is full only with this room.
    pub fn hold_room(&mut self, fields: &[Field])
        ensures { self.new ≡ self.old }
    {
        self.reserve
            .hold(reply_bytes(fields.len(), xadd::bytes_of(fields)));
    }

    /// The most bytes that it takes to make the reply of the greatest entry that was added or held room for. The
    /// reserve has room for it.
    pub fn greatest_reply(&self) -> usize {
        self.reserve.greatest()
    }

    /// Applies one command at a moment, and returns its reply. What is refused changes nothing. The reply `OOM` reports
    /// out of memory, and is given only if there is no other refusal.
    pub fn apply(&mut self, now: Moment, command: &Command) -> Reply
        requires { IsWellFormed command.now }
        ensures { Step self.old now command.now result self.new }
    {
        self.reserve.take_back(self.alloc);
        let mut attempt = apply_to(&mut self.keys, &mut self.reserve, self.alloc, now, command);
        if attempt.is_err() && !grows(command) && self.reserve.give_back(self.alloc) {
            attempt = apply_to(&mut self.keys, &mut self.reserve, self.alloc, now, command);
        }
        match attempt {
            Ok(reply) => reply,
            Err(AllocError) => Reply::Error(Fault::Memory),
        }
    }

    /// Whether the reply to a read would be the null array, so the read may wait.
    #[tactic(auto, using(crate::proofs::NothingNew::answers))]
    pub fn finds_nothing(&self, read: &ReadGroupCommand) -> Result<bool, AllocError>
        ensures null { IfOk result (λ nothing. nothing ≡ true → IsAnsweredNull self.now (Command.ReadGroup read.now)) }
        ensures other { IfOk result (λ nothing. nothing ≡ false
            → IsAnsweredOtherwise self.now (Command.ReadGroup read.now)) }
    {
        xreadgroup::finds_nothing(&self.keys, self.alloc, read)
    }

    /// Whether a read finds nothing new, for a consumer that its groups know: it changes nothing.
    #[tactic(auto, using(crate::proofs::InVain::changes_nothing))]
    pub fn reads_in_vain(&self, read: &ReadGroupCommand) -> Result<bool, AllocError>
        ensures { IfOk result (λ vain. vain ≡ true → ChangesNothing self.now (Command.ReadGroup read.now)) }
    {
        in_vain::reads_in_vain(&self.keys, self.alloc, read)
    }

    /// Applies commands at their moments, in order. If this fails, nothing was applied. A command may be answered `OOM`
    /// all the same.
    pub fn run(&mut self, events: &[(Moment, Command)]) -> Result<Vec<Reply>, AllocError>
        requires { All (λ event. IsWellFormed event.1) events.now }
        ensures run { IfOk result (λ replies. RunsOn self.old events.now replies.items self.new) }
        ensures err { OnErr result (self.new ≡ self.old) }
    {
        let mut replies = Vec::with_capacity(self.alloc, events.len())?;
        for event in events {
            let reply = self.apply(event.0, &event.1);
            replies.push(reply).unwrap();
        }
        Ok(replies)
    }
}

/// Whether the command adds what stays until it is removed, as producers do.
fn grows(command: &Command) -> bool {
    matches!(command, Command::Add(_) | Command::GroupCreate(_))
}

/// Applies one command to the keys.
fn apply_to(
    keys: &mut Keys,
    reserve: &mut Reserve,
    alloc: Global,
    now: Moment,
    command: &Command,
) -> Result<Reply, AllocError>
    requires { IsWellFormed command.now }
    ensures { Attempt keys.old now command.now result keys.new }
{
    match command {
        Command::Ping(message) => ping::ping(alloc, message),
        Command::Quit => Ok(Reply::Simple(Simple::Okay)),
        Command::Add(command) => xadd::add(keys, reserve, alloc, now, command),
        Command::Delete { key, ids } => Ok(xdel::delete(keys, key, ids)),
        Command::TrimTo { key, trim } => Ok(xtrim::trim(keys, key, *trim)),
        Command::Len { key } => Ok(xlen::len(keys, key)),
        Command::Scan(command) => xrange::range(keys, alloc, command),
        Command::GroupCreate(command) => xgroup::create(keys, reserve, alloc, command),
        Command::GroupDestroy { key, group } => Ok(xgroup::destroy(keys, key, group)),
        Command::ConsumerCreate {
            key,
            group,
            consumer,
        } => xgroup::create_consumer(keys, alloc, now, key, group, consumer),
        Command::ConsumerDelete {
            key,
            group,
            consumer,
        } => Ok(xgroup::delete_consumer(keys, key, group, consumer)),
        Command::ReadGroup(command) => xreadgroup::read(keys, alloc, now, command),
        Command::Ack { key, group, ids } => Ok(xack::acknowledge(keys, key, group, ids)),
        Command::Pending { key, group } => xpending::summary(keys, alloc, key, group),
        Command::PendingRows(command) => xpending::rows(keys, alloc, now, command),
        Command::Claim(command) => xclaim::claim(keys, alloc, now, command),
        Command::AutoClaim(command) => xautoclaim::claim(keys, alloc, now, command),
        Command::DropKeys { keys: names } => Ok(del::delete(keys, names)),
        Command::Inspect(inspection) => inspect::inspect(keys, alloc, now, inspection),
    }
}
