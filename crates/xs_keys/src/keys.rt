//! The keys, and the content of a key.
ghost use Rattle.std.specs.Prelude.{◌≡◌, ◌<◌, ◌^◌, ◌%◌, ◌++◌, ◌∷◌, [], length, map, true, false, None, IfOk, OnOk, OnErr};
ghost use Rattle.std.specs.Option.{option_copied};
ghost use Rattle.xs_bytes.specs.SortedMap.{empty, get, insert, remove};
ghost use Rattle.xs_group.specs.GroupRoom.{room_of_group};
ghost use Rattle.xs_keys.specs.KeysRoom.{key_state_of, state_in, room_of_named, room_of_key, IsRoomOf};
ghost use Rattle.xs_keys.specs.NextName.{is_past_names};
ghost use Rattle.xs_keys.specs.ContentAfter.{group_in};

use crate::account::Account;
use crate::name_map::NameMap;
use std::alloc::{AllocError, Global};
use std::marker::Model;
use xs_bytes::Bytes;
use xs_group::Group;
use xs_maps::Entries;
use xs_stream::Stream;

/// The number of bytes that a key is counted with, without its name, its stream and its groups.
const KEY_ROOM: u128 = 330;

/// The groups of a key.
pub type Groups = NameMap<Group>;

/// The content of a key: a stream, and its groups. A contract sees their memory too.
#[derive(Drop)]
pub struct Slot {
    /// The stream.
    pub stream: Stream,
    /// Its groups, by their names.
    pub groups: Groups,
}

impl Model for Slot {
    ghost use Rattle.xs_keys.specs.KeysRoom.{KeyInMemory};
    ghost use Rattle.xs_keys.specs.Codes.{coded_key_in_memory};

    ghost Value = { KeyInMemory };

    ghost coded = { coded_key_in_memory };

    ghost view = { λ s. record { stream = s.stream; groups = s.groups } };
}

impl Slot {
    /// The number of bytes that it is counted with, without its name.
    pub fn room(&self) -> u128
        ensures { result ≡ room_of_key self.now % 2 ^ 128 }
    {
        (KEY_ROOM + self.stream.room()).wrapping_add(room_of_groups(&self.groups))
    }
}

/// The number of bytes that groups and their names are counted with.
fn room_of_groups(groups: &Groups) -> u128
    ensures { result ≡ room_of_named room_of_group groups.now.entries % 2 ^ 128 }
{
    let mut room = 0u128;
    for (name, group) in groups.iter() {
        room = room
            .wrapping_add(name.len() as u128)
            .wrapping_add(group.room());
    }
    room
}

/// The keys. A contract sees their content.
#[derive(Drop)]
pub struct Keys {
    pub(crate) slots: NameMap<Slot>,
    /// The count of their bytes, and its bound.
    pub(crate) account: Account,
}

impl Model for Keys {
    ghost use Rattle.xs_keys.specs.Content.{Content};
    ghost use Rattle.xs_keys.specs.Codes.{coded_content};
    ghost use Rattle.xs_keys.specs.KeysRoom.{content_of, room_of_keys, IsCountOf};

    ghost Value = { Content };

    ghost coded = { coded_content };

    ghost view = { λ k. content_of k.slots };

    ghost invariant = { λ k. IsCountOf (room_of_keys k.slots) k.account.held };
}

impl Keys {
    /// No keys. It takes no memory.
    pub fn new(alloc: Global) -> Self
        ensures { result ≡ empty }
    {
        Self {
            slots: NameMap::new(alloc),
            account: Account::new(),
        }
    }

    /// Sets the bound of the counted bytes; 0 for none. Additions above it are refused.
    pub fn set_bound(&mut self, bytes: u64)
        ensures { self.new ≡ self.old }
    {
        self.account.set_bound(bytes);
    }

    /// The number of bytes that they are counted with.
    pub fn bytes_held(&self) -> u128
        ensures { IsRoomOf self.now result }
    {
        self.account.held()
    }

    /// The content of a key.
    pub fn get(&self, key: &Bytes) -> Option<&Slot>
        ensures { state_in (option_copied result) ≡ get self.now key.now }
    {
        self.slots.get(key)
    }

    /// The number of keys.
    pub fn len(&self) -> usize
        ensures value { result ≡ length self.now.entries }
        ensures small { result < 2 ^ 63 }
    {
        self.slots.len()
    }

    /// The keys with their contents, in the order of the names' bytes.
    pub fn iter(&self) -> Entries<'_, Bytes, Slot>
        ensures { map (λ e. (e.0, key_state_of e.1)) result ≡ self.now.entries }
    {
        self.slots.iter()
    }

    /// Whether a name is above those of all keys.
    fn is_past(&self, key: &Bytes) -> bool
        ensures { result ≡ is_past_names key.now self.now }
    {
        self.slots.is_past(key)
    }

    /// Inserts a key, which must not exist.
    pub fn insert(&mut self, key: Bytes, slot: Slot) -> Result<(), AllocError>
        requires { get self.old key ≡ None }
        ensures ok { OnOk result (self.new ≡ insert self.old key (key_state_of slot)) }
        ensures err { OnErr result (self.new ≡ self.old) }
    {
        let room = (key.len() as u128).wrapping_add(slot.room());
        match self.slots.insert(key, slot) {
            Ok(()) => {
                self.account.change(0, room);
                Ok(())
            }
            Err(error) => Err(error),
        }
    }

    /// Appends a key after all others. Returns whether it did. It refuses, and changes nothing, if the name isn't above
    /// those of all keys.
    pub fn push(&mut self, key: Bytes, slot: Slot) -> Result<bool, AllocError>
        ensures next { IfOk result (λ put. put ≡ is_past_names key self.old) }
        ensures ok { IfOk result (λ put. put ≡ true → self.new ≡ insert self.old key (key_state_of slot)) }
        ensures behind { IfOk result (λ put. put ≡ true →
            self.new.entries ≡ self.old.entries ++ (key, key_state_of slot) ∷ []) }
        ensures refused { IfOk result (λ put. put ≡ false → self.new ≡ self.old) }
        ensures err { OnErr result (self.new ≡ self.old) }
    {
        if !self.is_past(&key) {
            return Ok(false);
        }
        self.insert(key, slot)?;
        Ok(true)
    }

    /// Removes a key.
    pub fn remove(&mut self, key: &Bytes)
        ensures { self.new ≡ remove self.old key.now }
    {
        let Some(slot) = self.slots.remove(key) else {
            return;
        };
        let room = (key.len() as u128).wrapping_add(slot.room());
        self.account.change(room, 0);
    }
}

/// The group of a key, if both exist.
pub fn group_at<'a>(keys: &'a Keys, key: &Bytes, group: &Bytes) -> Option<&'a Group>
    ensures { option_copied result ≡ group_in (get keys.now key.now) group.now }
{
    match keys.get(key) {
        Some(slot) => slot.groups.get(group),
        None => None,
    }
}
