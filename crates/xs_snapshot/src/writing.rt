//! Writes a snapshot of a keyspace: each key, then its entries and its groups, and after each group its consumers and
//! its pending rows. The content is lent, so a walk takes no memory for it.
ghost use Rattle.std.specs.Prelude.{◌≡◌, ℕ, List, [], Option, false, true, Err, IfOk, OnOk};
ghost use Rattle.xs_replay.specs.After.{ServerState};
ghost use Rattle.xs_replay.specs.Pieces.{pieces_of_group, pieces_of_key, pieces_of};
ghost use Rattle.xs_stream.specs.StreamContent.{state_of};
ghost use Rattle.xs_group.specs.ConsistentGroup.{IsConsistentGroup};
ghost use Rattle.xs_keys.specs.KeysRoom.{key_state_of};
ghost use Rattle.xs_log.specs.SnapshotWriting.{IsEmptyFile, HasPut};
ghost use Rattle.xs_snapshot.specs.Writing.{pieces_of_rows, pieces_of_consumers, pieces_of_entries, pieces_of_groups};
ghost use Rattle.xs_snapshot.specs.Writing.{HasPutMore, CanBePut, KeepsSnapshot};
ghost use Rattle.xs_snapshot.specs.Restorable.{IsRestorableStream, AreRestorableGroups, IsRestorableKey, IsRestorable};

use std::alloc::Global;
use xs_bytes::Bytes;
use xs_group::Group;
use xs_keys::{Groups, Keyspace, Slot};
use xs_log::{SnapshotWriter, WriteFault};
use xs_stream::{Moment, Stream};
use xs_tape::Tape;

/// Puts the consumers of a group, in the order of their names.
fn put_consumers<T: Tape + Drop>(
    writer: &mut SnapshotWriter<T>,
    group: &Group,
) -> Result<(), WriteFault>
    requires { writer.old.writing.broken ≡ false }
    ensures more { OnOk result (HasPutMore writer.old writer.new
        (pieces_of_consumers group.now.consumers.entries)) }
    ensures device { result ≡ Err WriteFault.Device → writer.new.writing.broken ≡ true }
    ensures long { result ≡ Err WriteFault.TooLong →
        CanBePut writer.old.count (pieces_of_consumers group.now.consumers.entries) → ⊥ }
{
    for (name, seen) in group.iter_consumers() {
        writer.put_consumer(name.as_slice(), seen)?;
    }
    Ok(())
}

/// Puts the pending rows of a group, in the order of their ids.
fn put_rows<T: Tape + Drop>(writer: &mut SnapshotWriter<T>, group: &Group) -> Result<(), WriteFault>
    requires { writer.old.writing.broken ≡ false }
    ensures more { OnOk result (HasPutMore writer.old writer.new (pieces_of_rows group.now.rows.entries)) }
    ensures device { result ≡ Err WriteFault.Device → writer.new.writing.broken ≡ true }
    ensures long { result ≡ Err WriteFault.TooLong →
        CanBePut writer.old.count (pieces_of_rows group.now.rows.entries) → ⊥ }
    ensures restorable { IsConsistentGroup group.now }
{
    for row in group.iter_rows() {
        let touch = row.touch();
        writer.put_row(row.id(), row.consumer().as_slice(), touch.time, touch.count)?;
    }
    Ok(())
}

/// Puts a group with its consumers and its pending rows.
fn put_group<T: Tape + Drop>(
    writer: &mut SnapshotWriter<T>,
    name: &Bytes,
    group: &Group,
) -> Result<(), WriteFault>
    requires { writer.old.writing.broken ≡ false }
    ensures more { OnOk result (HasPutMore writer.old writer.new (pieces_of_group (name.now, group.now))) }
    ensures device { result ≡ Err WriteFault.Device → writer.new.writing.broken ≡ true }
    ensures long { result ≡ Err WriteFault.TooLong →
        CanBePut writer.old.count (pieces_of_group (name.now, group.now)) → ⊥ }
    ensures restorable { OnOk result (IsConsistentGroup group.now) }
{
    writer.put_group(name.as_slice(), group.cursor())?;
    put_consumers(writer, group)?;
    put_rows(writer, group)
}

/// Puts groups, in the order of their names.
fn put_groups<T: Tape + Drop>(
    writer: &mut SnapshotWriter<T>,
    groups: &Groups,
) -> Result<(), WriteFault>
    requires { writer.old.writing.broken ≡ false }
    ensures more { OnOk result (HasPutMore writer.old writer.new (pieces_of_groups groups.now.entries)) }
    ensures device { result ≡ Err WriteFault.Device → writer.new.writing.broken ≡ true }
    ensures long { result ≡ Err WriteFault.TooLong →
        CanBePut writer.old.count (pieces_of_groups groups.now.entries) → ⊥ }
    ensures restorable { OnOk result (AreRestorableGroups groups.now.entries) }
{
    for (name, group) in groups.iter() {
        put_group(writer, name, group)?;
    }
    Ok(())
}

/// Puts the entries of a stream, in the order of their ids.
fn put_entries<T: Tape + Drop>(
    writer: &mut SnapshotWriter<T>,
    stream: &Stream,
) -> Result<(), WriteFault>
    requires { writer.old.writing.broken ≡ false }
    ensures more { OnOk result (HasPutMore writer.old writer.new (pieces_of_entries stream.now.entries)) }
    ensures device { result ≡ Err WriteFault.Device → writer.new.writing.broken ≡ true }
    ensures long { result ≡ Err WriteFault.TooLong →
        CanBePut writer.old.count (pieces_of_entries stream.now.entries) → ⊥ }
    ensures restorable { OnOk result (IsRestorableStream (state_of stream.now)) }
{
    for entry in stream.iter() {
        writer.put_entry(entry.id(), entry.fields())?;
    }
    Ok(())
}

/// Puts a key with its entries and its groups.
fn put_key<T: Tape + Drop>(
    writer: &mut SnapshotWriter<T>,
    name: &Bytes,
    slot: &Slot,
) -> Result<(), WriteFault>
    requires { writer.old.writing.broken ≡ false }
    ensures more { OnOk result (HasPutMore writer.old writer.new
        (pieces_of_key (name.now, key_state_of slot.now))) }
    ensures device { result ≡ Err WriteFault.Device → writer.new.writing.broken ≡ true }
    ensures long { result ≡ Err WriteFault.TooLong →
        CanBePut writer.old.count (pieces_of_key (name.now, key_state_of slot.now)) → ⊥ }
    ensures restorable { OnOk result (IsRestorableKey (key_state_of slot.now)) }
{
    let stream = &slot.stream;
    writer.put_key(
        name.as_slice(),
        stream.top(),
        stream.added(),
        stream.deleted(),
    )?;
    put_entries(writer, stream)?;
    put_groups(writer, &slot.groups)
}

/// Puts the keys of a keyspace with their content, in the order of their names.
///
/// # Errors
/// A `WriteFault`: out of memory; or the tape failed; or a piece has too many words, or too long ones, or there are
/// 2^64 pieces or more.
fn put_keys<T: Tape + Drop>(
    writer: &mut SnapshotWriter<T>,
    keyspace: &Keyspace,
) -> Result<(), WriteFault>
    requires { writer.old.writing.broken ≡ false }
    ensures more { OnOk result (HasPutMore writer.old writer.new (pieces_of keyspace.now)) }
    ensures device { result ≡ Err WriteFault.Device → writer.new.writing.broken ≡ true }
    ensures long { result ≡ Err WriteFault.TooLong → CanBePut writer.old.count (pieces_of keyspace.now) → ⊥ }
    // What was put can be restored.
    ensures restorable { OnOk result (IsRestorable keyspace.now) }
{
    for (name, slot) in keyspace.iter() {
        put_key(writer, name, slot)?;
    }
    Ok(())
}

/// Puts a keyspace after the header of a snapshot, then the end, and has the tape keep all.
///
/// # Errors
/// A `WriteFault`, like that of `put_keys`. It isn't known then what is kept.
fn complete_snapshot<T: Tape + Drop>(
    writer: &mut SnapshotWriter<T>,
    keyspace: &Keyspace,
) -> Result<(), WriteFault>
    requires { writer.old.writing.broken ≡ false }
    ensures keeps { (number : ℕ) (closed : List (List ℕ)) (moment : Option ℕ) →
        HasPut number closed writer.old moment [] → OnOk result (KeepsSnapshot number closed
        writer.new.writing.holds (record { content = keyspace.now; moment = moment })) }
    ensures sound { OnOk result (writer.new.writing.broken ≡ false) }
    ensures device { result ≡ Err WriteFault.Device → writer.new.writing.broken ≡ true }
    ensures long { result ≡ Err WriteFault.TooLong → CanBePut writer.old.count (pieces_of keyspace.now) → ⊥ }
    // What is written can be restored.
    ensures restorable { OnOk result (IsRestorable keyspace.now) }
{
    put_keys(writer, keyspace)?;
    writer.end()
}

/// Writes a snapshot of a keyspace to the last file of a tape, which has to be empty, has the tape keep it, and returns
/// the tape. The number is that of the log after the snapshot, and the moment that of the last event before it, if
/// there was one.
///
/// # Errors
/// A `WriteFault`: out of memory; or the tape failed; or a piece has too many words, or too long ones, or there are
/// 2^64 pieces or more. The file isn't a snapshot then, and the tape is dropped.
pub fn write_snapshot<T: Tape + Drop>(
    alloc: Global,
    tape: T,
    number: u64,
    moment: Option<Moment>,
    keyspace: &Keyspace,
) -> Result<T, WriteFault>
    requires { T.broken tape ≡ false }
    ensures keeps { IfOk result (λ written. (closed : List (List ℕ)) → IsEmptyFile closed (T.holds tape) →
        KeepsSnapshot number closed (T.holds written) (record { content = keyspace.now; moment = moment })) }
    ensures sound { IfOk result (λ written. T.broken written ≡ false) }
    ensures long { result ≡ Err WriteFault.TooLong → CanBePut 0 (pieces_of keyspace.now) → ⊥ }
    // What is written can be restored.
    ensures restorable { OnOk result (IsRestorable keyspace.now) }
{
    let mut writer = SnapshotWriter::begin(alloc, tape, number, moment)?;
    complete_snapshot(&mut writer, keyspace)?;
    Ok(writer.into_tape())
}
