//! Snapshots: one that another program wrote is read, and the same is written; one that isn't complete is refused.
ghost use Rattle.std.specs.Prelude.{◌≡◌, false, OnOk};

use crate::tests::crash_points::with_turned_bits;
use crate::tests::snapshot_text::{PIECES, snapshot_text, with_end};
use std::alloc::Global;
use std::process::Abort;
use std::test::Fail;
use xs_bytes::{Bytes, U63};
use xs_io::FromRead;
use xs_log::{Piece, SnapshotFault, SnapshotReader, SnapshotWriter, WriteFault};
use xs_stream::{AddId, Field, Id, Moment, Stream};
use xs_tape::MemoryTape;

/// The bits of a byte.
const BITS: [u8; 8] = [1, 2, 4, 8, 16, 32, 64, 128];

/// More calls than are made.
const ALL: u64 = 1_000;

/// A snapshot that was read to its end.
#[derive(Drop)]
struct Snapshot {
    moment: Option<Moment>,
    pieces: Vec<Piece>,
}

/// Reads the snapshot with this number.
fn read(alloc: Global, number: u64, file: &[u8]) -> Result<Snapshot, SnapshotFault> {
    let (mut reader, moment) = SnapshotReader::open(alloc, number, FromRead::new(file))?;
    let mut pieces = Vec::new(alloc);
    for _ in 0..u64::MAX {
        let Some(piece) = reader.next_piece()? else {
            break;
        };
        if pieces.push(piece).is_err() {
            return Err(SnapshotFault::Memory);
        }
    }
    Ok(Snapshot { moment, pieces })
}

/// Why the snapshot with this number isn't read.
fn fault_of(alloc: Global, number: u64, file: &[u8]) -> Option<SnapshotFault> {
    read(alloc, number, file).err()
}

fn field(alloc: Global, name: &[u8], value: &[u8]) -> Result<Field, Fail> {
    Ok(Field {
        name: Bytes::from_slice(alloc, name)?,
        value: Bytes::from_slice(alloc, value)?,
    })
}

/// The stream of the first key.
fn jobs(alloc: Global) -> Result<Stream, Fail> {
    let now = Moment::new(0).ok_or("a moment")?;
    let mut stream = Stream::new(alloc);
    let first = [field(alloc, b"f", b"v")?, field(alloc, b"f", b"w")?];
    let second = [field(
        alloc,
        b"a\0b\x01c",
        b"a-value-that-is-longer-than-thirty-bytes",
    )?];
    let added = stream.add(now, AddId::Exact(Id { ms: 1, seq: 0 }), &first);
    if added.is_err() {
        return Err("an entry".into());
    }
    let added = stream.add(now, AddId::Exact(Id { ms: 3, seq: 0 }), &second);
    if added.is_err() {
        return Err("an entry".into());
    }
    Ok(stream)
}

/// A moment, or the greatest one if it is too great.
fn moment(millis: u64) -> Moment {
    Moment::new(millis).unwrap_or(Moment::new(Moment::MAX_MILLIS).unwrap())
}

/// Puts an entry of a stream.
fn put_entry(
    writer: &mut SnapshotWriter<MemoryTape>,
    stream: &Stream,
    id: Id,
) -> Result<(), WriteFault>
    requires { writer.old.writing.broken ≡ false }
    ensures { OnOk result (writer.new.writing.broken ≡ false) }
{
    let Some(fields) = stream.get(id) else {
        return Err(WriteFault::Memory);
    };
    writer.put_entry(id, fields)
}

/// Puts the groups of the first key.
fn put_groups(writer: &mut SnapshotWriter<MemoryTape>) -> Result<(), WriteFault>
    requires { writer.old.writing.broken ≡ false }
    ensures { OnOk result (writer.new.writing.broken ≡ false) }
{
    writer.put_group(b"a", Id::ZERO)?;
    writer.put_group(b"w", Id { ms: 3, seq: 0 })?;
    writer.put_consumer(b"c", moment(40))?;
    writer.put_consumer(b"d", moment(u64::MAX))?;
    writer.put_row(Id { ms: 1, seq: 0 }, b"d", moment(60), U63::new(2))?;
    writer.put_row(Id { ms: 2, seq: 7 }, b"c", moment(61), U63::new(U63::MAX))
}

/// Puts all pieces, and the end.
fn put_all(writer: &mut SnapshotWriter<MemoryTape>, stream: &Stream) -> Result<(), WriteFault>
    requires { writer.old.writing.broken ≡ false }
{
    let deleted = Id { ms: 2, seq: 7 };
    writer.put_key(
        b"j",
        Id { ms: 4, seq: 0 },
        18_446_744_073_709_551_621,
        deleted,
    )?;
    put_entry(writer, stream, Id { ms: 1, seq: 0 })?;
    put_entry(writer, stream, Id { ms: 3, seq: 0 })?;
    put_groups(writer)?;
    let top = Id {
        ms: 9,
        seq: u64::MAX,
    };
    writer.put_key(b"s", top, 1, Id { ms: 9, seq: 9 })?;
    writer.end()
}

#[test]
fn a_snapshot_is_read_as_another_program_wrote_it(rt: HostRuntime) -> Result<(), Fail> {
    let alloc = rt.alloc();
    let text = snapshot_text(alloc)?;
    let found = read(alloc, 3, text.bytes.as_slice()).or(Err("a snapshot"))?;
    assert!(rt; found.moment == Moment::new(8));
    assert_eq!(rt; found.pieces.len(), PIECES.len());
    for (piece, wanted) in found.pieces.iter().zip(PIECES) {
        let printed = format!(in alloc; "{piece:?}")?;
        assert!(rt; printed.as_bytes() == wanted.as_bytes());
    }
    Ok(())
}

#[test]
fn a_snapshot_is_written_as_another_program_wrote_it(rt: HostRuntime) -> Result<(), Fail> {
    let alloc = rt.alloc();
    let wanted = snapshot_text(alloc)?;
    let stream = jobs(alloc)?;
    let tape = MemoryTape::new(alloc, ALL);
    let mut writer = SnapshotWriter::begin(alloc, tape, 3, Some(moment(8))).or(Err("a writer"))?;
    put_all(&mut writer, &stream).or(Err("a snapshot"))?;
    assert!(rt; writer.tape().bytes() == wanted.bytes.as_slice());
    assert_eq!(rt; writer.tape().kept(), wanted.bytes.len());
    Ok(())
}

#[test]
fn a_snapshot_isn_t_written_to_a_tape_that_fails(rt: HostRuntime) -> Result<(), Fail> {
    let alloc = rt.alloc();
    let stream = jobs(alloc)?;
    // It is written by one call, and kept by another.
    for calls in 0..2 {
        let tape = MemoryTape::new(alloc, calls);
        let mut writer = SnapshotWriter::begin(alloc, tape, 3, None).or(Err("a writer"))?;
        assert!(rt; put_all(&mut writer, &stream) == Err(WriteFault::Device));
        assert_eq!(rt; writer.tape().kept(), 0);
    }
    Ok(())
}

#[test]
fn a_snapshot_that_is_cut_is_refused(rt: HostRuntime) -> Result<(), Fail> {
    let alloc = rt.alloc();
    let text = snapshot_text(alloc)?;
    for size in 0..text.bytes.len() {
        let file = text.bytes.get(..size).ok_or("a beginning")?;
        assert!(rt; fault_of(alloc, 3, file).is_some());
    }
    Ok(())
}

#[test]
fn each_turned_bit_refuses_a_snapshot(rt: HostRuntime) -> Result<(), Fail> {
    let alloc = rt.alloc();
    let text = with_end(alloc, 4, 4_178_434_813, "3")?;
    let found = read(alloc, 3, text.bytes.as_slice()).or(Err("a snapshot"))?;
    assert_eq!(rt; found.pieces.len(), 3);
    for place in 0..text.bytes.len() {
        for bits in BITS {
            let turned = with_turned_bits(alloc, text.bytes.as_slice(), place, bits)?;
            assert!(rt; fault_of(alloc, 3, turned.as_slice()).is_some());
        }
    }
    Ok(())
}

#[test]
fn what_goes_on_behind_its_end_is_refused(rt: HostRuntime) -> Result<(), Fail> {
    let alloc = rt.alloc();
    let mut more = snapshot_text(alloc)?;
    let end = more.bytes.len() as u64;
    more.push_words(alloc, b"END", 157_549_682, "10")?;
    assert!(rt; fault_of(alloc, 3, more.bytes.as_slice()) == Some(SnapshotFault::Damaged(end)));
    let part = more.bytes.get(..end as usize + 1).ok_or("one byte more")?;
    assert!(rt; fault_of(alloc, 3, part) == Some(SnapshotFault::Damaged(end)));
    Ok(())
}

#[test]
fn an_end_of_another_count_is_refused(rt: HostRuntime) -> Result<(), Fail> {
    let alloc = rt.alloc();
    let few = with_end(alloc, 1, 406_235_658, "1")?;
    assert!(rt; fault_of(alloc, 3, few.bytes.as_slice()).is_some());
    let none = with_end(alloc, 1, 3_931_973_897, "0")?;
    let found = read(alloc, 3, none.bytes.as_slice()).or(Err("a snapshot"))?;
    assert_eq!(rt; found.pieces.len(), 0);
    Ok(())
}

#[test]
fn another_number_is_refused(rt: HostRuntime) -> Result<(), Fail> {
    let alloc = rt.alloc();
    let text = snapshot_text(alloc)?;
    assert!(rt; fault_of(alloc, 4, text.bytes.as_slice()) == Some(SnapshotFault::OtherNumber));
    assert!(rt; fault_of(alloc, 3, b"") == Some(SnapshotFault::Foreign));
    Ok(())
}

/// Puts a number of groups with this name.
fn put_many(
    writer: &mut SnapshotWriter<MemoryTape>,
    name: &[u8],
    count: usize,
) -> Result<(), WriteFault>
    requires { writer.old.writing.broken ≡ false }
{
    for _ in 0..count {
        writer.put_group(name, Id::ZERO)?;
    }
    Ok(())
}

#[test]
fn a_small_snapshot_is_kept_at_its_end(rt: HostRuntime) -> Result<(), Fail> {
    let alloc = rt.alloc();
    let name = vec![in alloc; b'n'; 65_536]?;
    let tape = MemoryTape::new(alloc, ALL);
    let Ok(mut writer) = SnapshotWriter::begin(alloc, tape, 3, None) else {
        return Err("a writer".into());
    };
    put_many(&mut writer, &name, 60).or(Err("groups"))?;
    assert_eq!(rt; writer.tape().kept(), 0);
    Ok(())
}

#[test]
fn a_great_snapshot_is_kept_before_its_end(rt: HostRuntime) -> Result<(), Fail> {
    let alloc = rt.alloc();
    let name = vec![in alloc; b'n'; 65_536]?;
    let tape = MemoryTape::new(alloc, ALL);
    let Ok(mut writer) = SnapshotWriter::begin(alloc, tape, 3, None) else {
        return Err("a writer".into());
    };
    put_many(&mut writer, &name, 68).or(Err("groups"))?;
    assert!(rt; writer.tape().kept() > 4_194_304);
    Ok(())
}
