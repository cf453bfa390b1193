//! Writes a snapshot of a keyspace, and compares it with the one that another program wrote.
ghost use Rattle.std.specs.Prelude.{IfOk};
ghost use Rattle.xs_command.specs.WellFormed.{IsWellFormed};

use std::alloc::Global;
use std::process::Abort;
use std::test::Fail;
use xs_bytes::Bytes;
use xs_command::{Command, read_command};
use xs_keys::Keyspace;
use xs_log::WriteFault;
use xs_snapshot::write_snapshot;
use xs_stream::Moment;
use xs_tape::MemoryTape;

/// More calls than are made.
const ALL: u64 = 1_000;

/// The commands that are applied, each at its moment. Of one stream two of three entries are left, and one of its
/// consumers has no row; of another stream only its top is left.
const HISTORY: [(u64, &str); 10] = [
    (1, "XADD s 1-1 f v"),
    (2, "XADD s 2-0 f w"),
    (3, "XADD s 3-0 a b"),
    (3, "XDEL s 3-0"),
    (4, "XGROUP CREATE s g 0"),
    (5, "XGROUP CREATECONSUMER s g idle"),
    (7, "XREADGROUP GROUP g busy COUNT 1 STREAMS s >"),
    (8, "XGROUP CREATE s h $"),
    (9, "XADD a 5-0 f v"),
    (9, "XDEL a 5-0"),
];

/// The records of the snapshot with number 4, whose last event is at 9, with checksums made by another program.
const RECORDS: [&str; 11] = [
    "*7\r\n$2\r\n63\r\n$11\r\nxs-snapshot\r\n$10\r\n1366969612\r\n$1\r\n1\r\n$1\r\n4\r\n$1\r\n1\r\n$1\r\n9\r\n",
    "*10\r\n$2\r\n73\r\n$3\r\nKEY\r\n$9\r\n711448573\r\n$1\r\na\r\n$1\r\n5\r\n$1\r\n0\r\n$1\r\n\
        0\r\n$1\r\n1\r\n$1\r\n5\r\n$1\r\n0\r\n",
    "*10\r\n$2\r\n73\r\n$3\r\nKEY\r\n$9\r\n702799936\r\n$1\r\ns\r\n$1\r\n3\r\n$1\r\n0\r\n$1\r\n\
        0\r\n$1\r\n3\r\n$1\r\n3\r\n$1\r\n0\r\n",
    "*7\r\n$2\r\n56\r\n$5\r\nENTRY\r\n$10\r\n3519853306\r\n$1\r\n1\r\n$1\r\n1\r\n$1\r\nf\r\n$1\r\nv\r\n",
    "*7\r\n$2\r\n56\r\n$5\r\nENTRY\r\n$10\r\n3838061246\r\n$1\r\n2\r\n$1\r\n0\r\n$1\r\nf\r\n$1\r\nw\r\n",
    "*6\r\n$2\r\n49\r\n$5\r\nGROUP\r\n$10\r\n1400900848\r\n$1\r\ng\r\n$1\r\n1\r\n$1\r\n1\r\n",
    "*5\r\n$2\r\n48\r\n$8\r\nCONSUMER\r\n$10\r\n3440343317\r\n$4\r\nbusy\r\n$1\r\n7\r\n",
    "*5\r\n$2\r\n48\r\n$8\r\nCONSUMER\r\n$10\r\n1159323073\r\n$4\r\nidle\r\n$1\r\n5\r\n",
    "*8\r\n$2\r\n62\r\n$3\r\nROW\r\n$9\r\n715172432\r\n$1\r\n1\r\n$1\r\n1\r\n$4\r\nbusy\r\n\
        $1\r\n7\r\n$1\r\n1\r\n",
    "*6\r\n$2\r\n49\r\n$5\r\nGROUP\r\n$10\r\n3390039473\r\n$1\r\nh\r\n$1\r\n3\r\n$1\r\n0\r\n",
    "*4\r\n$2\r\n33\r\n$3\r\nEND\r\n$10\r\n2465198789\r\n$1\r\n9\r\n",
];

fn command_of(alloc: Global, line: &str) -> Result<Command, Fail>
    ensures { IfOk result IsWellFormed }
{
    let mut words = Vec::new(alloc);
    for word in line.split(' ') {
        words.push(Bytes::from_slice(alloc, word.as_bytes())?)?;
    }
    if words.is_empty() {
        return Err("no words".into());
    }
    match read_command(alloc, words.as_slice()) {
        Ok(command) => Ok(command),
        Err(_) => Err("no command".into()),
    }
}

/// Applies a command at a moment.
fn apply(alloc: Global, keyspace: &mut Keyspace, millis: u64, line: &str) -> Result<(), Fail> {
    let command = command_of(alloc, line)?;
    let now = Moment::new(millis).ok_or("a moment")?;
    let _ = keyspace.apply(now, &command);
    Ok(())
}

/// The keyspace after the history.
fn keyspace_left(alloc: Global) -> Result<Keyspace, Fail> {
    let mut keyspace = Keyspace::new(alloc);
    for (millis, line) in HISTORY {
        apply(alloc, &mut keyspace, millis, line)?;
    }
    Ok(keyspace)
}

#[test]
fn a_snapshot_is_written_as_another_program_wrote_it(rt: HostRuntime) -> Result<(), Fail> {
    let alloc = rt.alloc();
    let keyspace = keyspace_left(alloc)?;
    let mut wanted = Vec::new(alloc);
    for record in RECORDS {
        wanted.extend_from_slice(record.as_bytes())?;
    }
    let tape = MemoryTape::new(alloc, ALL);
    let Ok(written) = write_snapshot(alloc, tape, 4, Moment::new(9), &keyspace) else {
        return Err("a snapshot".into());
    };
    assert!(rt; written.bytes() == wanted.as_slice());
    assert_eq!(rt; written.kept(), wanted.len());
    Ok(())
}

#[test]
fn a_snapshot_isn_t_written_to_a_tape_that_fails(rt: HostRuntime) -> Result<(), Fail> {
    let alloc = rt.alloc();
    let keyspace = keyspace_left(alloc)?;
    // It is written by one call, and kept by another.
    for calls in 0..2 {
        let tape = MemoryTape::new(alloc, calls);
        let written = write_snapshot(alloc, tape, 4, None, &keyspace);
        assert!(rt; matches!(written, Err(WriteFault::Device)));
    }
    Ok(())
}
