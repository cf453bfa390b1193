//! Reads a keyspace from a snapshot that another program wrote.
use crate::tests::crash_points::command_of;
use crate::tests::snapshot_text::snapshot_text;
use std::alloc::Global;
use std::process::Abort;
use std::test::Fail;
use xs_io::FromRead;
use xs_keys::Keyspace;
use xs_resp::encode;
use xs_snapshot::read_snapshot;
use xs_stream::Moment;

/// Commands for the keyspace, and its replies.
const REPLIES: [(&str, &str); 9] = [
    ("XLEN j", ":2\r\n"),
    (
        "XPENDING j w",
        "*4\r\n:2\r\n$3\r\n1-0\r\n$3\r\n2-7\r\n*2\r\n*2\r\n$1\r\nc\r\n$1\r\n1\r\n\
            *2\r\n$1\r\nd\r\n$1\r\n1\r\n",
    ),
    (
        "XPENDING j w - + 10",
        "*2\r\n*4\r\n$3\r\n1-0\r\n$1\r\nd\r\n:40\r\n:2\r\n\
            *4\r\n$3\r\n2-7\r\n$1\r\nc\r\n:39\r\n:9223372036854775807\r\n",
    ),
    ("XADD j 4-* f v", "$3\r\n4-1\r\n"),
    (
        "XREADGROUP GROUP w c STREAMS j >",
        "*1\r\n*2\r\n$1\r\nj\r\n*1\r\n*2\r\n$3\r\n4-1\r\n*2\r\n$1\r\nf\r\n$1\r\nv\r\n",
    ),
    ("XGROUP DELCONSUMER j w c", ":2\r\n"),
    ("XGROUP DESTROY j a", ":1\r\n"),
    ("XLEN s", ":0\r\n"),
    (
        "XADD s 9-* f v",
        "-ERR The ID specified in XADD is equal or smaller than the target stream top item\r\n",
    ),
];

/// The keyspace of the snapshot.
fn restored(alloc: Global) -> Result<Keyspace, Fail> {
    let text = snapshot_text(alloc)?;
    let source = FromRead::new(text.bytes.as_slice());
    match read_snapshot(alloc, 3, source) {
        Ok((keyspace, _moment)) => Ok(keyspace),
        Err(_) => Err("a snapshot".into()),
    }
}

/// The reply of the keyspace to a command, a while after the snapshot was written.
fn reply_to(alloc: Global, keyspace: &mut Keyspace, line: &str) -> Result<Vec<u8>, Fail> {
    let now = Moment::new(100).ok_or("a moment")?;
    let command = command_of(alloc, line)?;
    let reply = keyspace.apply(now, &command);
    let mut text = Vec::new(alloc);
    encode(&reply, &mut text)?;
    Ok(text)
}

#[test]
fn a_keyspace_is_read_as_another_program_wrote_it(rt: HostRuntime) -> Result<(), Fail> {
    let alloc = rt.alloc();
    let mut keyspace = restored(alloc)?;
    assert_eq!(rt; keyspace.len(), 2);
    for (line, wanted) in REPLIES {
        let reply = reply_to(alloc, &mut keyspace, line)?;
        assert!(rt; reply.as_slice() == wanted.as_bytes(), "to {line}");
    }
    Ok(())
}

#[test]
fn the_reserve_has_room_for_the_greatest_entry_that_was_read(rt: HostRuntime) -> Result<(), Fail> {
    let alloc = rt.alloc();
    let keyspace = restored(alloc)?;
    let mut other = Keyspace::new(alloc);
    assert_eq!(rt; other.greatest_reply(), 0);
    let reply = reply_to(alloc, &mut other, "XADD j 1-0 f v f w")?;
    assert!(rt; reply.as_slice() == "$3\r\n1-0\r\n".as_bytes());
    assert!(rt; other.greatest_reply() > 0);
    assert_eq!(rt; keyspace.greatest_reply(), other.greatest_reply());
    Ok(())
}
