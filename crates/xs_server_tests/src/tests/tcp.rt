//! Complete connections over TCP, both ends of which are in one thread.
use super::sessions::whole_connections;
use super::*;
use crate::tests::fakes::OneThread;
use std::io::{self, ErrorKind, Read, Write};
use std::net::{Ipv4Addr, Shutdown, TcpListener, TcpStream};
use std::thread;
use std::time::Duration;
use xs_io::{Failed, Source};
use xs_tcp::halves::{HalvesMemory, Incoming, Peer};
use xs_tcp::limits::{open_files_in, waiting_room};
use xs_tcp::serve_gate::{AfterFailure, after_failure};

/// The server's reader of a connection. Before each read the client sends its next part, or ends what it sends.
#[derive(Drop)]
struct Prompted<'a> {
    client: &'a TcpStream,
    parts: &'a [&'a [u8]],
    incoming: FromRead<Incoming<HostRuntime>>,
}

/// Sends the first of the parts that are left, and leaves the others; if none is left, shuts down the sending side.
fn send_part<'a>(client: &TcpStream, parts: &mut &'a [&'a [u8]]) -> io::Result<()> {
    let mut client = client;
    match *parts {
        [part, left @ ..] => {
            *parts = left;
            client.write_all(part)
        }
        [] => client.shutdown(Shutdown::Write),
    }
}

impl<'a> Read for Prompted<'a> {
    fn read(&mut self, into: &mut [u8]) -> io::Result<usize> {
        send_part(self.client, &mut self.parts)?;
        match self.incoming.read(into) {
            Ok(count) => Ok(count),
            Err(Failed) => Err(io::Error::from(ErrorKind::Other)),
        }
    }
}

// Sent in two parts, cut at every place.
#[test]
fn serves_whole_connections_over_tcp(rt: HostRuntime) -> Result<(), Fail> {
    let alloc = rt.alloc();
    let listener = TcpListener::bind(&rt, (Ipv4Addr::LOCALHOST, 0))?;
    let address = listener.local_addr()?;
    let memory = HalvesMemory::new(alloc, None)?;
    for (input, output, ending) in whole_connections() {
        for cut in 1..input.len() {
            let (first, others) = input.as_bytes().split_at(cut);
            let parts = [first, others];
            let client = TcpStream::connect(&rt, address)?;
            let (stream, _) = listener.accept()?;
            let (incoming, mut writer) = memory.halves_of(rt, stream, None).ok_or("halves in use")?;
            let mut reader = FromRead::new(Prompted {
                client: &client,
                parts: &parts,
                incoming,
            });
            let served = OneThread::new(alloc)?.serve(&rt, &mut reader, &mut writer);
            assert_eq!(rt; served, Ok(ending), "{input} cut at {cut}");
            drop(reader);
            drop(writer);
            let mut told = Vec::new(alloc);
            (&client).read_to_end(&mut told)?;
            assert_eq!(rt; told.as_slice(), output.as_bytes(), "{input} cut at {cut}");
        }
    }
    Ok(())
}

// The errors that accept(2) of Linux lists, by their numbers.
#[test]
fn a_gate_ends_with_its_listener_alone(rt: HostRuntime) {
    const ENDS: [i32; 3] = [9, 22, 88];
    const CALLS_AT_ONCE: [i32; 2] = [4, 103];
    const PAUSES: [i32; 15] = [
        1, 11, 12, 23, 24, 64, 71, 92, 95, 100, 101, 105, 110, 112, 113,
    ];
    for (codes, after) in [
        (ENDS.as_slice(), AfterFailure::End),
        (CALLS_AT_ONCE.as_slice(), AfterFailure::Retry),
        (PAUSES.as_slice(), AfterFailure::Pause),
    ] {
        for code in codes {
            let error = io::Error::from_raw_os_error(*code);
            assert_eq!(rt; after_failure(&error), after, "error {code}");
        }
    }
}

/// The number of looks for what has come.
const LOOKS: u32 = 2000;

/// Whether looks find, within two seconds, that the client has left.
fn is_seen_to_leave(rt: &HostRuntime, peer: &Peer) -> bool {
    for _ in 0..LOOKS {
        if peer.has_left() {
            return true;
        }
        thread::sleep(rt, Duration::from_millis(1));
    }
    false
}

// A client that leaves after nothing, half a request, and complete ones. What it sent is read afterwards, then the end.
// The next client of the same halves gets nothing of it.
#[test]
fn a_client_that_leaves_is_seen(rt: HostRuntime) -> Result<(), Fail> {
    let alloc = rt.alloc();
    let listener = TcpListener::bind(&rt, (Ipv4Addr::LOCALHOST, 0))?;
    let address = listener.local_addr()?;
    let memory = HalvesMemory::new(alloc, None)?;
    let peer = memory.peer()?;
    for sent in [
        &b""[..],
        b"*1\r\n$4\r\nPI",
        b"*1\r\n$4\r\nPING\r\n*1\r\n$4\r\nPING\r\n",
    ] {
        let client = TcpStream::connect(&rt, address)?;
        let (stream, _) = listener.accept()?;
        let (mut reader, writer) = memory.halves_of(rt, stream, None).ok_or("halves in use")?;
        assert!(rt; !peer.has_left());
        (&client).write_all(sent)?;
        assert!(rt; !peer.has_left());
        drop(client);
        assert!(rt; is_seen_to_leave(&rt, &peer));
        let mut got = [0u8; 100];
        assert_eq!(rt; reader.read(&mut got), Ok(sent.len()));
        assert!(rt; got.starts_with(sent));
        assert_eq!(rt; reader.read(&mut got), Ok(0));
        drop(reader);
        drop(writer);
        assert!(rt; !peer.has_left());
    }
    Ok(())
}

// The text as Linux gives it.
#[test]
fn reads_the_limit_of_open_files(rt: HostRuntime) {
    let text = "Limit                     Soft Limit           Hard Limit           Units     \n\
        Max stack size            8388608              unlimited            bytes     \n\
        Max open files            1024                 1048576              files     \n";
    assert_eq!(rt; open_files_in(text), Some(1024));
    assert_eq!(rt;
        open_files_in(
            "Max open files            unlimited            unlimited            files\n"
        ),
        None
    );
    assert_eq!(rt; open_files_in(""), None);
    assert_eq!(rt; waiting_room(64, None), Some(1024));
    assert_eq!(rt; waiting_room(64, Some(95)), None);
    assert_eq!(rt; waiting_room(64, Some(96)), Some(16));
    assert_eq!(rt; waiting_room(1024, Some(4096)), Some(1024));
}
