//! Complete connections, at moment 1000.
use super::*;
use crate::tests::fakes::{InTwo, OneThread};
use std::sync::atomic::AtomicU64;
use std::sync::{Arc, Wait};
use xs_bytes::U63;
use xs_desk::{Idle, desk};
use xs_session::{Ending, Manner, Session};
use xs_work::{AheadFault, serve_ahead};

/// A reader that fails if its second part is read before a number of bytes are counted.
fn in_two<'a>(
    first: &'a [u8],
    others: &'a [u8],
    wants: u64,
    counted: &Arc<AtomicU64>,
) -> Result<FromRead<InTwo<'a>>, AllocError> {
    Ok(FromRead::new(InTwo {
        first,
        others,
        wants,
        counted: Arc::try_clone(counted)?,
        looks: 1,
    }))
}

const PINGS: &str = "*1\r\n$4\r\nPING\r\n*0\r\n*-1\r\n*2\r\n$4\r\nping\r\n$2\r\nhi\r\n";

const PONGS: &str = "+PONG\r\n$2\r\nhi\r\n";

/// Complete connections: what is read, what is written, and how each ends.
pub fn whole_connections() -> [(&'static str, &'static str, Ending); 12] {
    [
        (PINGS, PONGS, Ending::Closed),
        ("", "", Ending::Closed),
        ("*1\r\n$03\r\n", "-ERR Protocol error\r\n", Ending::Protocol),
        ("PING\r\n", "-ERR Protocol error\r\n", Ending::Protocol),
        ("*1048577\r\n", "-ERR Protocol error\r\n", Ending::Protocol),
        (
            "*1\r\n$4\r\nPING\r\n*1\r\n$4\r\nPINGx",
            "+PONG\r\n-ERR Protocol error\r\n",
            Ending::Protocol,
        ),
        (
            "*1\r\n$4\r\nQUIT\r\n*1\r\n$4\r\nPING\r\n",
            "+OK\r\n",
            Ending::Quit,
        ),
        ("*1\r\n$4\r\nPI", "", Ending::Cut),
        (
            "*1\r\n$4\r\nPANG\r\n",
            "-ERR unknown command\r\n",
            Ending::Closed,
        ),
        (
            "*1\r\n$0\r\n\r\n*2\r\n$6\r\nXGROUP\r\n$0\r\n\r\n",
            "-ERR unknown command\r\n-ERR unknown command\r\n",
            Ending::Closed,
        ),
        (
            "*7\r\n$4\r\nXADD\r\n$1\r\nk\r\n$6\r\nMAXLEN\r\n$0\r\n\r\n$3\r\n1-0\r\n$1\r\nf\r\n$1\r\nv\r\n",
            "-ERR value is not an integer or out of range\r\n",
            Ending::Closed,
        ),
        (
            "*5\r\n$4\r\nXADD\r\n$0\r\n\r\n$3\r\n1-0\r\n$1\r\nf\r\n$0\r\n\r\n*2\r\n$4\r\nXLEN\r\n$0\r\n\r\n",
            "$3\r\n1-0\r\n:1\r\n",
            Ending::Closed,
        ),
    ]
}

// Cut into two at every place.
#[test]
fn serves_whole_connections(rt: HostRuntime) -> Result<(), Fail> {
    let alloc = rt.alloc();
    let none = Arc::new(alloc, AtomicU64::new(0))?;
    for (input, output, ending) in whole_connections() {
        for cut in 0..input.len().saturating_add(1) {
            let (first, others) = input.as_bytes().split_at(cut.min(input.len()));
            let mut reader = in_two(first, others, 0, &none)?;
            let mut writer = sips(alloc)?;
            let served = OneThread::new(alloc)?.serve(&rt, &mut reader, &mut writer);
            assert_eq!(rt; served, Ok(ending), "{input} cut at {cut}");
            assert_eq!(rt;
                writer.into_inner().bytes.as_slice(),
                output.as_bytes(),
                "{input} cut at {cut}"
            );
        }
    }
    Ok(())
}

// A reply is written before the next read.
#[test]
fn reads_on_once_all_is_answered(rt: HostRuntime) -> Result<(), Fail> {
    let alloc = rt.alloc();
    let ping = b"*1\r\n$4\r\nPING\r\n";
    let sips = Sips::new(alloc, 1)?;
    let mut reader = in_two(ping, ping, 7, &sips.counted)?;
    let mut writer = ToWrite::new(sips);
    let served = OneThread::new(alloc)?.serve(&rt, &mut reader, &mut writer);
    assert_eq!(rt; served, Ok(Ending::Closed));
    assert_eq!(rt;
        writer.into_inner().bytes.as_slice(),
        b"+PONG\r\n+PONG\r\n".as_slice()
    );
    Ok(())
}

const ADDITION: &[u8] = b"*5\r\n$4\r\nXADD\r\n$1\r\ns\r\n$1\r\n*\r\n$1\r\nf\r\n$1\r\nv\r\n";

/// The length of the stream `s`, from a reply.
fn told_length(rt: &impl Wait, alloc: Global, server: &mut OneThread) -> Result<Vec<u8>, Fail> {
    let mut writer = sips(alloc)?;
    let mut reader = dribble(b"*2\r\n$4\r\nXLEN\r\n$1\r\ns\r\n");
    server.serve(rt, &mut reader, &mut writer)?;
    Ok(writer.into_inner().bytes)
}

// Each of three replies has 12 bytes. The writer returns an error, or takes none.
#[test]
fn tells_of_each_failed_write_of_a_reply(rt: HostRuntime) -> Result<(), Fail> {
    let alloc = rt.alloc();
    let input = [ADDITION, ADDITION, ADDITION].concat(alloc)?;
    for at in 1..37 {
        for stops in [false, true] {
            let mut sips = Sips::new(alloc, 1)?;
            (sips.fails_at, sips.stops) = (at, stops);
            let mut writer = ToWrite::new(sips);
            let mut server = OneThread::new(alloc)?;
            let mut reader = dribble(input.as_slice());
            let served = server.serve(&rt, &mut reader, &mut writer);
            assert_eq!(rt; served, Err(AheadFault::Write), "write {at}");
            assert_eq!(rt;
                writer.into_inner().bytes.len() as u64,
                at - 1,
                "write {at}"
            );
            let told = format!(in alloc; ":{}\r\n", (at - 1) / 12 + 1)?;
            assert_eq!(rt;
                told_length(&rt, alloc, &mut server)?.as_slice(),
                told.as_bytes(),
                "write {at}"
            );
        }
    }
    Ok(())
}

/// Whether these are the bytes that answer the two requests if one allocation was refused.
fn is_answer(served: Result<Ending, AheadFault>, bytes: &[u8]) -> bool {
    match served {
        Ok(Ending::Closed) => {
            bytes == PONGS.as_bytes()
                || bytes == b"-OOM out of memory\r\n$2\r\nhi\r\n".as_slice()
                || bytes == b"+PONG\r\n-OOM out of memory\r\n".as_slice()
        }
        Err(AheadFault::Memory) => bytes.is_empty() || bytes == b"+PONG\r\n".as_slice(),
        _ => false,
    }
}

// With any one allocation refused, a request is answered OOM or the connection ends after the replies to the requests
// before, and the same connection again is answered.
#[test]
fn a_refused_connection_is_served_again(rt: HostRuntime) -> Result<(), Fail> {
    let alloc = rt.alloc();
    let mut answered = false;
    for _ in 0..2 {
        let mut writer = roomy(alloc)?;
        let mut reader = dribble(PINGS.as_bytes());
        let served = OneThread::new(alloc)?.serve(&rt, &mut reader, &mut writer);
        let written = writer.into_inner();
        let bytes = written.bytes.as_slice();
        assert!(rt; is_answer(served, bytes));
        answered = answered || bytes == PONGS.as_bytes();
    }
    assert!(rt; answered);
    Ok(())
}

// A request that a keeper can't serve any more has no reply.
#[test]
fn ends_where_the_keeper_is_gone(rt: HostRuntime) -> Result<(), Fail> {
    let alloc = rt.alloc();
    let (keeper, mut clients) = desk(alloc, 1, 1)?;
    drop(keeper);
    let mut client = clients.pop().ok_or("a client")?;
    let mut session = Session::new(alloc, &Manner::Plain, U63::new(1))?;
    let mut reader = dribble(PINGS.as_bytes());
    let mut writer = sips(alloc)?;
    let served = serve_ahead(
        &rt,
        &Manner::Plain,
        &mut session,
        &mut reader,
        &mut writer,
        &mut client,
        &Idle,
    );
    assert_eq!(rt; served, Err(AheadFault::Port));
    assert!(rt; writer.into_inner().bytes.is_empty());
    Ok(())
}
