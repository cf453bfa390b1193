//! The two halves of a connection over TCP. A gate takes their memory once, for all its connections.
//!
//! While a call waits the connection isn't read, so another thread has to look whether the client is still there.
//! Whether the client has closed its side shows only after the bytes that it sent before. So a look reads them, without
//! waiting, into a buffer from which the reader takes them later. Once that is full, only a reset connection shows.
//!
//! A client that hasn't given the password has until a deadline to do so, whatever it sends and takes.
ghost use Rattle.std.specs.Prelude.{◌≤◌, length, IfOk, IfSome};
ghost use Rattle.xs_work.specs.Gates.{AreFresh};

use std::alloc::{AllocError, Global};
use std::io;
use std::io::{ErrorKind, Read, Write};
use std::net::TcpStream;
use std::sync::{Arc, Mutex, Wait};
use std::time::{Clock, Duration};
use xs_io::{FromRead, Sink, Source, ToWrite};

/// The most bytes that are read while a call waits. `LOOK_BYTES` is the most at once.
const AHEAD: usize = 1_048_576;

const LOOK_BYTES: usize = 4096;

/// How many seconds a client has to give the password.
const SECONDS_FOR_PASSWORD: u64 = 10;

/// What both halves of a connection share, and then those of the next connection.
#[derive(Drop)]
struct Shared {
    // None between two connections.
    stream: Option<TcpStream>,
    // What was read while a call waited, from `ahead_at` on.
    ahead: Vec<u8>,
    ahead_at: usize,
    // Whether the client has closed its side, or the connection has failed.
    has_ended: bool,
    // How long a client may send nothing, or take nothing of a reply.
    idle: Option<Duration>,
    // The moment at which the connection ends if its client hasn't given the password, by the monotonic clock.
    deadline: Option<Duration>,
}

/// Sets how long a stream waits at most. If that fails, a client is closed later, which is no reason to refuse it.
fn set_patience(stream: &TcpStream, patience: Option<Duration>) {
    let _ = stream.set_read_timeout(patience);
    let _ = stream.set_write_timeout(patience);
}

/// How long a client may still wait: up to the deadline, and at most as long as it may be idle.
fn patience_at(now: Duration, deadline: Duration, idle: Option<Duration>) -> Option<Duration> {
    let left = deadline.checked_sub(now).filter(|left| !left.is_zero())?;
    Some(idle.map_or(left, |idle| idle.min(left)))
}

/// Whether a stream may wait for its client. If there is a deadline, it waits at most until then.
fn may_wait<S: Clock>(system: &S, shared: &Shared, stream: &TcpStream) -> bool {
    let Some(deadline) = shared.deadline else {
        return true;
    };
    let Ok(now) = system.monotonic() else {
        return false;
    };
    let patience = patience_at(now, deadline, shared.idle);
    set_patience(stream, patience);
    patience.is_some()
}

/// The client has given the password: the deadline is removed.
fn let_in(shared: &mut Shared) {
    if shared.deadline.is_none() {
        return;
    }
    shared.deadline = None;
    if let Some(stream) = shared.stream.as_ref() {
        set_patience(stream, shared.idle);
    }
}

/// The client has to give the password, by a deadline that begins now unless there is one already.
fn ask_for_password<S: Clock>(system: &S, shared: &mut Shared) {
    if shared.deadline.is_none() {
        shared.deadline = Some(password_deadline(system));
    }
}

/// The moment by which a client of now has to have given the password, by the monotonic clock. If the clock can't be
/// read, that is at once.
pub fn password_deadline<S: Clock>(system: &S) -> Duration {
    let now = system.monotonic().unwrap_or(Duration::ZERO);
    now.saturating_add(Duration::from_secs(SECONDS_FOR_PASSWORD))
}

/// The error of a half that is used by two threads at once, or after the end of its connection.
fn busy() -> io::Error {
    io::Error::from(ErrorKind::ResourceBusy)
}

/// Sends bytes from the front of a slice, and returns their number. An interrupted write is repeated.
fn send<S: Clock>(system: &S, shared: &Shared, from: &[u8]) -> io::Result<usize>
    ensures { IfOk result (λ n. n ≤ length from.now) }
{
    let Some(mut stream) = shared.stream.as_ref() else {
        return Err(busy());
    };
    if !may_wait(system, shared, stream) {
        return Err(io::Error::from(ErrorKind::TimedOut));
    }
    for _ in 0..u64::MAX {
        match stream.write(from) {
            Err(error) if error.kind() == ErrorKind::Interrupted => {}
            written => return written,
        }
    }
    Err(io::Error::from(ErrorKind::Interrupted))
}

/// Drops what was read ahead, and its memory.
fn forget_ahead(shared: &mut Shared) {
    shared.ahead.clear();
    shared.ahead.shrink_to_fit();
    shared.ahead_at = 0;
}

/// Takes bytes that were read ahead.
fn take_ahead(shared: &mut Shared, into: &mut [u8]) -> usize
    ensures { result ≤ length into.new }
{
    let Some(ahead) = shared.ahead.get(shared.ahead_at..) else {
        return 0;
    };
    let count = ahead.len().min(into.len());
    into[..count].copy_from_slice(&ahead[..count]);
    shared.ahead_at = shared.ahead_at.saturating_add(count);
    if shared.ahead_at >= shared.ahead.len() {
        forget_ahead(shared);
    }
    count
}

/// Waits for bytes. An interrupted read is repeated; one whose time is over is the end.
fn receive<S: Clock>(system: &S, shared: &mut Shared, into: &mut [u8]) -> io::Result<usize>
    ensures { IfOk result (λ n. n ≤ length into.new) }
{
    if !shared.ahead.is_empty() {
        return Ok(take_ahead(shared, into));
    }
    if shared.has_ended {
        return Ok(0);
    }
    let Some(mut stream) = shared.stream.as_ref() else {
        return Err(busy());
    };
    if !may_wait(system, shared, stream) {
        return Ok(0);
    }
    for _ in 0..u64::MAX {
        match stream.read(into) {
            Err(error) if error.kind() == ErrorKind::Interrupted => {}
            Err(error) if is_without_bytes(&error) => return Ok(0),
            read => return read,
        }
    }
    Err(io::Error::from(ErrorKind::Interrupted))
}

/// Whether a read has failed only because no bytes have come: in time, or yet.
fn is_without_bytes(error: &io::Error) -> bool {
    matches!(error.kind(), ErrorKind::WouldBlock | ErrorKind::TimedOut)
}

/// Whether a connection has failed. It reads nothing, so it doesn't see that the client has closed its side.
fn has_failed(stream: &TcpStream) -> bool {
    !matches!(stream.take_error(), Ok(None))
}

/// Reads the bytes that have come, up to `AHEAD` bytes in all, from a stream that doesn't wait. Returns whether the
/// stream has ended.
fn read_ahead(mut stream: &TcpStream, ahead: &mut Vec<u8>) -> bool {
    let mut piece = [0u8; LOOK_BYTES];
    for _ in 0..AHEAD / LOOK_BYTES {
        if ahead.len() >= AHEAD || ahead.reserve(LOOK_BYTES).is_err() {
            return has_failed(stream);
        }
        match stream.read(&mut piece) {
            Ok(0) => return true,
            Ok(count) => {
                if ahead.extend_from_slice(&piece[..count]).is_err() {
                    return true;
                }
            }
            Err(error) if error.kind() == ErrorKind::Interrupted => {}
            Err(error) => return !is_without_bytes(&error),
        }
    }
    false
}

/// Looks whether the client has left.
fn has_left(shared: &mut Shared) -> bool {
    let Some(stream) = shared.stream.as_ref() else {
        return false;
    };
    if shared.has_ended {
        return true;
    }
    if stream.set_nonblocking(true).is_err() {
        return false;
    }
    shared.has_ended = read_ahead(stream, &mut shared.ahead);
    if stream.set_nonblocking(false).is_err() {
        shared.has_ended = true;
    }
    shared.has_ended
}

/// The reader of the requests.
#[derive(Drop)]
pub struct Incoming<S: Drop> {
    system: S,
    // No other thread looks while it reads: no call waits then.
    shared: Arc<Mutex<Shared>>,
}

impl<S: Clock + Drop> Read for Incoming<S> {
    fn read(&mut self, into: &mut [u8]) -> io::Result<usize> {
        match self.shared.try_lock() {
            Some(mut shared) => receive(&self.system, &mut shared, into),
            None => Err(busy()),
        }
    }
}

/// The writer of the replies. While a call waits another thread may look at the client: a write waits until that look
/// is over.
pub struct Outgoing<S: Drop> {
    system: S,
    shared: Arc<Mutex<Shared>>,
}

impl<S: Drop> Drop for Outgoing<S> {
    /// Ends the connection.
    fn drop(self) {
        let Outgoing { system: _, shared } = self;
        if let Some(mut shared) = shared.try_lock() {
            shared.stream = None;
        }
    }
}

impl<S: Clock + Wait + Drop> Write for Outgoing<S> {
    fn write(&mut self, from: &[u8]) -> io::Result<usize> {
        send(&self.system, &self.shared.lock(&self.system), from)
    }

    fn flush(&mut self) -> io::Result<()> {
        Ok(())
    }
}

/// The clients of a gate's connections, one after the other: whether they are still there, as far as that can be seen.
#[derive(Drop)]
pub struct Peer {
    shared: Arc<Mutex<Shared>>,
}

impl Peer {
    /// Whether the client of the present connection has left. It may be called while a call of this connection waits:
    /// then the connection isn't read or written. While another thread looks, the client counts as there.
    pub fn has_left(&self) -> bool {
        match self.shared.try_lock() {
            Some(mut shared) => has_left(&mut shared),
            None => false,
        }
    }

    /// Removes the deadline of the present connection's client: it has given the password.
    pub fn let_in(&self) {
        if let Some(mut shared) = self.shared.try_lock() {
            let_in(&mut shared);
        }
    }

    /// The client of the present connection has to give the password, by a deadline that begins now unless there is one
    /// already.
    pub fn ask_for_password<S: Clock>(&self, system: &S) {
        if let Some(mut shared) = self.shared.try_lock() {
            ask_for_password(system, &mut shared);
        }
    }

    /// Whether a look has found that the client has left.
    pub fn was_seen_to_leave(&self) -> bool {
        match self.shared.try_lock() {
            Some(shared) => shared.has_ended,
            None => false,
        }
    }
}

/// Both halves of a connection.
pub type Halves<S> = (FromRead<Incoming<S>>, ToWrite<Outgoing<S>>);

/// The memory of the halves of connections, one after the other.
#[derive(Drop)]
pub struct HalvesMemory {
    shared: Arc<Mutex<Shared>>,
}

impl HalvesMemory {
    /// The memory for the halves of connections that may be idle for this long.
    pub fn new(alloc: Global, idle: Option<Duration>) -> Result<Self, AllocError> {
        let shared = Shared {
            stream: None,
            ahead: Vec::new(alloc),
            ahead_at: 0,
            has_ended: false,
            idle,
            deadline: None,
        };
        Ok(Self {
            shared: Arc::new(alloc, Mutex::new(shared))?,
        })
    }

    /// The clients of its connections. It takes no memory.
    pub fn peer(&self) -> Result<Peer, AllocError> {
        Ok(Peer {
            shared: Arc::try_clone(&self.shared)?,
        })
    }

    /// Both halves of a stream. They take no memory. None while the halves of another connection are in use. If there
    /// is a deadline, by the monotonic clock, the client has to give the password by then.
    pub fn halves_of<S: Clock + Wait + Copy + Drop>(
        &self,
        system: S,
        stream: TcpStream,
        deadline: Option<Duration>,
    ) -> Option<Halves<S>>
        ensures { IfSome result (λ one. AreFresh (⟦<FromRead<Incoming<S>> as Source>⟧.rest one.0)
            (⟦<ToWrite<Outgoing<S>> as Sink>⟧.held one.1)) }
    {
        let shared = Arc::try_clone(&self.shared).ok()?;
        let other = Arc::try_clone(&self.shared).ok()?;
        {
            let mut shared = self.shared.try_lock()?;
            forget_ahead(&mut shared);
            if shared.idle.is_some() {
                set_patience(&stream, shared.idle);
            }
            shared.has_ended = false;
            shared.deadline = deadline;
            shared.stream = Some(stream);
        }
        let incoming = FromRead::new(Incoming { system, shared });
        let outgoing = ToWrite::new(Outgoing {
            system,
            shared: other,
        });
        Some((incoming, outgoing))
    }
}
