//! A gate of a server that runs until it is stopped: it takes connections from the hall, without end.
ghost use Rattle.std.specs.Prelude.{◌≡◌, IfOk, IfSome};
ghost use Rattle.xs_session.specs.declared.manner.Manner.TheVariants as manner;
ghost use Rattle.xs_work.specs.Gates.{AreFresh, new_gate};

use crate::announcement::Announcement;
use crate::figures::{SharedFigures, WorkerFigures};
use crate::hall::Hall;
use crate::halves::{Halves, HalvesMemory, Incoming, Outgoing, Peer, password_deadline};
use std::alloc::{AllocError, Global};
use std::net::TcpStream;
use std::sync::{Arc, Wait};
use std::time::{Clock, Duration};
use xs_connection::Password;
use xs_io::{FromRead, Sink, Source, ToWrite};
use xs_session::Manner;
use xs_work::{Gate, GateFault, Register};

/// A gate that takes connections from a hall, which other gates share.
#[derive(Drop)]
pub struct RunGate<S: Clock + Wait + Drop> {
    // The clock by which its worker waits.
    system: S,
    memory: HalvesMemory,
    hall: Arc<Hall>,
    announcement: Announcement,
    // The password that a client has to give before it may send commands.
    password: Option<Password>,
    register: Register<FromRead<Incoming<S>>, ToWrite<Outgoing<S>>>,
    // The figures of its worker.
    figures: SharedFigures,
}

impl<S: Clock + Wait + Copy + Send + Drop> RunGate<S> {
    /// A gate of this hall, whose connections may be idle for `idle`, sending nothing or taking nothing of a reply, and
    /// have to give the password, if there is one. At its first call it makes the announcement.
    pub fn new(
        system: S,
        alloc: Global,
        hall: Arc<Hall>,
        announcement: Announcement,
        idle: Option<Duration>,
        password: Option<Password>,
    ) -> Result<Self, AllocError>
        ensures { IfOk result (λ gate. ⟦<RunGate<S> as Gate>⟧.trace gate ≡ new_gate (manner.Full password)) }
    {
        Ok(Self {
            system,
            memory: HalvesMemory::new(alloc, idle)?,
            hall,
            announcement,
            password,
            register: Register::new(),
            figures: WorkerFigures::new(alloc)?,
        })
    }
}

/// A second handle of the same password, if there is one.
pub fn again(password: &Option<Password>) -> Option<Password>
    ensures { result ≡ password.now }
{
    match password {
        Some(password) => Some(password.again()),
        None => None,
    }
}

impl<S: Clock + Wait + Copy + Drop> RunGate<S> {
    /// The clock by which its worker waits.
    pub fn system(&self) -> S {
        self.system
    }

    /// The clients of its connections. It takes no memory.
    pub fn peer(&self) -> Result<Peer, AllocError> {
        self.memory.peer()
    }

    /// The figures of its worker. It takes no memory.
    pub fn figures(&self) -> Result<SharedFigures, AllocError> {
        Arc::try_clone(&self.figures)
    }

    /// The moment at which a connection of now ends if its client hasn't given the password.
    fn deadline(&self) -> Option<Duration> {
        self.password.as_ref()?;
        Some(password_deadline(&self.system))
    }

    /// Both halves of a stream.
    fn halves_of(&self, stream: TcpStream) -> Option<Halves<S>>
        ensures { IfSome result (λ one. AreFresh (⟦<FromRead<Incoming<S>> as Source>⟧.rest one.0)
            (⟦<ToWrite<Outgoing<S>> as Sink>⟧.held one.1)) }
    {
        // If this fails replies may be late, which is no reason to refuse the connection.
        let _ = stream.set_nodelay(true);
        self.memory.halves_of(self.system, stream, self.deadline())
    }

    /// Waits for the next connection of the hall, and returns its halves. None once the hall is closed.
    fn take_next<R: Wait>(&self, rt: &R) -> Option<Halves<S>>
        ensures { IfSome result (λ one. AreFresh (⟦<FromRead<Incoming<S>> as Source>⟧.rest one.0)
            (⟦<ToWrite<Outgoing<S>> as Sink>⟧.held one.1)) }
    {
        for _ in rt.forever() {
            let stream = self.hall.next(rt)?;
            if let Some(halves) = self.halves_of(stream) {
                return Some(halves);
            }
        }
        unreachable!()
    }
}

impl<S: Clock + Wait + Copy + Send + Drop> Gate for RunGate<S> {
    type Reader = FromRead<Incoming<S>>;

    type Writer = ToWrite<Outgoing<S>>;

    ghost use Rattle.xs_session.specs.declared.manner.Manner.TheVariants.{Full};
    ghost use Rattle.xs_work.specs.Gates.{with_manner};

    ghost trace = { λ g. with_manner (Full g.password) g.register };

    fn manner(&self) -> Manner {
        Manner::Full(again(&self.password))
    }

    fn open_next<R: Wait>(&mut self, rt: &R) -> Result<Option<Halves<S>>, GateFault> {
        self.announcement.make();
        match self.take_next(rt) {
            Some(connection) => {
                self.figures.open();
                self.register.give(&connection);
                Ok(Some(connection))
            }
            None => {
                self.register.end();
                Err(GateFault::Refused)
            }
        }
    }

    fn close(&mut self, reader: FromRead<Incoming<S>>, writer: ToWrite<Outgoing<S>>) {
        self.figures.close();
        self.register.take_back(&(reader, writer));
    }
}
