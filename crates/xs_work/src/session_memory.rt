//! The memory of a worker's connections, which it serves one after the other.
use std::alloc::{AllocError, Global};
use xs_bytes::U63;
use xs_session::{Manner, Session};

/// The memory of a worker's connections.
#[derive(Drop)]
pub struct SessionMemory {
    alloc: Global,
    // The number of its worker.
    number: U63,
    // None before the first connection, if it wasn't taken at the start.
    made: Option<Session>,
}

impl SessionMemory {
    /// All that small requests need, taken at once for the worker with this number.
    pub fn made(alloc: Global, number: U63) -> Result<SessionMemory, AllocError> {
        Ok(SessionMemory {
            alloc,
            number,
            made: Some(Session::new(alloc, &Manner::Plain, number)?),
        })
    }

    /// The same, taken when the first connection comes.
    pub fn lazy(alloc: Global, number: U63) -> SessionMemory {
        SessionMemory {
            alloc,
            number,
            made: None,
        }
    }

    /// A session over this memory, which is taken now if it wasn't before.
    pub fn session(&mut self) -> Result<&mut Session, AllocError> {
        if self.made.is_none() {
            self.made = Some(Session::new(self.alloc, &Manner::Plain, self.number)?);
        }
        self.made.as_mut().ok_or(AllocError)
    }
}
