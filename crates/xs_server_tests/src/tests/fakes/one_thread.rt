//! A desk in one thread: a client that waits for an answer has the keeper take a turn.
use crate::tests::fakes::Still;
use std::alloc::{AllocError, Global};
use std::sync::{Mutex, Wait};
use std::test::Fail;
use xs_bytes::{Bytes, U63};
use xs_command::Words;
use xs_desk::{Client, Keeper, Pause, desk};
use xs_io::{Sink, Source};
use xs_session::{Ending, Manner, Session, Tally};
use xs_stream::Moment;
use xs_work::{AheadFault, Attend, serve_ahead};

/// The keeper, at moment 1000.
#[derive(Drop)]
struct Beside {
    keeper: Mutex<Keeper>,
}

impl Pause for Beside {
    fn pause<R: Wait>(&self, _rt: &R, _client: &Client) {
        let mut clock = Still {
            moment: Moment::new(1000).unwrap(),
        };
        if let Some(mut keeper) = self.keeper.try_lock() {
            let _ = keeper.turn(&mut clock);
        }
    }

    fn pause_briefly<R: Wait>(&self, rt: &R, client: &Client) -> bool {
        self.pause(rt, client);
        false
    }
}

impl Attend for Beside {
    fn let_in(&self) {}

    fn ask_for_password(&self) {}

    fn rest(&self) {}

    fn inform(&self, alloc: Global, _sections: &Words<'_>) -> Result<Bytes, AllocError> {
        Ok(Bytes::new(Vec::new(alloc)))
    }

    fn note(&self, _tally: Tally) {}
}

/// Serves connections, one after the other, like the only worker of a desk.
#[derive(Drop)]
pub struct OneThread {
    beside: Beside,
    client: Client,
    session: Session,
}

impl OneThread {
    /// A server over an empty keyspace.
    pub fn new(alloc: Global) -> Result<Self, Fail> {
        let (keeper, mut clients) = desk(alloc, 1, 64)?;
        Ok(Self {
            beside: Beside {
                keeper: Mutex::new(keeper),
            },
            client: clients.pop().ok_or("a client")?,
            session: Session::new(alloc, &Manner::Plain, U63::new(1))?,
        })
    }

    /// Serves a connection.
    pub fn serve<R: Source, W: Sink>(
        &mut self,
        rt: &impl Wait,
        reader: &mut R,
        writer: &mut W,
    ) -> Result<Ending, AheadFault> {
        serve_ahead(
            rt,
            &Manner::Plain,
            &mut self.session,
            reader,
            writer,
            &mut self.client,
            &self.beside,
        )
    }
}
