//! The reader of requests from bytes that come in pieces.
use crate::header::{Part, read_header};
use crate::progress::{Progress, read_on};
use crate::read_fault::{ProtocolFault, ReadFault};
use crate::request::Request;
use crate::word::rest_of;
use std::alloc::{AllocError, Global};
use std::marker::Model;
use xs_bytes::{Bytes, List};
use xs_io::{Fill, FillFault, Input, Source};

/// The place of a reader in its bytes.
#[derive(Clone, Copy, Debug, PartialEq, Eq)]
enum State {
    /// At the front of a request.
    Between,
    /// After the header of a request.
    Within(Progress),
    /// At a fault, for good.
    Failed(ProtocolFault),
}

/// A reader of requests: bytes are read into it in pieces, and complete requests are taken from it. A contract sees the
/// bytes that it holds, or the fault with which it has failed.
#[derive(Debug, Drop)]
pub struct Requests {
    alloc: Global,
    input: Input,
    state: State,
}

impl Model for Requests {
    ghost use Rattle.xs_resp.specs.HeldBytes.{Held};

    ghost Value = { Held };

    ghost use Rattle.xs_resp.specs.State.{held_in, IsState};

    ghost view = { λ r. held_in r.state r.input };

    ghost invariant = { λ r. IsState r.state r.input };
}

impl Requests {
    ghost use Rattle.std.specs.Prelude.{◌≡◌, ◌≢◌, List, ℕ, [], None, Some, IfOk, Ok};
    ghost use Rattle.xs_resp.specs.Reading.{Found, request};
    ghost use Rattle.xs_resp.specs.HeldBytes.{with_piece, front_of, holds_bytes, HasNext, Next, Ready, Skips};

    /// A reader that holds nothing.
    pub fn new(alloc: Global) -> Self
        ensures { result ≡ Ok [] }
    {
        Self {
            alloc,
            input: Input::new(alloc),
            state: State::Between,
        }
    }

    /// A reader that holds nothing, with memory for `capacity` bytes.
    pub fn with_capacity(alloc: Global, capacity: usize) -> Result<Self, AllocError>
        ensures { IfOk result (λ requests. requests ≡ Ok []) }
    {
        Ok(Self {
            alloc,
            input: Input::with_capacity(alloc, capacity)?,
            state: State::Between,
        })
    }

    /// Drops all that is held, and a fault. Its memory is kept, except what a large request needed.
    pub fn clear(&mut self)
        ensures { self.new ≡ Ok [] }
    {
        self.input.clear();
        self.state = State::Between;
    }

    /// Whether a complete request is at the front. It takes no memory.
    ///
    /// # Errors
    /// What is wrong with the bytes, for good; never `Memory`.
    pub fn has_next(&mut self) -> Result<bool, ReadFault>
        ensures { Ready self.old result self.new }
    {
        let progress = match self.state {
            State::Between => None,
            State::Within(progress) => Some(progress),
            State::Failed(wrong) => return Err(ReadFault::from(wrong)),
        };
        match read_on(self.input.bytes(), progress) {
            Ok(Some(reached)) => {
                self.state = State::Within(reached);
                Ok(reached.left == 0)
            }
            Ok(None) => Ok(false),
            Err(wrong) => {
                self.state = State::Failed(wrong);
                Err(ReadFault::from(wrong))
            }
        }
    }

    /// The words of the request at the front, lent from the bytes that are held. The request has to be complete. It
    /// takes no memory.
    pub fn front(&self) -> Request<'_>
        requires { HasNext self.now }
        ensures { result ≡ front_of self.now }
    {
        let bytes = self.input.bytes();
        let header = read_header(Part::Count, bytes).unwrap().unwrap();
        Request::new(header.number, rest_of(bytes, header.end))
    }

    /// The number of bytes of the request at the front, which has to be complete. It takes no memory.
    pub fn front_len(&self) -> usize
        requires { HasNext self.now }
        ensures { (bytes : List ℕ) (found : Found) → self.now ≡ Ok bytes → request bytes ≡ Ok (Some found) →
            result ≡ found.end }
    {
        let progress = match self.state {
            State::Within(progress) => Some(progress),
            State::Between | State::Failed(_) => None,
        };
        read_on(self.input.bytes(), progress).unwrap().unwrap().at
    }

    /// Drops the request at the front, which has to be complete. It takes no memory.
    pub fn skip(&mut self)
        requires { HasNext self.old }
        ensures { Skips self.old self.new }
    {
        let progress = match self.state {
            State::Within(progress) => Some(progress),
            State::Between | State::Failed(_) => None,
        };
        let reached = read_on(self.input.bytes(), progress).unwrap().unwrap();
        self.input.consume(reached.at);
        self.state = State::Between;
    }

    /// Removes the next request, and returns its words, copied. None until it is complete. Any other result is final:
    /// bytes that come later don't change it. It takes memory only if a request is complete.
    ///
    /// # Errors
    /// `Memory`, and the reader is unchanged; else what is wrong with the bytes, for good.
    #[tactic(auto, using(crate::proofs::NextRequest::next_stays))]
    pub fn next(&mut self) -> Result<Option<List<Bytes>>, ReadFault>
        ensures next { Next self.old result self.new }
        ensures stays { (more : List ℕ) → result ≢ Ok None
            → Next (with_piece self.old more) result (with_piece self.new more) }
    {
        if !self.has_next()? {
            return Ok(None);
        }
        let Ok(words) = self.front().copy(self.alloc) else {
            return Err(ReadFault::Memory);
        };
        self.skip();
        Ok(Some(words))
    }

    /// The bytes that are held. It takes no memory.
    pub fn held_bytes(&self) -> &[u8]
        ensures { (bytes : List ℕ) → self.now ≡ Ok bytes → result.now ≡ bytes }
    {
        self.input.bytes()
    }

    /// Whether bytes are held. A failed reader holds none.
    pub fn partial(&self) -> bool
        ensures { result ≡ holds_bytes self.now }
    {
        match self.state {
            State::Failed(_) => false,
            State::Between | State::Within(_) => !self.input.bytes().is_empty(),
        }
    }
}

impl Fill for Requests {
    ghost use Rattle.xs_resp.specs.HeldBytes.{with_piece};

    ghost with_bytes = { with_piece };

    fn fill<R: Source>(&mut self, reader: &mut R) -> Result<usize, FillFault> {
        self.input.fill(reader)
    }
}
