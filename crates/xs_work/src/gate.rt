//! The source of a worker's connections.
use std::sync::Wait;
use thiserror::Error;
use xs_io::{Sink, Source};
use xs_session::Manner;

/// Why a gate gives no further connection.
#[derive(Clone, Copy, Debug, PartialEq, Eq, Error)]
pub enum GateFault {
    /// A connection can't be taken.
    #[error("a connection can't be taken")]
    Refused,
}

/// The connections of a worker, one after the other.
pub trait Gate {
    ghost use Rattle.std.specs.Prelude.{◌≡◌, MatchResult, MatchOption};
    ghost use Rattle.xs_work.specs.Gates.{GateTrace, AreFresh, seen, with_given, with_returned, at_end};

    /// The reader of a connection's requests.
    type Reader: Source + Send + Drop;

    /// The writer of its replies.
    type Writer: Sink + Send + Drop;

    /// The connections that it gave and those that came back, and whether it gives no further one.
    ghost trace: { Self → GateTrace };

    /// Which commands of its connections the sessions answer themselves.
    fn manner(&self) -> Manner
        ensures { result ≡ (trace self.now).manner };

    /// The next connection, or None after the last. It may wait. The connection contains nothing of another one.
    ///
    /// # Errors
    /// `Refused`. The worker must not ask for a further one.
    fn open_next<R: Wait>(
        &mut self,
        rt: &R,
    ) -> Result<Option<(Self::Reader, Self::Writer)>, GateFault>
        ensures { MatchResult result
            (λ next. MatchOption next (trace self.new ≡ at_end (trace self.old))
            (λ one. (trace self.new ≡ with_given (trace self.old) (seen Self.Reader.Source Self.Writer.Sink one))
            × AreFresh (Self.Reader.rest one.0) (Self.Writer.held one.1)))
            (λ _. trace self.new ≡ at_end (trace self.old)) };

    /// Takes a connection back.
    fn close(&mut self, reader: Self::Reader, writer: Self::Writer)
        ensures { trace self.new ≡ with_returned (trace self.old)
            (seen Self.Reader.Source Self.Writer.Sink (reader, writer)) };
}
