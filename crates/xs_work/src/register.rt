//! The connections that a gate gave and that came back, as contracts see them.
ghost use Rattle.std.specs.Prelude.{◌≡◌};
ghost use Rattle.xs_session.specs.declared.manner.Manner.TheVariants.{Plain};
ghost use Rattle.xs_work.specs.Gates.{new_gate, seen, with_given, with_returned, at_end};

use std::marker::Model;
use xs_io::{Sink, Source};
use xs_trace::Trace;

/// The register of a gate whose sessions answer no commands of a connection. Contracts see the connections that were
/// given, those that came back, and whether none is given any more. It stores none of them.
#[derive(Drop)]
pub struct Register<R: Source + Drop, W: Sink + Drop> {
    given: Trace<(R, W)>,
    returned: Trace<(R, W)>,
    is_over: bool,
}

impl<R: Source + Drop, W: Sink + Drop> Model for Register<R, W> {
    ghost use Rattle.xs_session.specs.declared.manner.Manner.TheVariants.{Plain};
    ghost use Rattle.xs_work.specs.Gates.{GateTrace, all_seen};

    ghost Value = { GateTrace };

    ghost view = { λ r. record {
      manner = Plain;
      given = all_seen R.Source W.Sink r.given;
      returned = all_seen R.Source W.Sink r.returned;
      is_over = r.is_over;
    } };
}

impl<R: Source + Drop, W: Sink + Drop> Register<R, W> {
    /// An empty register. It takes no memory.
    pub fn new() -> Self
        ensures { result ≡ new_gate Plain }
    {
        Self {
            given: Trace::new(),
            returned: Trace::new(),
            is_over: false,
        }
    }

    /// Notes that this connection is given.
    pub fn give(&mut self, one: &(R, W))
        ensures { self.new ≡ with_given self.old (seen R.Source W.Sink one.now) }
    {
        self.given.add(one);
    }

    /// Notes that this connection came back.
    pub fn take_back(&mut self, one: &(R, W))
        ensures { self.new ≡ with_returned self.old (seen R.Source W.Sink one.now) }
    {
        self.returned.add(one);
    }

    /// Notes that no further connection is given.
    pub fn end(&mut self)
        ensures { self.new ≡ at_end self.old }
    {
        self.is_over = true;
    }
}
