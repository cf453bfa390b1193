//! The number of replies.
ghost use Rattle.std.specs.Prelude.{◌≡◌, ◌+◌, ◌^◌, ◌%◌, if◌then◌else◌};
ghost use Rattle.xs_session.specs.Tally.{is_error};

use xs_resp::Reply;

/// The number of replies that were begun, and of errors among them, modulo 2^64.
#[derive(Clone, Copy, Debug, Default, PartialEq, Eq)]
pub struct Tally {
    pub replies: u64,
    pub errors: u64,
}

/// Whether a reply is an error.
fn is_error(reply: &Reply) -> bool
    ensures { result ≡ is_error reply.now }
{
    matches!(reply, Reply::Error(_) | Reply::ErrorText(_))
}

impl Tally {
    /// Counts one more reply.
    pub fn count(&mut self, reply: &Reply)
        ensures replies { self.new.replies ≡ (self.old.replies + 1) % 2 ^ 64 }
        ensures errors { self.new.errors ≡ (self.old.errors + (if is_error reply.now then 1 else 0)) % 2 ^ 64 }
    {
        self.replies = self.replies.wrapping_add(1);
        self.errors = self.errors.wrapping_add(u64::from(is_error(reply)));
    }
}
