//! One word of a request.
ghost use Rattle.std.specs.Prelude.{◌≡◌, IfOk};
ghost use Rattle.xs_command.specs.Words.{is_word};

use std::alloc::{AllocError, Global};
use std::marker::Model;
use xs_bytes::Bytes;

/// One word of a request. A contract sees it as the list of its bytes.
#[derive(Drop)]
pub struct Word<'a> {
    text: &'a [u8],
}

impl<'a> Model for Word<'a> {
    ghost use Rattle.std.specs.Prelude.{List, ℕ};

    ghost Value = { List ℕ };

    ghost view = { λ w. w.text.now };
}

impl<'a> Word<'a> {
    /// The word of these bytes.
    pub fn new(text: &'a [u8]) -> Self
        ensures { result ≡ text.now }
    {
        Self { text }
    }

    /// Its bytes.
    pub fn as_slice(&self) -> &[u8]
        ensures { result.now ≡ self.now }
    {
        self.text
    }

    /// Whether it is this name, in upper or lower case.
    #[tactic(auto, unfolding(crate::specs::Words::is_word))]
    pub fn is(&self, name: &[u8]) -> bool
        ensures { result ≡ is_word name.now self.now }
    {
        self.text.eq_ignore_ascii_case(name)
    }

    /// A copy at its exact size.
    pub fn copy(&self, alloc: Global) -> Result<Bytes, AllocError>
        ensures { IfOk result (λ bytes. bytes ≡ self.now) }
    {
        Bytes::from_slice(alloc, self.text)
    }
}
