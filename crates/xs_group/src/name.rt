//! The name of a consumer, shared by its rows.
ghost use Rattle.std.specs.Prelude.{◌≡◌, IfOk};

use std::alloc::{AllocError, Global};
use std::marker::Model;
use std::sync::Arc;
use xs_bytes::Bytes;

/// The name of a consumer. A contract sees its bytes.
#[derive(Drop)]
pub(crate) struct Name {
    text: Arc<Bytes, Global>,
}

impl Model for Name {
    ghost use Rattle.std.specs.Prelude.{List, ℕ};
    ghost use Rattle.std.specs.Arc.{arc_value};

    ghost Value = { List ℕ };

    ghost view = { λ n. arc_value n.text };
}

impl Name {
    /// A copy of a text, which can be shared.
    pub(crate) fn new(alloc: Global, text: &Bytes) -> Result<Self, AllocError>
        ensures { IfOk result (λ n. n ≡ text.now) }
    {
        let text = Bytes::from_slice(alloc, text.as_slice())?;
        match Arc::new(alloc, text) {
            Ok(text) => Ok(Self { text }),
            Err(_) => Err(AllocError),
        }
    }

    /// A second handle of the same name. It takes no memory.
    pub(crate) fn share(&self) -> Result<Self, AllocError>
        ensures { IfOk result (λ n. n ≡ self.now) }
    {
        match Arc::try_clone(&self.text) {
            Ok(text) => Ok(Self { text }),
            Err(_) => Err(AllocError),
        }
    }

    pub(crate) fn text(&self) -> &Bytes
        ensures { result.now ≡ self.now }
    {
        &self.text
    }
}
