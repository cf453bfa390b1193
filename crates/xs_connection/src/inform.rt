//! What a server reports about itself.
use std::alloc::{AllocError, Global};
use xs_bytes::Bytes;
use xs_command::Words;

/// What a server reports about itself.
pub trait Inform {
    /// The text of INFO: the sections that these words name, or the usual ones if there is no word.
    fn inform(&self, alloc: Global, sections: &Words<'_>) -> Result<Bytes, AllocError>;
}

/// It reports nothing.
impl Inform for () {
    fn inform(&self, alloc: Global, _sections: &Words<'_>) -> Result<Bytes, AllocError> {
        Ok(Bytes::new(Vec::new(alloc)))
    }
}
