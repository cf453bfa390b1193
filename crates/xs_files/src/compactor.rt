//! Compacts a folder each time that a compaction is due.
ghost use Rattle.std.specs.Prelude.{◌≡◌, ◌≢◌, ◌↔◌, IsTrue};

use crate::compaction::{Compaction, compact_if_due};
use crate::compaction_state::CompactionState;
use crate::due::sizes_of;
use crate::fault::FolderFault;
use crate::listing::{Listing, list};
use crate::progress::Progress;
use std::alloc::{AllocError, Global};
use std::fs::File;
use std::rt::Files;
use std::sync::Arc;

/// When a server compacts the folder of its log.
#[derive(Clone, Copy, Debug, PartialEq, Eq)]
pub enum CompactPolicy {
    /// While it serves, each time that it is due.
    Serving,
    /// At its start, if it is due then.
    Start,
    /// Never: another process does it, or none.
    Never,
}

/// The number of the last log when a folder was last checked; 0 if it wasn't.
#[derive(Clone, Copy, Debug, PartialEq, Eq)]
struct LastLook {
    number: u64,
}

impl LastLook {
    /// Notes the number of the last log, and returns whether a log was closed since the last check. If not, no
    /// compaction is due that wasn't then, and one that was refused then isn't tried again.
    fn is_news(&mut self, number: u64) -> bool
        ensures news { IsTrue result ↔ (number ≢ self.old.number) }
        ensures kept { self.new.number ≡ number }
    {
        let is_news = number != self.number;
        self.number = number;
        is_news
    }
}

/// Compacts a folder when it is called and a compaction is due.
#[derive(Drop)]
pub struct Compactor {
    alloc: Global,
    folder: String,
    progress: Arc<Progress>,
    state: Arc<CompactionState>,
    last_look: LastLook,
}

impl Compactor {
    /// A compactor of this folder. `progress` counts the bytes that were read.
    pub fn new(
        alloc: Global,
        folder: &str,
        progress: &Arc<Progress>,
    ) -> Result<Compactor, AllocError> {
        Ok(Compactor {
            alloc,
            folder: String::from_str(alloc, folder)?,
            progress: Arc::try_clone(progress)?,
            state: Arc::new(alloc, CompactionState::new())?,
            last_look: LastLook { number: 0 },
        })
    }

    /// The folder.
    pub fn folder(&self) -> &str {
        self.folder.as_str()
    }

    /// The state of its compactions.
    pub fn state(&self) -> Result<Arc<CompactionState>, AllocError> {
        Arc::try_clone(&self.state)
    }

    /// Whether a compaction of the folder with this listing is due.
    fn is_due_with<R: Files<File = File> + AllocGlobal + Copy + Drop>(
        &self,
        rt: &R,
        listing: &Listing,
    ) -> Result<bool, FolderFault> {
        let sizes = sizes_of(rt, self.alloc, self.folder.as_str(), listing)?;
        Ok(sizes.is_due())
    }

    /// Whether a compaction is due and a log was closed since the last call: then `compact` is to be called, once.
    ///
    /// # Errors
    /// A `FolderFault`, reported once: the folder is checked again after the next log was closed, or once it can be
    /// listed.
    pub fn is_due<R: Files<File = File> + AllocGlobal + Copy + Drop>(
        &mut self,
        rt: &R,
    ) -> Result<bool, FolderFault> {
        let listing = match list(rt, self.folder.as_str()) {
            Ok(listing) => listing,
            Err(_) if self.state.lists(false) => return Ok(false),
            Err(fault) => return Err(fault),
        };
        self.state.lists(true);
        if !self.last_look.is_news(listing.last) {
            return Ok(false);
        }
        let is_due = self.is_due_with(rt, &listing);
        match is_due {
            Ok(true) => {}
            Ok(false) => self.state.ends(&Ok(None)),
            Err(fault) => self.state.ends(&Err(fault)),
        }
        is_due
    }

    /// Compacts the folder, unless another process just did: then it returns None. The last log isn't touched, so a
    /// server may use the folder.
    ///
    /// # Errors
    /// A `FolderFault`, and nothing was removed.
    pub fn compact<R: Files<File = File> + AllocGlobal + Copy + Drop>(
        &self,
        rt: &R,
    ) -> Result<Option<Compaction>, FolderFault> {
        self.state.begins();
        let done = compact_if_due(rt, self.folder.as_str(), &self.progress);
        self.state.ends(&done);
        done
    }
}
