//! A folder of logs on a file system.
#![tactic(auto)]

pub mod compaction;
pub mod compaction_state;
pub mod compactor;
pub mod due;
pub mod fault;
pub mod file_source;
pub mod file_tape;
pub mod folder;
pub mod last_log;
pub mod listing;
pub mod names;
pub mod opening;
pub mod progress;
pub mod recovery;
pub mod removal;
pub mod snapshot_file;
pub mod syncing;

pub use compaction::{Compaction, compact_folder};
pub use compaction_state::CompactionState;
pub use compactor::{CompactPolicy, Compactor};
pub use fault::FolderFault;
pub use file_tape::FileTape;
pub use folder::{FolderLock, lock_folder};
pub use opening::{OpenedFolder, open_folder};
pub use progress::Progress;
pub use syncing::{SyncPolicy, Syncer};
