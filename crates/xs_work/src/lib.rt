//! Work over gates. A gate gives connections, one after the other; a worker, in a thread of its own, serves each through
//! its lane of a desk; the desk's keeper has a thread too.
#![tactic(auto)]

pub mod ahead;
pub mod fault;
pub mod gate;
pub mod keeper_thread;
pub mod lifecycle;
pub mod logged;
pub mod mode;
pub mod register;
pub mod session_memory;
pub mod started;
pub mod texts;
pub mod worker;
pub mod worker_pool;
pub mod working;

pub use ahead::{AheadFault, serve_ahead};
pub use fault::WorkFault;
pub use gate::{Gate, GateFault};
pub use logged::{LoggedEnd, work_logged};
pub use mode::{Attend, KeeperMode, Mode};
pub use register::Register;
pub use session_memory::SessionMemory;
pub use texts::say;
pub use working::{WorkFailed, WorkOutcome, work, work_with};
