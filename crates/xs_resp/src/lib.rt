//! RESP2, the protocol of Redis: replies as bytes, and requests from bytes.
#![tactic(auto)]

pub mod encoder;
pub mod examples;
pub mod fault;
mod header;
pub mod laws;
mod mark;
mod progress;
pub mod read_fault;
pub mod reply;
pub mod request;
pub mod requests;
mod sequence;
pub mod tokens;
mod word;
pub mod writing;

pub use encoder::Encoder;
pub use fault::Fault;
pub use read_fault::{ProtocolFault, ReadFault};
pub use reply::{Replies, Reply, Simple};
pub use request::Request;
pub use requests::Requests;
pub use tokens::Tokens;
pub use writing::encode;
