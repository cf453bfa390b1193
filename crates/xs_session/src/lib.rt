//! A connection without IO, threads or ports: it hands out the calls of the requests that it has read, and gets the
//! replies to them. It doesn't wait, except that it lets other threads go on while memory is refused.
#![tactic(auto)]

pub mod ending;
pub mod examples;
pub mod information;
mod informing;
pub mod manner;
pub mod places;
mod releasing;
pub mod reserve;
pub mod session;
mod strangers;
pub mod taking;
pub mod tally;

pub use ending::Ending;
pub use information::{Information, names_keyspace};
pub use manner::Manner;
pub use places::{AHEAD, Place, Places};
pub use reserve::Reserve;
pub use session::{Next, Session};
pub use taking::{Taking, take_request};
pub use tally::Tally;
