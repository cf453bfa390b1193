//! Byte strings, decimal numbers in text, lists, and maps as contracts see them.
#![tactic(auto)]

pub mod bytes;
pub mod decimal;
pub mod examples;
pub mod list;
mod short;
pub mod u63;

pub use bytes::Bytes;
pub use decimal::{decimal_text, natural, number, push_decimal};
pub use list::List;
pub use u63::U63;
