//! Commands, read from the words of a request. The rules are those of the Redis 7.0 documentation, on the pages of the
//! commands.
#![tactic(auto)]

pub mod command;
mod command_name;
mod dbsize;
mod del;
pub mod examples;
mod exists;
pub mod integer;
mod key_type;
pub mod operands;
pub mod options;
mod ping;
mod read;
pub mod refusal;
mod trim;
pub mod word;
pub mod words;
mod xack;
mod xadd;
mod xautoclaim;
mod xclaim;
mod xdel;
mod xgroup;
mod xinfo;
mod xlen;
mod xpending;
mod xrange;
mod xreadgroup;
mod xtrim;

pub use command::{
    AddCommand, AutoClaimCommand, ClaimCommand, Command, GroupCreateCommand, GroupStart,
    Inspection, PendingRowsCommand, RangeCommand, ReadFrom, ReadGroupCommand, ReadOne,
};
pub use integer::Integer;
pub use operands::Operands;
pub use options::{Options, read_options};
pub use read::{read_command, read_request};
pub use refusal::Refusal;
pub use word::Word;
pub use words::Words;
