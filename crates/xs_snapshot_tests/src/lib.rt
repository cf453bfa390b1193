//! Tests of snapshots of a keyspace. They are a crate of their own over the library, so it is proved once and not a
//! second time with them.
#![tactic(auto)]

#[cfg(test)]
mod tests;
