//! Tests of scripts, of work over gates, and of connections over TCP. They are a crate of their own over the libraries,
//! so these are proved once and not a second time with them.
#![tactic(auto)]

#[cfg(test)]
mod tests;
