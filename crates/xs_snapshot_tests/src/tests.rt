//! Tests of snapshots of a keyspace.
mod written;
