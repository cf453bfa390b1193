//! Tests of logs.
mod crash_points;
mod log_text;
mod restored;
mod snapshot_text;
mod snapshots;
mod tape_logs;
mod turned_bits;
mod two_logs;
