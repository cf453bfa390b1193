//! The version of the program.

/// The version, raised with each release in CHANGELOG.md.
pub const VERSION: &str = "0.1.0";
