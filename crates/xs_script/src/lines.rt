//! The lines of a script: their ends, and their content.
pub mod held;
pub mod parts;
