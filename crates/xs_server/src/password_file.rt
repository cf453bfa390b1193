//! The file of a password.
ghost use Rattle.std.specs.Prelude.{◌≡◌};

use crate::report::{report_memory, report_text};
use memchr::memchr;
use std::alloc::{Alloc, Global};
use std::fs;
use std::fs::Files;
use std::io::{self, ErrorKind};
use std::os::unix::fs::PermissionsExt;
use thiserror::Error;
use xs_connection::Password;
use xs_io::Sink;
use xs_work::say;

/// The permissions of a file with which others than its owner can read it.
const READ_BY_OTHERS: u32 = 0o044;

/// The most bytes of a password: those of a word of a client that hasn't given it.
const MOST_BYTES: usize = 16_384;

/// Why a file gives no password.
#[derive(Clone, Copy, Debug, PartialEq, Eq, Error)]
pub enum PasswordFault {
    /// It can't be read.
    #[error("it can't be read")]
    Read,
    /// Its first line is empty.
    #[error("its first line is empty")]
    Empty,
    /// No client could give it: its first line is too long.
    #[error("its first line has more than 16384 bytes")]
    Long,
    /// Out of memory.
    #[error("out of memory")]
    Memory,
}

impl From<io::Error> for PasswordFault {
    fn from(error: io::Error) -> Self {
        match error.kind() {
            ErrorKind::OutOfMemory => Self::Memory,
            _ => Self::Read,
        }
    }
}

/// The first line of a text, without its end.
pub fn first_line(text: &[u8]) -> &[u8] {
    let line = match memchr(b'\n', text) {
        Some(end) => &text[..end],
        None => text,
    };
    line.strip_suffix(b"\r").unwrap_or(line)
}

/// The password in a file, which is its first line.
///
/// # Errors
/// A `PasswordFault`.
fn read_password<R: Files + Alloc<A = Global>>(
    rt: &R,
    alloc: Global,
    path: &str,
) -> Result<Password, PasswordFault> {
    let text = fs::read(rt, path)?;
    let line = first_line(text.as_slice());
    if line.is_empty() {
        return Err(PasswordFault::Empty);
    }
    if line.len() > MOST_BYTES {
        return Err(PasswordFault::Long);
    }
    let mut kept = Vec::new(alloc);
    if kept.extend_from_slice(line).is_err() {
        return Err(PasswordFault::Memory);
    }
    Ok(Password::keep(kept))
}

/// Whether others than its owner can read a file.
fn is_read_by_others<R: Files>(rt: &R, path: &str) -> bool {
    match fs::metadata(rt, path) {
        Ok(metadata) => metadata.permissions().mode() & READ_BY_OTHERS != 0,
        Err(_) => false,
    }
}

/// Reports why a file gives no password. Returns the status of the program.
fn report_fault<E: Sink>(alloc: Global, path: &str, fault: PasswordFault, errors: &mut E) -> u8
    ensures { result ≡ 1 }
{
    match format!(in alloc; "xs_server: the password file {path}: {fault}\n") {
        Ok(text) => report_text(errors, text.as_bytes()),
        Err(_) => report_memory(errors),
    }
}

/// Reports that others can read the file of the password. Without memory this isn't reported.
fn report_open<E: Sink>(alloc: Global, path: &str, errors: &mut E) {
    if let Ok(text) = format!(in alloc; "xs_server: others may read the password file {path}\n") {
        say(errors, text.as_bytes());
    }
}

/// The password of `run`, if a file of one is given. If others can read the file, a line on `errors` reports that.
///
/// # Errors
/// The status of the program, 1. The cause was reported on `errors`.
pub fn password_of<R: Files + Alloc<A = Global>, E: Sink>(
    rt: &R,
    alloc: Global,
    file: &Option<String>,
    errors: &mut E,
) -> Result<Option<Password>, u8> {
    let Some(path) = file else {
        return Ok(None);
    };
    let path = path.as_str();
    let password = match read_password(rt, alloc, path) {
        Ok(password) => password,
        Err(fault) => return Err(report_fault(alloc, path, fault, errors)),
    };
    if is_read_by_others(rt, path) {
        report_open(alloc, path, errors);
    }
    Ok(Some(password))
}
