//! The password of a server, and whether a login is right.
ghost use Rattle.std.specs.Prelude.{◌≡◌, bytes_eq};
ghost use Rattle.xs_connection.specs.Password.{is_default, is_wanted, is_right, is_needless};

use crate::command::Login;
use std::marker::Model;
use xs_bytes::Bytes;

/// The password of a server. It is stored as long as the program runs. A contract sees it as the list of its bytes.
#[derive(Drop)]
pub struct Password {
    text: &'static [u8],
}

impl Model for Password {
    ghost use Rattle.std.specs.Prelude.{List, ℕ};

    ghost Value = { List ℕ };

    ghost view = { λ p. p.text.now };
}

impl Password {
    /// Stores these bytes as a password.
    pub fn keep(text: Vec<u8>) -> Self
        ensures { result ≡ text.items }
    {
        Self { text: text.leak() }
    }

    /// A second handle of the same password. It takes no memory.
    pub fn again(&self) -> Self
        ensures { result ≡ self.now }
    {
        Self { text: self.text }
    }
}

/// Whether two passwords are the same. If their lengths are equal, all bytes are compared, so the time doesn't depend
/// on where the first difference is.
fn is_same(wanted: &[u8], given: &[u8]) -> bool
    ensures { result ≡ bytes_eq wanted.now given.now }
{
    if wanted.len() != given.len() {
        return false;
    }
    let mut same = true;
    for place in 0..given.len() {
        same &= wanted[place] == given[place];
    }
    same
}

/// Whether it is the only user, `default`. No user counts as this one.
fn is_default(user: &Option<Bytes>) -> bool
    ensures { result ≡ is_default user.now }
{
    match user {
        Some(user) => user.as_slice() == b"default".as_slice(),
        None => true,
    }
}

/// Whether it is the password that is required. Any password is right if none is required.
fn is_wanted(wanted: &Option<Password>, given: &Bytes) -> bool
    ensures { result ≡ is_wanted wanted.now given.now }
{
    match wanted {
        Some(wanted) => is_same(wanted.text, given.as_slice()),
        None => true,
    }
}

/// Whether a login is right.
pub fn is_right(wanted: &Option<Password>, login: &Login) -> bool
    ensures { result ≡ is_right wanted.now login.now }
{
    is_default(&login.user) && is_wanted(wanted, &login.password)
}

/// Whether a password is given without a user though none is required.
pub fn is_needless(wanted: &Option<Password>, user: &Option<Bytes>) -> bool
    ensures { result ≡ is_needless wanted.now user.now }
{
    wanted.is_none() && user.is_none()
}
