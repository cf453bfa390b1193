//! Which commands a session answers itself.

ghost use Rattle.std.specs.Prelude.{◌≡◌};
ghost use Rattle.xs_session.specs.Answers.{is_stranger};

use xs_connection::{Password, Standing};

/// Which commands a session answers itself.
#[derive(Drop)]
pub enum Manner {
    /// None. Only the commands of the keyspace are known.
    Plain,
    /// Those of a connection. If there is a password, it is required before anything else.
    Full(Option<Password>),
}

impl Manner {
    /// Whether a password is required that the connection hasn't given.
    pub fn is_stranger(&self, standing: &Standing) -> bool
        ensures { result ≡ is_stranger self.now standing.now }
    {
        match self {
            Manner::Plain => false,
            Manner::Full(_) => !standing.is_allowed,
        }
    }
}
