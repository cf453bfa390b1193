//! How a connection ends.

/// How a connection ended.
#[derive(Clone, Copy, Debug, PartialEq, Eq)]
pub enum Ending {
    /// The input ended between two requests.
    Closed,
    /// The input ended within a request, which isn't executed.
    Cut,
    /// A QUIT was executed.
    Quit,
    /// The bytes aren't a request, or are more than a client may send before it has given the password. The protocol
    /// error was written.
    Protocol,
}
