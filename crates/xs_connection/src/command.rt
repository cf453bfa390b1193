//! The commands of a connection itself, as values.

use xs_bytes::Bytes;

/// A user, if one is given, and its password.
#[derive(Debug, Drop)]
pub struct Login {
    pub user: Option<Bytes>,
    pub password: Bytes,
}

/// The arguments of HELLO.
#[derive(Debug, Drop)]
pub struct HelloCommand {
    pub login: Option<Login>,
    /// A name for the connection.
    pub name: Option<Bytes>,
}

/// A command of a connection itself.
#[derive(Debug, Drop)]
pub enum ConnectionCommand {
    /// HELLO without a protocol, or with RESP2.
    Hello(HelloCommand),
    /// HELLO with another protocol.
    OtherProtocol,
    /// AUTH.
    Auth(Login),
    /// CLIENT SETNAME.
    SetName(Bytes),
    /// CLIENT SETNAME, or HELLO with SETNAME, with a name that isn't valid.
    BadName,
    /// CLIENT GETNAME.
    GetName,
    /// CLIENT ID.
    GetId,
    /// CLIENT LIST.
    List,
    /// A command that is accepted and changes nothing: CLIENT SETINFO, SELECT 0 and UNWATCH.
    Accept,
    /// SELECT of another database.
    OtherDatabase,
    /// ECHO.
    Echo(Bytes),
    /// COMMAND and CONFIG GET, whose replies are empty.
    ListNothing,
    /// RESET.
    Reset,
    /// MULTI.
    Multi,
    /// EXEC.
    Exec,
    /// DISCARD.
    Discard,
    /// INFO, of the sections that the words after it name.
    Info,
}
