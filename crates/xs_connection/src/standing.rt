//! The state of a connection, and the replies of the connection itself.
ghost use Rattle.std.specs.Prelude.{◌≡◌, ◌++◌, ◌∷◌, [], List, ℕ, Some, not, is_some, IfOk, OnOk, OnErr};
ghost use Rattle.xs_resp.specs.declared.reply.Reply.TheVariants.{ErrorText, Array};
ghost use Rattle.xs_resp.specs.Token as token;
ghost use Rattle.xs_resp.specs.ReplyItems.{items_of};
ghost use Rattle.xs_connection.specs.Standing.{greeting, name_reply, client_line, with_name, as_new, auth_answer};
ghost use Rattle.xs_connection.specs.Standing.{greet, hello_alone, hello_answer, applied, answer_of, IsAnswered};
ghost use Rattle.xs_connection.specs.Standing.{IsAnsweredStranger, IsQueued, spoilt, is_heard, answer_to_command};

use crate::command::{ConnectionCommand, HelloCommand, Login};
use crate::inform::Inform;
use crate::password::{Password, is_needless, is_right};
use crate::read::{is_greeting, read_connection_command};
use crate::transaction::Transaction;
use crate::unknown::unknown_text;
use std::alloc::{AllocError, Global};
use xs_bytes::{Bytes, List, U63, push_decimal};
use xs_command::{Refusal, Words};
use xs_resp::{Fault, Replies, Reply, Simple, Tokens};

const NO_AUTH: &[u8] = b"NOAUTH Authentication required.";

const NO_HELLO: &[u8] =
    b"NOAUTH HELLO must be called with the client already authenticated, otherwise the HELLO AUTH <user> <pass> option can be used to authenticate the client and select the RESP protocol version at the same time";

const WRONG_PASSWORD: &[u8] = b"WRONGPASS invalid username-password pair or user is disabled.";

const NO_PASSWORD: &[u8] =
    b"ERR AUTH <password> called without any password configured for the default user. Are you sure your configuration is correct?";

const OTHER_PROTOCOL: &[u8] = b"NOPROTO unsupported protocol version";

const OTHER_DATABASE: &[u8] = b"ERR DB index is out of range";

const NOT_QUEUED: &[u8] = b"ERR Command not allowed inside a transaction";

const BAD_NAME: &[u8] = b"ERR Client names cannot contain spaces, newlines or special characters.";

/// The version of Redis that this server reports.
pub const VERSION: &[u8] = b"7.0.15";

/// The state of a connection.
#[derive(Drop)]
pub struct Standing {
    /// Its number.
    pub id: U63,
    /// Its name. It has none if this is empty.
    pub name: Bytes,
    /// Whether it may send any command: it has given the password, or none is required.
    pub is_allowed: bool,
    /// The requests that wait for EXEC.
    pub transaction: Transaction,
}

/// Whether a command is accepted between MULTI and EXEC.
fn is_heard(command: &ConnectionCommand) -> bool
    ensures { result ≡ is_heard command.now }
{
    matches!(
        command,
        ConnectionCommand::Reset
            | ConnectionCommand::Multi
            | ConnectionCommand::Exec
            | ConnectionCommand::Discard
    )
}

/// An error with this text.
fn error(alloc: Global, text: &[u8]) -> Result<Reply, AllocError>
    ensures { IfOk result (λ reply. reply ≡ ErrorText text.now) }
{
    Ok(Reply::ErrorText(Bytes::from_slice(alloc, text)?))
}

/// An empty array.
#[tactic(auto, unfolding(xs_resp::specs::Whole::AreItems))]
fn nothing(alloc: Global) -> Reply
    ensures { result ≡ Array (items_of []) }
{
    Reply::Array(Replies::new(0, Tokens::new(alloc)))
}

/// The text of INFO, if the command is INFO.
fn information_for<I: Inform>(
    alloc: Global,
    inform: &I,
    command: &ConnectionCommand,
    words: &Words<'_>,
) -> Result<Bytes, AllocError> {
    match (command, words.word()) {
        (ConnectionCommand::Info, Ok((_, sections))) => inform.inform(alloc, &sections),
        _ => Ok(Bytes::new(Vec::new(alloc))),
    }
}

/// Appends two strings.
fn push_pair(tokens: &mut Tokens, name: &[u8], value: &[u8]) -> Result<(), AllocError>
    ensures { OnOk result (tokens.new ≡ tokens.old ++ token.Bulk name.now ∷ token.Bulk value.now ∷ []) }
{
    tokens.push_bulk(name)?;
    tokens.push_bulk(value)
}

/// The reply to HELLO.
fn greeting(alloc: Global, id: U63) -> Result<Reply, AllocError>
    ensures { IfOk result (λ reply. reply ≡ Array (items_of (greeting id))) }
{
    let mut tokens = Tokens::with_capacity(alloc, 14)?;
    push_pair(&mut tokens, b"server", b"redis")?;
    push_pair(&mut tokens, b"version", VERSION)?;
    tokens.push_bulk(b"proto")?;
    tokens.push_int(U63::new(2))?;
    tokens.push_bulk(b"id")?;
    tokens.push_int(id)?;
    push_pair(&mut tokens, b"mode", b"standalone")?;
    push_pair(&mut tokens, b"role", b"master")?;
    tokens.push_bulk(b"modules")?;
    tokens.push_array(0)?;
    Ok(Reply::Array(Replies::new(14, tokens)))
}

impl Standing {
    /// A new connection with this number.
    pub fn new(alloc: Global, wanted: &Option<Password>, id: U63) -> Self
        ensures { result ≡ record {
          id = id;
          name = [];
          is_allowed = not (is_some wanted.now);
          transaction = Transaction.Closed;
        } }
    {
        Self {
            id,
            name: Bytes::new(Vec::new(alloc)),
            is_allowed: wanted.is_none(),
            transaction: Transaction::Closed,
        }
    }

    /// Answers words that aren't a command of the keyspace. `wanted` is the password that is required, if any.
    pub fn answer<I: Inform>(
        &mut self,
        alloc: Global,
        wanted: &Option<Password>,
        inform: &I,
        words: &Words<'_>,
    ) -> Reply
        ensures { IsAnswered wanted.now self.old words.now result self.new }
    {
        match self.try_answer(alloc, wanted, inform, words) {
            Ok(reply) => reply,
            Err(AllocError) => self.refuse(Reply::Error(Fault::Memory)),
        }
    }

    /// Refuses a request with this reply: nothing waits for EXEC any more.
    pub fn refuse(&mut self, reply: Reply) -> Reply
        ensures reply { result ≡ reply }
        ensures after { self.new ≡ spoilt self.old }
    {
        self.transaction.spoil();
        reply
    }

    /// Puts the words of a command into the queue for EXEC.
    pub fn enqueue(&mut self, alloc: Global, words: List<Bytes>) -> Reply
        ensures { IsQueued self.old words result self.new }
    {
        match self.transaction.enqueue(alloc, words) {
            Ok(reply) => reply,
            Err(AllocError) => Reply::Error(Fault::Memory),
        }
    }

    /// Answers words before the password is given: only a greeting is accepted.
    pub fn answer_stranger<I: Inform>(
        &mut self,
        alloc: Global,
        wanted: &Option<Password>,
        inform: &I,
        words: &Words<'_>,
    ) -> Reply
        ensures { IsAnsweredStranger wanted.now self.old words.now result self.new }
    {
        if is_greeting(words) {
            return self.answer(alloc, wanted, inform, words);
        }
        match error(alloc, NO_AUTH) {
            Ok(reply) => reply,
            Err(AllocError) => self.refuse(Reply::Error(Fault::Memory)),
        }
    }

    /// Answers words. If memory runs out, nothing changes.
    fn try_answer<I: Inform>(
        &mut self,
        alloc: Global,
        wanted: &Option<Password>,
        inform: &I,
        words: &Words<'_>,
    ) -> Result<Reply, AllocError>
        ensures ok { IfOk result (λ reply.
            (told : List ℕ) × ((reply, self.new) ≡ answer_of wanted.now told self.old words.now)) }
        ensures err { OnErr result (self.new ≡ self.old) }
    {
        match read_connection_command(alloc, words) {
            Ok(command) => {
                let told = information_for(alloc, inform, &command, words)?;
                self.answer_command(alloc, wanted, told, command)
            }
            Err(Refusal::Said(Fault::UnknownCommand)) => {
                let reply = Reply::ErrorText(unknown_text(alloc, words)?);
                Ok(self.refuse(reply))
            }
            Err(Refusal::Said(fault)) => Ok(self.refuse(Reply::Error(fault))),
            Err(Refusal::Memory) => Err(AllocError),
        }
    }

    /// Answers a command; `told` is the text of INFO. Between MULTI and EXEC few commands are accepted.
    fn answer_command(
        &mut self,
        alloc: Global,
        wanted: &Option<Password>,
        told: Bytes,
        command: ConnectionCommand,
    ) -> Result<Reply, AllocError>
        ensures ok { IfOk result (λ reply. (reply, self.new) ≡ answer_to_command wanted.now told self.old command) }
        ensures err { OnErr result (self.new ≡ self.old) }
    {
        if self.transaction.is_queueing() && !is_heard(&command) {
            let reply = error(alloc, NOT_QUEUED)?;
            return Ok(self.refuse(reply));
        }
        self.apply(alloc, wanted, told, command)
    }

    /// Answers a command; `told` is the text of INFO.
    fn apply(
        &mut self,
        alloc: Global,
        wanted: &Option<Password>,
        told: Bytes,
        command: ConnectionCommand,
    ) -> Result<Reply, AllocError>
        ensures ok { IfOk result (λ reply. (reply, self.new) ≡ applied wanted.now told self.old command) }
        ensures err { OnErr result (self.new ≡ self.old) }
    {
        match command {
            ConnectionCommand::Hello(hello) => self.hello(alloc, wanted, hello),
            ConnectionCommand::OtherProtocol => error(alloc, OTHER_PROTOCOL),
            ConnectionCommand::Auth(login) => self.auth(alloc, wanted, &login),
            ConnectionCommand::SetName(name) => {
                self.name = name;
                Ok(Reply::Simple(Simple::Okay))
            }
            ConnectionCommand::BadName => error(alloc, BAD_NAME),
            ConnectionCommand::GetName => self.name_reply(alloc),
            ConnectionCommand::GetId => Ok(Reply::Int(self.id)),
            ConnectionCommand::List => Ok(Reply::Bulk(self.line(alloc)?)),
            ConnectionCommand::Accept => Ok(Reply::Simple(Simple::Okay)),
            ConnectionCommand::OtherDatabase => error(alloc, OTHER_DATABASE),
            ConnectionCommand::Echo(text) => Ok(Reply::Bulk(text)),
            ConnectionCommand::ListNothing => Ok(nothing(alloc)),
            ConnectionCommand::Reset => {
                self.reset(alloc, wanted);
                Ok(Reply::Simple(Simple::Reset))
            }
            ConnectionCommand::Multi => self.transaction.begin(alloc),
            ConnectionCommand::Exec => self.transaction.execute(alloc),
            ConnectionCommand::Discard => self.transaction.discard(alloc),
            ConnectionCommand::Info => Ok(Reply::Bulk(told)),
        }
    }

    /// RESET: the connection is like new.
    fn reset(&mut self, alloc: Global, wanted: &Option<Password>)
        ensures { self.new ≡ as_new wanted.now self.old }
    {
        self.name = Bytes::new(Vec::new(alloc));
        self.is_allowed = wanted.is_none();
        self.transaction = Transaction::Closed;
    }

    /// CLIENT GETNAME.
    fn name_reply(&self, alloc: Global) -> Result<Reply, AllocError>
        ensures { IfOk result (λ reply. reply ≡ name_reply self.now.name) }
    {
        if self.name.len() == 0 {
            return Ok(Reply::NullBulk);
        }
        Ok(Reply::Bulk(Bytes::from_slice(alloc, self.name.as_slice())?))
    }

    /// The line of this connection in CLIENT LIST.
    fn line(&self, alloc: Global) -> Result<Bytes, AllocError>
        ensures { IfOk result (λ line. line ≡ client_line self.now) }
    {
        let mut line = Vec::new(alloc);
        line.extend_from_slice(b"id=")?;
        push_decimal(&mut line, self.id.get())?;
        line.extend_from_slice(b" name=")?;
        line.extend_from_slice(self.name.as_slice())?;
        line.extend_from_slice(b" db=0 user=default resp=2\n")?;
        Ok(Bytes::new(line))
    }

    /// AUTH.
    fn auth(
        &mut self,
        alloc: Global,
        wanted: &Option<Password>,
        login: &Login,
    ) -> Result<Reply, AllocError>
        ensures ok { IfOk result (λ reply. (reply, self.new) ≡ auth_answer wanted.now self.old login.now) }
        ensures err { OnErr result (self.new ≡ self.old) }
    {
        if is_needless(wanted, &login.user) {
            return error(alloc, NO_PASSWORD);
        }
        if !is_right(wanted, login) {
            return error(alloc, WRONG_PASSWORD);
        }
        self.is_allowed = true;
        Ok(Reply::Simple(Simple::Okay))
    }

    /// HELLO.
    fn hello(
        &mut self,
        alloc: Global,
        wanted: &Option<Password>,
        hello: HelloCommand,
    ) -> Result<Reply, AllocError>
        ensures ok { IfOk result (λ reply. (reply, self.new)
            ≡ hello_answer wanted.now self.old hello.login hello.name) }
        ensures err { OnErr result (self.new ≡ self.old) }
    {
        let HelloCommand { login, name } = hello;
        match login {
            Some(login) => self.hello_with(alloc, wanted, &login, name),
            None => self.hello_alone(alloc, name),
        }
    }

    /// HELLO with AUTH.
    fn hello_with(
        &mut self,
        alloc: Global,
        wanted: &Option<Password>,
        login: &Login,
        name: Option<Bytes>,
    ) -> Result<Reply, AllocError>
        ensures ok { IfOk result (λ reply. (reply, self.new)
            ≡ hello_answer wanted.now self.old (Some login.now) name) }
        ensures err { OnErr result (self.new ≡ self.old) }
    {
        if !is_right(wanted, login) {
            return error(alloc, WRONG_PASSWORD);
        }
        self.greet(alloc, name)
    }

    /// HELLO without AUTH, which is only for a connection that is allowed.
    fn hello_alone(&mut self, alloc: Global, name: Option<Bytes>) -> Result<Reply, AllocError>
        ensures ok { IfOk result (λ reply. (reply, self.new) ≡ hello_alone self.old name) }
        ensures err { OnErr result (self.new ≡ self.old) }
    {
        if !self.is_allowed {
            return error(alloc, NO_HELLO);
        }
        self.greet(alloc, name)
    }

    /// HELLO, once its login is right.
    fn greet(&mut self, alloc: Global, name: Option<Bytes>) -> Result<Reply, AllocError>
        ensures ok { IfOk result (λ reply. (reply, self.new) ≡ greet self.old name) }
        ensures err { OnErr result (self.new ≡ self.old) }
    {
        let reply = greeting(alloc, self.id)?;
        self.is_allowed = true;
        if let Some(name) = name {
            self.name = name;
        }
        Ok(reply)
    }
}
