//! The words of a command of a connection.
ghost use Rattle.std.specs.Prelude.{◌≡◌};
ghost use Rattle.xs_command.specs.Words.{Gives};
ghost use Rattle.xs_connection.specs.Reading.{operand, number, ending};
ghost use Rattle.xs_connection.specs.Hello.{hello, hello_behind, hello_option, has_good_name, auth, is_two};
ghost use Rattle.xs_connection.specs.Others.{select, echo, list_commands, config, config_behind, is_zero};
ghost use Rattle.xs_connection.specs.ConnectionName.{name_of};
ghost use Rattle.xs_connection.specs.Read.{connection_command, command_by_name, first_name, is_greeting};

use crate::command::{ConnectionCommand, HelloCommand, Login};
use crate::read_client::{is_name, read_client};
use std::alloc::Global;
use xs_bytes::Bytes;
use xs_command::{Integer, Options, Refusal, Word, Words, read_options};
use xs_resp::Fault;

/// The name of a command of a connection.
#[derive(Clone, Copy, Debug, PartialEq, Eq)]
pub enum ConnectionName {
    Hello,
    Auth,
    Client,
    Select,
    Echo,
    Command,
    Config,
    Unwatch,
    Reset,
    Multi,
    Exec,
    Discard,
    Info,
}

impl ConnectionName {
    /// The command that a word names, in upper or lower case.
    #[tactic(auto, unfolding(crate::specs::ConnectionName::name_of))]
    pub fn of(word: &Word<'_>) -> Option<Self>
        ensures { result ≡ name_of word.now }
    {
        if word.is(b"hello") {
            Some(Self::Hello)
        } else if word.is(b"auth") {
            Some(Self::Auth)
        } else if word.is(b"client") {
            Some(Self::Client)
        } else if word.is(b"select") {
            Some(Self::Select)
        } else if word.is(b"echo") {
            Some(Self::Echo)
        } else if word.is(b"command") {
            Some(Self::Command)
        } else if word.is(b"config") {
            Some(Self::Config)
        } else if word.is(b"unwatch") {
            Some(Self::Unwatch)
        } else if word.is(b"reset") {
            Some(Self::Reset)
        } else if word.is(b"multi") {
            Some(Self::Multi)
        } else if word.is(b"exec") {
            Some(Self::Exec)
        } else if word.is(b"discard") {
            Some(Self::Discard)
        } else {
            word.is(b"info").then_some(Self::Info)
        }
    }
}

/// Whether words may be sent before a password is given.
#[tactic(auto, unfolding(xs_command::specs::Words::word))]
pub(crate) fn is_greeting(words: &Words<'_>) -> bool
    ensures { result ≡ is_greeting (first_name words.now) }
{
    let Ok((first, _)) = words.word() else {
        return false;
    };
    matches!(
        ConnectionName::of(&first),
        Some(ConnectionName::Hello | ConnectionName::Auth | ConnectionName::Reset)
    )
}

/// The next word, which has to be there.
#[tactic(auto, unfolding(crate::specs::Reading::operand, xs_command::specs::Words::word))]
pub(crate) fn operand<'a>(words: &Words<'a>) -> Result<(Word<'a>, Words<'a>), Fault>
    ensures { result ≡ operand words.now }
{
    match words.word() {
        Ok(read) => Ok(read),
        Err(_) => Err(Fault::Arity),
    }
}

/// The next word, an integer.
#[tactic(auto, unfolding(crate::specs::Reading::number))]
fn number<'a>(words: &Words<'a>) -> Result<(Integer, Words<'a>), Fault>
    ensures { result ≡ number words.now }
{
    let (word, words) = operand(words)?;
    let number = Integer::parse(word.as_slice()).ok_or(Fault::NotInteger)?;
    Ok((number, words))
}

/// The command if no word is left, and else the fault.
#[tactic(auto, unfolding(crate::specs::Reading::ending, xs_command::specs::Words::word))]
pub(crate) fn end(
    words: &Words<'_>,
    fault: Fault,
    command: ConnectionCommand,
) -> Result<ConnectionCommand, Refusal>
    ensures { Gives result (ending fault command words.now) }
{
    match words.word() {
        Ok(_) => Err(Refusal::Said(fault)),
        Err(_) => Ok(command),
    }
}

/// The command that the words spell.
#[tactic(auto, unfolding(crate::specs::Read::connection_command))]
pub fn read_connection_command(
    alloc: Global,
    words: &Words<'_>,
) -> Result<ConnectionCommand, Refusal>
    ensures { Gives result (connection_command words.now) }
{
    let (first, words) = operand(words)?;
    read_named(alloc, ConnectionName::of(&first), &words)
}

/// Reads what follows each name.
fn read_named(
    alloc: Global,
    name: Option<ConnectionName>,
    words: &Words<'_>,
) -> Result<ConnectionCommand, Refusal>
    ensures { Gives result (command_by_name name words.now) }
{
    let Some(name) = name else {
        return Err(Refusal::Said(Fault::UnknownCommand));
    };
    match name {
        ConnectionName::Hello => read_hello(alloc, words),
        ConnectionName::Auth => read_auth(alloc, words),
        ConnectionName::Client => read_client(alloc, words),
        ConnectionName::Select => read_select(words),
        ConnectionName::Echo => read_echo(alloc, words),
        ConnectionName::Command => read_list(words),
        ConnectionName::Config => read_config(words),
        ConnectionName::Unwatch => end(words, Fault::Arity, ConnectionCommand::Accept),
        ConnectionName::Reset => end(words, Fault::Arity, ConnectionCommand::Reset),
        ConnectionName::Multi => end(words, Fault::Arity, ConnectionCommand::Multi),
        ConnectionName::Exec => end(words, Fault::Arity, ConnectionCommand::Exec),
        ConnectionName::Discard => end(words, Fault::Arity, ConnectionCommand::Discard),
        ConnectionName::Info => Ok(ConnectionCommand::Info),
    }
}

impl Options for HelloCommand {
    ghost use Rattle.xs_connection.specs.Hello.{hello_option};

    ghost option = { hello_option };

    /// `AUTH user password` or `SETNAME name`.
    #[tactic(auto, unfolding(crate::specs::Hello::hello_option))]
    fn option<'a>(
        self,
        alloc: Global,
        name: Word<'a>,
        words: Words<'a>,
    ) -> Result<(Self, Option<Words<'a>>), Refusal> {
        if name.is(b"auth") {
            let (user, words) = operand(&words)?;
            let (password, words) = operand(&words)?;
            let login = Some(Login {
                user: Some(user.copy(alloc)?),
                password: password.copy(alloc)?,
            });
            let name = self.name;
            return Ok((Self { login, name }, Some(words)));
        }
        if name.is(b"setname") {
            let (given, words) = operand(&words)?;
            let name = Some(given.copy(alloc)?);
            let login = self.login;
            return Ok((Self { login, name }, Some(words)));
        }
        Ok((self, None))
    }
}

/// `HELLO [protocol { AUTH user password | SETNAME name }]`
#[tactic(auto, unfolding(crate::specs::Hello::hello, xs_command::specs::Words::word))]
fn read_hello(alloc: Global, words: &Words<'_>) -> Result<ConnectionCommand, Refusal>
    ensures { Gives result (hello words.now) }
{
    let none = HelloCommand {
        login: None,
        name: None,
    };
    let Ok((protocol, words)) = words.word() else {
        return Ok(ConnectionCommand::Hello(none));
    };
    let Some(number) = Integer::parse(protocol.as_slice()) else {
        return Err(Refusal::Said(Fault::NotInteger));
    };
    if !is_two(number) {
        return Ok(ConnectionCommand::OtherProtocol);
    }
    let (options, words) = read_options(alloc, none, words)?;
    end(&words, Fault::Syntax, hello_with(options))
}

/// The command with these options. A name that is given has to be valid.
fn hello_with(options: HelloCommand) -> ConnectionCommand
    ensures { result ≡ has_good_name options.name (ConnectionCommand.Hello options) }
{
    match &options.name {
        Some(name) => {
            if is_name(name.as_slice()) {
                ConnectionCommand::Hello(options)
            } else {
                ConnectionCommand::BadName
            }
        }
        None => ConnectionCommand::Hello(options),
    }
}

/// RESP2.
fn is_two(number: Integer) -> bool
    ensures { result ≡ is_two number }
{
    match number {
        Integer::Natural(number) => number.get() == 2,
        Integer::Negative => false,
    }
}

/// `AUTH [user] password`
#[tactic(auto, unfolding(crate::specs::Hello::auth, xs_command::specs::Words::word))]
fn read_auth(alloc: Global, words: &Words<'_>) -> Result<ConnectionCommand, Refusal>
    ensures { Gives result (auth words.now) }
{
    let (first, words) = operand(words)?;
    let first = first.copy(alloc)?;
    let Ok((second, words)) = words.word() else {
        return Ok(ConnectionCommand::Auth(Login {
            user: None,
            password: first,
        }));
    };
    let login = Login {
        user: Some(first),
        password: second.copy(alloc)?,
    };
    end(&words, Fault::Syntax, ConnectionCommand::Auth(login))
}

fn is_zero(number: Integer) -> bool
    ensures { result ≡ is_zero number }
{
    match number {
        Integer::Natural(number) => number.get() == 0,
        Integer::Negative => false,
    }
}

/// `SELECT 0`
#[tactic(auto, unfolding(crate::specs::Others::select))]
fn read_select(words: &Words<'_>) -> Result<ConnectionCommand, Refusal>
    ensures { Gives result (select words.now) }
{
    let (number, words) = number(words)?;
    if is_zero(number) {
        return end(&words, Fault::Arity, ConnectionCommand::Accept);
    }
    end(&words, Fault::Arity, ConnectionCommand::OtherDatabase)
}

/// `ECHO text`
#[tactic(auto, unfolding(crate::specs::Others::echo))]
fn read_echo(alloc: Global, words: &Words<'_>) -> Result<ConnectionCommand, Refusal>
    ensures { Gives result (echo words.now) }
{
    let (text, words) = operand(words)?;
    let text = text.copy(alloc)?;
    end(&words, Fault::Arity, ConnectionCommand::Echo(text))
}

/// `COMMAND` or `COMMAND DOCS ..`
#[tactic(auto, unfolding(crate::specs::Others::list_commands, xs_command::specs::Words::word))]
fn read_list(words: &Words<'_>) -> Result<ConnectionCommand, Refusal>
    ensures { Gives result (list_commands words.now) }
{
    let Ok((sub, _)) = words.word() else {
        return Ok(ConnectionCommand::ListNothing);
    };
    if sub.is(b"docs") {
        return Ok(ConnectionCommand::ListNothing);
    }
    Err(Refusal::Said(Fault::UnknownCommand))
}

/// `CONFIG GET pattern ..`
#[tactic(auto, unfolding(crate::specs::Others::config))]
fn read_config(words: &Words<'_>) -> Result<ConnectionCommand, Refusal>
    ensures { Gives result (config words.now) }
{
    let (sub, words) = operand(words)?;
    if sub.is(b"get") {
        return read_patterns(&words);
    }
    Err(Refusal::Said(Fault::UnknownCommand))
}

/// One pattern or more.
#[tactic(auto, unfolding(crate::specs::Others::config_behind, xs_command::specs::Words::word))]
fn read_patterns(words: &Words<'_>) -> Result<ConnectionCommand, Refusal>
    ensures { Gives result (config_behind words.now) }
{
    match words.word() {
        Ok(_) => Ok(ConnectionCommand::ListNothing),
        Err(_) => Err(Refusal::Said(Fault::Arity)),
    }
}
