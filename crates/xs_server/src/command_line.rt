//! The program's command line.
ghost use Rattle.std.specs.Prelude.{◌≡◌, ◌≢◌, ◌⊎◌, map, codes, string_bytes, IfOk, IfErr, IfSome};
ghost use Rattle.clap.specs.Words.{kind_of, found_of};
ghost use Rattle.xs_server.specs.CommandLine.{AsksScript, IsValueOf};

use crate::byte_count::byte_count;
use crate::version::VERSION;
use clap::builder::ValueParser;
use clap::error::{Error, ErrorKind};
use clap::{Arg, ArgAction, ArgMatches, Command, value_parser};
use std::alloc::{AllocError, Global};
use std::convert::AsStr;
use std::io::{Eprint, ErrorKind as IoErrorKind};
use std::net::IpAddr;
use std::str::FromStr;
use xs_files::{CompactPolicy, SyncPolicy};

/// The options of `serve`.
#[derive(Clone, Copy, Debug, PartialEq, Eq)]
pub struct ServeOptions {
    /// The port of 127.0.0.1, from 1 on.
    pub port: u16,
    /// How many connections are served at once, each by a worker of its own, from 1 to 64.
    pub workers: u64,
    /// How many connections a worker serves, one after the other, from 1 to 1000000.
    pub each: u64,
}

/// The log of `run`.
#[derive(Debug, Drop)]
pub struct LogOptions {
    /// The folder of the log's files.
    pub folder: String,
    /// When the log is synced.
    pub policy: SyncPolicy,
    /// When the folder is compacted.
    pub compact: CompactPolicy,
}

/// The options of `run`.
#[derive(Debug, Drop)]
pub struct RunOptions {
    /// The address on which it listens.
    pub bind: IpAddr,
    /// The port, from 1 on.
    pub port: u16,
    /// How many connections are served at once, each by a worker of its own, from 1 to 1024.
    pub workers: u64,
    /// After how many seconds a connection that sends nothing is closed; 0 is never.
    pub idle: u64,
    /// The most bytes that the queues may have when something is added; 0 if there is no bound.
    pub max_memory: u64,
    /// The log, if there is one.
    pub log: Option<LogOptions>,
    /// The file of the password, if one is required.
    pub password_file: Option<String>,
}

/// The options of `compact`.
#[derive(Debug, Drop)]
pub struct CompactOptions {
    /// The folder of the log's files.
    pub folder: String,
    /// Whether it goes on, and compacts each time that a compaction is due.
    pub watches: bool,
}

/// What the command line asks for.
#[derive(Debug, Drop)]
pub enum Asked {
    /// To run the script on standard input.
    Script,
    /// To serve a number of connections.
    Serve(ServeOptions),
    /// To serve connections up to a signal.
    Run(RunOptions),
    /// To compact a folder of logs.
    Compact(CompactOptions),
    /// A text of help, or the version, which is printed.
    Text,
    /// Nothing that the program does. The text that reports this is printed.
    Nothing,
    /// Memory ran out before it was read.
    Memory,
}

const ABOUT: &str = "A server of Redis Streams";

const ABOUT_SCRIPT: &str =
    "Reads a script on standard input and writes the replies on standard output";

const ABOUT_SERVE: &str = "Serves so many connections on a port of 127.0.0.1, and ends";

const ABOUT_RUN: &str = "Serves connections until it is stopped; XREADGROUP with BLOCK waits";

const ABOUT_COMPACT: &str =
    "Makes a snapshot of the closed logs of a folder, which a server may be using, and removes them";

const NO_ADDRESS: &str = "error: the value of --bind is no IPv4 or IPv6 address\n";

const NO_BYTES: &str =
    "error: the value of --max-memory is no number of bytes such as 1500000, 200k, 64m or 2g\n";

const NO_POLICY: &str = "error: the value of --sync is none of always, second and no\n";

const NO_COMPACT_POLICY: &str =
    "error: the value of --compact is none of serving, start and never\n";

const NO_FOLDER: &str = "error: the value of --log is empty\n";

const NO_LOG: &str = "error: --sync says when a log is synced, and there is no --log\n";

const NOTHING_TO_COMPACT: &str =
    "error: --compact says when the folder of a log is compacted, and there is no --log\n";

const NOT_OPEN: &str =
    "error: whoever reaches --bind beyond loopback may do all: add --password-file, or --open if that is meant\n";

/// Whether the words run a script: if they do, there is no error.
fn parse(alloc: Global, words: &[String]) -> Result<(), Error>
    ensures ok { IfOk result (λ _. AsksScript (map (λ word. string_bytes word) words.now)) }
    ensures err { AsksScript (map (λ word. string_bytes word) words.now) → IfErr result
        (λ error. kind_of error ≡ ErrorKind.OutOfMemory) }
{
    let script = Command::new(alloc, "script").about(ABOUT_SCRIPT);
    let program = Command::new(alloc, "xs_server")
        .about(ABOUT)
        .subcommand_required(true)
        .subcommand(script)?;
    match program.try_get_matches_from(words) {
        Ok(_) => Ok(()),
        Err(error) => Err(error),
    }
}

/// An option that is required.
fn number_option<'a>(
    alloc: Global,
    name: &'a str,
    parser: ValueParser<'a>,
    help: &'a str,
) -> Arg<'a> {
    Arg::new(alloc, name)
        .long(name)
        .required(true)
        .value_parser(parser)
        .help(help)
}

/// The command `serve`.
fn serve_command<'a>(alloc: Global) -> Result<Command<'a>, AllocError> {
    let port = value_parser!(u16).range(1..);
    let workers = value_parser!(u64).range(1..=64);
    let each = value_parser!(u64).range(1..=1_000_000);
    Command::new(alloc, "serve")
        .about(ABOUT_SERVE)
        .arg(number_option(alloc, "port", port, "The port, 1 to 65535"))?
        .arg(number_option(
            alloc,
            "workers",
            workers,
            "How many connections are served at once, 1 to 64",
        ))?
        .arg(number_option(
            alloc,
            "each",
            each,
            "How many connections each worker serves before it ends, 1 to 1000000",
        ))
}

/// An option with a default.
fn option_with_default<'a>(
    alloc: Global,
    name: &'a str,
    parser: ValueParser<'a>,
    default: &'a str,
    help: &'a str,
) -> Arg<'a> {
    Arg::new(alloc, name)
        .long(name)
        .default_value(default)
        .allow_negative_numbers(true)
        .value_parser(parser)
        .help(help)
}

/// A command with the options of a log.
fn with_log_options<'a>(alloc: Global, command: Command<'a>) -> Result<Command<'a>, AllocError> {
    let log = Arg::new(alloc, "log").long("log").value_name("FOLDER").help(
        "Keeps all in the files of this folder, which a restart reads",
    );
    let sync = Arg::new(alloc, "sync").long("sync").help(
        "When the log is synced: always before an answer (the default), each second, or no",
    );
    let compact = Arg::new(alloc, "compact").long("compact").help(
        "When the closed logs of the folder are compacted: serving (the default), start, or never",
    );
    command.arg(log)?.arg(sync)?.arg(compact)
}

/// The command `run`.
fn run_command<'a>(alloc: Global) -> Result<Command<'a>, AllocError> {
    let port = value_parser!(u16).range(1..);
    let workers = value_parser!(u64).range(1..=1024);
    let idle = value_parser!(u64).range(0..=1_000_000_000);
    let bind = Arg::new(alloc, "bind")
        .long("bind")
        .default_value("127.0.0.1")
        .help("The address to listen on");
    let max_memory = Arg::new(alloc, "max-memory")
        .long("max-memory")
        .value_name("BYTES")
        .default_value("0")
        .allow_negative_numbers(true)
        .help("Refuses additions beyond so many bytes, such as 64m or 2g; 0 is no bound");
    let password_file = Arg::new(alloc, "password-file")
        .long("password-file")
        .value_name("FILE")
        .help("Clients have to give the first line of this file as their password");
    let open = Arg::new(alloc, "open")
        .long("open")
        .action(ArgAction::SetTrue)
        .help("Lets --bind be an address that others reach without a password");
    let command = Command::new(alloc, "run")
        .about(ABOUT_RUN)
        .arg(option_with_default(alloc, "port", port, "6379", "The port, 1 to 65535"))?
        .arg(bind)?
        .arg(option_with_default(
            alloc,
            "workers",
            workers,
            "64",
            "How many connections are served at once, 1 to 1024",
        ))?
        .arg(option_with_default(
            alloc,
            "idle",
            idle,
            "0",
            "After how many seconds a connection that sends or takes nothing is closed; 0 is never",
        ))?
        .arg(open)?
        .arg(password_file)?
        .arg(max_memory)?;
    with_log_options(alloc, command)
}

/// The command `compact`.
fn compact_command<'a>(alloc: Global) -> Result<Command<'a>, AllocError> {
    let folder = Arg::new(alloc, "folder")
        .value_name("FOLDER")
        .required(true)
        .help("The folder that run --log keeps its log in");
    let watch = Arg::new(alloc, "watch")
        .long("watch")
        .action(ArgAction::SetTrue)
        .help("Goes on until it is ended, and compacts each time that it is due");
    Command::new(alloc, "compact")
        .about(ABOUT_COMPACT)
        .arg(folder)?
        .arg(watch)
}

/// The program with all its commands.
fn whole_program<'a>(alloc: Global) -> Result<Command<'a>, AllocError> {
    Command::new(alloc, "xs_server")
        .about(ABOUT)
        .version(VERSION)
        .subcommand_required(true)
        .subcommand(run_command(alloc)?)?
        .subcommand(compact_command(alloc)?)?
        .subcommand(serve_command(alloc)?)?
        .subcommand(Command::new(alloc, "script").about(ABOUT_SCRIPT))
}

/// The address that `run` listens on, or what is wrong with it.
fn bind_of(matches: &ArgMatches) -> Result<IpAddr, &'static str> {
    let Some(text) = matches.get_str("bind") else {
        return Err(NO_ADDRESS);
    };
    let Ok(address) = text.parse::<IpAddr>() else {
        return Err(NO_ADDRESS);
    };
    let is_guarded = matches.get_str("password-file").is_some();
    if address.is_loopback() || is_guarded || matches.get_flag("open") {
        Ok(address)
    } else {
        Err(NOT_OPEN)
    }
}

/// The most bytes that the queues of `run` may have, or what is wrong with that word.
fn max_memory_of(matches: &ArgMatches) -> Result<u64, &'static str> {
    match matches.get_str("max-memory") {
        Some(text) => byte_count(text).ok_or(NO_BYTES),
        None => Err(NO_BYTES),
    }
}

/// When the log of `run` is synced, or what is wrong with the words for the log.
fn policy_of(matches: &ArgMatches) -> Result<SyncPolicy, &'static str> {
    let folder = matches.get_str("log");
    if matches!(folder, Some("")) {
        return Err(NO_FOLDER);
    }
    match matches.get_str("sync") {
        None => Ok(SyncPolicy::Always),
        Some(_) if folder.is_none() => Err(NO_LOG),
        Some("always") => Ok(SyncPolicy::Always),
        Some("second") => Ok(SyncPolicy::EachSecond),
        Some("no") => Ok(SyncPolicy::Never),
        Some(_) => Err(NO_POLICY),
    }
}

/// When the folder of the log of `run` is compacted, or what is wrong with that word.
fn compact_policy_of(matches: &ArgMatches) -> Result<CompactPolicy, &'static str> {
    match matches.get_str("compact") {
        None => Ok(CompactPolicy::Serving),
        Some(_) if matches.get_str("log").is_none() => Err(NOTHING_TO_COMPACT),
        Some("serving") => Ok(CompactPolicy::Serving),
        Some("start") => Ok(CompactPolicy::Start),
        Some("never") => Ok(CompactPolicy::Never),
        Some(_) => Err(NO_COMPACT_POLICY),
    }
}

/// The log of `run`, if the words after it name one.
fn log_of(
    alloc: Global,
    matches: &ArgMatches,
    policy: SyncPolicy,
    compact: CompactPolicy,
) -> Result<Option<LogOptions>, AllocError> {
    match matches.get_str("log") {
        Some(folder) => Ok(Some(LogOptions {
            folder: String::from_str(alloc, folder)?,
            policy,
            compact,
        })),
        None => Ok(None),
    }
}

/// The file of the password of `run`, if the words after it name one.
fn password_file_of(alloc: Global, matches: &ArgMatches) -> Result<Option<String>, AllocError> {
    match matches.get_str("password-file") {
        Some(path) => Ok(Some(String::from_str(alloc, path)?)),
        None => Ok(None),
    }
}

/// The options of the words after `run`.
fn run_options_of(
    matches: &ArgMatches,
    bind: IpAddr,
    max_memory: u64,
    log: Option<LogOptions>,
    password_file: Option<String>,
) -> Option<RunOptions> {
    Some(RunOptions {
        bind,
        port: matches.get_one::<u16>("port")?,
        workers: matches.get_one::<u64>("workers")?,
        idle: matches.get_one::<u64>("idle")?,
        max_memory,
        log,
        password_file,
    })
}

/// The options of the words after `serve`.
fn options_of(matches: &ArgMatches) -> Option<ServeOptions>
    ensures port { IfSome result (λ options. IsValueOf ⟦<u16 as FromStr>⟧.from_str_gives
        (found_of matches.now) (codes "port") options.port) }
    ensures workers { IfSome result (λ options. IsValueOf ⟦<u64 as FromStr>⟧.from_str_gives
        (found_of matches.now) (codes "workers") options.workers) }
    ensures each { IfSome result (λ options. IsValueOf ⟦<u64 as FromStr>⟧.from_str_gives
        (found_of matches.now) (codes "each") options.each) }
{
    Some(ServeOptions {
        port: matches.get_one::<u16>("port")?,
        workers: matches.get_one::<u64>("workers")?,
        each: matches.get_one::<u64>("each")?,
    })
}

/// What words ask for that don't run a script.
#[derive(Drop)]
enum Others {
    Serve(ServeOptions),
    Run(RunOptions),
    Compact(CompactOptions),
    /// Nothing, and this is why.
    Refused(&'static str),
    Nothing,
}

/// What words ask for that don't run a script, or the text that answers them.
fn parse_others<S: AsStr>(alloc: Global, words: &[S]) -> Result<Others, Error> {
    let program = whole_program(alloc)?;
    let matches = program.try_get_matches_from(words)?;
    if let Some(found) = matches.subcommand_matches("serve") {
        return Ok(match options_of(found) {
            Some(options) => Others::Serve(options),
            None => Others::Nothing,
        });
    }
    if let Some(found) = matches.subcommand_matches("compact") {
        return Ok(match found.get_str("folder") {
            Some(folder) => Others::Compact(CompactOptions {
                folder: String::from_str(alloc, folder)?,
                watches: found.get_flag("watch"),
            }),
            None => Others::Nothing,
        });
    }
    match matches.subcommand_matches("run") {
        Some(found) => parse_run(alloc, found),
        None => Ok(Others::Nothing),
    }
}

/// What the words after `run` ask for.
fn parse_run(alloc: Global, matches: &ArgMatches) -> Result<Others, Error> {
    let bind = match bind_of(matches) {
        Ok(bind) => bind,
        Err(text) => return Ok(Others::Refused(text)),
    };
    let max_memory = match max_memory_of(matches) {
        Ok(bytes) => bytes,
        Err(text) => return Ok(Others::Refused(text)),
    };
    let policy = match policy_of(matches) {
        Ok(policy) => policy,
        Err(text) => return Ok(Others::Refused(text)),
    };
    let compact = match compact_policy_of(matches) {
        Ok(compact) => compact,
        Err(text) => return Ok(Others::Refused(text)),
    };
    let log = log_of(alloc, matches, policy, compact)?;
    let password_file = password_file_of(alloc, matches)?;
    Ok(
        match run_options_of(matches, bind, max_memory, log, password_file) {
            Some(options) => Others::Run(options),
            None => Others::Nothing,
        },
    )
}

/// Parses words; `run help` is the same as `run --help`.
fn parse_with_help(alloc: Global, words: &[String]) -> Result<Others, Error> {
    if let [name, command, last] = words {
        if last.as_str() == "help" && command.as_str() != "help" {
            return parse_others(alloc, &[name.as_str(), command.as_str(), "--help"]);
        }
    }
    parse_others(alloc, words)
}

fn read_others(rt: &HostRuntime, words: &[String]) -> Asked
    ensures { result ≢ Asked.Script }
{
    let error = match parse_with_help(rt.alloc(), words) {
        Ok(Others::Serve(options)) => return Asked::Serve(options),
        Ok(Others::Run(options)) => return Asked::Run(options),
        Ok(Others::Compact(options)) => return Asked::Compact(options),
        Ok(Others::Refused(text)) => {
            let _ = rt.eprint(&text);
            return Asked::Nothing;
        }
        Ok(Others::Nothing) => return Asked::Nothing,
        Err(error) => error,
    };
    if error.kind() == ErrorKind::OutOfMemory {
        return Asked::Memory;
    }
    let _ = error.print(rt);
    if error.use_stderr() {
        Asked::Nothing
    } else {
        Asked::Text
    }
}

/// Reads the words of a command line, the program's name first, and prints on standard error what is wrong with them.
pub fn read_words(rt: &HostRuntime, words: &[String]) -> Asked
    ensures script { result ≡ Asked.Script → AsksScript (map (λ word. string_bytes word) words.now) }
    ensures others { AsksScript (map (λ word. string_bytes word) words.now) → (result ≡ Asked.Script)
        ⊎ (result ≡ Asked.Memory) }
{
    match parse(rt.alloc(), words) {
        Ok(()) => Asked::Script,
        Err(error) => match error.kind() {
            ErrorKind::OutOfMemory => Asked::Memory,
            _ => read_others(rt, words),
        },
    }
}

/// What the words with which the program was called ask for. Words that aren't UTF-8 are a wrong command line.
pub fn read_command_line(rt: &HostRuntime) -> Asked {
    match std::env::args(rt) {
        Ok(words) => match words.collect::<Vec<String>>(rt.alloc()) {
            Ok(words) => read_words(rt, words.as_slice()),
            Err(_) => Asked::Memory,
        },
        Err(error) => {
            if error.kind() == IoErrorKind::OutOfMemory {
                return Asked::Memory;
            }
            let _ = rt.eprint(&"error: an argument is not UTF-8\n");
            Asked::Nothing
        }
    }
}
