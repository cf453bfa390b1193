//! A server of Redis Streams over RESP2. Its command `run` serves connections until it is stopped; its command
//! `compact` makes a snapshot of the closed logs of a folder, once or each time that a compaction is due; its command
//! `serve` serves a number of connections on a port of 127.0.0.1; its command `script` reads a script on standard input
//! and writes the replies on standard output.
#![tactic(auto)]

mod byte_count;
mod command_line;
mod compact_command;
mod compacting;
mod examples;
mod log_threads;
mod logged_command;
mod password_file;
mod report;
mod run_command;
mod script_command;
mod serve_command;
mod version;

use command_line::{Asked, read_command_line};
use compact_command::{compact_and_report, watch_and_report};
use logged_command::{open_logs, run_logged};
use password_file::password_of;
use report::report_memory;
use run_command::run_server;
use script_command::run_and_report;
use serve_command::serve_and_report;
use std::process::ExitCode;
use xs_io::{FromRead, ToWrite};

fn main(rt: HostRuntime) -> ExitCode {
    let mut errors = ToWrite::new(rt.stderr());
    let status = match read_command_line(&rt) {
        Asked::Script => {
            let mut reader = FromRead::new(rt.stdin());
            let mut writer = ToWrite::new(rt.stdout());
            run_and_report(rt.alloc(), &mut reader, &mut writer, &mut errors)
        }
        Asked::Serve(options) => {
            let out = ToWrite::new(rt.stdout());
            serve_and_report(&rt, rt.alloc(), options, out, &mut errors)
        }
        Asked::Run(options) => {
            let out = ToWrite::new(rt.stderr());
            let alloc = rt.alloc();
            let password = password_of(&rt, alloc, &options.password_file, &mut errors);
            match (password, &options.log) {
                (Err(status), _) => status,
                (Ok(password), None) => {
                    run_server(&rt, &rt, &options, &password, out, &mut errors)
                }
                (Ok(password), Some(log)) => {
                    let told = ToWrite::new(rt.stderr());
                    match open_logs(&rt, &rt, log, told, &mut errors) {
                        Ok(opened) => run_logged(
                            &rt,
                            &rt,
                            &options,
                            log,
                            &password,
                            opened,
                            out,
                            &mut errors,
                        ),
                        Err(status) => status,
                    }
                }
            }
        }
        Asked::Compact(options) if options.watches => {
            watch_and_report(&rt, &rt, options.folder.as_str(), &mut errors)
        }
        Asked::Compact(options) => compact_and_report(&rt, options.folder.as_str(), &mut errors),
        Asked::Text => 0,
        Asked::Nothing => 2,
        Asked::Memory => report_memory(&mut errors),
    };
    ExitCode::from(status)
}
