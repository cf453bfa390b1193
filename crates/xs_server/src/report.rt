//! What the program reports on standard error, and its status.
ghost use Rattle.std.specs.Prelude.{◌≡◌, ◌++◌, true, false, decimal};
ghost use Rattle.xs_server.specs.Report.{status_of, script_fault_text, memory_text, line_text, listening_text};
ghost use Rattle.xs_server.specs.Report.{work_text};
ghost use Rattle.xs_server.specs.Report.{ready_text, ReportsWork};
ghost use Rattle.xs_work.specs.Texts.{Says};

use itoa::Buffer;
use xs_desk::DeskError;
use xs_io::Sink;
use xs_script::ScriptFault;
use xs_work::{WorkFailed, WorkFault, WorkOutcome, say};

/// Writes the line for a script's fault, and ignores a fault of the writer. Returns the status of the program.
pub fn report_script<W: Sink>(errors: &mut W, fault: &ScriptFault) -> u8
    ensures status { result ≡ status_of fault.now }
    ensures said { Says (script_fault_text fault.now) (W.held errors.old) (W.held errors.new) (W.broken errors.new) }
{
    match fault {
        ScriptFault::Line { number, .. } => {
            report_line(errors, *number);
            2
        }
        ScriptFault::Read { .. } => {
            say(errors, b"xs_server: reading failed\n");
            1
        }
        ScriptFault::Write { .. } => {
            say(errors, b"xs_server: writing failed\n");
            1
        }
        ScriptFault::Memory { .. } => report_memory(errors),
    }
}

/// Writes a line. Returns the status of the program.
pub fn report_text<W: Sink>(errors: &mut W, line: &[u8]) -> u8
    ensures status { result ≡ 1 }
    ensures said { Says line.now (W.held errors.old) (W.held errors.new) (W.broken errors.new) }
{
    say(errors, line);
    1
}

/// Writes the line for out of memory. Returns the status of the program.
pub fn report_memory<W: Sink>(errors: &mut W) -> u8
    ensures status { result ≡ 1 }
    ensures said { Says memory_text (W.held errors.old) (W.held errors.new) (W.broken errors.new) }
{
    say(errors, b"xs_server: out of memory\n");
    1
}

/// Writes the line for a port that can't be listened on. Returns the status of the program.
pub fn report_listening<W: Sink>(errors: &mut W) -> u8
    ensures status { result ≡ 1 }
    ensures said { Says listening_text (W.held errors.old) (W.held errors.new) (W.broken errors.new) }
{
    say(errors, b"xs_server: listening failed\n");
    1
}

/// Writes the line for a fault of work, and ignores a fault of the writer. Returns the status of the program.
pub fn report_work<W: Sink>(errors: &mut W, fault: &WorkFault) -> u8
    ensures status { result ≡ 1 }
    ensures said { Says (work_text fault.now) (W.held errors.old) (W.held errors.new) (W.broken errors.new) }
{
    match fault {
        WorkFault::Desk(DeskError::Memory) | WorkFault::Memory => report_memory(errors),
        _ => {
            say(errors, b"xs_server: serving failed\n");
            1
        }
    }
}

/// Returns the status of the program after work: 0 for a summary; else 1, and the line for its fault is written.
pub fn report_worked<W: Sink, G: Drop>(
    errors: &mut W,
    worked: &Result<WorkOutcome<G>, WorkFailed<G>>,
) -> u8
    ensures { ReportsWork (λ failed. failed.fault) worked.now result errors.old errors.new
        (W.held errors.old) (W.held errors.new) (W.broken errors.new) }
{
    match worked {
        Ok(_) => 0,
        Err(failed) => report_work(errors, &failed.fault),
    }
}

/// Writes a number between two texts, up to a fault of the writer.
fn say_number<W: Sink>(out: &mut W, front: &[u8], number: u64, back: &[u8])
    ensures { Says (front.now ++ (decimal number ++ back.now)) (W.held out.old) (W.held out.new) (W.broken out.new) }
{
    let mut digits = Buffer::new();
    let number = digits.format(number).as_bytes();
    if !say(out, front) {
        return;
    }
    if !say(out, number) {
        return;
    }
    say(out, back);
}

/// Writes the port of 127.0.0.1 on which the server listens. A fault of the writer is ignored.
pub fn report_ready<W: Sink>(out: &mut W, port: u16)
    ensures { Says (ready_text port) (W.held out.old) (W.held out.new) (W.broken out.new) }
{
    say_number(out, b"listening 127.0.0.1:", u64::from(port), b"\n");
}

/// Writes that a line is not a script line, up to a fault of the writer.
fn report_line<W: Sink>(errors: &mut W, number: u64)
    ensures { Says (line_text number) (W.held errors.old) (W.held errors.new) (W.broken errors.new) }
{
    say_number(
        errors,
        b"xs_server: line ",
        number,
        b" is not a script line\n",
    );
}
