//! A script without IO of its own: each of its steps answers a line.
ghost use Rattle.std.specs.Prelude.{◌≡◌, ◌+◌, ◌<◌, ◌≤◌, ℕ, List, length, Err};
ghost use Rattle.xs_io.specs.Device.{counter_at};
ghost use Rattle.xs_script.specs.Cause.{itself, input};
ghost use Rattle.xs_script.specs.ScriptRun.{IsNewScript, IsWaiting, IsWritten, ScriptIsAfter, AfterStep, EndsOnceWritten};

use crate::fault::ScriptFault;
use crate::lines::held::HeldBytes;
use crate::serving::{LineFault, serve_line};
use std::alloc::Global;
use xs_keys::Keyspace;

/// The most bytes of a line, without its LF.
const LINE_LIMIT: usize = 1_048_576;

/// What a script does next.
#[derive(Clone, Copy, Debug, PartialEq, Eq)]
pub enum Next {
    /// It goes on.
    Goes,
    /// It waits for bytes.
    Waits,
    /// It has ended.
    Ends(Result<u64, ScriptFault>),
}

/// A script: the bytes that were read and aren't taken yet, and the unwritten replies.
#[derive(Drop)]
pub struct Script {
    alloc: Global,
    pub held: HeldBytes,
    pub owed: Vec<u8>,
    /// The number of bytes of replies that were written.
    pub written: u64,
    /// The number of lines that were answered.
    pub number: u64,
}

impl Script {
    /// A script before its first byte. It takes no memory.
    pub fn new(alloc: Global) -> Self
        ensures { IsNewScript result }
    {
        Self {
            alloc,
            held: HeldBytes::new(alloc),
            owed: Vec::new(alloc),
            written: 0,
            number: 0,
        }
    }

    /// The number of bytes that are written after all unwritten ones are.
    fn total(&self) -> u64
        ensures { result ≡ counter_at (self.now.written + length self.now.owed.items) }
    {
        self.written.saturating_add(self.owed.len() as u64)
    }

    /// The end if the line in hand is not a script line.
    fn line_error(&self) -> Result<u64, ScriptFault>
        ensures { result ≡ Err (ScriptFault.Line (counter_at (self.now.number + 1))
            (counter_at (self.now.written + length self.now.owed.items))) }
    {
        Err(ScriptFault::Line {
            number: self.number.saturating_add(1),
            written: self.total(),
        })
    }

    /// The end if memory runs out.
    pub fn out_of_memory(&self) -> Result<u64, ScriptFault>
        ensures { result ≡ Err (ScriptFault.Memory (counter_at (self.now.written + length self.now.owed.items))) }
    {
        Err(ScriptFault::Memory {
            written: self.total(),
        })
    }

    /// The end if no more can be read.
    pub fn read_error(&self) -> Result<u64, ScriptFault>
        ensures { result ≡ Err (ScriptFault.Read (counter_at (self.now.written + length self.now.owed.items))) }
    {
        Err(ScriptFault::Read {
            written: self.total(),
        })
    }

    /// The end if the writer fails after `count` of the unwritten bytes.
    pub fn write_error(&self, count: usize) -> Result<u64, ScriptFault>
        ensures { result ≡ Err (ScriptFault.Write (counter_at (self.now.written + count))) }
    {
        Err(ScriptFault::Write {
            written: self.written.saturating_add(count as u64),
        })
    }

    /// Takes the next step: a line is answered, if one is complete.
    pub fn advance(&mut self, keyspace: &mut Keyspace) -> Next
        ensures after { (read sent : List ℕ) → ScriptIsAfter read sent self.old keyspace.old →
            AfterStep result (ScriptIsAfter read sent self.new keyspace.new)
            (λ end. EndsOnceWritten itself end read sent self.new) }
        ensures waits { result ≡ Next.Waits → IsWaiting self.new.held }
        ensures less { result ≡ Next.Goes → length self.new.held < length self.old.held }
        ensures same { length self.new.held ≤ length self.old.held }
    {
        let Some(at) = self.held.line_end() else {
            if self.held.bytes().len() > LINE_LIMIT {
                return Next::Ends(self.line_error());
            }
            return Next::Waits;
        };
        if at > LINE_LIMIT {
            return Next::Ends(self.line_error());
        }
        let line = &self.held.bytes()[..at];
        match serve_line(self.alloc, keyspace, line, &mut self.owed) {
            Ok(()) => {}
            Err(LineFault::NoLine) => return Next::Ends(self.line_error()),
            Err(LineFault::Memory) => return Next::Ends(self.out_of_memory()),
        }
        self.held.consume(at + 1);
        self.number = self.number.saturating_add(1);
        Next::Goes
    }

    /// Ends the script, because the input has ended: the last line may lack its end.
    pub fn end(&mut self, keyspace: &mut Keyspace) -> Result<u64, ScriptFault>
        requires { IsWaiting self.old.held }
        ensures { (read sent : List ℕ) → ScriptIsAfter read sent self.old keyspace.old →
            EndsOnceWritten input result read sent self.new }
    {
        let line = self.held.bytes();
        if line.is_empty() {
            return Ok(self.total());
        }
        match serve_line(self.alloc, keyspace, line, &mut self.owed) {
            Ok(()) => Ok(self.total()),
            Err(LineFault::NoLine) => self.line_error(),
            Err(LineFault::Memory) => self.out_of_memory(),
        }
    }

    /// Notes that all unwritten bytes are written.
    pub fn mark_written(&mut self)
        ensures { IsWritten self.old self.new }
    {
        self.written = self.total();
        self.owed.clear();
    }
}
