//! Records that are appended to a log.
ghost use Rattle.std.specs.Prelude.{◌≡◌, ◌≢◌, ◌+◌, ◌≤◌, ◌++◌, false, decimal, length, map, is_err};
ghost use Rattle.xs_resp.specs.Line.{crlf, line};
ghost use Rattle.xs_resp.specs.Grammar.{sent_word, sent_words};
ghost use Rattle.xs_tape.specs.Escape.{escape, escaped};
ghost use Rattle.xs_tape.specs.Records.{CanBeSpelled, record_words, record_text};
ghost use Rattle.xs_tape.specs.Writing.{Puts};

use crate::checksum::checksum_of;
use crate::escape::escaped_len;
use crate::log_writer::LogWriter;
use crate::size::record_size;
use crate::tape::{Tape, TapeFailed};
use itoa::Buffer;
use xs_bytes::Bytes;

/// The most bytes of a line with a number.
const LINE: usize = 32;

impl<T: Tape + Drop> LogWriter<T> {
    /// Puts bytes that aren't escaped, and one that is.
    #[tactic(auto, using(crate::proofs::Escapes::escape_pair))]
    fn put_run(&mut self, run: &[u8], byte: u8) -> Result<(), TapeFailed>
        requires sound { self.old.broken ≡ false }
        requires plain { escaped run.now ≡ run.now }
        requires small { byte ≤ 1 }
        ensures puts { Puts self.old self.new (run.now ++ escape byte) }
        ensures fault { self.new.broken ≡ is_err result }
    {
        self.put(run)?;
        self.put(&[1, byte + 1])
    }

    /// Puts a word as a log has it, byte by byte.
    fn put_bytes(&mut self, word: &[u8]) -> Result<(), TapeFailed>
        requires sound { self.old.broken ≡ false }
        ensures puts { Puts self.old self.new (escaped word.now) }
        ensures fault { self.new.broken ≡ is_err result }
    {
        let mut done: usize = 0;
        for at in 0..word.len() {
            let byte = word[at];
            if byte <= 1 {
                self.put_run(&word[done..at], byte)?;
                done = at + 1;
            }
        }
        self.put(&word[done..])
    }

    /// Gathers the end of a line. There has to be room.
    #[inline(always)]
    fn gather_end(&mut self)
        requires room { length self.old.pending + 2 ≤ 65536 }
        requires sound { self.old.broken ≡ false }
        ensures puts { Puts self.old self.new crlf }
        ensures sound { self.new.broken ≡ false }
    {
        self.gather_byte(b'\r');
        self.gather_byte(b'\n');
    }

    /// Gathers a line with a number. There has to be room.
    #[inline(always)]
    fn gather_line(&mut self, marker: u8, number: usize)
        requires room { length self.old.pending + 32 ≤ 65536 }
        requires sound { self.old.broken ≡ false }
        requires marker { marker ≢ 0 }
        ensures puts { Puts self.old self.new (line marker number) }
        ensures sound { self.new.broken ≡ false }
    {
        let mut buffer = Buffer::new();
        self.gather_byte(marker);
        self.gather(buffer.format(number as u64).as_bytes());
        self.gather_end();
    }

    /// Puts a line with a number.
    fn put_line(&mut self, marker: u8, number: usize) -> Result<(), TapeFailed>
        requires sound { self.old.broken ≡ false }
        requires marker { marker ≢ 0 }
        ensures puts { Puts self.old self.new (line marker number) }
        ensures fault { self.new.broken ≡ is_err result }
    {
        self.make_room(LINE)?;
        self.gather_line(marker, number);
        Ok(())
    }

    /// Puts the end of a line.
    fn put_end(&mut self) -> Result<(), TapeFailed>
        requires sound { self.old.broken ≡ false }
        ensures puts { Puts self.old self.new crlf }
        ensures fault { self.new.broken ≡ is_err result }
    {
        self.make_room(2)?;
        self.gather_end();
        Ok(())
    }

    /// Puts a word as a log has it. It takes `size` bytes there.
    fn put_escaped(&mut self, word: &[u8], size: usize) -> Result<(), TapeFailed>
        requires sound { self.old.broken ≡ false }
        requires size { size ≡ length (escaped word.now) }
        ensures puts { Puts self.old self.new (escaped word.now) }
        ensures fault { self.new.broken ≡ is_err result }
    {
        if size == word.len() {
            return self.put(word);
        }
        self.put_bytes(word)
    }

    /// Puts a word as a request has it.
    fn put_word(&mut self, word: &[u8]) -> Result<(), TapeFailed>
        requires sound { self.old.broken ≡ false }
        ensures puts { Puts self.old self.new (sent_word (escaped word.now)) }
        ensures fault { self.new.broken ≡ is_err result }
    {
        let size = escaped_len(word);
        self.put_line(b'$', size)?;
        self.put_escaped(word, size)?;
        self.put_end()
    }

    /// Puts words, one after the other.
    fn put_words(&mut self, words: &[Bytes]) -> Result<(), TapeFailed>
        requires sound { self.old.broken ≡ false }
        ensures puts { Puts self.old self.new (sent_words (map escaped words.now)) }
        ensures fault { self.new.broken ≡ is_err result }
    {
        for word in words {
            self.put_word(word.as_slice())?;
        }
        Ok(())
    }

    /// Puts the head of a record: the number of its words, and the size of those after the first.
    fn put_head(&mut self, count: usize, size: usize) -> Result<(), TapeFailed>
        requires sound { self.old.broken ≡ false }
        ensures puts { Puts self.old self.new (line 42 count ++ sent_word (decimal size)) }
        ensures fault { self.new.broken ≡ is_err result }
    {
        let mut buffer = Buffer::new();
        self.put_line(b'*', count)?;
        self.put_word(buffer.format(size as u64).as_bytes())
    }

    /// Appends a record: its size, a first word, its checksum, and the words after the first.
    pub fn push(&mut self, first: &[u8], rest: &[Bytes]) -> Result<(), TapeFailed>
        requires sound { self.old.broken ≡ false }
        requires spelled { CanBeSpelled (record_words first.now rest.now) }
        ensures puts { Puts self.old self.new (record_text first.now rest.now) }
        ensures fault { self.new.broken ≡ is_err result }
    {
        let mut buffer = Buffer::new();
        let sum = buffer.format(checksum_of(first, rest) as u64).as_bytes();
        let size = record_size(first, sum, rest);
        self.put_head(rest.len() + 3, size)?;
        self.put_word(first)?;
        self.put_word(sum)?;
        self.put_words(rest)
    }
}
