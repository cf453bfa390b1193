//! A log that is spelled here, with checksums made by another program.
use std::alloc::{AllocError, Global};
use xs_bytes::push_decimal;

/// A record of a log.
#[derive(Clone, Copy)]
pub struct Record {
    pub moment: u64,
    pub checksum: u64,
    /// The words of the command as the log has them, separated by spaces.
    pub logged: &'static str,
    /// The same as they were sent.
    pub words: &'static str,
}

impl Record {
    /// A record none of whose bytes is escaped.
    fn new(moment: u64, checksum: u64, words: &'static str) -> Record {
        Record {
            moment,
            checksum,
            logged: words,
            words,
        }
    }
}

/// The records of the log, by their numbers from 0 on.
pub fn record_numbered(number: usize) -> Option<Record> {
    match number {
        0 => Some(Record::new(1000, 2705129566, "XADD s * f v")),
        1 => Some(Record::new(1001, 3772593843, "XGROUP CREATE s g 0")),
        2 => Some(Record::new(1002, 508630627, "XREADGROUP GROUP g a STREAMS s >")),
        3 => Some(Record {
            moment: 1003,
            checksum: 2528001189,
            logged: "XADD s * f a\u{1}\u{1}b\u{1}\u{2}c",
            words: "XADD s * f a\0b\u{1}c",
        }),
        4 => Some(Record::new(1004, 279692975, "XADD s MAXLEN 2 * g w")),
        5 => Some(Record::new(1005, 2920478884, "XREADGROUP GROUP g b COUNT 1 STREAMS s >")),
        6 => Some(Record {
            moment: 1006,
            checksum: 3527629438,
            logged: "XADD s * h \u{1}\u{2}\u{2}",
            words: "XADD s * h \u{1}\u{2}",
        }),
        7 => Some(Record::new(1007, 1031387314, "XREADGROUP GROUP g a STREAMS s >")),
        8 => Some(Record::new(1008, 4271684443, "XCLAIM s g b 0 1003-0 1004-0")),
        9 => Some(Record::new(1009, 4145179784, "XACK s g 1004-0")),
        10 => Some(Record::new(1010, 3274068799, "XDEL s 1006-0")),
        11 => Some(Record::new(1010, 1258505685, "XGROUP DELCONSUMER s g a")),
        12 => Some(Record::new(1011, 327788681, "DEL k")),
        13 => Some(Record::new(
            1012,
            95327314,
            "XADD long * a 1 b 2 c 3 d 4 e 5 f 6 g 7 h 8 i 9",
        )),
        _ => None,
    }
}

/// A log, and the ends of its header and its records.
#[derive(Drop)]
pub struct LogText {
    pub bytes: Vec<u8>,
    pub ends: Vec<usize>,
}

fn push_line(bytes: &mut Vec<u8>, marker: &[u8], number: u64) -> Result<(), AllocError> {
    bytes.extend_from_slice(marker)?;
    push_decimal(bytes, number)?;
    bytes.extend_from_slice(b"\r\n")
}

fn push_word(bytes: &mut Vec<u8>, word: &[u8]) -> Result<(), AllocError> {
    push_line(bytes, b"$", word.len() as u64)?;
    bytes.extend_from_slice(word)?;
    bytes.extend_from_slice(b"\r\n")
}

fn push_number(bytes: &mut Vec<u8>, alloc: Global, number: u64) -> Result<(), AllocError> {
    let mut digits = Vec::new(alloc);
    push_decimal(&mut digits, number)?;
    push_word(bytes, digits.as_slice())
}

fn push_words(bytes: &mut Vec<u8>, words: &str) -> Result<(), AllocError> {
    for word in words.split(' ') {
        push_word(bytes, word.as_bytes())?;
    }
    Ok(())
}

fn words_in(words: &str) -> u64 {
    let mut count = 0u64;
    for _ in words.split(' ') {
        count = count.saturating_add(1);
    }
    count
}

impl LogText {
    /// An empty text.
    pub fn empty(alloc: Global) -> LogText {
        LogText {
            bytes: Vec::new(alloc),
            ends: Vec::new(alloc),
        }
    }

    /// The log with number 1, and all records.
    pub fn new(alloc: Global) -> Result<LogText, AllocError> {
        LogText::with_header(alloc, 2_305_457_928, "2 1 1", 0, usize::MAX)
    }

    /// The log with number 1, and the first `count` records.
    pub fn first(alloc: Global, count: usize) -> Result<LogText, AllocError> {
        LogText::part(alloc, 0, count)
    }

    /// The log with number 1, and the records from `from` on and below `end`.
    pub fn part(alloc: Global, from: usize, end: usize) -> Result<LogText, AllocError> {
        LogText::with_header(alloc, 2_305_457_928, "2 1 1", from, end)
    }

    /// The log with number 2, and the records from `from` on.
    pub fn second(alloc: Global, from: usize) -> Result<LogText, AllocError> {
        LogText::with_header(alloc, 3_180_189_585, "2 2 1", from, usize::MAX)
    }

    /// A header with this checksum and these words, and the records from `from` on and below `end`.
    fn with_header(
        alloc: Global,
        checksum: u64,
        words: &str,
        from: usize,
        end: usize,
    ) -> Result<LogText, AllocError> {
        let mut log = LogText::empty(alloc);
        let mut sent = Vec::new(alloc);
        push_word(&mut sent, b"xs-log")?;
        push_number(&mut sent, alloc, checksum)?;
        push_words(&mut sent, words)?;
        log.push_sized(alloc, 5, sent.as_slice())?;
        for number in from..end {
            let Some(record) = record_numbered(number) else {
                break;
            };
            log.push_record(alloc, record)?;
        }
        Ok(log)
    }

    /// Appends a record with a first word, a checksum, and these words after it as a log has them.
    pub fn push_words(
        &mut self,
        alloc: Global,
        first: &[u8],
        checksum: u64,
        words: &str,
    ) -> Result<(), AllocError> {
        let mut sent = Vec::new(alloc);
        push_word(&mut sent, first)?;
        push_number(&mut sent, alloc, checksum)?;
        push_words(&mut sent, words)?;
        let count = words_in(words).saturating_add(2);
        self.push_sized(alloc, count, sent.as_slice())
    }

    fn push_record(&mut self, alloc: Global, record: Record) -> Result<(), AllocError> {
        let mut sent = Vec::new(alloc);
        push_number(&mut sent, alloc, record.moment)?;
        push_number(&mut sent, alloc, record.checksum)?;
        push_words(&mut sent, record.logged)?;
        let count = words_in(record.logged).saturating_add(2);
        self.push_sized(alloc, count, sent.as_slice())
    }

    /// Appends `count` words, which are spelled here, after their size.
    fn push_sized(&mut self, alloc: Global, count: u64, sent: &[u8]) -> Result<(), AllocError> {
        push_line(&mut self.bytes, b"*", count.saturating_add(1))?;
        push_number(&mut self.bytes, alloc, sent.len() as u64)?;
        self.bytes.extend_from_slice(sent)?;
        self.ends.push(self.bytes.len())?;
        Ok(())
    }
}
