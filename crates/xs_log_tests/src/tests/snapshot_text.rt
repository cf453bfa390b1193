//! A snapshot that is spelled here, with checksums made by another program.
use crate::tests::log_text::LogText;
use std::alloc::{AllocError, Global};

/// The records of the snapshot with number 3, whose last event is at 8: of each its first word, its checksum, and the
/// words after it as the file has them.
const RECORDS: [(&str, u64, &str); 12] = [
    ("xs-snapshot", 3_621_890_662, "1 3 1 8"),
    ("KEY", 3_728_971_747, "j 4 0 1 5 2 7"),
    ("ENTRY", 680_809_078, "1 0 f v f w"),
    (
        "ENTRY",
        1_956_349_236,
        "3 0 a\u{1}\u{1}b\u{1}\u{2}c a-value-that-is-longer-than-thirty-bytes",
    ),
    ("GROUP", 1_677_255_059, "a 0 0"),
    ("GROUP", 4_128_031_383, "w 3 0"),
    ("CONSUMER", 2_184_372_315, "c 40"),
    ("CONSUMER", 2_103_690_066, "d 9223372036854775807"),
    ("ROW", 1_140_074_452, "1 0 d 60 2"),
    ("ROW", 1_100_183_008, "2 7 c 61 9223372036854775807"),
    ("KEY", 2_666_672_724, "s 9 18446744073709551615 0 1 9 9"),
    ("END", 157_549_682, "10"),
];

/// The pieces, as they are printed.
pub const PIECES: [&str; 10] = [
    "Key { name: [106], top: Id { ms: 4, seq: 0 }, added: 18446744073709551621, \
        deleted: Id { ms: 2, seq: 7 } }",
    "Entry { id: Id { ms: 1, seq: 0 }, fields: List { items: \
        [Field { name: [102], value: [118] }, Field { name: [102], value: [119] }] } }",
    "Entry { id: Id { ms: 3, seq: 0 }, fields: List { items: [Field { name: [97, 0, 98, 1, 99], \
        value: [97, 45, 118, 97, 108, 117, 101, 45, 116, 104, 97, 116, 45, 105, 115, 45, 108, 111, \
        110, 103, 101, 114, 45, 116, 104, 97, 110, 45, 116, 104, 105, 114, 116, 121, 45, 98, 121, \
        116, 101, 115] }] } }",
    "Group { name: [97], cursor: Id { ms: 0, seq: 0 } }",
    "Group { name: [119], cursor: Id { ms: 3, seq: 0 } }",
    "Consumer { name: [99], moment: Moment { millis: U63 { value: 40 } } }",
    "Consumer { name: [100], moment: Moment { millis: U63 { value: 9223372036854775807 } } }",
    "Row { id: Id { ms: 1, seq: 0 }, consumer: [100], time: Moment { millis: U63 { value: 60 } }, \
        count: U63 { value: 2 } }",
    "Row { id: Id { ms: 2, seq: 7 }, consumer: [99], time: Moment { millis: U63 { value: 61 } }, \
        count: U63 { value: 9223372036854775807 } }",
    "Key { name: [115], top: Id { ms: 9, seq: 18446744073709551615 }, added: 1, \
        deleted: Id { ms: 9, seq: 9 } }",
];

/// The bytes of the snapshot, and the ends of its records.
pub fn snapshot_text(alloc: Global) -> Result<LogText, AllocError> {
    let mut text = LogText::empty(alloc);
    for (first, checksum, words) in RECORDS {
        text.push_words(alloc, first.as_bytes(), checksum, words)?;
    }
    Ok(text)
}

/// The first `records` records, and an end with `count` pieces and this checksum.
pub fn with_end(
    alloc: Global,
    records: usize,
    checksum: u64,
    count: &str,
) -> Result<LogText, AllocError> {
    let mut text = LogText::empty(alloc);
    for (first, sum, words) in RECORDS.get(..records).unwrap_or(&[]) {
        text.push_words(alloc, first.as_bytes(), *sum, words)?;
    }
    text.push_words(alloc, b"END", checksum, count)?;
    Ok(text)
}
