//! INFO, whose section of the keyspace comes from the reply to a call.
ghost use Rattle.std.specs.Prelude.{◌≡◌, ◌++◌, ◌∷◌, IfOk};
ghost use Rattle.xs_resp.specs.declared.reply.Reply.{Reply};
ghost use Rattle.xs_session.specs.Information.{is_keyspace_name, names_keyspace, is_info, asks_keys, keyspace_line};
ghost use Rattle.xs_session.specs.Information.{informed};

use itoa::Buffer;
use std::alloc::{AllocError, Global};
use std::marker::Model;
use xs_bytes::{Bytes, U63};
use xs_command::{Word, Words};
use xs_connection::Standing;
use xs_resp::Reply;

/// Whether the section of the keyspace is one of those that this name selects.
fn is_keyspace_name(word: &Word<'_>) -> bool
    ensures { result ≡ is_keyspace_name word.now }
{
    word.is(b"keyspace") || word.is(b"default") || word.is(b"all") || word.is(b"everything")
}

/// Whether these names of sections select that of the keyspace. Without names all sections are selected.
#[tactic(auto, unfolding(xs_command::specs::Words::word))]
pub fn names_keyspace(names: &Words<'_>) -> bool
    ensures { result ≡ names_keyspace names.now }
{
    let mut left = names.again();
    if left.len() == 0 {
        return true;
    }
    while let Ok((word, behind)) = left.word() {
        if is_keyspace_name(&word) {
            return true;
        }
        left = behind;
    }
    false
}

/// Whether words are INFO.
#[tactic(auto, unfolding(xs_command::specs::Words::word))]
pub(crate) fn is_info(words: &Words<'_>) -> bool
    ensures { result ≡ is_info words.now }
{
    match words.word() {
        Ok((first, _)) => first.is(b"info"),
        Err(_) => false,
    }
}

/// Whether words ask the number of keys: they are INFO with the section of the keyspace.
#[tactic(auto, unfolding(xs_command::specs::Words::word))]
pub(crate) fn asks_keys(standing: &Standing, words: &Words<'_>) -> bool
    ensures { result ≡ asks_keys standing.now words.now }
{
    match words.word() {
        Ok((first, names)) => {
            first.is(b"info") && names_keyspace(&names) && !standing.transaction.is_queueing()
        }
        Err(_) => false,
    }
}

/// The room for the line of the keyspace, in bytes. The line is shorter.
const KEYSPACE_LINE_BYTES: usize = 64;

/// The text of INFO before the line of the keyspace, with room for that line. A contract sees the text.
#[derive(Drop)]
pub struct Information {
    text: Vec<u8>,
}

impl Model for Information {
    ghost use Rattle.std.specs.Prelude.{List, ℕ, ◌+◌, ◌≤◌, length};
    ghost use Rattle.std.specs.Prelude.{vec_capacity};

    ghost Value = { List ℕ };

    ghost view = { λ i. i.text.items };

    ghost invariant = { λ i. length i.text.items + 64 ≤ vec_capacity i.text };
}

impl Information {
    /// This text, with room for the line of the keyspace.
    pub fn new(alloc: Global, told: &[u8]) -> Result<Self, AllocError>
        ensures { IfOk result (λ information. information ≡ told.now) }
    {
        let mut text = Vec::with_capacity(alloc, told.len().saturating_add(KEYSPACE_LINE_BYTES))?;
        text.extend_from_slice(told)?;
        Ok(Self { text })
    }

    /// The text with the line of the keyspace for this number of keys; there is none for 0.
    fn with_keys(self, keys: U63) -> Bytes
        ensures { result ≡ self ++ keyspace_line keys }
    {
        let mut text = self.text;
        if keys.get() > 0 {
            let mut digits = Buffer::new();
            let _ = text.extend_from_slice(b"db0:keys=");
            let _ = text.extend_from_slice(digits.format(keys.get()).as_bytes());
            let _ = text.extend_from_slice(b",expires=0,avg_ttl=0\r\n");
        }
        Bytes::new(text)
    }

    /// The answer to INFO, if this is the reply with the number of keys. Any other reply is the answer itself.
    pub fn answer(self, reply: Reply) -> Reply
        ensures { result ≡ informed self reply }
    {
        match reply {
            Reply::Int(keys) => Reply::Bulk(self.with_keys(keys)),
            other => other,
        }
    }
}
