//! The header of a log.
ghost use Rattle.std.specs.Prelude.{◌≡◌, ◌≢◌, ◌⊎◌, ◌∷◌, [], true, false, codes, decimal, length, OnOk, OnErr, IfErr};
ghost use Rattle.xs_resp.specs.Grammar.{spelling};
ghost use Rattle.xs_log.specs.Fault.{IsWant};
ghost use Rattle.xs_replay.specs.Log.{header_words, model_number};

use crate::fault::LogFault;
use crate::record::{RecordFault, checked_words, is_number, record_of};
use std::alloc::Global;
use xs_bytes::{Bytes, natural};
use xs_resp::Request;

/// The number of the model. It is raised whenever the content after an event, of words that were accepted, changes.
pub const MODEL_NUMBER: u64 = 1;

/// The first word of a log.
pub(crate) const NAME: &[u8] = b"xs-log";

/// The word of the format.
pub(crate) const FORMAT: &[u8] = b"2";

pub(crate) fn is_text(word: &[u8], text: &[u8]) -> bool
    ensures yes { result ≡ true → word.now ≡ text.now }
    ensures no { result ≡ false → word.now ≢ text.now }
{
    word == text
}

/// Checks that the words after the name are those of a log with this number.
fn check_numbers(number: u64, rest: &[Bytes]) -> Result<(), LogFault>
    ensures ok { OnOk result (rest.now ≡ codes "2" ∷ decimal number ∷ decimal model_number ∷ []) }
    ensures err { OnErr result (rest.now ≢ codes "2" ∷ decimal number ∷ decimal model_number ∷ []) }
{
    let [format, log_number, model] = rest else {
        return Err(LogFault::Foreign);
    };
    if !is_text(format.as_slice(), FORMAT) {
        return Err(LogFault::OtherFormat);
    }
    if !is_number(log_number.as_slice(), number) {
        return Err(LogFault::OtherNumber);
    }
    if !is_number(model.as_slice(), MODEL_NUMBER) {
        return Err(LogFault::OtherModel(natural(model.as_slice()).unwrap_or(0)));
    }
    Ok(())
}

/// Why words aren't a header. Those of format 1 begin with the name.
fn fault_of(sent: &Request<'_>) -> LogFault {
    match sent.split_first() {
        Some((word, _)) if is_text(word, NAME) => LogFault::OtherFormat,
        _ => LogFault::Foreign,
    }
}

/// Checks that these words, which take `len` bytes, are the header of the log with this number.
pub(crate) fn check_header(
    alloc: Global,
    number: u64,
    sent: &Request<'_>,
    len: usize,
) -> Result<(), LogFault>
    requires { sent.now ≢ [] → len ≡ length (spelling sent.now) }
    ensures ok { OnOk result (sent.now ≡ header_words number) }
    ensures err { IfErr result (λ fault. IsWant fault ⊎ (sent.now ≢ header_words number)) }
{
    let words = match record_of(alloc, sent, len) {
        Ok(words) => words,
        Err(RecordFault::Memory) => return Err(LogFault::Memory),
        Err(RecordFault::Damaged) => return Err(fault_of(sent)),
    };
    let Some((name, rest)) = checked_words(words.as_slice()) else {
        return Err(LogFault::Foreign);
    };
    if !is_text(name.as_slice(), NAME) {
        return Err(LogFault::Foreign);
    }
    check_numbers(number, rest)
}
