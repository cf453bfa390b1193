//! Texts after their lengths.
ghost use Rattle.std.specs.Prelude.{◌≡◌, ◌++◌, OnOk, OnErr, IfSome, take, vec_len, length};
ghost use Rattle.xs_stream.specs.PackedText.{text_code, first_text, after_text};

use crate::packed::number::{number_size, push_number, read_wide_number};
use std::alloc::AllocError;

#[tactic(auto, unfolding(crate::specs::PackedText::text_code))]
/// The number of bytes of a text with its length. None if they are too many for a number.
pub(crate) fn text_size(text: &[u8]) -> Option<u64>
    ensures { IfSome result (λ size. size ≡ length (text_code text.now)) }
{
    let len = text.len() as u64;
    number_size(len).checked_add(len)
}

/// Appends a text after its length. If memory runs out, a part may be appended.
#[tactic(auto, unfolding(crate::specs::PackedText::text_code))]
#[inline(always)]
pub(crate) fn push_text(out: &mut Vec<u8>, text: &[u8]) -> Result<(), AllocError>
    ensures ok { OnOk result (out.new.items ≡ out.old.items ++ text_code text.now) }
    ensures err { OnErr result (take (vec_len out.old) out.new.items ≡ out.old.items) }
{
    push_number(out, text.len() as u64)?;
    out.extend_from_slice(text)
}

/// The text that bytes begin with, and the bytes after it.
#[tactic(auto, unfolding(crate::specs::PackedText::first_text, crate::specs::PackedText::after_text, crate::specs::PackedNumber::first_number, crate::specs::PackedNumber::after_number))]
#[inline(always)]
pub(crate) fn read_text(bytes: &[u8]) -> (&[u8], &[u8])
    ensures text { result.0.now ≡ first_text bytes.now }
    ensures rest { result.1.now ≡ after_text bytes.now }
{
    // A short text costs one look at its length.
    if let [len, rest @ ..] = bytes {
        if *len < 253 && usize::from(*len) <= rest.len() {
            return rest.split_at(usize::from(*len));
        }
    }
    read_any_text(bytes)
}

/// Like `read_text`, for any length.
#[tactic(auto, unfolding(crate::specs::PackedText::first_text, crate::specs::PackedText::after_text))]
#[cold]
fn read_any_text(bytes: &[u8]) -> (&[u8], &[u8])
    ensures text { result.0.now ≡ first_text bytes.now }
    ensures rest { result.1.now ≡ after_text bytes.now }
{
    let (len, rest) = read_wide_number(bytes);
    if len >= rest.len() as u64 {
        return (rest, &[]);
    }
    rest.split_at(len as usize)
}
