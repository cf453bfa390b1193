//! A number of bytes, as an option of the command line spells it.

/// The number of bytes that a text spells: a number, with k, m or g after it if it counts 2^10, 2^20 or 2^30 bytes.
/// None if it isn't such a text, or spells 2^64 bytes or more.
pub fn byte_count(text: &str) -> Option<u64> {
    let shift = match text.as_bytes().last()? {
        b'k' | b'K' => 10,
        b'm' | b'M' => 20,
        b'g' | b'G' => 30,
        _ => 0,
    };
    let number = if shift == 0 {
        text
    } else {
        text.get(..text.len() - 1)?
    };
    number.parse::<u64>().ok()?.checked_mul(1 << shift)
}
