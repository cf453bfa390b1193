//! Removal of parts of bytes.
ghost use Rattle.std.specs.Prelude.{◌≡◌, ◌+◌, ◌-◌, ◌≤◌, ◌++◌, take, drop, vec_len};
ghost use Rattle.std.specs.List.{remove_range};

/// The number of bytes that move at once.
const GAP_BYTES: usize = 512;

/// Removes a part, and gives memory back if less than half of it is left.
pub(crate) fn cut(bytes: &mut Vec<u8>, from: usize, to: usize)
    requires forward { from ≤ to }
    requires inside { to ≤ vec_len bytes.old }
    ensures { bytes.new.items ≡ remove_range bytes.old.items from to }
{
    close_gap(bytes, from, to);
    if bytes.len() < bytes.capacity() / 2 {
        bytes.shrink_to_fit();
    }
}

/// Removes a part. The bytes after it move in pieces, each at once: the library's own calls move byte by byte, or clear
/// a large room on the stack.
fn close_gap(bytes: &mut Vec<u8>, from: usize, to: usize)
    requires forward { from ≤ to }
    requires inside { to ≤ vec_len bytes.old }
    ensures { bytes.new.items ≡ remove_range bytes.old.items from to }
{
    let gap = to - from;
    if gap == 0 {
        return;
    }
    let left = bytes.len() - gap;
    let mut at = from;
    while at < left {
        let piece = GAP_BYTES.min(left - at);
        move_piece(bytes, at, gap, piece);
        at += piece;
    }
    bytes.truncate(left);
}

/// Moves a piece down over a gap before it, by way of the stack.
fn move_piece(bytes: &mut Vec<u8>, at: usize, gap: usize, piece: usize)
    requires short { piece ≤ 512 }
    requires inside { at + gap + piece ≤ vec_len bytes.old }
    ensures { bytes.new.items ≡ take at bytes.old.items
        ++ (take piece (drop (at + gap) bytes.old.items) ++ drop (at + piece) bytes.old.items) }
{
    let mut room = [0; GAP_BYTES];
    let held = &mut room[..piece];
    held.copy_from_slice(&bytes.as_slice()[at + gap..at + gap + piece]);
    bytes.as_mut_slice()[at..at + piece].copy_from_slice(held);
}

/// Removes a part of what begins at `start`, and returns where that begins then. The fewer bytes are moved: those
/// before the part, or those after it.
pub(crate) fn take_out(bytes: &mut Vec<u8>, start: usize, from: usize, to: usize) -> usize
    requires begin { start ≤ from }
    requires forward { from ≤ to }
    requires inside { to ≤ vec_len bytes.old }
    ensures begin { start ≤ result }
    ensures inside { result ≤ vec_len bytes.new }
    ensures front { take start bytes.new.items ≡ take start bytes.old.items }
    ensures rest { drop result bytes.new.items ≡ drop start (remove_range bytes.old.items from to) }
{
    if from - start < bytes.len() - to {
        raise(bytes, start, from, to);
        return start + (to - from);
    }
    close_gap(bytes, from, to);
    start
}

/// Removes a part by moving the bytes before it, from `start` on, up over it.
fn raise(bytes: &mut Vec<u8>, start: usize, from: usize, to: usize)
    requires begin { start ≤ from }
    requires forward { from ≤ to }
    requires inside { to ≤ vec_len bytes.old }
    ensures length { vec_len bytes.new ≡ vec_len bytes.old }
    ensures front { take start bytes.new.items ≡ take start bytes.old.items }
    ensures rest { drop (start + (to - from)) bytes.new.items ≡ drop start (remove_range bytes.old.items from to) }
{
    let gap = to - from;
    if gap == 0 {
        return;
    }
    let mut end = from;
    while start < end {
        let piece = GAP_BYTES.min(end - start);
        end -= piece;
        raise_piece(bytes, end, gap, piece);
    }
}

/// Moves a piece up over a gap after it, by way of the stack.
fn raise_piece(bytes: &mut Vec<u8>, at: usize, gap: usize, piece: usize)
    requires short { piece ≤ 512 }
    requires inside { at + gap + piece ≤ vec_len bytes.old }
    ensures { bytes.new.items ≡ take (at + gap) bytes.old.items
        ++ (take piece (drop at bytes.old.items) ++ drop (at + gap + piece) bytes.old.items) }
{
    let mut room = [0; GAP_BYTES];
    let held = &mut room[..piece];
    held.copy_from_slice(&bytes.as_slice()[at..at + piece]);
    bytes.as_mut_slice()[at + gap..at + gap + piece].copy_from_slice(held);
}
