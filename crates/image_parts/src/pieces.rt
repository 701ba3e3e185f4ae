//! Bytes that are told piece by piece, of which a buffer keeps some. It takes no memory.
ghost use Rattle.std.specs.Prelude.{ℕ, List, ◌≡◌, ◌<◌, ◌≤◌, ◌+◌, ◌-◌, ◌^◌, ◌++◌, length, take, drop, nat_lt, slice_index_or, if◌then◌else◌, IfSome, IsSome};
ghost use Rattle.image_parts.specs.Parts.{KeepsPart, kept_byte};

/// Copies the first bytes, as many as there is room for.
fn copy_front(room: &mut [u8], bytes: &[u8])
    ensures length { length room.new ≡ length room.old }
    ensures copied { (i : ℕ) → i < length room.old →
        slice_index_or room.new i 0 ≡
        (if nat_lt i (length bytes.now) then slice_index_or bytes.now i 0
        else slice_index_or room.old i 0) }
{
    let count = room.len().min(bytes.len());
    let (front, _) = room.split_at_mut(count);
    front.copy_from_slice(&bytes[..count]);
}

/// Copies bytes to the place `start` on, as many as there is room for.
fn copy_from(buf: &mut [u8], start: usize, bytes: &[u8])
    requires { start ≤ length buf.old }
    ensures length { length buf.new ≡ length buf.old }
    ensures before { (i : ℕ) → i < start → slice_index_or buf.new i 0 ≡ slice_index_or buf.old i 0 }
    ensures copied { (i : ℕ) → start ≤ i → i < length buf.old →
        slice_index_or buf.new i 0 ≡
        (if nat_lt (i - start) (length bytes.now) then slice_index_or bytes.now (i - start) 0
        else slice_index_or buf.old i 0) }
{
    let (_, room) = buf.split_at_mut(start);
    copy_front(room, bytes);
}

/// Keeps those of the bytes after the first `seen` ones that have a place in the buffer. Its first
/// byte is the one at the offset `at`.
fn keep(buf: &mut [u8], at: u64, seen: u64, bytes: &[u8])
    ensures length { length buf.new ≡ length buf.old }
    ensures kept { (i : ℕ) → i < length buf.old →
        slice_index_or buf.new i 0 ≡ kept_byte at seen bytes.now buf.old i }
{
    let skip = at.saturating_sub(seen);
    let start = seen.saturating_sub(at);
    if skip >= bytes.len() as u64 {
        return;
    }
    if start >= buf.len() as u64 {
        return;
    }
    copy_from(buf, start as usize, &bytes[skip as usize..]);
}

/// Tells the bytes after the first `seen` ones, and returns how many were told: at most the
/// greatest number of 64 bits. The buffer keeps what falls into it, from the offset `at` on.
pub fn put(buf: &mut [u8], at: u64, seen: u64, bytes: &[u8]) -> u64
    ensures length { length buf.new ≡ length buf.old }
    ensures told { (all : List ℕ) → KeepsPart at seen all buf.old →
        KeepsPart at result (all ++ bytes.now) buf.new }
{
    keep(buf, at, seen, bytes);
    seen.saturating_add(bytes.len() as u64)
}

/// Tells `count` bytes after the first `seen` ones without showing them, and returns how many were told: at
/// most the greatest number of 64 bits. Returns `None` if some of them may have a place in the buffer.
pub fn pass(buf: &[u8], at: u64, seen: u64, count: u64) -> Option<u64>
    ensures told { (all more : List ℕ) → KeepsPart at seen all buf.now → length more ≡ count →
        IfSome result (λ told. KeepsPart at told (all ++ more) buf.now) }
    ensures before { seen + count ≤ at → IsSome result }
    ensures after { at + length buf.now ≤ seen → IsSome result }
{
    let end = seen.saturating_add(count);
    if end <= at {
        return Some(end);
    }
    if at.saturating_add(buf.len() as u64) <= seen {
        return Some(end);
    }
    None
}

/// Returns how many bytes at the start of the buffer are bytes of the image, after all of it was told:
/// as many as the image has from the offset `at` on, and the buffer has room for.
pub fn kept(buf: &[u8], at: u64, seen: u64) -> usize
    ensures most { result ≤ length buf.now }
    ensures part { (all : List ℕ) → KeepsPart at seen all buf.now → length all < 2 ^ 64 →
        take result buf.now ≡ take (length buf.now) (drop at all) }
{
    let left = seen.saturating_sub(at);
    left.min(buf.len() as u64) as usize
}
