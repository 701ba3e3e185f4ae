//! Copying into the start of a buffer.
ghost use Rattle.std.specs.Prelude.{◌≡◌, min, length, take, drop};

/// Copies bytes from the start of `from` to the start of the buffer, up to the end of the shorter of
/// them. Returns how many.
pub(crate) fn copy_front(from: &[u8], buf: &mut [u8]) -> usize
    ensures count { result ≡ min (length buf.new) (length from.now) }
    ensures front { take result buf.new ≡ take result from.now }
    ensures rest { drop result buf.new ≡ drop result buf.old }
{
    let count = buf.len().min(from.len());
    let (front, _) = buf.split_at_mut(count);
    front.copy_from_slice(&from[..count]);
    count
}
