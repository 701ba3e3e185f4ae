//! Numbers in text.
ghost use Rattle.std.specs.Prelude.{◌≡◌, ◌<◌, ◌^◌, ℕ, MatchOption};
ghost use Rattle.std.specs.Fmt.{decimal};

use itoa::Buffer;

/// Parses a decimal number below 2^64, without a sign and without leading zeros. Returns `None` for
/// any other bytes. Does not allocate.
pub fn read_number(bytes: &[u8]) -> Option<u64>
    ensures { MatchOption result ((n : ℕ) → n < 2 ^ 64 → ¬ (bytes.now ≡ decimal n))
        (λ n. (n < 2 ^ 64) × (bytes.now ≡ decimal n)) }
{
    let Ok(text) = str::from_utf8(bytes) else {
        return None;
    };
    let Ok(number) = text.parse::<u64>() else {
        return None;
    };
    let mut buffer = Buffer::new();
    if buffer.format(number) == text {
        Some(number)
    } else {
        None
    }
}
