//! The answer to a deposit of a ready key.

/// The answer to a deposit of a data encryption key that was sealed in advance.
#[derive(Clone, Copy, Debug, PartialEq, Eq)]
pub enum Deposit {
    /// The key is the newest ready key of its queue.
    Kept,
    /// The opening, the birth of the key or the version is no longer current. These are the current
    /// ones. The birth and the number are 0 if there is no key with the name.
    Stale {
        opening: u32,
        birth: u64,
        number: u16,
    },
    /// The queue holds as many ready keys as it can, or the key has no queue.
    Full,
}
