//! What a command works on.

/// All that a command works on, but the yard of a server: the disk, the properties, the input and the
/// output, the random words, the clock and the door.
#[derive(Drop)]
pub struct Given<D, A, S, K, W, C, P> {
    pub disk: D,
    pub acls: A,
    pub input: S,
    pub out: K,
    pub rand: W,
    pub clock: C,
    pub door: P,
}
