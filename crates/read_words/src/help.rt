//! What the help of `read` says of its words in every program.

/// What the first word gives.
pub(crate) const USER: &str = "Who makes the calls, of 1 to 255 bytes";

/// What the third word gives.
pub(crate) const FROM: &str = "First byte of the range, from 0 on";

/// What the last word gives.
pub(crate) const COUNT: &str = "Number of bytes";
