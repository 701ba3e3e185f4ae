//! A part of an image, which is told piece by piece: a buffer keeps the bytes from an offset on. It takes
//! no memory.
#![tactic(auto)]

mod pieces;

pub use pieces::{kept, pass, put};
