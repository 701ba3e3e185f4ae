//! The key of a body.
use hk_base::{Dek, Iv};

/// The data encryption key of a file, and the initialization vector, with which the counter of its
/// body begins.
#[derive(Clone, Copy)]
pub struct BodyKey {
    pub dek: Dek,
    pub iv: Iv,
}
