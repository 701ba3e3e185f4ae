//! An encrypted data encryption key in a body.
use hk_base::{ByteList, KeyName};

/// An encrypted data encryption key as a body gives it: the name of its key, the initialization
/// vector and the sealed bytes. The latter two have any length.
#[derive(Drop)]
pub struct EekBody {
    pub name: KeyName,
    pub iv: ByteList,
    pub sealed: ByteList,
}
