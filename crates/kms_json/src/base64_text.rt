//! Bytes in base64.
ghost use Rattle.std.specs.Prelude.{◌≡◌, IfOk};
ghost use Rattle.kms_json.specs.Base64.{base64_bytes};
ghost use Rattle.kms_json.specs.declared.base64_text.TextFault.TheVariants as fault;

use base64::DecodeAllocError;
use base64::engine::general_purpose::{STANDARD, STANDARD_NO_PAD, URL_SAFE, URL_SAFE_NO_PAD};
use hk_base::ByteList;
use std::alloc::Global;

/// Why a text can't be decoded.
#[derive(Clone, Copy, Debug, PartialEq, Eq)]
pub(crate) enum TextFault {
    NotBase64,
    OutOfMemory,
}

/// Decodes a text in either alphabet, with or without padding.
pub(crate) fn bytes_of(alloc: Global, text: &str) -> Result<ByteList, TextFault>
    ensures ok { IfOk result (λ bytes. base64_bytes text.now ≡ Some bytes) }
    ensures not_base64 { result ≡ Err fault.NotBase64 → base64_bytes text.now ≡ None }
{
    let text = text.as_bytes();
    match URL_SAFE_NO_PAD.decode(alloc, text) {
        Ok(bytes) => return Ok(ByteList::of(bytes)),
        Err(DecodeAllocError::OutOfMemory) => return Err(TextFault::OutOfMemory),
        Err(_) => {}
    }
    match URL_SAFE.decode(alloc, text) {
        Ok(bytes) => return Ok(ByteList::of(bytes)),
        Err(DecodeAllocError::OutOfMemory) => return Err(TextFault::OutOfMemory),
        Err(_) => {}
    }
    match STANDARD_NO_PAD.decode(alloc, text) {
        Ok(bytes) => return Ok(ByteList::of(bytes)),
        Err(DecodeAllocError::OutOfMemory) => return Err(TextFault::OutOfMemory),
        Err(_) => {}
    }
    match STANDARD.decode(alloc, text) {
        Ok(bytes) => Ok(ByteList::of(bytes)),
        Err(DecodeAllocError::OutOfMemory) => Err(TextFault::OutOfMemory),
        Err(_) => Err(TextFault::NotBase64),
    }
}
