//! The members of a JSON object and their values.
ghost use Rattle.std.specs.Prelude.{◌≡◌, option_map, IfOk, IfErr};
ghost use Rattle.serde_json.specs.Data.{Data};
ghost use Rattle.serde_json.specs.View.{view};
ghost use Rattle.kms_json.specs.Members as spec;
ghost use Rattle.kms_json.specs.Bodies.{IsBody};

use crate::base64_text::{TextFault, bytes_of};
use crate::faults::{JsonFault, Member};
use hk_base::ByteList;
use serde_json::Value;
use std::alloc::Global;

/// Parses a body.
pub(crate) fn parse(alloc: Global, body: &[u8]) -> Result<Value, JsonFault>
    ensures ok { IfOk result (λ value. IsBody body.now (view value)) }
    ensures memory_or_json { IfErr result
        (λ e. ¬ (e ≡ JsonFault.NoMemory) → e ≡ JsonFault.NotJson) }
    ensures not_json { result ≡ Err JsonFault.NotJson → (d : Data) → ¬ IsBody body.now d }
{
    match Value::from_slice(alloc, body) {
        Ok(value) => Ok(value),
        Err(wrong) if wrong.is_memory() => Err(JsonFault::NoMemory),
        Err(_) => Err(JsonFault::NotJson),
    }
}

/// Returns the member of this name. A null counts as absent.
pub(crate) fn given<'v>(object: &'v Value, name: &str) -> Option<&'v Value>
    ensures { option_map (λ v. view v.now) result ≡ spec.given name.now (view object.now) }
{
    let value = object.get(name)?;
    if value.is_null() { None } else { Some(value) }
}

/// Returns the member of this name, or a fault if it is absent.
pub(crate) fn needed<'v>(
    object: &'v Value,
    name: &str,
    member: Member,
) -> Result<&'v Value, JsonFault>
    ensures ok { IfOk result
        (λ v. spec.needed name.now member (view object.now) ≡ Ok (view v.now)) }
    ensures err { IfErr result (λ e. spec.needed name.now member (view object.now) ≡ Err e) }
{
    match given(object, name) {
        Some(value) => Ok(value),
        None => Err(JsonFault::Missing(member)),
    }
}

/// Returns a member's value, which must be a text.
pub(crate) fn text_of(value: &Value, member: Member) -> Result<&str, JsonFault>
    ensures ok { IfOk result (λ text. spec.text_in member (view value.now) ≡ Ok text.now) }
    ensures err { IfErr result (λ e. spec.text_in member (view value.now) ≡ Err e) }
{
    match value.as_str() {
        Some(text) => Ok(text),
        None => Err(JsonFault::BadValue(member)),
    }
}

/// Returns the text of a required member.
pub(crate) fn needed_text<'v>(
    object: &'v Value,
    name: &str,
    member: Member,
) -> Result<&'v str, JsonFault>
    ensures ok { IfOk result
        (λ text. spec.needed_text name.now member (view object.now) ≡ Ok text.now) }
    ensures err { IfErr result (λ e. spec.needed_text name.now member (view object.now) ≡ Err e) }
{
    let value = needed(object, name, member)?;
    text_of(value, member)
}

/// Decodes a member's value, which must be a text in base64.
pub(crate) fn bytes_in(alloc: Global, value: &Value, member: Member) -> Result<ByteList, JsonFault>
    ensures ok { IfOk result (λ bytes. spec.bytes_in member (view value.now) ≡ Ok bytes) }
    ensures err { IfErr result
        (λ e. ¬ (e ≡ JsonFault.NoMemory) → spec.bytes_in member (view value.now) ≡ Err e) }
{
    let text = text_of(value, member)?;
    match bytes_of(alloc, text) {
        Ok(bytes) => Ok(bytes),
        Err(TextFault::NotBase64) => Err(JsonFault::BadBase64(member)),
        Err(TextFault::OutOfMemory) => Err(JsonFault::NoMemory),
    }
}

/// Decodes a required member, which must be a text in base64.
pub(crate) fn needed_bytes(
    alloc: Global,
    object: &Value,
    name: &str,
    member: Member,
) -> Result<ByteList, JsonFault>
    ensures ok { IfOk result
        (λ bytes. spec.needed_bytes name.now member (view object.now) ≡ Ok bytes) }
    ensures err { IfErr result
        (λ e. ¬ (e ≡ JsonFault.NoMemory) →
        spec.needed_bytes name.now member (view object.now) ≡ Err e) }
{
    let value = needed(object, name, member)?;
    bytes_in(alloc, value, member)
}
