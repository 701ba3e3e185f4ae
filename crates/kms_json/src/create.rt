//! The body of a call that creates a key.
ghost use Rattle.std.specs.Prelude.{◌≡◌, IfOk, IfErr};
ghost use Rattle.serde_json.specs.View.{view};
ghost use Rattle.kms_json.specs.Bodies as spec;

use crate::faults::{JsonFault, Member};
use crate::members::{bytes_in, given, needed_text, parse, text_of};
use hk_base::{ByteList, KeyName, Text};
use kms_calls::{Description, KmsCall};
use serde_json::Value;
use std::alloc::Global;

/// Reads the body of a call that creates a key: an object with `name` and the optional members
/// `cipher`, `length` in bits, `material` and `description`, checked in this order. The default
/// length is 128 bits.
pub fn read_create(alloc: Global, body: &[u8]) -> Result<KmsCall, JsonFault>
    ensures { spec.IsReadingOf spec.create_of body.now result }
{
    let value = parse(alloc, body)?;
    create_of(alloc, &value)
}

fn create_of(alloc: Global, value: &Value) -> Result<KmsCall, JsonFault>
    ensures ok { IfOk result (λ call. spec.create_of (view value.now) ≡ Ok call) }
    ensures err { IfErr result
        (λ e. ¬ (e ≡ JsonFault.NoMemory) → spec.create_of (view value.now) ≡ Err e) }
{
    if !value.is_object() {
        return Err(JsonFault::NotJson);
    }
    create_members(alloc, value)
}

fn create_members(alloc: Global, object: &Value) -> Result<KmsCall, JsonFault>
    ensures ok { IfOk result (λ call. spec.create_members (view object.now) ≡ Ok call) }
    ensures err { IfErr result
        (λ e. ¬ (e ≡ JsonFault.NoMemory) → spec.create_members (view object.now) ≡ Err e) }
{
    let name = name_in(object)?;
    cipher_in(object)?;
    let bits = length_in(object)?;
    let material = material_in(alloc, object)?;
    let description = description_in(alloc, object)?;
    Ok(KmsCall::Create {
        name,
        bits,
        material,
        description,
    })
}

/// Returns the name of the key.
pub(crate) fn name_in(object: &Value) -> Result<KeyName, JsonFault>
    ensures ok { IfOk result (λ name. spec.name_in (view object.now) ≡ Ok name) }
    ensures err { IfErr result (λ e. spec.name_in (view object.now) ≡ Err e) }
{
    let text = needed_text(object, "name", Member::Name)?;
    match KeyName::read(text.as_bytes()) {
        Some(name) => Ok(name),
        None => Err(JsonFault::BadValue(Member::Name)),
    }
}

fn cipher_in(object: &Value) -> Result<(), JsonFault>
    ensures ok { IfOk result (λ done. spec.cipher_in (view object.now) ≡ Ok done) }
    ensures err { IfErr result (λ e. spec.cipher_in (view object.now) ≡ Err e) }
{
    let Some(value) = given(object, "cipher") else {
        return Ok(());
    };
    if text_of(value, Member::Cipher)? == "AES/CTR/NoPadding" {
        Ok(())
    } else {
        Err(JsonFault::BadValue(Member::Cipher))
    }
}

fn length_in(object: &Value) -> Result<u64, JsonFault>
    ensures ok { IfOk result (λ bits. spec.length_in (view object.now) ≡ Ok bits) }
    ensures err { IfErr result (λ e. spec.length_in (view object.now) ≡ Err e) }
{
    let Some(value) = given(object, "length") else {
        return Ok(128);
    };
    match value.as_u64() {
        Some(bits) => Ok(bits),
        None => Err(JsonFault::BadValue(Member::Length)),
    }
}

/// Returns the material if there is one.
pub(crate) fn material_in(alloc: Global, object: &Value) -> Result<Option<ByteList>, JsonFault>
    ensures ok { IfOk result (λ material. spec.material_in (view object.now) ≡ Ok material) }
    ensures err { IfErr result
        (λ e. ¬ (e ≡ JsonFault.NoMemory) → spec.material_in (view object.now) ≡ Err e) }
{
    let Some(value) = given(object, "material") else {
        return Ok(None);
    };
    let bytes = bytes_in(alloc, value, Member::Material)?;
    Ok(Some(bytes))
}

fn description_in(alloc: Global, object: &Value) -> Result<Description, JsonFault>
    ensures ok { IfOk result
        (λ description. spec.description_in (view object.now) ≡ Ok description) }
    ensures err { IfErr result
        (λ e. ¬ (e ≡ JsonFault.NoMemory) → spec.description_in (view object.now) ≡ Err e) }
{
    let Some(value) = given(object, "description") else {
        return Ok(Description::empty(alloc));
    };
    let text = text_of(value, Member::Description)?;
    if text.len() > 1024 {
        return Err(JsonFault::BadValue(Member::Description));
    }
    let copy = Text::of(String::from_str(alloc, text)?);
    Ok(Description::of(copy).unwrap())
}
