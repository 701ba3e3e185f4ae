//! The body of a call that re-encrypts many data encryption keys.
ghost use Rattle.std.specs.Prelude.{◌≡◌, IfOk, IfErr};
ghost use Rattle.serde_json.specs.View.{view, items_view};
ghost use Rattle.kms_json.specs.Bodies as spec;
ghost use Rattle.kms_json.specs.Versions as spec_version;

use crate::faults::{JsonFault, Member};
use crate::members::{needed, needed_bytes, needed_text, parse};
use hk_base::{ByteList, KeyName, VersionName};
use kms_calls::{KmsCall, RawEdek, RawEdekList};
use serde_json::Value;
use std::alloc::Global;

/// Reads the body of a call that re-encrypts many data encryption keys: an array of objects with
/// `versionName`, `iv` and `encryptedKeyVersion`. The last is an object with `versionName`, which is
/// the text `EEK`, and `material`. The elements are checked in order, and in each the members in
/// this order.
pub fn read_batch(alloc: Global, name: KeyName, body: &[u8]) -> Result<KmsCall, JsonFault>
    ensures { spec.IsReadingOf (spec.batch_of name) body.now result }
{
    let value = parse(alloc, body)?;
    batch_of(alloc, name, &value)
}

fn batch_of(alloc: Global, name: KeyName, value: &Value) -> Result<KmsCall, JsonFault>
    ensures ok { IfOk result (λ call. spec.batch_of name (view value.now) ≡ Ok call) }
    ensures err { IfErr result
        (λ e. ¬ (e ≡ JsonFault.NoMemory) → spec.batch_of name (view value.now) ≡ Err e) }
{
    let Some(items) = value.as_array() else {
        return Err(JsonFault::NotJson);
    };
    let sent = elements_of(alloc, items)?;
    Ok(KmsCall::Batch { name, sent })
}

fn elements_of(alloc: Global, items: &Vec<Value>) -> Result<RawEdekList, JsonFault>
    ensures ok { IfOk result (λ sent. spec.elements_of (items_view items.now.items) ≡ Ok sent) }
    ensures err { IfErr result
        (λ e. ¬ (e ≡ JsonFault.NoMemory) → spec.elements_of (items_view items.now.items) ≡ Err e) }
{
    let mut sent = RawEdekList::with_room(alloc, items.len())?;
    for item in items {
        let edek = element_of(alloc, item)?;
        sent.push(edek)?;
    }
    Ok(sent)
}

fn element_of(alloc: Global, value: &Value) -> Result<RawEdek, JsonFault>
    ensures ok { IfOk result (λ edek. spec.element_of (view value.now) ≡ Ok edek) }
    ensures err { IfErr result
        (λ e. ¬ (e ≡ JsonFault.NoMemory) → spec.element_of (view value.now) ≡ Err e) }
{
    if !value.is_object() {
        return Err(JsonFault::BadValue(Member::Element));
    }
    let version = version_in(value)?;
    let iv = needed_bytes(alloc, value, "iv", Member::Iv)?;
    let sealed = sealed_in(alloc, value)?;
    Ok(RawEdek {
        version,
        iv,
        sealed,
    })
}

fn version_in(object: &Value) -> Result<VersionName, JsonFault>
    ensures ok { IfOk result (λ version. spec.version_in (view object.now) ≡ Ok version) }
    ensures err { IfErr result (λ e. spec.version_in (view object.now) ≡ Err e) }
{
    let text = needed_text(object, "versionName", Member::VersionName)?;
    match version_named(text) {
        Some(version) => Ok(version),
        None => Err(JsonFault::BadValue(Member::VersionName)),
    }
}

fn version_named(text: &str) -> Option<VersionName>
    ensures { result ≡ spec_version.version_named text.now }
{
    let Some(version) = VersionName::read(text.as_bytes()) else {
        return None;
    };
    Some(version)
}

/// Returns the sealed bytes of an element.
fn sealed_in(alloc: Global, element: &Value) -> Result<ByteList, JsonFault>
    ensures ok { IfOk result (λ sealed. spec.sealed_in (view element.now) ≡ Ok sealed) }
    ensures err { IfErr result
        (λ e. ¬ (e ≡ JsonFault.NoMemory) → spec.sealed_in (view element.now) ≡ Err e) }
{
    let member = Member::EncryptedKeyVersion;
    let inner = needed(element, "encryptedKeyVersion", member)?;
    if !inner.is_object() {
        return Err(JsonFault::BadValue(member));
    }
    if needed_text(inner, "versionName", Member::VersionName)? != "EEK" {
        return Err(JsonFault::BadValue(Member::VersionName));
    }
    needed_bytes(alloc, inner, "material", Member::Material)
}
