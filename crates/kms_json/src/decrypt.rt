//! The body of a call that decrypts or re-encrypts an encrypted data encryption key.
ghost use Rattle.std.specs.Prelude.{◌≡◌, IfOk, IfErr};
ghost use Rattle.serde_json.specs.View.{view};
ghost use Rattle.kms_json.specs.Bodies as spec;

use crate::create::name_in;
use crate::eek::EekBody;
use crate::faults::{JsonFault, Member};
use crate::members::{needed_bytes, parse};
use hk_base::VersionName;
use serde_json::Value;
use std::alloc::Global;

/// Reads the body of a call that decrypts or re-encrypts an encrypted data encryption key: an object
/// with `name`, `iv` and `material`, checked in this order. The key version comes from the path of
/// the request. The body does not depend on it.
pub fn read_eek(alloc: Global, _version: VersionName, body: &[u8]) -> Result<EekBody, JsonFault>
    ensures { spec.IsReadingOf spec.eek_of body.now result }
{
    let value = parse(alloc, body)?;
    eek_of(alloc, &value)
}

fn eek_of(alloc: Global, value: &Value) -> Result<EekBody, JsonFault>
    ensures ok { IfOk result (λ eek. spec.eek_of (view value.now) ≡ Ok eek) }
    ensures err { IfErr result
        (λ e. ¬ (e ≡ JsonFault.NoMemory) → spec.eek_of (view value.now) ≡ Err e) }
{
    if !value.is_object() {
        return Err(JsonFault::NotJson);
    }
    let name = name_in(value)?;
    let iv = needed_bytes(alloc, value, "iv", Member::Iv)?;
    let sealed = needed_bytes(alloc, value, "material", Member::Material)?;
    Ok(EekBody { name, iv, sealed })
}
