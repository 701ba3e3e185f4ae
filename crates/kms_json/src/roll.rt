//! The body of a call that gives a key its next version.
ghost use Rattle.std.specs.Prelude.{◌≡◌, IfOk, IfErr};
ghost use Rattle.serde_json.specs.View.{view};
ghost use Rattle.kms_json.specs.Bodies as spec;

use crate::create::material_in;
use crate::faults::JsonFault;
use crate::members::parse;
use hk_base::KeyName;
use kms_calls::KmsCall;
use serde_json::Value;
use std::alloc::Global;

/// Reads the body of a call that gives a key its next version: an object with an optional
/// `material`. An empty body counts as `{}`.
pub fn read_roll(alloc: Global, name: KeyName, body: &[u8]) -> Result<KmsCall, JsonFault>
    ensures { spec.IsReadingOf (spec.roll_of name) (spec.or_no_members body.now) result }
{
    let body = or_no_members(body);
    let value = parse(alloc, body)?;
    roll_of(alloc, name, &value)
}

fn or_no_members(body: &[u8]) -> &[u8]
    ensures { result.now ≡ spec.or_no_members body.now }
{
    if body.is_empty() { b"{}" } else { body }
}

fn roll_of(alloc: Global, name: KeyName, value: &Value) -> Result<KmsCall, JsonFault>
    ensures ok { IfOk result (λ call. spec.roll_of name (view value.now) ≡ Ok call) }
    ensures err { IfErr result
        (λ e. ¬ (e ≡ JsonFault.NoMemory) → spec.roll_of name (view value.now) ≡ Err e) }
{
    if !value.is_object() {
        return Err(JsonFault::NotJson);
    }
    let material = material_in(alloc, value)?;
    Ok(KmsCall::Roll { name, material })
}
