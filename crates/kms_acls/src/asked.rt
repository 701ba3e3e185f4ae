//! The operations that a call requests.
ghost use Rattle.std.specs.Prelude.{◌≡◌};
ghost use Rattle.kms_acls.specs.Verdict.{asked};

use hk_base::KeyName;
use kms_calls::{AclOp, KmsCall};
use std::slice::from_ref;

/// The operations that a call requests, and the keys they are for.
#[derive(Clone, Copy)]
pub struct Asked<'a> {
    /// The operation of the service.
    pub service: AclOp,
    /// Whether the call brings material. It then requests SET_KEY_MATERIAL of the service too.
    pub material: bool,
    /// The operation on each key.
    pub on_keys: AclOp,
    pub keys: &'a [KeyName],
}

fn asks(service: AclOp, material: bool, on_keys: AclOp, keys: &[KeyName]) -> Asked<'_>
    ensures service { result.service ≡ service }
    ensures material { result.material ≡ material }
    ensures on_keys { result.on_keys ≡ on_keys }
    ensures keys { result.keys.now ≡ keys.now }
{
    Asked {
        service,
        material,
        on_keys,
        keys,
    }
}

/// Returns the operations that a call requests. Names requests no operation on keys.
pub fn asked_by(call: &KmsCall) -> Asked<'_>
    ensures service { result.service ≡ (asked call.now).service }
    ensures material { result.material ≡ (asked call.now).material }
    ensures on_keys { result.on_keys ≡ (asked call.now).on_keys }
    ensures keys { result.keys.now ≡ (asked call.now).keys }
{
    use AclOp::*;
    match call {
        KmsCall::Create { name, material, .. } => {
            asks(Create, material.is_some(), Management, from_ref(name))
        }
        KmsCall::Roll { name, material } => {
            asks(Rollover, material.is_some(), Management, from_ref(name))
        }
        KmsCall::Delete { name } => asks(Delete, false, Management, from_ref(name)),
        KmsCall::Invalidate { name } => asks(Rollover, false, Management, from_ref(name)),
        KmsCall::Metadata { name } => asks(GetMetadata, false, Read, from_ref(name)),
        KmsCall::Metadatas { names } => asks(GetMetadata, false, Read, names.as_slice()),
        KmsCall::Names => asks(GetKeys, false, Read, &[]),
        KmsCall::Current { name } => asks(Get, false, Read, from_ref(name)),
        KmsCall::Versions { name } => asks(Get, false, Read, from_ref(name)),
        KmsCall::Version { version } => asks(Get, false, Read, from_ref(&version.key)),
        KmsCall::Generate { name, .. } => asks(GenerateEek, false, GenerateEek, from_ref(name)),
        KmsCall::Decrypt { name, .. } => asks(DecryptEek, false, DecryptEek, from_ref(name)),
        KmsCall::Reencrypt { name, .. } => asks(GenerateEek, false, GenerateEek, from_ref(name)),
        KmsCall::Batch { name, .. } => asks(GenerateEek, false, GenerateEek, from_ref(name)),
    }
}
