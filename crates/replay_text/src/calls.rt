//! Calls of event lines: the fields after `kms` and the user.
ghost use Rattle.std.specs.Prelude.{◌≡◌, ◌<◌, ◌^◌, ◌∷◌, [], ℕ, List, IfOk, MatchOption, Option, codes, false, true};
ghost use Rattle.std.specs.Fmt.{decimal};
ghost use Rattle.hk_base.specs.Names.{Version};
ghost use Rattle.kms_calls.specs.declared.calls.KmsCall.{KmsCall};
ghost use Rattle.kms_calls.specs.declared.calls.KmsCall.TheVariants as call;
ghost use Rattle.replay_text.specs.Events.{SpellsCall, SpellsCreate, SpellsMetadatas, SpellsNamed, SpellsRoll, SpellsVersion, fields_of, takes_edeks};

use crate::edeks::read_edek_call;
use crate::fields::{cut, only_field, only_name, read_material, read_small_number};
use crate::lists::read_names;
use hk_base::{KeyName, NoMemory, VersionName};
use kms_calls::{Description, KmsCall};
use std::alloc::Global;

/// Returns the call that the fields after the user spell, or `None` if they spell none.
pub fn read_call(alloc: Global, fields: &[u8]) -> Result<Option<KmsCall>, NoMemory>
    ensures { IfOk result
        (λ found.
        MatchOption found ((call : KmsCall) → ¬ SpellsCall (fields_of fields.now) call)
        (SpellsCall (fields_of fields.now))) }
{
    let (verb, rest) = cut(fields);
    let Some(rest) = rest else {
        return Ok(read_bare_call(verb));
    };
    match read_key_call(alloc, verb, rest)? {
        Some(call) => Ok(Some(call)),
        None => read_edek_call(alloc, verb, rest),
    }
}

/// Returns the call of a verb without fields.
fn read_bare_call(verb: &[u8]) -> Option<KmsCall>
    ensures { MatchOption result (¬ (verb.now ≡ codes "names"))
        (λ found. (verb.now ≡ codes "names") × (found ≡ call.Names)) }
{
    if verb == b"names".as_slice() {
        return Some(KmsCall::Names);
    }
    None
}

/// Returns the call on keys that a verb and its fields spell. Those on encrypted keys are left out.
fn read_key_call(alloc: Global, verb: &[u8], rest: &[u8]) -> Result<Option<KmsCall>, NoMemory>
    ensures { IfOk result
        (λ found.
        MatchOption found
        ((call : KmsCall) → takes_edeks call ≡ false →
        ¬ SpellsCall (verb.now ∷ fields_of rest.now) call)
        (SpellsCall (verb.now ∷ fields_of rest.now))) }
{
    if verb == b"create".as_slice() {
        return read_create(alloc, rest);
    }
    if verb == b"roll".as_slice() {
        return read_roll(alloc, rest);
    }
    if verb == b"delete".as_slice() {
        return Ok(read_delete(rest));
    }
    if verb == b"invalidate".as_slice() {
        return Ok(read_invalidate(rest));
    }
    if verb == b"metadata".as_slice() {
        return Ok(read_metadata(rest));
    }
    if verb == b"metadatas".as_slice() {
        return read_metadatas(alloc, rest);
    }
    if verb == b"current".as_slice() {
        return Ok(read_current(rest));
    }
    if verb == b"versions".as_slice() {
        return Ok(read_versions(rest));
    }
    if verb == b"version".as_slice() {
        return Ok(read_version(rest));
    }
    Ok(None)
}

/// Reads `create K BITS H`, from after its verb.
fn read_create(alloc: Global, fields: &[u8]) -> Result<Option<KmsCall>, NoMemory>
    ensures { IfOk result
        (λ found.
        MatchOption found
        ((name : List ℕ) (bits : ℕ) (material : Option (List ℕ)) (description : List ℕ) →
        ¬ SpellsCreate (codes "create" ∷ fields_of fields.now) name bits material
        description) (SpellsCall (codes "create" ∷ fields_of fields.now))) }
{
    let (name, rest) = cut(fields);
    let Some(rest) = rest else {
        return Ok(None);
    };
    let (bits, rest) = cut(rest);
    let Some(rest) = rest else {
        return Ok(None);
    };
    let Some(material) = only_field(rest) else {
        return Ok(None);
    };
    let Some(name) = KeyName::read(name) else {
        return Ok(None);
    };
    let Some(bits) = read_small_number(bits) else {
        return Ok(None);
    };
    let Some(material) = read_material(alloc, material)? else {
        return Ok(None);
    };
    Ok(Some(KmsCall::Create {
        name,
        bits: bits as u64,
        material,
        description: Description::empty(alloc),
    }))
}

/// Reads `roll K H`, from after its verb.
fn read_roll(alloc: Global, fields: &[u8]) -> Result<Option<KmsCall>, NoMemory>
    ensures { IfOk result
        (λ found.
        MatchOption found
        ((name : List ℕ) (material : Option (List ℕ)) →
        ¬ SpellsRoll (codes "roll" ∷ fields_of fields.now) name material)
        (SpellsCall (codes "roll" ∷ fields_of fields.now))) }
{
    let (name, rest) = cut(fields);
    let Some(rest) = rest else {
        return Ok(None);
    };
    let Some(material) = only_field(rest) else {
        return Ok(None);
    };
    let Some(name) = KeyName::read(name) else {
        return Ok(None);
    };
    let Some(material) = read_material(alloc, material)? else {
        return Ok(None);
    };
    Ok(Some(KmsCall::Roll { name, material }))
}

/// Reads `delete K`, from after its verb.
fn read_delete(fields: &[u8]) -> Option<KmsCall>
    ensures { MatchOption result
        ((name : List ℕ) →
        ¬ SpellsNamed (codes "delete") (codes "delete" ∷ fields_of fields.now) name)
        (SpellsCall (codes "delete" ∷ fields_of fields.now)) }
{
    let Some(name) = only_name(fields) else {
        return None;
    };
    Some(KmsCall::Delete { name })
}

/// Reads `invalidate K`, from after its verb.
fn read_invalidate(fields: &[u8]) -> Option<KmsCall>
    ensures { MatchOption result
        ((name : List ℕ) →
        ¬ SpellsNamed (codes "invalidate") (codes "invalidate" ∷ fields_of fields.now) name)
        (SpellsCall (codes "invalidate" ∷ fields_of fields.now)) }
{
    let Some(name) = only_name(fields) else {
        return None;
    };
    Some(KmsCall::Invalidate { name })
}

/// Reads `metadata K`, from after its verb.
fn read_metadata(fields: &[u8]) -> Option<KmsCall>
    ensures { MatchOption result
        ((name : List ℕ) →
        ¬ SpellsNamed (codes "metadata") (codes "metadata" ∷ fields_of fields.now) name)
        (SpellsCall (codes "metadata" ∷ fields_of fields.now)) }
{
    let Some(name) = only_name(fields) else {
        return None;
    };
    Some(KmsCall::Metadata { name })
}

/// Reads `current K`, from after its verb.
fn read_current(fields: &[u8]) -> Option<KmsCall>
    ensures { MatchOption result
        ((name : List ℕ) →
        ¬ SpellsNamed (codes "current") (codes "current" ∷ fields_of fields.now) name)
        (SpellsCall (codes "current" ∷ fields_of fields.now)) }
{
    let Some(name) = only_name(fields) else {
        return None;
    };
    Some(KmsCall::Current { name })
}

/// Reads `versions K`, from after its verb.
fn read_versions(fields: &[u8]) -> Option<KmsCall>
    ensures { MatchOption result
        ((name : List ℕ) →
        ¬ SpellsNamed (codes "versions") (codes "versions" ∷ fields_of fields.now) name)
        (SpellsCall (codes "versions" ∷ fields_of fields.now)) }
{
    let Some(name) = only_name(fields) else {
        return None;
    };
    Some(KmsCall::Versions { name })
}

/// Reads `metadatas K,K`, from after its verb.
fn read_metadatas(alloc: Global, fields: &[u8]) -> Result<Option<KmsCall>, NoMemory>
    ensures { IfOk result
        (λ found.
        MatchOption found
        ((names : List (List ℕ)) →
        ¬ SpellsMetadatas (codes "metadatas" ∷ fields_of fields.now) names)
        (SpellsCall (codes "metadatas" ∷ fields_of fields.now))) }
{
    let Some(list) = only_field(fields) else {
        return Ok(None);
    };
    let Some(names) = read_names(alloc, list)? else {
        return Ok(None);
    };
    Ok(Some(KmsCall::Metadatas { names }))
}

/// Reads `version V`, from after its verb.
fn read_version(fields: &[u8]) -> Option<KmsCall>
    ensures { MatchOption result
        ((version : Version) → ¬ SpellsVersion (codes "version" ∷ fields_of fields.now) version)
        (SpellsCall (codes "version" ∷ fields_of fields.now)) }
{
    let Some(version) = only_field(fields) else {
        return None;
    };
    let Some(version) = VersionName::read(version) else {
        return None;
    };
    Some(KmsCall::Version { version })
}
