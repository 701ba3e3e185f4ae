//! Calls that make or take encrypted data encryption keys.
ghost use Rattle.std.specs.Prelude.{◌≡◌, ◌<◌, ◌^◌, ◌∷◌, [], ℕ, List, IfOk, MatchOption, codes, true};
ghost use Rattle.std.specs.Fmt.{decimal};
ghost use Rattle.kms_calls.specs.declared.calls.KmsCall.{KmsCall};
ghost use Rattle.kms_calls.specs.declared.calls.RawEdek.{RawEdek};
ghost use Rattle.replay_text.specs.Events.{SpellsBatch, SpellsCall, SpellsGenerate, SpellsSent, fields_of, takes_edeks};

use crate::fields::{cut, only_field, read_small_number};
use crate::lists::{EdekFields, read_edek, read_edeks};
use hk_base::{KeyName, NoMemory};
use kms_calls::{KmsCall, RawEdek};
use std::alloc::Global;

/// Returns the call on encrypted keys that a verb and its fields spell.
pub fn read_edek_call(alloc: Global, verb: &[u8], rest: &[u8]) -> Result<Option<KmsCall>, NoMemory>
    ensures { IfOk result
        (λ found.
        MatchOption found
        ((call : KmsCall) → takes_edeks call ≡ true →
        ¬ SpellsCall (verb.now ∷ fields_of rest.now) call)
        (SpellsCall (verb.now ∷ fields_of rest.now))) }
{
    if verb == b"generate".as_slice() {
        return Ok(read_generate(rest));
    }
    if verb == b"decrypt".as_slice() {
        return read_decrypt(alloc, rest);
    }
    if verb == b"reencrypt".as_slice() {
        return read_reencrypt(alloc, rest);
    }
    if verb == b"batch".as_slice() {
        return read_batch(alloc, rest);
    }
    Ok(None)
}

/// Reads `generate K N`, from after its verb.
fn read_generate(fields: &[u8]) -> Option<KmsCall>
    ensures { MatchOption result
        ((name : List ℕ) (count : ℕ) →
        ¬ SpellsGenerate (codes "generate" ∷ fields_of fields.now) name count)
        (SpellsCall (codes "generate" ∷ fields_of fields.now)) }
{
    let (name, rest) = cut(fields);
    let Some(rest) = rest else {
        return None;
    };
    let Some(count) = only_field(rest) else {
        return None;
    };
    let Some(name) = KeyName::read(name) else {
        return None;
    };
    let Some(count) = read_small_number(count) else {
        return None;
    };
    Some(KmsCall::Generate { name, count })
}

/// Reads `decrypt V IV H`, from after its verb.
fn read_decrypt(alloc: Global, fields: &[u8]) -> Result<Option<KmsCall>, NoMemory>
    ensures { IfOk result
        (λ found.
        MatchOption found
        ((name : List ℕ) (sent : RawEdek) →
        ¬ SpellsSent (codes "decrypt") (codes "decrypt" ∷ fields_of fields.now) name sent)
        (SpellsCall (codes "decrypt" ∷ fields_of fields.now))) }
{
    let Some(parts) = edek_fields(fields) else {
        return Ok(None);
    };
    let Some(sent) = read_edek(alloc, parts.version, parts.iv, parts.sealed)? else {
        return Ok(None);
    };
    let name = key_of(&sent);
    Ok(Some(KmsCall::Decrypt { name, sent }))
}

/// Reads `reencrypt V IV H`, from after its verb.
fn read_reencrypt(alloc: Global, fields: &[u8]) -> Result<Option<KmsCall>, NoMemory>
    ensures { IfOk result
        (λ found.
        MatchOption found
        ((name : List ℕ) (sent : RawEdek) →
        ¬ SpellsSent (codes "reencrypt") (codes "reencrypt" ∷ fields_of fields.now) name
        sent) (SpellsCall (codes "reencrypt" ∷ fields_of fields.now))) }
{
    let Some(parts) = edek_fields(fields) else {
        return Ok(None);
    };
    let Some(sent) = read_edek(alloc, parts.version, parts.iv, parts.sealed)? else {
        return Ok(None);
    };
    let name = key_of(&sent);
    Ok(Some(KmsCall::Reencrypt { name, sent }))
}

/// Returns the key of the version that sealed it.
fn key_of(sent: &RawEdek) -> KeyName
    ensures { result ≡ sent.now.version.key }
{
    sent.version.key
}

/// Reads the fields `V IV H`.
fn edek_fields(fields: &[u8]) -> Option<EdekFields<'_>>
    ensures { MatchOption result
        ((version iv sealed : List ℕ) → ¬ (fields_of fields.now ≡ version ∷ iv ∷ sealed ∷ []))
        (λ parts. fields_of fields.now ≡ parts.version.now ∷ parts.iv.now ∷ parts.sealed.now ∷ []) }
{
    let (version, rest) = cut(fields);
    let (iv, rest) = cut(rest?);
    let sealed = only_field(rest?)?;
    Some(EdekFields {
        version,
        iv,
        sealed,
    })
}

/// Reads `batch K V:IV:H,V:IV:H`, from after its verb.
fn read_batch(alloc: Global, fields: &[u8]) -> Result<Option<KmsCall>, NoMemory>
    ensures { IfOk result
        (λ found.
        MatchOption found
        ((name : List ℕ) (sent : List RawEdek) →
        ¬ SpellsBatch (codes "batch" ∷ fields_of fields.now) name sent)
        (SpellsCall (codes "batch" ∷ fields_of fields.now))) }
{
    let (name, rest) = cut(fields);
    let Some(rest) = rest else {
        return Ok(None);
    };
    let Some(list) = only_field(rest) else {
        return Ok(None);
    };
    let Some(name) = KeyName::read(name) else {
        return Ok(None);
    };
    let Some(sent) = read_edeks(alloc, list)? else {
        return Ok(None);
    };
    Ok(Some(KmsCall::Batch { name, sent }))
}
