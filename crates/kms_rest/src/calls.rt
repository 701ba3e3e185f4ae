//! The call of an operation, from the variable part of its path, its query and its body.
ghost use Rattle.std.specs.Prelude.{◌≡◌, ◌≢◌, [], ℕ, List, Err, MatchOption};
ghost use Rattle.kms_calls.specs.declared.calls.KmsCall.TheVariants as call;
ghost use Rattle.path_routes.specs.declared.query.Parameter.{Parameter};
ghost use Rattle.kms_rest.specs.Calls as spec;
ghost use Rattle.kms_rest.specs.declared.operation.Operation.TheVariants as op;

use crate::faults::RestFault;
use crate::operation::Operation;
use crate::query::{count, has_operation, key_names};
use hk_base::{KeyName, NoMemory, VersionName};
use kms_calls::{KmsCall, NameList, RawEdek};
use kms_json::{EekBody, JsonFault, read_batch, read_create, read_eek, read_roll};
use path_routes::Query;
use std::alloc::Global;

/// Returns the call of an operation. `name` is the variable part of its path, percent-decoded.
pub(crate) fn read_call(
    alloc: Global,
    operation: Operation,
    name: &[u8],
    query: &Query,
    body: &[u8],
) -> Result<KmsCall, RestFault>
    ensures { spec.SaysCall operation name.now query.now body.now result }
{
    match operation {
        Operation::Create => create(alloc, body),
        Operation::Roll => roll(alloc, name, body),
        Operation::Delete => delete(name),
        Operation::Invalidate => invalidate(name),
        Operation::Metadata => metadata(name),
        Operation::Current => current(name),
        Operation::Versions => versions(name),
        Operation::Generate => generate(name, query),
        Operation::Batch => batch(alloc, name, body),
        Operation::Version => version(name),
        Operation::Eek => eek(alloc, name, query, body),
        Operation::Names => Ok(KmsCall::Names),
        Operation::Metadatas => metadatas(alloc, query),
    }
}

/// Returns the fault of a request whose body has this fault.
fn fault_of(why: JsonFault) -> RestFault
    ensures { result ≡ spec.fault_of why }
{
    match why {
        JsonFault::NoMemory => RestFault::NoMemory,
        _ => RestFault::BadRequest,
    }
}

fn create(alloc: Global, body: &[u8]) -> Result<KmsCall, RestFault>
    ensures { (name : List ℕ) (ps : List Parameter) →
        spec.SaysCall op.Create name ps body.now result }
{
    match read_create(alloc, body) {
        Ok(call) => Ok(call),
        Err(why) => Err(fault_of(why)),
    }
}

fn roll(alloc: Global, name: &[u8], body: &[u8]) -> Result<KmsCall, RestFault>
    ensures { (ps : List Parameter) → spec.SaysCall op.Roll name.now ps body.now result }
{
    let Some(name) = KeyName::read(name) else {
        return Err(RestFault::BadRequest);
    };
    match read_roll(alloc, name, body) {
        Ok(call) => Ok(call),
        Err(why) => Err(fault_of(why)),
    }
}

fn batch(alloc: Global, name: &[u8], body: &[u8]) -> Result<KmsCall, RestFault>
    ensures { (ps : List Parameter) → spec.SaysCall op.Batch name.now ps body.now result }
{
    let Some(name) = KeyName::read(name) else {
        return Err(RestFault::BadRequest);
    };
    match read_batch(alloc, name, body) {
        Ok(call) => Ok(call),
        Err(why) => Err(fault_of(why)),
    }
}

fn delete(name: &[u8]) -> Result<KmsCall, RestFault>
    ensures { (ps : List Parameter) (body : List ℕ) →
        spec.SaysCall op.Delete name.now ps body result }
{
    match KeyName::read(name) {
        Some(name) => Ok(KmsCall::Delete { name }),
        None => Err(RestFault::BadRequest),
    }
}

fn invalidate(name: &[u8]) -> Result<KmsCall, RestFault>
    ensures { (ps : List Parameter) (body : List ℕ) →
        spec.SaysCall op.Invalidate name.now ps body result }
{
    match KeyName::read(name) {
        Some(name) => Ok(KmsCall::Invalidate { name }),
        None => Err(RestFault::BadRequest),
    }
}

fn metadata(name: &[u8]) -> Result<KmsCall, RestFault>
    ensures { (ps : List Parameter) (body : List ℕ) →
        spec.SaysCall op.Metadata name.now ps body result }
{
    match KeyName::read(name) {
        Some(name) => Ok(KmsCall::Metadata { name }),
        None => Err(RestFault::BadRequest),
    }
}

fn current(name: &[u8]) -> Result<KmsCall, RestFault>
    ensures { (ps : List Parameter) (body : List ℕ) →
        spec.SaysCall op.Current name.now ps body result }
{
    match KeyName::read(name) {
        Some(name) => Ok(KmsCall::Current { name }),
        None => Err(RestFault::BadRequest),
    }
}

fn versions(name: &[u8]) -> Result<KmsCall, RestFault>
    ensures { (ps : List Parameter) (body : List ℕ) →
        spec.SaysCall op.Versions name.now ps body result }
{
    match KeyName::read(name) {
        Some(name) => Ok(KmsCall::Versions { name }),
        None => Err(RestFault::BadRequest),
    }
}

fn version(name: &[u8]) -> Result<KmsCall, RestFault>
    ensures { (ps : List Parameter) (body : List ℕ) →
        spec.SaysCall op.Version name.now ps body result }
{
    match version_named(name) {
        Some(version) => Ok(KmsCall::Version { version }),
        None => Err(RestFault::BadRequest),
    }
}

fn version_named(text: &[u8]) -> Option<VersionName>
    ensures { MatchOption result (spec.NamesNoVersion text.now) (spec.NamesVersion text.now) }
{
    let Some(version) = VersionName::read(text) else {
        return None;
    };
    // Reading the number makes its bound known: it is below 65,536.
    let _number = version.number;
    Some(version)
}

fn generate(name: &[u8], query: &Query) -> Result<KmsCall, RestFault>
    ensures { (body : List ℕ) → spec.SaysCall op.Generate name.now query.now body result }
{
    let Some(name) = KeyName::read(name) else {
        return Err(RestFault::BadRequest);
    };
    if !has_operation(query, b"generate") {
        return Err(RestFault::BadRequest);
    }
    match count(query) {
        Some(count) => Ok(KmsCall::Generate { name, count }),
        None => Err(RestFault::BadRequest),
    }
}

/// What to do with an encrypted key.
#[derive(Clone, Copy, Debug, PartialEq, Eq)]
enum EekOperation {
    Decrypt,
    Reencrypt,
}

fn eek_operation(query: &Query) -> Option<EekOperation>
    ensures { spec.IsEekOperation (spec.operation_values query.now) result }
{
    if has_operation(query, b"decrypt") {
        return Some(EekOperation::Decrypt);
    }
    if has_operation(query, b"reencrypt") {
        return Some(EekOperation::Reencrypt);
    }
    None
}

fn eek(alloc: Global, name: &[u8], query: &Query, body: &[u8]) -> Result<KmsCall, RestFault>
    ensures { spec.SaysCall op.Eek name.now query.now body.now result }
{
    let Some(version) = version_named(name) else {
        return Err(RestFault::BadRequest);
    };
    let Some(operation) = eek_operation(query) else {
        return Err(RestFault::BadRequest);
    };
    match read_eek(alloc, version, body) {
        Ok(eek) => Ok(eek_call(operation, version, eek)),
        Err(why) => Err(fault_of(why)),
    }
}

fn eek_call(operation: EekOperation, version: VersionName, eek: EekBody) -> KmsCall
    ensures { result ≡ spec.eek_call operation version eek }
{
    let EekBody { name, iv, sealed } = eek;
    let sent = RawEdek {
        version,
        iv,
        sealed,
    };
    match operation {
        EekOperation::Decrypt => KmsCall::Decrypt { name, sent },
        EekOperation::Reencrypt => KmsCall::Reencrypt { name, sent },
    }
}

fn metadatas(alloc: Global, query: &Query) -> Result<KmsCall, RestFault>
    ensures { (name body : List ℕ) → spec.SaysCall op.Metadatas name query.now body result }
{
    match key_names(alloc, query) {
        Err(NoMemory) => Err(RestFault::NoMemory),
        Ok(None) => Err(RestFault::BadRequest),
        Ok(Some(names)) => some_metadatas(names),
    }
}

/// Returns the call for these names. At least one is required.
fn some_metadatas(names: NameList) -> Result<KmsCall, RestFault>
    ensures { spec.SaysMetadatas names result }
{
    if names.len() == 0 {
        return Err(RestFault::BadRequest);
    }
    Ok(KmsCall::Metadatas { names })
}
