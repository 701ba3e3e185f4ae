//! The parameters of an operation in the query of a request.
ghost use Rattle.std.specs.Prelude.{◌≡◌, Ok, Err, IfErr, IfOk};
ghost use Rattle.name_rest.specs.Orders as spec;

use crate::faults::NameRestFault;
use hk_base::{KeyName, Text};
use name_calls::{NPath, PathFault, ReadPath, is_component};
use path_routes::{Given, Query};
use std::alloc::Global;

/// Returns the value of a parameter that must be given once.
pub(crate) fn needed<'q>(query: &'q Query, name: &[u8]) -> Result<&'q [u8], NameRestFault>
    ensures ok { IfOk result (λ value. spec.needed name.now query.now ≡ Ok value.now) }
    ensures err { IfErr result (λ e. spec.needed name.now query.now ≡ Err e) }
{
    match query.given(name) {
        Given::Once(value) => Ok(value),
        Given::Absent => Err(NameRestFault::BadRequest),
        Given::Repeated => Err(NameRestFault::BadRequest),
    }
}

/// Reads the text of a truth value.
fn read_flag(value: &[u8]) -> Result<bool, NameRestFault>
    ensures { result ≡ spec.flag_of value.now }
{
    if value == b"true".as_slice() {
        Ok(true)
    } else if value == b"false".as_slice() {
        Ok(false)
    } else {
        Err(NameRestFault::BadRequest)
    }
}

/// Returns whether the directory is deleted with all below it, which is said by `recursive`. It is not
/// if the parameter is absent.
pub(crate) fn read_recursive(query: &Query) -> Result<bool, NameRestFault>
    ensures { result ≡ spec.recursive_in query.now }
{
    match query.given(b"recursive") {
        Given::Absent => Ok(false),
        Given::Once(value) => read_flag(value),
        Given::Repeated => Err(NameRestFault::BadRequest),
    }
}

/// Reads the name of a key.
fn read_key(value: &[u8]) -> Result<KeyName, NameRestFault>
    ensures { result ≡ spec.key_of value.now }
{
    match KeyName::read(value) {
        Some(key) => Ok(key),
        None => Err(NameRestFault::BadRequest),
    }
}

/// Returns the name of a key in `key`.
pub(crate) fn key_in(query: &Query) -> Result<KeyName, NameRestFault>
    ensures { result ≡ spec.key_in query.now }
{
    let value = needed(query, b"key")?;
    read_key(value)
}

/// Reads an absolute path.
pub(crate) fn read_path(alloc: Global, text: &[u8]) -> Result<NPath, NameRestFault>
    ensures ok { IfOk result (λ path. spec.path_of text.now ≡ Ok path) }
    ensures err { IfErr result
        (λ e. ¬ (e ≡ NameRestFault.NoMemory) → spec.path_of text.now ≡ Err e) }
{
    match NPath::read(alloc, text) {
        Ok(path) => Ok(path),
        Err(PathFault::BadPath) => Err(NameRestFault::BadPath),
        Err(PathFault::NoMemory) => Err(NameRestFault::NoMemory),
    }
}

/// Reads an absolute path, which may lead through a snapshot.
fn read_any_path(alloc: Global, text: &[u8]) -> Result<ReadPath, NameRestFault>
    ensures ok { IfOk result (λ path. spec.any_path_of text.now ≡ Ok path) }
    ensures err { IfErr result
        (λ e. ¬ (e ≡ NameRestFault.NoMemory) → spec.any_path_of text.now ≡ Err e) }
{
    match ReadPath::read(alloc, text) {
        Ok(path) => Ok(path),
        Err(PathFault::BadPath) => Err(NameRestFault::BadPath),
        Err(PathFault::NoMemory) => Err(NameRestFault::NoMemory),
    }
}

/// Reads the name of a snapshot.
pub(crate) fn read_snapshot_name(alloc: Global, name: &[u8]) -> Result<Text, NameRestFault>
    ensures ok { IfOk result (λ text. spec.snapshot_name_of name.now ≡ Ok text) }
    ensures err { IfErr result
        (λ e. ¬ (e ≡ NameRestFault.NoMemory) → spec.snapshot_name_of name.now ≡ Err e) }
{
    if !is_component(name) {
        return Err(NameRestFault::BadPath);
    }
    let Ok(bytes) = Vec::from_slice(alloc, name) else {
        return Err(NameRestFault::NoMemory);
    };
    match Text::from_utf8(bytes) {
        Some(text) => Ok(text),
        None => unreachable!(),
    }
}

/// Returns the path in `path`.
pub(crate) fn path_in(alloc: Global, query: &Query) -> Result<NPath, NameRestFault>
    ensures ok { IfOk result (λ path. spec.path_in query.now ≡ Ok path) }
    ensures err { IfErr result
        (λ e. ¬ (e ≡ NameRestFault.NoMemory) → spec.path_in query.now ≡ Err e) }
{
    let text = needed(query, b"path")?;
    read_path(alloc, text)
}

/// Returns the path in `path`, which may lead through a snapshot.
pub(crate) fn any_path_in(alloc: Global, query: &Query) -> Result<ReadPath, NameRestFault>
    ensures ok { IfOk result (λ path. spec.any_path_in query.now ≡ Ok path) }
    ensures err { IfErr result
        (λ e. ¬ (e ≡ NameRestFault.NoMemory) → spec.any_path_in query.now ≡ Err e) }
{
    let text = needed(query, b"path")?;
    read_any_path(alloc, text)
}
