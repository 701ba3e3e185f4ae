//! Paths of entries that are read, also as they were in a snapshot.
ghost use Rattle.std.specs.Prelude.{◌≡◌, ◌<◌, ◌↔◌, ◌&&◌, None, Some, Err, drop, is_some, length, IfSome, option_map, take, true, IfOk};
ghost use Rattle.name_calls.specs.Paths.{is_component, read_path};
ghost use Rattle.name_calls.specs.ReadPaths.{as_it_is, mark_at, read_any_path, read_below, read_directory, read_in_snapshot, starts_mark};

use crate::paths::{
    NPath, PathFault, after_first_byte, are_names, first_part, is_component, is_path, names_of,
    text_of,
};
use hk_base::{NoMemory, Text};
use std::alloc::Global;

/// The path of an entry that is read: as the entry is, or as it was in a snapshot of the directory
/// at `path`. In HDFS the second is written `P/.snapshot/NAME`, and the rest below it.
#[derive(Drop)]
pub struct ReadPath {
    pub path: NPath,
    pub snapshot: Option<SnapPart>,
}

/// A place in a snapshot: the name of the snapshot, and the path below its directory.
#[derive(Drop)]
pub struct SnapPart {
    pub name: Text,
    pub below: NPath,
}

/// Returns the first `count` bytes, or all if there are fewer.
#[tactic(auto, using(std::proofs::lemmas::List::take_all))]
fn upto(bytes: &[u8], count: usize) -> &[u8]
    ensures { result.now ≡ take count bytes.now }
{
    if count < bytes.len() {
        &bytes[..count]
    } else {
        bytes
    }
}

fn starts_mark(bytes: &[u8]) -> bool
    ensures { result ≡ starts_mark bytes.now }
{
    upto(bytes, 11) == b"/.snapshot/".as_slice()
}

/// Returns how many bytes come before the first `/.snapshot/`.
fn mark_at(bytes: &[u8]) -> Option<usize>
    ensures at { result ≡ mark_at bytes.now }
    ensures within { IfSome result (λ at. at < length bytes.now) }
{
    for at in 0..bytes.len() {
        if starts_mark(from(bytes, at)) {
            return Some(at);
        }
    }
    None
}

/// Returns whether the bytes are the path of a directory before the mark.
fn is_directory_path(bytes: &[u8]) -> bool
    ensures { result ≡ is_some (read_directory bytes.now) }
{
    bytes.is_empty() || is_path(bytes)
}

/// Returns whether the bytes are a path below a directory.
fn is_path_below(bytes: &[u8]) -> bool
    ensures { result ≡ is_some (read_below bytes.now) }
{
    if bytes.is_empty() {
        return true;
    }
    if bytes.len() == 1 {
        return false;
    }
    are_names(after_first_byte(bytes))
}

/// Reads the path of a directory before the mark.
fn directory_path(alloc: Global, bytes: &[u8]) -> Result<NPath, NoMemory>
    requires { is_some (read_directory bytes.now) ≡ true }
    ensures { IfOk result (λ path. read_directory bytes.now ≡ Some path) }
{
    if bytes.is_empty() {
        return Ok(NPath::root(alloc));
    }
    match NPath::read(alloc, bytes) {
        Ok(path) => Ok(path),
        Err(_) => Err(NoMemory),
    }
}

/// Reads a path below a directory.
fn path_below(alloc: Global, bytes: &[u8]) -> Result<NPath, NoMemory>
    requires { is_some (read_below bytes.now) ≡ true }
    ensures { IfOk result (λ path. read_below bytes.now ≡ Some path) }
{
    if bytes.is_empty() {
        return Ok(NPath::root(alloc));
    }
    let names = names_of(alloc, after_first_byte(bytes))?;
    Ok(NPath::of_names(names))
}

/// Returns the bytes from an index on.
fn from(bytes: &[u8], at: usize) -> &[u8]
    ensures { result.now ≡ drop at bytes.now }
{
    if at < bytes.len() {
        &bytes[at..]
    } else {
        &bytes[bytes.len()..]
    }
}

/// Returns whether each of the three can be read: the path of a directory, the name of a snapshot
/// and the names below the directory.
fn are_parts(front: &[u8], name: &[u8], below: &[u8]) -> bool
    ensures { result ≡
        (is_some (read_directory front.now) && is_component name.now &&
        is_some (read_below below.now)) }
{
    let directory = is_directory_path(front);
    let named = is_component(name);
    let leads = is_path_below(below);
    directory && named && leads
}

/// Returns whether these are the path of a directory, and the name of a snapshot with the names
/// below the directory.
fn is_in_snapshot(front: &[u8], rest: &[u8]) -> bool
    ensures { result ≡ is_some (read_in_snapshot front.now rest.now) }
{
    let name = first_part(rest);
    are_parts(front, name, from(rest, name.len()))
}

/// Makes the path of an entry in a snapshot.
fn path_in_snapshot(alloc: Global, front: &[u8], rest: &[u8]) -> Result<ReadPath, NoMemory>
    requires { is_some (read_in_snapshot front.now rest.now) ≡ true }
    ensures { IfOk result (λ path. read_in_snapshot front.now rest.now ≡ Some path) }
{
    let name = first_part(rest);
    let below = path_below(alloc, from(rest, name.len()))?;
    let path = directory_path(alloc, front)?;
    let name = text_of(alloc, name)?;
    let snapshot = Some(SnapPart { name, below });
    Ok(ReadPath { path, snapshot })
}

/// Reads a place in a snapshot: the bytes before the mark, and the bytes after it.
fn read_in_snapshot(alloc: Global, front: &[u8], rest: &[u8]) -> Result<ReadPath, PathFault>
    ensures ok { IfOk result (λ path. read_in_snapshot front.now rest.now ≡ Some path) }
    ensures bad { (result ≡ Err PathFault.BadPath) ↔ (read_in_snapshot front.now rest.now ≡ None) }
{
    if !is_in_snapshot(front, rest) {
        return Err(PathFault::BadPath);
    }
    match path_in_snapshot(alloc, front, rest) {
        Ok(path) => Ok(path),
        Err(_) => Err(PathFault::NoMemory),
    }
}

/// Reads the path of an entry as it is.
fn read_as_it_is(alloc: Global, bytes: &[u8]) -> Result<ReadPath, PathFault>
    ensures ok { IfOk result (λ path. option_map as_it_is (read_path bytes.now) ≡ Some path) }
    ensures bad { (result ≡ Err PathFault.BadPath) ↔ (read_path bytes.now ≡ None) }
{
    let path = NPath::read(alloc, bytes)?;
    Ok(ReadPath {
        path,
        snapshot: None,
    })
}

impl ReadPath {
    /// Reads an absolute path, `/` or a `/` before each name. If it has `/.snapshot/`, the path
    /// before that is one of a directory, and after it come the name of a snapshot and the names
    /// that lead down from the directory as it was. Returns `BadPath` exactly if the bytes are no
    /// such path.
    pub fn read(alloc: Global, bytes: &[u8]) -> Result<ReadPath, PathFault>
        ensures ok { IfOk result (λ path. read_any_path bytes.now ≡ Some path) }
        ensures bad { (result ≡ Err PathFault.BadPath) ↔ (read_any_path bytes.now ≡ None) }
    {
        match mark_at(bytes) {
            None => read_as_it_is(alloc, bytes),
            Some(at) => read_in_snapshot(alloc, upto(bytes, at), from(bytes, at + 11)),
        }
    }
}
