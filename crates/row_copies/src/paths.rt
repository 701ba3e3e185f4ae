//! Paths of the rows that are copied.
ghost use Rattle.std.specs.Prelude.{◌≡◌, ◌⊎◌, ◌≤◌, ◌+◌, ◌++◌, ◌∷◌, ◌&&◌, [], nat_le, length, true, IfErr, IfOk, OnOk};
ghost use Rattle.name_calls.specs.Paths.{is_relative, names_text};
ghost use Rattle.row_copies.specs.Copies.{IsLong};

use file_orders::FsEnd;
use hk_base::{NoMemory, Text};
use name_calls::{MOST_BYTES, MOST_NAMES, NPath, NameRefusal};
use std::alloc::Global;

/// Adds a copy of a name to a path.
pub(crate) fn add_name(alloc: Global, path: &mut NPath, name: &Text) -> Result<(), NoMemory>
    requires { is_relative (path.old ++ name.now ∷ []) ≡ true }
    ensures { OnOk result (path.new ≡ path.old ++ name.now ∷ []) }
{
    path.push(Text::of(String::from_str(alloc, name.as_str())?))
}

/// Returns the number of bytes of the names of a path, each after a slash.
fn text_len(path: &NPath) -> usize
    ensures len { result ≡ length (names_text path.now) }
    ensures most { result ≤ 8000 }
{
    let mut len = 0usize;
    let mut k = 0usize;
    'names: while k < path.len() {
        len += path.name(k).as_str().len() + 1;
        k += 1;
    }
    len
}

/// Returns whether the names of a path may follow another path.
fn can_follow(path: &NPath, names: &NPath) -> bool
    ensures short { result ≡
        (nat_le (length (names_text path.now) + length (names_text names.now)) 8000 &&
        nat_le (length path.now + length names.now) 100) }
    ensures path { is_relative path.now ≡ true }
    ensures names { is_relative names.now ≡ true }
{
    let bytes = text_len(path) + text_len(names);
    let count = path.len() + names.len();
    bytes <= MOST_BYTES && count <= MOST_NAMES
}

/// Returns the path of the target at which a path of the source lies. Returns `BadPath` if it is too
/// long.
pub(crate) fn join(alloc: Global, to: &NPath, from: &NPath) -> Result<NPath, FsEnd>
    ensures joined { IfOk result (λ path. path ≡ to.now ++ from.now) }
    ensures ends { IfErr result
        (λ end. (end ≡ FsEnd.NoMemory) ⊎ IsLong (to.now ++ from.now) end) }
{
    if !can_follow(to, from) {
        return Err(FsEnd::NameRefused(NameRefusal::BadPath));
    }
    match join_short(alloc, to, from) {
        Ok(path) => Ok(path),
        Err(_) => Err(FsEnd::NoMemory),
    }
}

/// Returns a path followed by the names of another.
fn join_short(alloc: Global, to: &NPath, from: &NPath) -> Result<NPath, NoMemory>
    requires { is_relative (to.now ++ from.now) ≡ true }
    ensures { IfOk result (λ path. path ≡ to.now ++ from.now) }
{
    let mut path = to.copy(alloc)?;
    for k in 0..from.len() {
        add_name(alloc, &mut path, from.name(k))?;
    }
    Ok(path)
}

/// Returns the path of an entry of a directory.
pub(crate) fn child_path(alloc: Global, path: &NPath, name: &Text) -> Result<NPath, FsEnd>
    requires { is_relative (path.now ++ name.now ∷ []) ≡ true }
    ensures child { IfOk result (λ child. child ≡ path.now ++ name.now ∷ []) }
    ensures ends { IfErr result (λ end. end ≡ FsEnd.NoMemory) }
{
    match extended(alloc, path, name) {
        Ok(child) => Ok(child),
        Err(_) => Err(FsEnd::NoMemory),
    }
}

/// Returns a copy of a path with one more name.
fn extended(alloc: Global, path: &NPath, name: &Text) -> Result<NPath, NoMemory>
    requires { is_relative (path.now ++ name.now ∷ []) ≡ true }
    ensures { IfOk result (λ child. child ≡ path.now ++ name.now ∷ []) }
{
    let mut child = path.copy(alloc)?;
    add_name(alloc, &mut child, name)?;
    Ok(child)
}
