//! Paths, and the rule that they follow.
ghost use Rattle.std.specs.Prelude.{◌≡◌, ◌<◌, ◌≤◌, ◌++◌, ◌∷◌, ◌↔◌, ◌==◌, ◌&&◌, ◌||◌, [], nat_lt, not, None, Some, Err, length, drop, take, slice_index_or, is_some, true, map, count_by, position, codes, IsTrue, IfOk, OnOk, OnErr};
ghost use Rattle.std.specs.List.{before_first, list_all, slice_split};
ghost use Rattle.std.specs.Str.{bytes_eq, is_utf8};
ghost use Rattle.name_calls.specs.Paths.{is_absolute, is_component, is_plain_byte, is_prefix, is_relative, path_text, read_path, read_relative, starts_reserved};

use hk_base::{ByteList, NoMemory, Text};
use std::alloc::{AllocError, Global};
use std::marker::Model;

/// A path: the names from the root, or from a directory, down to an entry. Each name has 1 to 255
/// bytes of UTF-8, has no `/`, `:` or byte 0, and is not `.`, `..` or `.snapshot`. A path has at
/// most 100 names, and 8,000 bytes in its text form. Contracts see the list of the names, each as
/// its bytes.
#[derive(Drop)]
pub struct NPath {
    names: Vec<Text>,
}

impl Model for NPath {
    ghost use Rattle.std.specs.Prelude.{◌≡◌, List, ℕ, true};
    ghost use Rattle.name_calls.specs.Paths.{is_relative};

    ghost Value = { List (List ℕ) };

    ghost view = { λ path. path.names.items };

    ghost invariant = { λ path. is_relative path.names.items ≡ true };
}

/// Why bytes could not be read as a path.
#[derive(Clone, Copy, Debug, PartialEq, Eq)]
pub enum PathFault {
    /// They break the rule of paths.
    BadPath,
    /// Allocation failed.
    NoMemory,
}

/// The most bytes of a path in its text form.
pub const MOST_BYTES: usize = 8000;

/// The most names of a path.
pub const MOST_NAMES: usize = 100;

/// The most bytes of a name.
const LONGEST_NAME: usize = 255;

fn is_plain(name: &[u8]) -> bool
    ensures { result ≡ list_all is_plain_byte name.now }
{
    name.iter()
        .all(|byte| *byte != b'/' && *byte != b':' && *byte != 0)
}

fn is_text(bytes: &[u8]) -> bool
    ensures { result ≡ is_utf8 bytes.now }
{
    match str::from_utf8(bytes) {
        Ok(_) => true,
        Err(_) => false,
    }
}

fn is_special(name: &[u8]) -> bool
    ensures { result ≡
        (bytes_eq name.now (codes ".") || bytes_eq name.now (codes "..") ||
        bytes_eq name.now (codes ".snapshot")) }
{
    name == b".".as_slice() || name == b"..".as_slice() || name == b".snapshot".as_slice()
}

/// Returns whether the bytes can be a name of a path: 1 to 255 bytes of UTF-8, without `/`, `:` or
/// byte 0, and not `.`, `..` or `.snapshot`.
pub fn is_component(bytes: &[u8]) -> bool
    ensures { result ≡ is_component bytes.now }
{
    let len = bytes.len();
    let text = is_text(bytes);
    let plain = is_plain(bytes);
    let special = is_special(bytes);
    1 <= len && len <= LONGEST_NAME && text && plain && !special
}

/// Whether each part between slashes can be a name.
fn each_can_be_a_name(bytes: &[u8]) -> bool
    ensures { result ≡ list_all is_component (slice_split (λ b. b == 47) bytes.now) }
{
    bytes
        .split(|byte| *byte == b'/')
        .all(|name| is_component(name))
}

/// Splits bytes at their slashes.
fn parts(alloc: Global, bytes: &[u8]) -> Result<Vec<&[u8]>, AllocError>
    ensures { IfOk result
        (λ parts. map (λ x. x.now) parts.items ≡ slice_split (λ b. b == 47) bytes.now) }
{
    bytes.split(|byte| *byte == b'/').collect(alloc)
}

fn slashes(bytes: &[u8]) -> usize
    ensures { result ≡ count_by (λ b. b == 47) bytes.now }
{
    bytes.iter().filter(|byte| **byte == b'/').count()
}

fn first_slash(bytes: &[u8]) -> Option<usize>
    ensures { result ≡ position (λ b. b == 47) bytes.now }
{
    bytes.iter().position(|byte| *byte == b'/')
}

/// Returns the bytes before the first slash, or all if there is none.
pub(crate) fn first_part(bytes: &[u8]) -> &[u8]
    ensures { result.now ≡ before_first (λ b. b == 47) bytes.now }
{
    match first_slash(bytes) {
        Some(at) => &bytes[..at],
        None => bytes,
    }
}

/// Whether each part between slashes can be a name, and the bytes and the parts are not too many.
fn are_few_names(bytes: &[u8]) -> bool
    ensures { result ≡
        (list_all is_component (slice_split (λ b. b == 47) bytes.now) &&
        nat_lt (length bytes.now) 8000 && nat_lt (count_by (λ b. b == 47) bytes.now) 100) }
{
    let each = each_can_be_a_name(bytes);
    let short = bytes.len() < MOST_BYTES;
    let few = slashes(bytes) < MOST_NAMES;
    each && short && few
}

/// Whether the bytes are the names of a path, with slashes between.
pub(crate) fn are_names(bytes: &[u8]) -> bool
    ensures { result ≡ is_relative (slice_split (λ b. b == 47) bytes.now) }
{
    are_few_names(bytes)
}

/// Whether the first name is `.reserved`.
fn is_reserved(bytes: &[u8]) -> bool
    ensures { result ≡ starts_reserved (slice_split (λ b. b == 47) bytes.now) }
{
    first_part(bytes) == b".reserved".as_slice()
}

/// Whether the bytes are the names of a path from the root, with slashes between.
fn are_names_from_root(bytes: &[u8]) -> bool
    ensures { result ≡ is_absolute (slice_split (λ b. b == 47) bytes.now) }
{
    let relative = are_names(bytes);
    let reserved = is_reserved(bytes);
    relative && !reserved
}

/// Returns all but the first byte.
pub(crate) fn after_first_byte(bytes: &[u8]) -> &[u8]
    requires { 1 ≤ length bytes.now }
    ensures { result.now ≡ drop 1 bytes.now }
{
    &bytes[1..]
}

/// Returns whether the bytes are the text form of an absolute path. It takes no memory.
pub fn is_path(bytes: &[u8]) -> bool
    ensures { result ≡ is_some (read_path bytes.now) }
{
    if bytes.len() == 0 || bytes[0] != b'/' {
        return false;
    }
    if bytes.len() == 1 {
        return true;
    }
    are_names_from_root(after_first_byte(bytes))
}

/// Returns whether the bytes are the text form of a path down from a directory.
fn is_relative_path(bytes: &[u8]) -> bool
    ensures { result ≡ is_some (read_relative bytes.now) }
{
    if bytes.len() == 0 || bytes[0] != b'/' {
        return false;
    }
    if bytes.len() == 1 {
        return true;
    }
    are_names(after_first_byte(bytes))
}

pub(crate) fn text_of(alloc: Global, name: &[u8]) -> Result<Text, NoMemory>
    requires { is_component name.now ≡ true }
    ensures { IfOk result (λ text. text ≡ name.now) }
{
    match Text::from_utf8(Vec::from_slice(alloc, name)?) {
        Some(text) => Ok(text),
        None => unreachable!(),
    }
}

fn texts_of(alloc: Global, names: &[&[u8]]) -> Result<Vec<Text>, NoMemory>
    requires { list_all is_component (map (λ x. x.now) names.now) ≡ true }
    ensures { IfOk result (λ texts. texts.items ≡ map (λ x. x.now) names.now) }
{
    let mut texts = Vec::new(alloc);
    for name in names {
        texts.push(text_of(alloc, name)?)?;
    }
    Ok(texts)
}

fn copies_of(alloc: Global, names: &[Text]) -> Result<Vec<Text>, NoMemory>
    ensures { IfOk result (λ copies. copies.items ≡ names.now) }
{
    let mut copies = Vec::new(alloc);
    for name in names {
        copies.push(Text::of(String::from_str(alloc, name.as_str())?))?;
    }
    Ok(copies)
}

/// Reads the names between slashes.
pub(crate) fn names_of(alloc: Global, bytes: &[u8]) -> Result<Vec<Text>, NoMemory>
    requires { list_all is_component (slice_split (λ b. b == 47) bytes.now) ≡ true }
    ensures { IfOk result (λ names. names.items ≡ slice_split (λ b. b == 47) bytes.now) }
{
    let parts = parts(alloc, bytes)?;
    texts_of(alloc, parts.as_slice())
}

impl From<NoMemory> for PathFault {
    ghost use Rattle.std.specs.Prelude.{◌≡◌};
    ghost use Rattle.name_calls.specs.declared.paths.PathFault.TheVariants as fault;

    ghost from_gives = { λ _ given. given ≡ fault.NoMemory };

    fn from(_: NoMemory) -> Self {
        PathFault::NoMemory
    }
}

fn is_same_name(name: &Text, other: &Text) -> bool
    ensures { result ≡ bytes_eq name.now other.now }
{
    name.as_str().as_bytes() == other.as_str().as_bytes()
}

impl NPath {
    /// Returns the root. It takes no memory.
    pub fn root(alloc: Global) -> NPath
        ensures { result ≡ [] }
    {
        NPath {
            names: Vec::new(alloc),
        }
    }

    /// Reads an absolute path: `/`, or a `/` before each name. Returns `BadPath` exactly if the bytes
    /// break the rule of paths, or the first name is `.reserved`.
    pub fn read(alloc: Global, bytes: &[u8]) -> Result<NPath, PathFault>
        ensures ok { IfOk result (λ path. read_path bytes.now ≡ Some path) }
        ensures bad { (result ≡ Err PathFault.BadPath) ↔ (read_path bytes.now ≡ None) }
    {
        if !is_path(bytes) {
            return Err(PathFault::BadPath);
        }
        if bytes.len() == 1 {
            return Ok(NPath::root(alloc));
        }
        match names_of(alloc, after_first_byte(bytes)) {
            Ok(names) => Ok(NPath { names }),
            Err(_) => Err(PathFault::NoMemory),
        }
    }

    /// Reads a path down from a directory: `/`, or a `/` before each name. Its first name may be
    /// `.reserved`. Returns `BadPath` exactly if the bytes break the rule of paths.
    pub fn read_relative(alloc: Global, bytes: &[u8]) -> Result<NPath, PathFault>
        ensures ok { IfOk result (λ path. read_relative bytes.now ≡ Some path) }
        ensures bad { (result ≡ Err PathFault.BadPath) ↔ (read_relative bytes.now ≡ None) }
    {
        if !is_relative_path(bytes) {
            return Err(PathFault::BadPath);
        }
        if bytes.len() == 1 {
            return Ok(NPath::root(alloc));
        }
        match names_of(alloc, after_first_byte(bytes)) {
            Ok(names) => Ok(NPath { names }),
            Err(_) => Err(PathFault::NoMemory),
        }
    }

    /// Returns a copy of the path.
    pub fn copy(&self, alloc: Global) -> Result<NPath, NoMemory>
        ensures { IfOk result (λ copy. copy ≡ self.now) }
    {
        Ok(NPath {
            names: copies_of(alloc, self.names.as_slice())?,
        })
    }

    /// Makes the path of these names.
    pub(crate) fn of_names(names: Vec<Text>) -> NPath
        requires { is_relative names.items ≡ true }
        ensures { result ≡ names.items }
    {
        NPath { names }
    }

    /// Returns the number of names.
    pub fn len(&self) -> usize
        ensures len { result ≡ length self.now }
        ensures rule { is_relative self.now ≡ true }
    {
        self.names.len()
    }

    /// Whether it is the root.
    pub fn is_root(&self) -> bool
        ensures { IsTrue result ↔ (self.now ≡ []) }
    {
        self.names.is_empty()
    }

    /// Returns the `k`-th name, counted from 0.
    pub fn name(&self, k: usize) -> &Text
        requires { k < length self.now }
        ensures { result.now ≡ slice_index_or self.now k [] }
    {
        &self.names[k]
    }

    /// Whether the path is the other one, or lies above it.
    pub fn is_at_or_above(&self, other: &NPath) -> bool
        ensures { result ≡ is_prefix self.now other.now }
    {
        if self.len() > other.len() {
            return false;
        }
        for k in 0..self.len() {
            if !is_same_name(self.name(k), other.name(k)) {
                return false;
            }
        }
        true
    }

    /// Adds a name at the end. If allocation fails, the path is unchanged.
    pub fn push(&mut self, name: Text) -> Result<(), NoMemory>
        requires { is_relative (self.old ++ name ∷ []) ≡ true }
        ensures ok { OnOk result (self.new ≡ self.old ++ name ∷ []) }
        ensures err { OnErr result (self.new ≡ self.old) }
    {
        self.names.push(name)?;
        Ok(())
    }

    /// Appends the text form: `/`, or a `/` before each name. If allocation fails, `out` is
    /// unchanged.
    pub fn write(&self, out: &mut ByteList) -> Result<(), NoMemory>
        ensures ok { OnOk result (out.new ≡ out.old ++ path_text self.now) }
        ensures err { OnErr result (out.new ≡ out.old) }
    {
        let len = out.len();
        match self.append_to(out) {
            Ok(()) => Ok(()),
            Err(wanting) => {
                out.truncate(len);
                Err(wanting)
            }
        }
    }

    /// Appends the text form. If allocation fails, a prefix may have been appended.
    fn append_to(&self, out: &mut ByteList) -> Result<(), NoMemory>
        ensures ok { OnOk result (out.new ≡ out.old ++ path_text self.now) }
        ensures err { OnErr result (take (length out.old) out.new ≡ out.old) }
    {
        if self.names.is_empty() {
            return out.push(b'/');
        }
        for name in &self.names {
            out.push(b'/')?;
            out.append(name.as_str().as_bytes())?;
        }
        Ok(())
    }
}
