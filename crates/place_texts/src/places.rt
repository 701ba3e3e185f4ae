//! Texts of the places that are copied, and of the entries below them.
ghost use Rattle.std.specs.Prelude.{◌≡◌, ◌++◌, None, Some, Err, bytes_eq, drop, take, IfOk, OnOk};
ghost use Rattle.name_calls.specs.Paths.{names_text};
ghost use Rattle.name_calls.specs.ReadPaths.{read_any_path};
ghost use Rattle.name_calls.specs.declared.read_paths.ReadPath.{ReadPath as AReadPath};
ghost use Rattle.place_texts.specs.Places.{IsRuled, is_whole_snapshot, place_below, raw, read_path_text, read_raw_place, whole_directory};

use hk_base::{ByteList, NoMemory};
use name_calls::{NPath, PathFault, ReadPath, SnapPart};
use std::alloc::Global;

/// Appends the names of a path, each after a slash.
fn append_names(path: &NPath, text: &mut ByteList) -> Result<(), NoMemory>
    ensures { OnOk result (text.new ≡ text.old ++ names_text path.now) }
{
    if path.is_root() {
        return Ok(());
    }
    path.write(text)
}

/// Makes the text form of the path of an entry below a directory.
fn live_text(alloc: Global, path: &NPath, below: &NPath) -> Result<ByteList, NoMemory>
    ensures { IfOk result
        (λ text. text ≡ read_path_text (record { path = path.now ++ below.now; snapshot = None })) }
{
    let mut text = ByteList::new(alloc);
    append_names(path, &mut text)?;
    append_names(below, &mut text)?;
    if text.is_empty() {
        text.push(b'/')?;
    }
    Ok(text)
}

/// Makes the text form of the path of an entry below a place in a snapshot.
fn text_in_snapshot(
    alloc: Global,
    path: &NPath,
    part: &SnapPart,
    below: &NPath,
) -> Result<ByteList, NoMemory>
    ensures { IfOk result (λ text. text ≡ read_path_text (place_below
        (record { path = path.now; snapshot = Some part.now }) below.now)) }
{
    let mut text = ByteList::new(alloc);
    append_names(path, &mut text)?;
    text.append(b"/.snapshot/")?;
    text.append(part.name.as_str().as_bytes())?;
    append_names(&part.below, &mut text)?;
    append_names(below, &mut text)?;
    Ok(text)
}

/// Makes the text form of the path of an entry below a place. It is read as that path, unless it breaks
/// the rule of paths.
pub fn place_text(alloc: Global, place: &ReadPath, below: &NPath) -> Result<ByteList, NoMemory>
    ensures text { IfOk result (λ text. text ≡ read_path_text (place_below place.now below.now)) }
    ensures reads { IfOk result (λ text. IsRuled (place_below place.now below.now) →
        read_any_path text ≡ Some (place_below place.now below.now)) }
    ensures only { IsRuled place.now → IfOk result (λ text. (read : AReadPath) →
        read_any_path text ≡ Some read → read ≡ place_below place.now below.now) }
{
    // Its contract says that the names keep the rule.
    let _ = below.len();
    match &place.snapshot {
        None => live_text(alloc, &place.path, below),
        Some(part) => text_in_snapshot(alloc, &place.path, part, below),
    }
}

/// Returns whether bytes begin as the path of an entry with its encrypted key.
fn starts_raw(bytes: &[u8]) -> bool
    ensures { result ≡ bytes_eq (take 14 bytes.now) raw }
{
    if bytes.len() < 14 {
        return false;
    }
    &bytes[..14] == b"/.reserved/raw".as_slice()
}

/// Returns whether a place is a directory as it is, or a snapshot of it.
fn is_whole(place: &ReadPath) -> bool
    ensures { result ≡ is_whole_snapshot place.now.snapshot }
{
    match &place.snapshot {
        None => true,
        Some(part) => part.below.is_root(),
    }
}

/// Returns a place if it is a directory as it is, or a snapshot of it.
fn whole_only(place: ReadPath) -> Result<ReadPath, PathFault>
    ensures ok { IfOk result (λ it. whole_directory (Some place) ≡ Some it) }
    ensures bad { result ≡ Err PathFault.BadPath → whole_directory (Some place) ≡ None }
{
    if is_whole(&place) {
        return Ok(place);
    }
    drop(place);
    Err(PathFault::BadPath)
}

/// Reads the place after `/.reserved/raw`.
fn read_whole(alloc: Global, bytes: &[u8]) -> Result<ReadPath, PathFault>
    ensures ok { IfOk result
        (λ place. whole_directory (read_any_path bytes.now) ≡ Some place) }
    ensures bad { result ≡ Err PathFault.BadPath →
        whole_directory (read_any_path bytes.now) ≡ None }
{
    match ReadPath::read(alloc, bytes) {
        Err(fault) => Err(fault),
        Ok(place) => whole_only(place),
    }
}

/// Reads the place of a copy: `/.reserved/raw`, and after it the path of a directory, or of a snapshot of
/// one. Returns `BadPath` only if the bytes are no such
/// path. If allocation fails, it may return `NoMemory` even then.
pub fn read_raw_place(alloc: Global, bytes: &[u8]) -> Result<ReadPath, PathFault>
    ensures ok { IfOk result (λ place. read_raw_place bytes.now ≡ Some place) }
    ensures bad { result ≡ Err PathFault.BadPath → read_raw_place bytes.now ≡ None }
{
    if !starts_raw(bytes) {
        return Err(PathFault::BadPath);
    }
    read_whole(alloc, &bytes[14..])
}
