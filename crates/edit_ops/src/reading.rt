//! Reading the records of the edit log.
ghost use Rattle.std.specs.Prelude.{◌≡◌, ◌++◌, ◌∷◌, [], true, IfOk, IsErrOf, OnOk};
ghost use Rattle.std.specs.Int.{w64};
ghost use Rattle.hk_base.specs.declared.records.RecordFault.TheVariants as fault;
ghost use Rattle.name_calls.specs.Paths.{is_component, read_path, read_relative};
ghost use Rattle.key_rows.specs.Reading.{GivesRecord, number_at};
ghost use Rattle.edit_ops.specs.Records.{HasSpelling, spelling};
ghost use Rattle.edit_ops.specs.Reading.{allow_of, cancel_of, complete_of, component_of, counted_of, disallow_of, edek_at, edek_of, file_key_at, file_of, files_of, iv_of, last, mark_at, mkdir_of, op_of, opened_of, opt_edek_of, opt_mark_at, path_and_name_of, path_at, remove_of, rename_of, snap_of, submit_of, unsnap_of, update_of, version_of, zone_of};

use crate::files::{FileKey, FileKeys};
use crate::ops::EditOp;
use hk_base::{Edek, Iv, NoMemory, RecordFault, Text, VersionName};
use key_rows::fields::{cut, cut_long, cut_short, material_of, name_of, u16_at, u32_at, u64_at};
use name_calls::{NPath, PathFault, is_component};
use std::alloc::Global;

/// Reads all of the bytes as an initialization vector.
fn iv_of(bytes: &[u8]) -> Result<Iv, RecordFault>
    ensures { GivesRecord (λ x. x) result (iv_of bytes.now) }
{
    match Iv::read(bytes) {
        None => Err(RecordFault::NoRecord),
        Some(iv) => Ok(iv),
    }
}

/// Reads all of the bytes as a path.
fn path_of(alloc: Global, bytes: &[u8]) -> Result<NPath, RecordFault>
    ensures { GivesRecord (λ x. x) result (read_path bytes.now) }
{
    match NPath::read(alloc, bytes) {
        Ok(path) => Ok(path),
        Err(PathFault::BadPath) => Err(RecordFault::NoRecord),
        Err(PathFault::NoMemory) => Err(RecordFault::NoMemory),
    }
}

#[tactic(auto, unfolding(crate::specs::Reading::path_at))]
fn path_at(alloc: Global, bytes: &[u8]) -> Result<(NPath, &[u8]), RecordFault>
    ensures { GivesRecord (λ x. (x.0, x.1.now)) result (path_at bytes.now) }
{
    let (text, rest) = cut_long(bytes)?;
    let path = path_of(alloc, text)?;
    Ok((path, rest))
}

/// Reads all of the bytes as the id of a re-encryption.
fn last_session(bytes: &[u8]) -> Result<u64, RecordFault>
    ensures { GivesRecord (λ x. x) result (last (number_at w64) bytes.now) }
{
    let (session, rest) = u64_at(bytes)?;
    if !rest.is_empty() {
        return Err(RecordFault::NoRecord);
    }
    Ok(session)
}

/// Reads all of the bytes as a path.
fn last_path(alloc: Global, bytes: &[u8]) -> Result<NPath, RecordFault>
    ensures { GivesRecord (λ x. x) result (last path_at bytes.now) }
{
    let (path, rest) = path_at(alloc, bytes)?;
    if !rest.is_empty() {
        return Err(RecordFault::NoRecord);
    }
    Ok(path)
}

/// Copies the name of a snapshot.
fn text_of(alloc: Global, name: &[u8]) -> Result<Text, NoMemory>
    requires { is_component name.now ≡ true }
    ensures { IfOk result (λ text. text ≡ name.now) }
{
    match Text::from_utf8(Vec::from_slice(alloc, name)?) {
        Some(text) => Ok(text),
        None => unreachable!(),
    }
}

/// Reads all of the bytes as the name of a snapshot.
fn component_of(alloc: Global, bytes: &[u8]) -> Result<Text, RecordFault>
    ensures { GivesRecord (λ x. x) result (component_of bytes.now) }
{
    if !is_component(bytes) {
        return Err(RecordFault::NoRecord);
    }
    let text = text_of(alloc, bytes)?;
    Ok(text)
}

/// Reads all of the bytes as a directory and the name of a snapshot of it.
#[tactic(auto, unfolding(crate::specs::Reading::path_and_name_of))]
fn path_and_name_of(alloc: Global, bytes: &[u8]) -> Result<(NPath, Text), RecordFault>
    ensures { GivesRecord (λ x. x) result (path_and_name_of bytes.now) }
{
    let (path, rest) = path_at(alloc, bytes)?;
    let (name, rest) = cut_long(rest)?;
    let name = component_of(alloc, name)?;
    if !rest.is_empty() {
        return Err(RecordFault::NoRecord);
    }
    Ok((path, name))
}

/// Reads all of the bytes as a version of a key.
#[tactic(auto, unfolding(crate::specs::Reading::version_of))]
fn version_of(bytes: &[u8]) -> Result<VersionName, RecordFault>
    ensures { GivesRecord (λ x. x) result (version_of bytes.now) }
{
    let (key, rest) = cut_short(bytes)?;
    let key = name_of(key)?;
    let (number, rest) = u16_at(rest)?;
    if !rest.is_empty() {
        return Err(RecordFault::NoRecord);
    }
    Ok(VersionName { key, number })
}

/// Reads an encrypted data encryption key from the start.
#[tactic(auto, unfolding(crate::specs::Reading::edek_at))]
fn edek_at(bytes: &[u8]) -> Result<(Edek, &[u8]), RecordFault>
    ensures { GivesRecord (λ x. (x.0, x.1.now)) result (edek_at bytes.now) }
{
    let (key, rest) = cut_short(bytes)?;
    let key = name_of(key)?;
    let (number, rest) = u16_at(rest)?;
    let (iv, rest) = cut(rest, 16)?;
    let iv = iv_of(iv)?;
    let (sealed, rest) = cut_short(rest)?;
    let sealed = material_of(sealed)?;
    let version = VersionName { key, number };
    let edek = Edek {
        version,
        iv,
        sealed,
    };
    Ok((edek, rest))
}

/// Reads all of the bytes as an encrypted data encryption key.
#[tactic(auto, unfolding(crate::specs::Reading::edek_of))]
fn edek_of(bytes: &[u8]) -> Result<Edek, RecordFault>
    ensures { GivesRecord (λ x. x) result (edek_of bytes.now) }
{
    match edek_at(bytes) {
        Err(fault) => Err(fault),
        Ok((edek, rest)) => {
            if !rest.is_empty() {
                return Err(RecordFault::NoRecord);
            }
            Ok(edek)
        }
    }
}

/// Reads all of the bytes as an optional encrypted data encryption key.
#[tactic(auto, unfolding(crate::specs::Reading::opt_edek_of))]
fn opt_edek_of(bytes: &[u8]) -> Result<Option<Edek>, RecordFault>
    ensures { GivesRecord (λ x. x) result (opt_edek_of bytes.now) }
{
    match bytes {
        [0] => Ok(None),
        [1, rest @ ..] => {
            let edek = edek_of(rest)?;
            Ok(Some(edek))
        }
        _ => Err(RecordFault::NoRecord),
    }
}

/// Reads all of the bytes as a path in a zone.
fn relative_of(alloc: Global, bytes: &[u8]) -> Result<NPath, RecordFault>
    ensures { GivesRecord (λ x. x) result (read_relative bytes.now) }
{
    match NPath::read_relative(alloc, bytes) {
        Ok(path) => Ok(path),
        Err(PathFault::BadPath) => Err(RecordFault::NoRecord),
        Err(PathFault::NoMemory) => Err(RecordFault::NoMemory),
    }
}

/// Reads a path in a zone from the start.
#[tactic(auto, unfolding(crate::specs::Reading::mark_at))]
fn mark_at(alloc: Global, bytes: &[u8]) -> Result<(NPath, &[u8]), RecordFault>
    ensures { GivesRecord (λ x. (x.0, x.1.now)) result (mark_at bytes.now) }
{
    let (text, rest) = cut_long(bytes)?;
    let path = relative_of(alloc, text)?;
    Ok((path, rest))
}

/// Reads an optional path in a zone from the start.
#[tactic(auto, unfolding(crate::specs::Reading::opt_mark_at))]
fn opt_mark_at(alloc: Global, bytes: &[u8]) -> Result<(Option<NPath>, &[u8]), RecordFault>
    ensures { GivesRecord (λ x. (x.0, x.1.now)) result (opt_mark_at bytes.now) }
{
    match bytes {
        [0, rest @ ..] => Ok((None, rest)),
        [1, rest @ ..] => {
            let (path, rest) = mark_at(alloc, rest)?;
            Ok((Some(path), rest))
        }
        _ => Err(RecordFault::NoRecord),
    }
}

/// Reads a file and its encrypted key from the start.
#[tactic(auto, unfolding(crate::specs::Reading::file_key_at))]
fn file_key_at(bytes: &[u8]) -> Result<(FileKey, &[u8]), RecordFault>
    ensures { GivesRecord (λ x. (x.0, x.1.now)) result (file_key_at bytes.now) }
{
    let (id, rest) = u64_at(bytes)?;
    match edek_at(rest) {
        Err(fault) => Err(fault),
        Ok((edek, rest)) => Ok((FileKey { id, edek }, rest)),
    }
}

/// Appends a file.
fn add(files: &mut Vec<FileKey>, file: FileKey) -> Result<(), NoMemory>
    ensures { OnOk result (files.new.items ≡ files.old.items ++ file ∷ []) }
{
    files.push(file)?;
    Ok(())
}

/// Reads all of the bytes as `count` files and their encrypted keys.
fn files_of(alloc: Global, count: u32, bytes: &[u8]) -> Result<Vec<FileKey>, RecordFault>
    ensures { GivesRecord (λ x. x.items) result (files_of count bytes.now) }
{
    let mut files = Vec::new(alloc);
    let mut left = bytes;
    for _ in 0..count {
        match file_key_at(left) {
            Err(fault) => return Err(fault),
            Ok((file, rest)) => {
                add(&mut files, file)?;
                left = rest;
            }
        }
    }
    if !left.is_empty() {
        return Err(RecordFault::NoRecord);
    }
    Ok(files)
}

/// Reads all of the bytes as the number of files, and the files with their encrypted keys.
#[tactic(auto, unfolding(crate::specs::Reading::counted_of))]
fn counted_of(alloc: Global, bytes: &[u8]) -> Result<FileKeys, RecordFault>
    ensures { GivesRecord (λ x. x) result (counted_of bytes.now) }
{
    let (count, rest) = u32_at(bytes)?;
    let files = files_of(alloc, count, rest)?;
    match FileKeys::of(files) {
        None => Err(RecordFault::NoRecord),
        Some(files) => Ok(files),
    }
}

#[tactic(auto, unfolding(crate::specs::Reading::opened_of))]
fn opened_of(bytes: &[u8]) -> Result<EditOp, RecordFault>
    ensures { GivesRecord (λ x. x) result (opened_of bytes.now) }
{
    let (opening, rest) = u32_at(bytes)?;
    if !rest.is_empty() {
        return Err(RecordFault::NoRecord);
    }
    Ok(EditOp::Opened { opening })
}

#[tactic(auto, unfolding(crate::specs::Reading::mkdir_of))]
fn mkdir_of(alloc: Global, bytes: &[u8]) -> Result<EditOp, RecordFault>
    ensures { GivesRecord (λ x. x) result (mkdir_of bytes.now) }
{
    let (id, rest) = u64_at(bytes)?;
    let (path, rest) = path_at(alloc, rest)?;
    if !rest.is_empty() {
        return Err(RecordFault::NoRecord);
    }
    Ok(EditOp::Mkdir { id, path })
}

#[tactic(auto, unfolding(crate::specs::Reading::file_of))]
fn file_of(alloc: Global, bytes: &[u8]) -> Result<EditOp, RecordFault>
    ensures { GivesRecord (λ x. x) result (file_of bytes.now) }
{
    let (id, rest) = u64_at(bytes)?;
    let (path, rest) = path_at(alloc, rest)?;
    let edek = opt_edek_of(rest)?;
    Ok(EditOp::File { id, path, edek })
}

#[tactic(auto, unfolding(crate::specs::Reading::remove_of))]
fn remove_of(alloc: Global, bytes: &[u8]) -> Result<EditOp, RecordFault>
    ensures { GivesRecord (λ x. x) result (remove_of bytes.now) }
{
    let path = last_path(alloc, bytes)?;
    Ok(EditOp::Remove { path })
}

#[tactic(auto, unfolding(crate::specs::Reading::rename_of))]
fn rename_of(alloc: Global, bytes: &[u8]) -> Result<EditOp, RecordFault>
    ensures { GivesRecord (λ x. x) result (rename_of bytes.now) }
{
    let (path, rest) = path_at(alloc, bytes)?;
    let to = last_path(alloc, rest)?;
    Ok(EditOp::Rename { path, to })
}

#[tactic(auto, unfolding(crate::specs::Reading::zone_of))]
fn zone_of(alloc: Global, bytes: &[u8]) -> Result<EditOp, RecordFault>
    ensures { GivesRecord (λ x. x) result (zone_of bytes.now) }
{
    let (path, rest) = path_at(alloc, bytes)?;
    let (key, rest) = cut_short(rest)?;
    let key = name_of(key)?;
    if !rest.is_empty() {
        return Err(RecordFault::NoRecord);
    }
    Ok(EditOp::Zone { path, key })
}

#[tactic(auto, unfolding(crate::specs::Reading::allow_of))]
fn allow_of(alloc: Global, bytes: &[u8]) -> Result<EditOp, RecordFault>
    ensures { GivesRecord (λ x. x) result (allow_of bytes.now) }
{
    let path = last_path(alloc, bytes)?;
    Ok(EditOp::Allow { path })
}

#[tactic(auto, unfolding(crate::specs::Reading::disallow_of))]
fn disallow_of(alloc: Global, bytes: &[u8]) -> Result<EditOp, RecordFault>
    ensures { GivesRecord (λ x. x) result (disallow_of bytes.now) }
{
    let path = last_path(alloc, bytes)?;
    Ok(EditOp::Disallow { path })
}

#[tactic(auto, unfolding(crate::specs::Reading::snap_of))]
fn snap_of(alloc: Global, bytes: &[u8]) -> Result<EditOp, RecordFault>
    ensures { GivesRecord (λ x. x) result (snap_of bytes.now) }
{
    let (path, name) = path_and_name_of(alloc, bytes)?;
    Ok(EditOp::Snap { path, name })
}

#[tactic(auto, unfolding(crate::specs::Reading::unsnap_of))]
fn unsnap_of(alloc: Global, bytes: &[u8]) -> Result<EditOp, RecordFault>
    ensures { GivesRecord (λ x. x) result (unsnap_of bytes.now) }
{
    let (path, name) = path_and_name_of(alloc, bytes)?;
    Ok(EditOp::Unsnap { path, name })
}

#[tactic(auto, unfolding(crate::specs::Reading::submit_of))]
fn submit_of(alloc: Global, bytes: &[u8]) -> Result<EditOp, RecordFault>
    ensures { GivesRecord (λ x. x) result (submit_of bytes.now) }
{
    let (session, rest) = u64_at(bytes)?;
    let (path, rest) = path_at(alloc, rest)?;
    let noted = version_of(rest)?;
    Ok(EditOp::Submit {
        session,
        path,
        noted,
    })
}

#[tactic(auto, unfolding(crate::specs::Reading::update_of))]
fn update_of(alloc: Global, bytes: &[u8]) -> Result<EditOp, RecordFault>
    ensures { GivesRecord (λ x. x) result (update_of bytes.now) }
{
    let (session, rest) = u64_at(bytes)?;
    let (changed, rest) = u32_at(rest)?;
    let (failed, rest) = u32_at(rest)?;
    let (mark, rest) = opt_mark_at(alloc, rest)?;
    let files = counted_of(alloc, rest)?;
    if changed as usize != files.as_slice().len() {
        return Err(RecordFault::NoRecord);
    }
    Ok(EditOp::Update {
        session,
        failed,
        mark,
        files,
    })
}

#[tactic(auto, unfolding(crate::specs::Reading::cancel_of))]
fn cancel_of(bytes: &[u8]) -> Result<EditOp, RecordFault>
    ensures { GivesRecord (λ x. x) result (cancel_of bytes.now) }
{
    let session = last_session(bytes)?;
    Ok(EditOp::Cancel { session })
}

#[tactic(auto, unfolding(crate::specs::Reading::complete_of))]
fn complete_of(bytes: &[u8]) -> Result<EditOp, RecordFault>
    ensures { GivesRecord (λ x. x) result (complete_of bytes.now) }
{
    let session = last_session(bytes)?;
    Ok(EditOp::Complete { session })
}

#[tactic(auto, unfolding(crate::specs::Reading::op_of))]
fn op_of(alloc: Global, bytes: &[u8]) -> Result<EditOp, RecordFault>
    ensures { GivesRecord (λ x. x) result (op_of bytes.now) }
{
    match bytes {
        [1, rest @ ..] => opened_of(rest),
        [2, rest @ ..] => mkdir_of(alloc, rest),
        [3, rest @ ..] => file_of(alloc, rest),
        [4, rest @ ..] => remove_of(alloc, rest),
        [5, rest @ ..] => rename_of(alloc, rest),
        [6, rest @ ..] => zone_of(alloc, rest),
        [7, rest @ ..] => allow_of(alloc, rest),
        [8, rest @ ..] => disallow_of(alloc, rest),
        [9, rest @ ..] => snap_of(alloc, rest),
        [10, rest @ ..] => unsnap_of(alloc, rest),
        [11, rest @ ..] => submit_of(alloc, rest),
        [12, rest @ ..] => update_of(alloc, rest),
        [13, rest @ ..] => cancel_of(rest),
        [14, rest @ ..] => complete_of(rest),
        _ => Err(RecordFault::NoRecord),
    }
}

impl EditOp {
    /// Reads the operation whose record in the edit log is exactly these bytes. Returns `NoRecord`
    /// only if the bytes are the record of no operation.
    pub fn read(alloc: Global, bytes: &[u8]) -> Result<EditOp, RecordFault>
        ensures read { IfOk result (λ op. HasSpelling op × (bytes.now ≡ spelling op)) }
        ensures none { IsErrOf result fault.NoRecord → (op : EditOp) → HasSpelling op →
            ¬ (bytes.now ≡ spelling op) }
    {
        op_of(alloc, bytes)
    }
}
