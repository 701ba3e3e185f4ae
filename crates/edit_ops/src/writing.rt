//! Writing the records of the edit log.
ghost use Rattle.std.specs.Prelude.{◌≡◌, ◌≤◌, ◌++◌, ◌∷◌, true, IsTrue, OnOk, OnErr, length, take};
ghost use Rattle.std.specs.Int.{w16, w32, w64, to_be_bytes};
ghost use Rattle.std.specs.List.{AllByRecursion};
ghost use Rattle.hk_base.specs.Names.{IsKeyName};
ghost use Rattle.name_calls.specs.Paths.{is_component, is_relative, names_text, path_text};
ghost use Rattle.key_rows.specs.Records.{name_field, text_field};
ghost use Rattle.edit_ops.specs.Records.{HasSpelling, IsEdek, IsFileKey, IsKeyVersion, IsOpt, counted_field, edek_field, file_field, files_field, fits, opt_field, path_field, spelling, version_field};

use crate::files::{FileKey, FileKeys};
use crate::ops::EditOp;
use hk_base::{ByteList, Edek, KeyName, NoMemory, Text, VersionName};
use key_rows::fields::{append_head, append_name};
use name_calls::NPath;

/// Returns the length of a path in bytes as it is written, at most 8,000.
fn text_len(path: &NPath) -> usize
    ensures len { result ≡ length (path_text path.now) }
    ensures short { result ≤ 8000 }
    ensures rule { is_relative path.now ≡ true }
{
    let names = path.len();
    if names == 0 {
        return 1;
    }
    let mut len = 0;
    for k in 0..names {
        len += 1 + path.name(k).as_str().len();
    }
    len
}

/// Appends a path after its length. If allocation fails, a prefix may have been appended.
fn append_path(out: &mut ByteList, path: &NPath) -> Result<(), NoMemory>
    ensures ok { OnOk result (out.new ≡ out.old ++ path_field path.now) }
    ensures rule { OnOk result (is_relative path.now ≡ true) }
    ensures err { OnErr result (take (length out.old) out.new ≡ out.old) }
{
    let len = text_len(path);
    out.append(&(len as u16).to_be_bytes())?;
    path.write(out)
}

/// Appends a version of a key. If allocation fails, a prefix may have been appended.
fn append_version(out: &mut ByteList, version: &VersionName) -> Result<(), NoMemory>
    ensures ok { OnOk result (out.new ≡ out.old ++ version_field version.now) }
    ensures is_version { OnOk result (IsKeyVersion version.now) }
    ensures err { OnErr result (take (length out.old) out.new ≡ out.old) }
{
    append_name(out, &version.key)?;
    out.append(&version.number.to_be_bytes())
}

/// Appends an encrypted data encryption key. If allocation fails, a prefix may have been appended.
fn append_edek(out: &mut ByteList, edek: &Edek) -> Result<(), NoMemory>
    ensures ok { OnOk result (out.new ≡ out.old ++ edek_field edek.now) }
    ensures is_edek { OnOk result (IsEdek edek.now) }
    ensures err { OnErr result (take (length out.old) out.new ≡ out.old) }
{
    append_name(out, &edek.version.key)?;
    out.append(&edek.version.number.to_be_bytes())?;
    out.append(edek.iv.as_bytes())?;
    let sealed = edek.sealed.as_bytes();
    out.push(sealed.len() as u8)?;
    out.append(sealed)
}

/// Appends an optional encrypted data encryption key. If allocation fails, a prefix may have been
/// appended.
fn append_opt_edek(out: &mut ByteList, edek: &Option<Edek>) -> Result<(), NoMemory>
    ensures ok { OnOk result (out.new ≡ out.old ++ opt_field edek_field edek.now) }
    ensures is_edek { OnOk result (IsOpt IsEdek edek.now) }
    ensures err { OnErr result (take (length out.old) out.new ≡ out.old) }
{
    match edek {
        None => out.push(0),
        Some(edek) => {
            out.push(1)?;
            append_edek(out, edek)
        }
    }
}

/// Appends the first byte of a record, an id and a path. If allocation fails, a prefix may have
/// been appended.
fn append_front(out: &mut ByteList, tag: u8, id: u64, path: &NPath) -> Result<(), NoMemory>
    ensures ok { OnOk result
        (out.new ≡ out.old ++ tag ∷ (to_be_bytes w64 id ++ path_field path.now)) }
    ensures rule { OnOk result (is_relative path.now ≡ true) }
    ensures err { OnErr result (take (length out.old) out.new ≡ out.old) }
{
    append_head(out, tag, id)?;
    append_path(out, path)
}

/// Appends the record of a file that was made. If allocation fails, a prefix may have been
/// appended.
fn append_file(
    out: &mut ByteList,
    id: u64,
    path: &NPath,
    edek: &Option<Edek>,
) -> Result<(), NoMemory>
    ensures ok { OnOk result
        (out.new ≡
        out.old ++
        3 ∷ (to_be_bytes w64 id ++ (path_field path.now ++ opt_field edek_field edek.now))) }
    ensures rule { OnOk result (is_relative path.now ≡ true) }
    ensures is_edek { OnOk result (IsOpt IsEdek edek.now) }
    ensures err { OnErr result (take (length out.old) out.new ≡ out.old) }
{
    append_front(out, 3, id, path)?;
    append_opt_edek(out, edek)
}

/// Appends the first byte of a record and a path. If allocation fails, a prefix may have been
/// appended.
fn append_tagged_path(out: &mut ByteList, tag: u8, path: &NPath) -> Result<(), NoMemory>
    ensures ok { OnOk result (out.new ≡ out.old ++ tag ∷ path_field path.now) }
    ensures rule { OnOk result (is_relative path.now ≡ true) }
    ensures err { OnErr result (take (length out.old) out.new ≡ out.old) }
{
    out.push(tag)?;
    append_path(out, path)
}

/// Appends the record of what moved from one path to another. If allocation fails, a prefix may have
/// been appended.
fn append_move(out: &mut ByteList, path: &NPath, to: &NPath) -> Result<(), NoMemory>
    ensures ok { OnOk result (out.new ≡ out.old ++ 5 ∷ (path_field path.now ++ path_field to.now)) }
    ensures rules { OnOk result ((is_relative path.now ≡ true) × (is_relative to.now ≡ true)) }
    ensures err { OnErr result (take (length out.old) out.new ≡ out.old) }
{
    append_tagged_path(out, 5, path)?;
    append_path(out, to)
}

/// Appends the name of a snapshot after its length. If allocation fails, a prefix may have been
/// appended.
fn append_component(out: &mut ByteList, name: &Text) -> Result<(), NoMemory>
    requires { is_component name.now ≡ true }
    ensures ok { OnOk result (out.new ≡ out.old ++ text_field name.now) }
    ensures err { OnErr result (take (length out.old) out.new ≡ out.old) }
{
    let bytes = name.as_str().as_bytes();
    out.append(&(bytes.len() as u16).to_be_bytes())?;
    out.append(bytes)
}

/// Appends the first byte of a record, a path and the name of a snapshot. If allocation fails, a
/// prefix may have been appended.
fn append_snapshot(out: &mut ByteList, tag: u8, path: &NPath, name: &Text) -> Result<(), NoMemory>
    requires { is_component name.now ≡ true }
    ensures ok { OnOk result
        (out.new ≡ out.old ++ tag ∷ (path_field path.now ++ text_field name.now)) }
    ensures rule { OnOk result (is_relative path.now ≡ true) }
    ensures err { OnErr result (take (length out.old) out.new ≡ out.old) }
{
    append_tagged_path(out, tag, path)?;
    append_component(out, name)
}

/// Appends the record of a directory that was made a zone. If allocation fails, a prefix may have
/// been appended.
fn append_zone(out: &mut ByteList, path: &NPath, key: &KeyName) -> Result<(), NoMemory>
    ensures ok { OnOk result
        (out.new ≡ out.old ++ 6 ∷ (path_field path.now ++ name_field key.now)) }
    ensures rule { OnOk result (is_relative path.now ≡ true) }
    ensures is_name { OnOk result (IsKeyName key.now) }
    ensures err { OnErr result (take (length out.old) out.new ≡ out.old) }
{
    append_tagged_path(out, 6, path)?;
    append_name(out, key)
}

/// Appends the record of a zone that was submitted. If allocation fails, a prefix may have been
/// appended.
fn append_submit(
    out: &mut ByteList,
    session: u64,
    path: &NPath,
    noted: &VersionName,
) -> Result<(), NoMemory>
    ensures ok { OnOk result
        (out.new ≡
        out.old ++
        11 ∷ (to_be_bytes w64 session ++ (path_field path.now ++ version_field noted.now))) }
    ensures rule { OnOk result (is_relative path.now ≡ true) }
    ensures is_version { OnOk result (IsKeyVersion noted.now) }
    ensures err { OnErr result (take (length out.old) out.new ≡ out.old) }
{
    append_front(out, 11, session, path)?;
    append_version(out, noted)
}

/// Appends an optional path in a zone. If allocation fails, a prefix may have been appended.
fn append_opt_mark(out: &mut ByteList, mark: &Option<NPath>) -> Result<(), NoMemory>
    ensures ok { OnOk result (out.new ≡ out.old ++ opt_field path_field mark.now) }
    ensures rule { OnOk result (IsOpt (λ p. IsTrue (is_relative p)) mark.now) }
    ensures err { OnErr result (take (length out.old) out.new ≡ out.old) }
{
    match mark {
        None => out.push(0),
        Some(path) => {
            out.push(1)?;
            append_path(out, path)
        }
    }
}

/// Appends a file and its encrypted key. If allocation fails, a prefix may have been appended.
fn append_file_key(out: &mut ByteList, file: &FileKey) -> Result<(), NoMemory>
    ensures ok { OnOk result (out.new ≡ out.old ++ file_field file.now) }
    ensures is_file_key { OnOk result (IsFileKey file.now) }
    ensures err { OnErr result (take (length out.old) out.new ≡ out.old) }
{
    out.append(&file.id.to_be_bytes())?;
    append_edek(out, &file.edek)
}

/// Appends files and their encrypted keys. If allocation fails, a prefix may have been appended.
fn append_file_keys(out: &mut ByteList, files: &[FileKey]) -> Result<(), NoMemory>
    ensures ok { OnOk result (out.new ≡ out.old ++ files_field files.now) }
    ensures are_file_keys { OnOk result (AllByRecursion IsFileKey files.now) }
    ensures err { OnErr result (take (length out.old) out.new ≡ out.old) }
{
    for file in files {
        append_file_key(out, file)?;
    }
    Ok(())
}

/// Appends the number of files. If allocation fails, a prefix may have been appended.
fn append_count(out: &mut ByteList, files: &FileKeys) -> Result<(), NoMemory>
    ensures ok { OnOk result (out.new ≡ out.old ++ to_be_bytes w32 (length files.now)) }
    ensures err { OnErr result (take (length out.old) out.new ≡ out.old) }
{
    let count = files.as_slice().len() as u32;
    out.append(&count.to_be_bytes())
}

/// Appends files and their encrypted keys after their number. If allocation fails, a prefix may have
/// been appended.
fn append_counted(out: &mut ByteList, files: &FileKeys) -> Result<(), NoMemory>
    ensures ok { OnOk result (out.new ≡ out.old ++ counted_field files.now) }
    ensures are_file_keys { OnOk result (AllByRecursion IsFileKey files.now) }
    ensures most { OnOk result (length files.now ≤ 1000) }
    ensures err { OnErr result (take (length out.old) out.new ≡ out.old) }
{
    append_count(out, files)?;
    append_file_keys(out, files.as_slice())
}

/// Appends the first byte of the record of an update, the session, and how many files were changed and
/// failed. If allocation fails, a prefix may have been appended.
fn append_counts(
    out: &mut ByteList,
    session: u64,
    failed: u32,
    files: &FileKeys,
) -> Result<(), NoMemory>
    ensures ok { OnOk result
        (out.new ≡
        out.old ++
        12 ∷
        (to_be_bytes w64 session ++
        (to_be_bytes w32 (length files.now) ++ to_be_bytes w32 failed))) }
    ensures err { OnErr result (take (length out.old) out.new ≡ out.old) }
{
    append_head(out, 12, session)?;
    out.append(&(files.as_slice().len() as u32).to_be_bytes())?;
    out.append(&failed.to_be_bytes())
}

/// Appends the record of an update. If allocation fails, a prefix may have been appended.
fn append_update(
    out: &mut ByteList,
    session: u64,
    failed: u32,
    mark: &Option<NPath>,
    files: &FileKeys,
) -> Result<(), NoMemory>
    ensures ok { OnOk result
        (out.new ≡
        out.old ++
        12 ∷
        (to_be_bytes w64 session ++
        (to_be_bytes w32 (length files.now) ++
        (to_be_bytes w32 failed ++
        (opt_field path_field mark.now ++ counted_field files.now))))) }
    ensures rule { OnOk result (IsOpt (λ p. IsTrue (is_relative p)) mark.now) }
    ensures are_file_keys { OnOk result (AllByRecursion IsFileKey files.now) }
    ensures most { OnOk result (length files.now ≤ 1000) }
    ensures err { OnErr result (take (length out.old) out.new ≡ out.old) }
{
    append_counts(out, session, failed, files)?;
    append_opt_mark(out, mark)?;
    append_counted(out, files)
}

impl EditOp {
    /// Appends the record of the operation in the edit log. Returns `NoMemory` if allocation fails;
    /// `out` is then unchanged.
    pub fn write(&self, out: &mut ByteList) -> Result<(), NoMemory>
        requires { IsTrue (fits self.now) }
        ensures ok { OnOk result (out.new ≡ out.old ++ spelling self.now) }
        ensures spelled { OnOk result (HasSpelling self.now) }
        ensures err { OnErr result (out.new ≡ out.old) }
    {
        let len = out.len();
        match self.append_to(out) {
            Ok(()) => Ok(()),
            Err(wanting) => {
                out.truncate(len);
                Err(wanting)
            }
        }
    }

    /// Appends the record of the operation. If allocation fails, a prefix may have been appended.
    fn append_to(&self, out: &mut ByteList) -> Result<(), NoMemory>
        requires { IsTrue (fits self.now) }
        ensures ok { OnOk result (out.new ≡ out.old ++ spelling self.now) }
        ensures spelled { OnOk result (HasSpelling self.now) }
        ensures err { OnErr result (take (length out.old) out.new ≡ out.old) }
    {
        match self {
            EditOp::Opened { opening } => {
                out.push(1)?;
                out.append(&opening.to_be_bytes())
            }
            EditOp::Mkdir { id, path } => append_front(out, 2, *id, path),
            EditOp::File { id, path, edek } => append_file(out, *id, path, edek),
            EditOp::Remove { path } => append_tagged_path(out, 4, path),
            EditOp::Rename { path, to } => append_move(out, path, to),
            EditOp::Zone { path, key } => append_zone(out, path, key),
            EditOp::Allow { path } => append_tagged_path(out, 7, path),
            EditOp::Disallow { path } => append_tagged_path(out, 8, path),
            EditOp::Snap { path, name } => append_snapshot(out, 9, path, name),
            EditOp::Unsnap { path, name } => append_snapshot(out, 10, path, name),
            EditOp::Submit {
                session,
                path,
                noted,
            } => append_submit(out, *session, path, noted),
            EditOp::Update {
                session,
                failed,
                mark,
                files,
            } => append_update(out, *session, *failed, mark, files),
            EditOp::Cancel { session } => append_head(out, 13, *session),
            EditOp::Complete { session } => append_head(out, 14, *session),
        }
    }
}
