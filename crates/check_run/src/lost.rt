//! Lost files: those whose encrypted key is under a version that no key has.
ghost use Rattle.std.specs.Prelude.{◌≡◌, ◌++◌, ◌<◌, length, codes, OnOk};
ghost use Rattle.std.specs.List.{flat_map};
ghost use Rattle.std.specs.String.{string_bytes};
ghost use Rattle.hk_base.specs.Names.{version_text};
ghost use Rattle.inode_tree.specs.ZoneFiles.{edek_of};
ghost use Rattle.name_text.specs.Answers.{escaped_path};
ghost use Rattle.check_run.specs.Rows.{line_at};
ghost use Rattle.check_run.specs.Summary.{line_of_entry, lost_line, lost_version};

use crate::versions::has_version;
use hk_base::{ByteList, Edek, NoMemory, VersionName};
use inode_tree::{Kind, Row, Tree};
use kms_store::Store;
use name_calls::NPath;
use name_text::ESCAPED;
use percent_encoding::percent_encode;
use std::alloc::Global;

/// Returns the encrypted key of a file.
fn edek_of(row: &Row) -> Option<Edek>
    ensures { result ≡ edek_of row.now.kind }
{
    match &row.kind {
        Kind::Dir { .. } => None,
        Kind::File { edek } => *edek,
    }
}

/// Returns the version that the encrypted key of a file is under, if no key has it.
pub(crate) fn lost_version(keys: &Store, row: &Row) -> Option<VersionName>
    ensures { result ≡ lost_version keys.now.table.keys.rows row.now }
{
    let Some(edek) = edek_of(row) else {
        return None;
    };
    if has_version(keys, &edek.version) {
        return None;
    }
    Some(edek.version)
}

/// Appends a path with the escapes that the answers of the namesystem have.
fn append_path(alloc: Global, path: &NPath, text: &mut ByteList) -> Result<(), NoMemory>
    ensures { OnOk result (text.new ≡ text.old ++ escaped_path path.now) }
{
    let mut bytes = ByteList::new(alloc);
    path.write(&mut bytes)?;
    let mut escaped = String::new(alloc);
    percent_encode(bytes.as_slice(), ESCAPED).append_to(&mut escaped)?;
    text.append(escaped.as_bytes())
}

/// Appends the line of a lost file.
fn append_line(
    alloc: Global,
    path: &NPath,
    version: &VersionName,
    text: &mut ByteList,
) -> Result<(), NoMemory>
    ensures { OnOk result (text.new ≡ text.old ++ lost_line path.now version.now) }
{
    text.append(b"lost ")?;
    append_path(alloc, path, text)?;
    text.append(b" ")?;
    version.write(text)?;
    text.append(b"\n")
}

/// Appends the line of the entry at a place, if it is a lost file.
fn append_at(
    alloc: Global,
    keys: &Store,
    tree: &Tree,
    at: u32,
    text: &mut ByteList,
) -> Result<(), NoMemory>
    requires { at < length tree.now.rows }
    ensures { OnOk result
        (text.new ≡ text.old ++ line_at keys.now.table.keys.rows tree.now.rows at) }
{
    match lost_version(keys, &tree.row_at_place(at)) {
        None => Ok(()),
        Some(version) => {
            let path = tree.path_from(at, 0)?;
            append_line(alloc, &path, &version, text)
        }
    }
}

/// Appends a line for each lost file, in path order. If allocation fails, a prefix may have been
/// appended.
pub(crate) fn append_lost(
    alloc: Global,
    keys: &Store,
    tree: &Tree,
    text: &mut ByteList,
) -> Result<(), NoMemory>
    ensures { OnOk result
        (text.new ≡
        text.old ++ flat_map (line_of_entry keys.now.table.keys.rows) tree.now.rows) }
{
    for at in 0..tree.rows() {
        append_at(alloc, keys, tree, at, text)?;
    }
    Ok(())
}
