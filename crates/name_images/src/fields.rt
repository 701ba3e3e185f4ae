//! The parts of an image, told piece by piece. They take no memory.
ghost use Rattle.std.specs.Prelude.{List, ℕ, ◌≡◌, ◌≤◌, ◌++◌, length};
ghost use Rattle.std.specs.Int.{w16, w64, to_be_bytes};
ghost use Rattle.key_rows.specs.Records.{name_field};
ghost use Rattle.edit_ops.specs.Records.{edek_field, list_field, opt_field, path_field, version_field};
ghost use Rattle.name_calls.specs.Paths.{names_text, path_text};
ghost use Rattle.name_images.specs.Fields.{kind_field, status_field, truth_field};
ghost use Rattle.image_parts.specs.Parts.{KeepsPart};
ghost use Rattle.name_images.specs.Pieces.{status_head, status_rest};

use hk_base::{Edek, KeyName, VersionName};
use image_parts::put;
use inode_tree::Kind;
use name_calls::NPath;
use zone_table::StatusRow;

/// Tells a key's name after its length.
fn put_key(buf: &mut [u8], at: u64, seen: u64, key: &KeyName) -> u64
    ensures length { length buf.new ≡ length buf.old }
    ensures told { (all : List ℕ) → KeepsPart at seen all buf.old →
        KeepsPart at result (all ++ name_field key.now) buf.new }
{
    let bytes = key.as_bytes();
    let first = put(buf, at, seen, &[bytes.len() as u8]);
    put(buf, at, first, bytes)
}

/// Tells a version of a key.
fn put_version(buf: &mut [u8], at: u64, seen: u64, version: &VersionName) -> u64
    ensures length { length buf.new ≡ length buf.old }
    ensures told { (all : List ℕ) → KeepsPart at seen all buf.old →
        KeepsPart at result (all ++ version_field version.now) buf.new }
{
    let first = put_key(buf, at, seen, &version.key);
    put(buf, at, first, &version.number.to_be_bytes())
}

/// Tells the sealed bytes of an encrypted key after their number.
fn put_sealed(buf: &mut [u8], at: u64, seen: u64, edek: &Edek) -> u64
    ensures length { length buf.new ≡ length buf.old }
    ensures told { (all : List ℕ) → KeepsPart at seen all buf.old →
        KeepsPart at result (all ++ name_field edek.now.sealed) buf.new }
{
    let bytes = edek.sealed.as_bytes();
    let first = put(buf, at, seen, &[bytes.len() as u8]);
    put(buf, at, first, bytes)
}

/// Tells an encrypted data encryption key.
fn put_edek(buf: &mut [u8], at: u64, seen: u64, edek: &Edek) -> u64
    ensures length { length buf.new ≡ length buf.old }
    ensures told { (all : List ℕ) → KeepsPart at seen all buf.old →
        KeepsPart at result (all ++ edek_field edek.now) buf.new }
{
    let named = put_key(buf, at, seen, &edek.version.key);
    let numbered = put(buf, at, named, &edek.version.number.to_be_bytes());
    let begun = put(buf, at, numbered, edek.iv.as_bytes());
    put_sealed(buf, at, begun, edek)
}

/// Tells the key of a directory, if it has one.
fn put_opt_key(buf: &mut [u8], at: u64, seen: u64, key: &Option<KeyName>) -> u64
    ensures length { length buf.new ≡ length buf.old }
    ensures told { (all : List ℕ) → KeepsPart at seen all buf.old →
        KeepsPart at result (all ++ opt_field name_field key.now) buf.new }
{
    match key {
        None => put(buf, at, seen, &[0]),
        Some(key) => {
            let first = put(buf, at, seen, &[1]);
            put_key(buf, at, first, key)
        }
    }
}

/// Tells the encrypted key of a file, if it has one.
fn put_opt_edek(buf: &mut [u8], at: u64, seen: u64, edek: &Option<Edek>) -> u64
    ensures length { length buf.new ≡ length buf.old }
    ensures told { (all : List ℕ) → KeepsPart at seen all buf.old →
        KeepsPart at result (all ++ opt_field edek_field edek.now) buf.new }
{
    match edek {
        None => put(buf, at, seen, &[0]),
        Some(edek) => {
            let first = put(buf, at, seen, &[1]);
            put_edek(buf, at, first, edek)
        }
    }
}

/// Tells the kind of a row, with its key.
pub fn put_kind(buf: &mut [u8], at: u64, seen: u64, kind: &Kind) -> u64
    ensures length { length buf.new ≡ length buf.old }
    ensures told { (all : List ℕ) → KeepsPart at seen all buf.old →
        KeepsPart at result (all ++ kind_field kind.now) buf.new }
{
    match kind {
        Kind::Dir { key } => {
            let first = put(buf, at, seen, &[0]);
            put_opt_key(buf, at, first, key)
        }
        Kind::File { edek } => {
            let first = put(buf, at, seen, &[1]);
            put_opt_edek(buf, at, first, edek)
        }
    }
}

/// Tells numbers of 64 bits, one after the other.
pub fn put_ids(buf: &mut [u8], at: u64, seen: u64, ids: &[u64]) -> u64
    ensures length { length buf.new ≡ length buf.old }
    ensures told { (all : List ℕ) → KeepsPart at seen all buf.old →
        KeepsPart at result (all ++ list_field (to_be_bytes w64) ids.now) buf.new }
{
    let mut told = seen;
    for id in ids {
        let next = put(buf, at, told, &id.to_be_bytes());
        told = next;
    }
    told
}

/// Tells the names of a path, each after a slash.
fn put_names(buf: &mut [u8], at: u64, seen: u64, path: &NPath) -> u64
    ensures length { length buf.new ≡ length buf.old }
    ensures told { (all : List ℕ) → KeepsPart at seen all buf.old →
        KeepsPart at result (all ++ names_text path.now) buf.new }
{
    let mut told = seen;
    for k in 0..path.len() {
        let slashed = put(buf, at, told, b"/");
        let next = put(buf, at, slashed, path.name(k).as_str().as_bytes());
        told = next;
    }
    told
}

/// Tells a byte 0 or 1.
fn put_truth(buf: &mut [u8], at: u64, seen: u64, truth: bool) -> u64
    ensures length { length buf.new ≡ length buf.old }
    ensures told { (all : List ℕ) → KeepsPart at seen all buf.old →
        KeepsPart at result (all ++ truth_field truth) buf.new }
{
    if truth {
        put(buf, at, seen, &[1])
    } else {
        put(buf, at, seen, &[0])
    }
}

/// Returns the length of a path's text in bytes, at most 8,000.
fn text_len(path: &NPath) -> usize
    ensures len { result ≡ length (path_text path.now) }
    ensures short { result ≤ 8000 }
{
    let names = path.len();
    if names == 0 {
        return 1;
    }
    let mut len = 0;
    for k in 0..names {
        len += 1 + path.name(k).as_str().len();
    }
    len
}

/// Tells the text of a path.
fn put_text(buf: &mut [u8], at: u64, seen: u64, path: &NPath) -> u64
    ensures length { length buf.new ≡ length buf.old }
    ensures told { (all : List ℕ) → KeepsPart at seen all buf.old →
        KeepsPart at result (all ++ path_text path.now) buf.new }
{
    if path.is_root() {
        put(buf, at, seen, b"/")
    } else {
        put_names(buf, at, seen, path)
    }
}

/// Tells a path after the length of its text.
pub fn put_path(buf: &mut [u8], at: u64, seen: u64, path: &NPath) -> u64
    ensures length { length buf.new ≡ length buf.old }
    ensures told { (all : List ℕ) → KeepsPart at seen all buf.old →
        KeepsPart at result (all ++ path_field path.now) buf.new }
{
    let len = text_len(path) as u16;
    let first = put(buf, at, seen, &len.to_be_bytes());
    put_text(buf, at, first, path)
}

/// Tells the mark of a status, if it has one.
fn put_opt_path(buf: &mut [u8], at: u64, seen: u64, path: &Option<NPath>) -> u64
    ensures length { length buf.new ≡ length buf.old }
    ensures told { (all : List ℕ) → KeepsPart at seen all buf.old →
        KeepsPart at result (all ++ opt_field path_field path.now) buf.new }
{
    match path {
        None => put(buf, at, seen, &[0]),
        Some(path) => {
            let first = put(buf, at, seen, &[1]);
            put_path(buf, at, first, path)
        }
    }
}

/// Tells a status up to its mark: the zone, the session, the noted version, and whether it has
/// ended and was cancelled.
fn put_status_head(buf: &mut [u8], at: u64, seen: u64, status: &StatusRow) -> u64
    ensures length { length buf.new ≡ length buf.old }
    ensures told { (all : List ℕ) → KeepsPart at seen all buf.old →
        KeepsPart at result (all ++ status_head status.now) buf.new }
{
    let placed = put(buf, at, seen, &status.zone.to_be_bytes());
    let begun = put(buf, at, placed, &status.session.to_be_bytes());
    let noted = put_version(buf, at, begun, &status.noted);
    let ended = put_truth(buf, at, noted, status.completed);
    put_truth(buf, at, ended, status.cancelled)
}

/// Tells a status from its mark on: the mark and the two counts of files.
fn put_status_rest(buf: &mut [u8], at: u64, seen: u64, status: &StatusRow) -> u64
    ensures length { length buf.new ≡ length buf.old }
    ensures told { (all : List ℕ) → KeepsPart at seen all buf.old →
        KeepsPart at result (all ++ status_rest status.now) buf.new }
{
    let marked = put_opt_path(buf, at, seen, &status.mark);
    let counted = put(buf, at, marked, &status.reencrypted.to_be_bytes());
    put(buf, at, counted, &status.failed.to_be_bytes())
}

/// Tells a status.
pub fn put_status(buf: &mut [u8], at: u64, seen: u64, status: &StatusRow) -> u64
    ensures length { length buf.new ≡ length buf.old }
    ensures told { (all : List ℕ) → KeepsPart at seen all buf.old →
        KeepsPart at result (all ++ status_field status.now) buf.new }
{
    let marked = put_status_head(buf, at, seen, status);
    put_status_rest(buf, at, marked, status)
}
