//! Whether rows, names and kids are the same.
ghost use Rattle.std.specs.Prelude.{◌≡◌, ◌↔◌, IsTrue};

use hk_base::{Edek, KeyName};
use inode_tree::{Kind, Row};

pub fn are_same_bytes(bytes: &[u8], other: &[u8]) -> bool
    ensures { IsTrue result ↔ (bytes.now ≡ other.now) }
{
    bytes == other
}

pub fn are_same_numbers(numbers: &[u32], other: &[u32]) -> bool
    ensures { IsTrue result ↔ (numbers.now ≡ other.now) }
{
    numbers == other
}

fn is_same_key(key: &KeyName, other: &KeyName) -> bool
    ensures { IsTrue result ↔ (key.now ≡ other.now) }
{
    are_same_bytes(key.as_bytes(), other.as_bytes())
}

fn is_same_mark(mark: &Option<KeyName>, other: &Option<KeyName>) -> bool
    ensures { IsTrue result ↔ (mark.now ≡ other.now) }
{
    match (mark, other) {
        (None, None) => true,
        (None, Some(_)) => false,
        (Some(_), None) => false,
        (Some(key), Some(other)) => is_same_key(key, other),
    }
}

fn is_same_edek(edek: &Edek, other: &Edek) -> bool
    ensures { IsTrue result ↔ (edek.now ≡ other.now) }
{
    let same_key = is_same_key(&edek.version.key, &other.version.key);
    let same_number = edek.version.number == other.version.number;
    let same_iv = are_same_bytes(edek.iv.as_bytes(), other.iv.as_bytes());
    let same_sealed = are_same_bytes(edek.sealed.as_bytes(), other.sealed.as_bytes());
    same_key && same_number && same_iv && same_sealed
}

fn is_same_content(edek: &Option<Edek>, other: &Option<Edek>) -> bool
    ensures { IsTrue result ↔ (edek.now ≡ other.now) }
{
    match (edek, other) {
        (None, None) => true,
        (None, Some(_)) => false,
        (Some(_), None) => false,
        (Some(edek), Some(other)) => is_same_edek(edek, other),
    }
}

fn is_same_kind(kind: &Kind, other: &Kind) -> bool
    ensures { IsTrue result ↔ (kind.now ≡ other.now) }
{
    match kind {
        Kind::Dir { key } => match other {
            Kind::Dir { key: other } => is_same_mark(key, other),
            Kind::File { .. } => false,
        },
        Kind::File { edek } => match other {
            Kind::Dir { .. } => false,
            Kind::File { edek: other } => is_same_content(edek, other),
        },
    }
}

/// Returns whether two rows have the same id and the same kind.
pub fn is_same_row(row: &Row, other: &Row) -> bool
    ensures { IsTrue result ↔ (row.now ≡ other.now) }
{
    let same_id = row.id == other.id;
    let same_kind = is_same_kind(&row.kind, &other.kind);
    same_id && same_kind
}
