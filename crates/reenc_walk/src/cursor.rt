//! The place at which a walk goes on.
ghost use Rattle.std.specs.Prelude.{◌≡◌, ◌<◌, Some, length, slice_get, IfOk};
ghost use Rattle.name_calls.specs.Paths.{is_before};
ghost use Rattle.inode_tree.specs.Rows.{Entry};
ghost use Rattle.reenc_walk.specs.Steps.{IsStart, is_past};

use hk_base::NoMemory;
use inode_tree::Tree;
use name_calls::NPath;
use std::cmp::Ordering;

/// Returns whether a path comes before another one.
fn comes_before(path: &NPath, other: &NPath) -> bool
    ensures { result ≡ is_before path.now other.now }
{
    let mut k = 0;
    while k < path.len() && k < other.len() {
        let name = path.name(k).as_str().as_bytes();
        match name.cmp(other.name(k).as_str().as_bytes()) {
            Ordering::Less => return true,
            Ordering::Equal => {}
            Ordering::Greater => return false,
        }
        k += 1;
    }
    path.len() < other.len()
}

/// Returns whether the row at a place does not lie below a directory, or comes after a path in it.
fn is_past(tree: &Tree, at: u32, dir: &NPath, cursor: &NPath) -> Result<bool, NoMemory>
    requires { at < length tree.now.rows }
    ensures { (e : Entry) → slice_get tree.now.rows at ≡ Some e →
        IfOk result (λ past. past ≡ is_past dir.now (Some cursor.now) e) }
{
    if !tree.place_is_below(at, dir) {
        return Ok(true);
    }
    let path = tree.path_from(at, dir.len())?;
    Ok(comes_before(cursor, &path))
}

/// Returns the place from which on the rows below a directory come after a path in it. Returns
/// `NoMemory` if allocation fails.
fn place_after(tree: &Tree, dir: &NPath, cursor: &NPath) -> Result<u32, NoMemory>
    ensures { IfOk result (λ place. IsStart tree.now.rows dir.now (Some cursor.now) place) }
{
    let mut low = tree.place(dir);
    let mut high = tree.rows();
    while low < high {
        let middle = low + (high - low) / 2;
        if is_past(tree, middle, dir, cursor)? {
            high = middle;
        } else {
            low = middle + 1;
        }
    }
    Ok(low)
}

/// Returns the place from which on the rows below a directory come after the cursor, or of the first
/// of these rows if there is no cursor. Returns `NoMemory` if allocation fails.
pub fn start_of(tree: &Tree, dir: &NPath, cursor: &Option<NPath>) -> Result<u32, NoMemory>
    ensures { IfOk result (λ place. IsStart tree.now.rows dir.now cursor.now place) }
{
    match cursor {
        None => {
            let _ = tree.rows();
            Ok(tree.place(dir))
        }
        Some(path) => place_after(tree, dir, path),
    }
}
