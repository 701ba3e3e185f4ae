//! Telling the image of an index. Older materials are read from the file of the key log.
ghost use Rattle.std.specs.Prelude.{◌≡◌, ◌+◌, ◌<◌, ◌≤◌, ◌++◌, List, ℕ, IfOk, IsTrue, OnErr, length};
ghost use Rattle.std.specs.List.{AllByRecursion, HoldsAt};
ghost use Rattle.hk_base.specs.Disk.{LeavesOnly, Reads, RunOn, Tells, piece};
ghost use Rattle.hk_base.specs.Faults.{Rose};
ghost use Rattle.hk_base.specs.Names.{is_key_length};
ghost use Rattle.key_rows.specs.Image.{key_image, key_row_image};
ghost use Rattle.image_parts.specs.Parts.{KeepsPart};
ghost use Rattle.key_images.specs.Sources.{AreIn, LiesIn, bytes_of, older_bytes, row_by, table_by};

use crate::parts::{put_head, put_top};
use crate::sizes::row_size;
use hk_base::{Disk, Failed};
use image_parts::{pass, put};
use key_index::{KeyIndex, read_material};

/// Tells a material of `len` bytes, 16, 24 or 32, that is at an offset of the key log. Reads it only if
/// some of it has a place in the buffer.
fn put_older<D: Disk>(
    disk: &mut D,
    buf: &mut [u8],
    at: u64,
    seen: u64,
    place: u64,
    len: usize,
) -> Result<u64, Failed>
    requires size { IsTrue (is_key_length len) }
    requires within { Tells (D.state disk.old) →
        place + len ≤ length ((D.state disk.old).reads 0) }
    ensures length { length buf.new ≡ length buf.old }
    ensures told { IfOk result
        (λ told. Tells (D.state disk.old) → (all : List ℕ) → KeepsPart at seen all buf.old →
        KeepsPart at told (all ++ piece place len ((D.state disk.old).reads 0)) buf.new) }
    ensures cause { OnErr result (Rose (D.state disk.old).faults (D.state disk.new).faults) }
    ensures same { Reads 0 (D.state disk.old) (D.state disk.new) }
    ensures run { RunOn 0 (D.state disk.old) (D.state disk.new) }
    ensures moments { LeavesOnly 0 (D.state disk.old) (D.state disk.new)
        ((D.state disk.old).leaves 0) }
{
    match pass(buf, at, seen, len as u64) {
        Some(told) => Ok(told),
        None => {
            let material = read_material(disk, place, len)?;
            Ok(put(buf, at, seen, material.as_bytes()))
        }
    }
}

/// Tells the older materials of the key of a number.
fn put_olders<D: Disk>(
    index: &KeyIndex,
    number: u32,
    disk: &mut D,
    buf: &mut [u8],
    at: u64,
    seen: u64,
) -> Result<u64, Failed>
    requires number { number < length index.now.index.rows }
    requires within { Tells (D.state disk.old) →
        HoldsAt (LiesIn 0 (length ((D.state disk.old).reads 0))) index.now.index.rows number }
    ensures length { length buf.new ≡ length buf.old }
    ensures told { IfOk result
        (λ told. Tells (D.state disk.old) →
        HoldsAt (λ placed. (all : List ℕ) → KeepsPart at seen all buf.old →
        KeepsPart at told (all ++ older_bytes ((D.state disk.old).reads 0) placed) buf.new)
        index.now.index.rows number) }
    ensures cause { OnErr result (Rose (D.state disk.old).faults (D.state disk.new).faults) }
    ensures same { Reads 0 (D.state disk.old) (D.state disk.new) }
    ensures run { RunOn 0 (D.state disk.old) (D.state disk.new) }
    ensures moments { LeavesOnly 0 (D.state disk.old) (D.state disk.new)
        ((D.state disk.old).leaves 0) }
{
    let row = index.row(number);
    let len = row.bits as usize / 8;
    let mut told = seen;
    for version in 0..row.versions - 1 {
        let place = index.place_in(number, version as u16);
        match put_older(disk, buf, at, told, place, len) {
            Err(failed) => return Err(failed),
            Ok(next) => told = next,
        }
    }
    Ok(told)
}

/// Tells the key of a number. Passes it at once if none of it has a place in the buffer.
fn put_row<D: Disk>(
    index: &KeyIndex,
    number: u32,
    disk: &mut D,
    buf: &mut [u8],
    at: u64,
    seen: u64,
) -> Result<u64, Failed>
    requires number { number < length index.now.index.rows }
    requires within { Tells (D.state disk.old) →
        HoldsAt (LiesIn 0 (length ((D.state disk.old).reads 0))) index.now.index.rows number }
    ensures length { length buf.new ≡ length buf.old }
    ensures told { IfOk result
        (λ told. Tells (D.state disk.old) →
        HoldsAt (λ placed. (all : List ℕ) → KeepsPart at seen all buf.old →
        KeepsPart at told (all ++ key_row_image (row_by (bytes_of ((D.state disk.old).reads 0)) placed)) buf.new)
        index.now.index.rows number) }
    ensures cause { OnErr result (Rose (D.state disk.old).faults (D.state disk.new).faults) }
    ensures same { Reads 0 (D.state disk.old) (D.state disk.new) }
    ensures run { RunOn 0 (D.state disk.old) (D.state disk.new) }
    ensures moments { LeavesOnly 0 (D.state disk.old) (D.state disk.new)
        ((D.state disk.old).leaves 0) }
{
    let _ = index.opening(); // says that the rows are sound
    let row = index.row(number);
    match pass(buf, at, seen, row_size(row)) {
        Some(told) => return Ok(told),
        None => {
            let head = put_head(buf, at, seen, row);
            match put_olders(index, number, disk, buf, at, head) {
                Err(failed) => return Err(failed),
                Ok(older) => return Ok(put(buf, at, older, row.current.as_bytes())),
            }
        }
    }
}

/// Tells the image of the index of a file that has each material. Returns how many bytes were told.
pub(crate) fn put_image<D: Disk>(
    index: &KeyIndex,
    disk: &mut D,
    at: u64,
    buf: &mut [u8],
) -> Result<u64, Failed>
    requires within { Tells (D.state disk.old) →
        AreIn 0 (length ((D.state disk.old).reads 0)) index.now.index }
    ensures length { length buf.new ≡ length buf.old }
    ensures told { IfOk result
        (λ told. Tells (D.state disk.old) →
        KeepsPart at told (key_image (table_by (bytes_of ((D.state disk.old).reads 0)) index.now.index)) buf.new) }
    ensures cause { OnErr result (Rose (D.state disk.old).faults (D.state disk.new).faults) }
    ensures same { Reads 0 (D.state disk.old) (D.state disk.new) }
    ensures run { RunOn 0 (D.state disk.old) (D.state disk.new) }
    ensures moments { LeavesOnly 0 (D.state disk.old) (D.state disk.new)
        ((D.state disk.old).leaves 0) }
{
    let mut told = put_top(buf, at, index);
    for number in 0..index.count() {
        match put_row(index, number, disk, buf, at, told) {
            Err(failed) => return Err(failed),
            Ok(next) => told = next,
        }
    }
    Ok(told)
}
