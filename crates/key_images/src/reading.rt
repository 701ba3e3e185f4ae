//! Reading an image from the file of the key log.
ghost use Rattle.std.specs.Prelude.{◌≡◌, ◌+◌, ◌-◌, ◌≤◌, ◌^◌, ℕ, length, IfOk, IsErrOf};
ghost use Rattle.hk_base.specs.Disk.{LeavesOnly, Reads, RunOn, Tells, piece};
ghost use Rattle.hk_base.specs.Faults.{Rose};
ghost use Rattle.frame_log.specs.declared.fault.LogFault.TheVariants as log;
ghost use Rattle.frame_log.specs.declared.fault.StartFault.TheVariants as start;
ghost use Rattle.key_images.specs.Images.{IsIndexOfImage, IsNoImage};

use crate::table::index_of;
use frame_log::{ImageSpan, LogFault, StartFault};
use hk_base::{Disk, RecordFault};
use key_index::KeyIndex;
use std::alloc::Global;

/// The file of the disk with the key log.
const KEYS: u8 = 0;

/// Reads the bytes of an image. There are fewer only if the disk doesn't tell what its files hold.
fn load<D: Disk>(alloc: Global, disk: &mut D, span: &ImageSpan) -> Result<Vec<u8>, LogFault>
    requires end { span.now.place + span.now.size ≤ 2 ^ 62 }
    requires within { Tells (D.state disk.old) →
        span.now.place + span.now.size ≤ length ((D.state disk.old).reads 0) }
    ensures bytes { IfOk result
        (λ bytes. Tells (D.state disk.old) →
        bytes.items ≡ piece span.now.place span.now.size ((D.state disk.old).reads 0)) }
    ensures most { IfOk result (λ bytes. length bytes.items ≤ span.now.size) }
    ensures fault { (at : ℕ) → IsErrOf result (log.Damaged at) → ⊥ }
    ensures cause { IsErrOf result log.StoreFault →
        Rose (D.state disk.old).faults (D.state disk.new).faults }
    ensures same { Reads 0 (D.state disk.old) (D.state disk.new) }
    ensures run { RunOn 0 (D.state disk.old) (D.state disk.new) }
    ensures moments { LeavesOnly 0 (D.state disk.old) (D.state disk.new)
        ((D.state disk.old).leaves 0) }
{
    let mut bytes = vec![in alloc; 0u8; span.size as usize]?;
    let count = disk.read(KEYS, span.place, &mut bytes)?;
    bytes.truncate(count);
    Ok(bytes)
}

/// Reads the image of a table of keys, which lies in the file of the key log, and makes the index that
/// stands for the table. Each material is at its place in the image. Memory has the whole image meanwhile.
///
/// Returns `Damaged` with the offset of the area that the image is in, 8 bytes before the image, exactly
/// if the bytes are not the image of any table. Never returns `Spent`.
pub fn read_key_image<D: Disk>(
    alloc: Global,
    disk: &mut D,
    span: &ImageSpan,
) -> Result<KeyIndex, StartFault>
    requires place { 8 ≤ span.now.place }
    requires end { span.now.place + span.now.size ≤ 2 ^ 62 }
    requires within { Tells (D.state disk.old) →
        span.now.place + span.now.size ≤ length ((D.state disk.old).reads 0) }
    ensures read { IfOk result
        (λ index. Tells (D.state disk.old) →
        IsIndexOfImage (piece span.now.place span.now.size ((D.state disk.old).reads 0))
        span.now.place index.index) }
    ensures area { (at : ℕ) → IsErrOf result (start.Damaged at) → at ≡ span.now.place - 8 }
    ensures damaged { (at : ℕ) → IsErrOf result (start.Damaged at) → Tells (D.state disk.old) →
        IsNoImage (piece span.now.place span.now.size ((D.state disk.old).reads 0)) }
    ensures spent { IsErrOf result start.Spent → ⊥ }
    ensures cause { IsErrOf result start.StoreFault →
        Rose (D.state disk.old).faults (D.state disk.new).faults }
    // A crash at any moment of the call leaves what it might have left before.
    ensures same { Reads 0 (D.state disk.old) (D.state disk.new) }
    ensures run { RunOn 0 (D.state disk.old) (D.state disk.new) }
    ensures moments { LeavesOnly 0 (D.state disk.old) (D.state disk.new)
        ((D.state disk.old).leaves 0) }
{
    let bytes = load(alloc, disk, span)?;
    match index_of(alloc, span.place + span.size, bytes.as_slice()) {
        Ok(index) => return Ok(index),
        Err(RecordFault::NoRecord) => {
            return Err(StartFault::Damaged { at: span.place - 8 });
        }
        Err(RecordFault::NoMemory) => return Err(StartFault::NoMemory),
    }
}
