//! Reading a log of either format, before it is opened. Nothing is written, and neither payloads nor an
//! image are kept.
ghost use Rattle.std.specs.Prelude.{◌≡◌, ◌≤◌, ◌<◌, ◌^◌, ◌+◌, ℕ, length, drop, true, false, IfOk, OnOk, IsErrOf};
ghost use Rattle.std.specs.Int.{w64, to_be_bytes};
ghost use Rattle.hk_base.specs.Disk.{Tells, Reads, RunOn, LeavesOnly, piece};
ghost use Rattle.hk_base.specs.Faults.{Rose};
ghost use Rattle.frame_log.specs.declared.fault.LogFault.TheVariants.{Damaged, StoreFault};
ghost use Rattle.frame_log.specs.Format.{magic, starts_with};
ghost use Rattle.frame_log.specs.FormatTwo.{Damage, area_in, log_in};
ghost use Rattle.frame_log.specs.FoundIn.{IsAreaIn, IsFoundIn, Moves};

use crate::LogFault;
use crate::log::{Selected, is_magic};
use crate::selecting::{SELECTORS_SIZE, read_all, read_choice};
use crate::walking::{Stop, number_of, walk};
use hk_base::Disk;
use std::alloc::Global;

/// The number of bytes of the size of an image.
const COUNT_SIZE: u64 = 8;

/// The frames of an area: the offset of the first one's gate, that of the end gate, and its byte.
#[derive(Clone, Copy)]
pub(crate) struct AreaFound {
    pub first: u64,
    pub end: u64,
    pub gate: u8,
}

/// What the bytes of a log of either format say: where the log goes on if it was compacted, the gate byte
/// of the selector that doesn't count (0 if it wasn't), the offset of the first frame's gate, that of the
/// end gate, and its byte.
#[derive(Clone, Copy)]
pub(crate) struct LogFound {
    pub area: Option<Selected>,
    pub other: u8,
    pub first: u64,
    pub end: u64,
    pub gate: u8,
}

/// Reads the first eight bytes of a file. Returns `Damaged` at 0 exactly if they aren't its magic.
fn read_magic<D: Disk>(disk: &mut D, file: u8) -> Result<(), LogFault>
    requires file { file < 2 }
    requires size { Tells (D.state disk.old) → 8 ≤ length ((D.state disk.old).reads file) }

    ensures magic { OnOk result
        (Tells (D.state disk.old) →
        starts_with (magic file) ((D.state disk.old).reads file) ≡ true) }
    ensures damaged { (at : ℕ) → IsErrOf result (Damaged at) → Tells (D.state disk.old) →
        (starts_with (magic file) ((D.state disk.old).reads file) ≡ false) × (at ≡ 0) }
    ensures cause { IsErrOf result StoreFault →
        Rose (D.state disk.old).faults (D.state disk.new).faults }
    ensures same { Reads file (D.state disk.old) (D.state disk.new) }
    ensures run { RunOn file (D.state disk.old) (D.state disk.new) }
    ensures moments { LeavesOnly file (D.state disk.old) (D.state disk.new)
        ((D.state disk.old).leaves file) }
{
    let mut head = [0u8; 8];
    read_all(disk, file, 0, &mut head)?;
    if !is_magic(file, &head) {
        return Err(LogFault::Damaged { at: 0 });
    }
    Ok(())
}

/// Reads the number of 64 bits at an offset.
fn read_number<D: Disk>(disk: &mut D, file: u8, at: u64) -> Result<u64, LogFault>
    requires file { file < 2 }
    requires place { Tells (D.state disk.old) →
        at + 8 ≤ length ((D.state disk.old).reads file) }

    ensures number { IfOk result
        (λ n. Tells (D.state disk.old) →
        to_be_bytes w64 n ≡ piece at 8 ((D.state disk.old).reads file)) }
    ensures damaged { (e : ℕ) → IsErrOf result (Damaged e) → ⊥ }
    ensures cause { IsErrOf result StoreFault →
        Rose (D.state disk.old).faults (D.state disk.new).faults }
    ensures same { Reads file (D.state disk.old) (D.state disk.new) }
    ensures run { RunOn file (D.state disk.old) (D.state disk.new) }
    ensures moments { LeavesOnly file (D.state disk.old) (D.state disk.new)
        ((D.state disk.old).leaves file) }
{
    let mut bytes = [0u8; 8];
    read_all(disk, file, at, &mut bytes)?;
    Ok(number_of(&bytes))
}

/// Passes the image and the frames of the area at an offset, which may be any number. Returns `Damaged` at
/// that offset if the image doesn't lie in the file with a byte behind it, and at a gate byte 1 that no
/// frame follows.
fn pass_area<D: Disk>(
    alloc: Global,
    disk: &mut D,
    file: u8,
    size: u64,
    place: u64,
) -> Result<AreaFound, LogFault>
    requires file { file < 2 }
    requires some { 8 ≤ size }
    requires limit { size ≤ 2 ^ 62 }
    requires size { Tells (D.state disk.old) → size ≡ length ((D.state disk.old).reads file) }

    ensures area { IfOk result
        (λ found. Tells (D.state disk.old) →
        IsAreaIn ((D.state disk.old).reads file) place found) }
    ensures damaged { (at : ℕ) → IsErrOf result (Damaged at) → Tells (D.state disk.old) →
        area_in size place (drop place ((D.state disk.old).reads file)) ≡ Damage at }
    ensures cause { IsErrOf result StoreFault →
        Rose (D.state disk.old).faults (D.state disk.new).faults }
    ensures same { Reads file (D.state disk.old) (D.state disk.new) }
    ensures run { RunOn file (D.state disk.old) (D.state disk.new) }
    ensures moments { LeavesOnly file (D.state disk.old) (D.state disk.new)
        ((D.state disk.old).leaves file) }
{
    if size - COUNT_SIZE < place {
        return Err(LogFault::Damaged { at: place });
    }
    let image = read_number(disk, file, place)?;
    if size - COUNT_SIZE - place <= image {
        return Err(LogFault::Damaged { at: place });
    }
    let first = place + COUNT_SIZE + image;
    match walk(alloc, disk, file, size, first, false)? {
        Stop::End { at, gate } => {
            return Ok(AreaFound {
                first,
                end: at,
                gate,
            });
        }
        Stop::Moved { .. } => unreachable!(),
    }
}

/// Reads on where Moved is found: `gate` is the offset of its gate, `place` what it names.
fn read_moved<D: Disk>(
    alloc: Global,
    disk: &mut D,
    file: u8,
    size: u64,
    gate: u64,
    place: u64,
) -> Result<LogFound, LogFault>
    requires file { file < 2 }
    requires limit { size ≤ 2 ^ 62 }
    requires gate { gate + 15 ≤ size }
    requires size { Tells (D.state disk.old) → size ≡ length ((D.state disk.old).reads file) }
    requires moves { Tells (D.state disk.old) →
        Moves file ((D.state disk.old).reads file) gate place }

    ensures found { IfOk result
        (λ found. Tells (D.state disk.old) →
        IsFoundIn file ((D.state disk.old).reads file) found) }
    ensures damaged { (at : ℕ) → IsErrOf result (Damaged at) → Tells (D.state disk.old) →
        log_in file ((D.state disk.old).reads file) ≡ Damage at }
    ensures cause { IsErrOf result StoreFault →
        Rose (D.state disk.old).faults (D.state disk.new).faults }
    ensures same { Reads file (D.state disk.old) (D.state disk.new) }
    ensures run { RunOn file (D.state disk.old) (D.state disk.new) }
    ensures moments { LeavesOnly file (D.state disk.old) (D.state disk.new)
        ((D.state disk.old).leaves file) }
{
    let choice = read_choice(disk, file, size, gate, place)?;
    let area = choice.selected.place;
    if area < place + SELECTORS_SIZE {
        return Err(LogFault::Damaged { at: area });
    }
    let found = pass_area(alloc, disk, file, size, area)?;
    Ok(LogFound {
        area: Some(choice.selected),
        other: choice.other,
        first: found.first,
        end: found.end,
        gate: found.gate,
    })
}

/// Reads a log of either format, of more than 9 bytes. Returns `Damaged` exactly if the file is not a log,
/// with the offset that says where it breaks.
pub(crate) fn read_log<D: Disk>(
    alloc: Global,
    disk: &mut D,
    file: u8,
    size: u64,
) -> Result<LogFound, LogFault>
    requires file { file < 2 }
    requires place { 9 < size }
    requires limit { size ≤ 2 ^ 62 }
    requires size { Tells (D.state disk.old) → size ≡ length ((D.state disk.old).reads file) }

    ensures found { IfOk result
        (λ found. Tells (D.state disk.old) →
        IsFoundIn file ((D.state disk.old).reads file) found) }
    ensures damaged { (at : ℕ) → IsErrOf result (Damaged at) → Tells (D.state disk.old) →
        log_in file ((D.state disk.old).reads file) ≡ Damage at }
    ensures cause { IsErrOf result StoreFault →
        Rose (D.state disk.old).faults (D.state disk.new).faults }
    ensures same { Reads file (D.state disk.old) (D.state disk.new) }
    ensures run { RunOn file (D.state disk.old) (D.state disk.new) }
    ensures moments { LeavesOnly file (D.state disk.old) (D.state disk.new)
        ((D.state disk.old).leaves file) }
{
    read_magic(disk, file)?;
    match walk(alloc, disk, file, size, 8, true)? {
        Stop::End { at, gate } => {
            return Ok(LogFound {
                area: None,
                other: 0,
                first: 8,
                end: at,
                gate,
            });
        }
        Stop::Moved { at, place } => return read_moved(alloc, disk, file, size, at, place),
    }
}
