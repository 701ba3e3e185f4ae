//! The two selectors of a compacted log: which one counts, and the area that it names.
ghost use Rattle.std.specs.Prelude.{◌≡◌, ◌≤◌, ◌<◌, ◌^◌, ◌+◌, ℕ, None, MatchOption, length, IfOk, IfSome, OnOk, IsErrOf, if◌then◌else◌, option_map};
ghost use Rattle.hk_base.specs.Disk.{Tells, Reads, RunOn, LeavesOnly, piece};
ghost use Rattle.hk_base.specs.Faults.{Rose};
ghost use Rattle.frame_log.specs.declared.fault.LogFault.TheVariants.{Damaged, StoreFault};
ghost use Rattle.frame_log.specs.FormatTwo.{Damage, byte_at, counting, on_moved, selector_in};
ghost use Rattle.frame_log.specs.FoundIn.{as_selector, Chooses, IsChoice, IsChosen, moving_from};

use crate::LogFault;
use crate::gates::OPEN;
use crate::log::Selected;
use crate::walking::number_of;
use hk_base::Disk;

/// The number of bytes of the two selectors.
pub(crate) const SELECTORS_SIZE: u64 = 34;

/// A selector as it stands in the file.
#[derive(Clone, Copy)]
pub(crate) struct ReadSelector {
    pub gate: u8,
    pub turn: u64,
    pub place: u64,
}

/// The selector that counts, and the gate byte of the other one.
#[derive(Clone, Copy)]
pub(crate) struct Choice {
    pub selected: Selected,
    pub other: u8,
}

/// Decodes the 17 bytes of a selector.
fn selector_of(bytes: &[u8]) -> ReadSelector
    requires { length bytes.now ≡ 17 }
    ensures { as_selector result ≡ selector_in bytes.now }
{
    ReadSelector {
        gate: bytes[0],
        turn: number_of(&bytes[1..9]),
        place: number_of(&bytes[9..]),
    }
}

/// Returns whether the second of two selectors counts, and `None` if neither does.
fn second_counts(first: ReadSelector, second: ReadSelector) -> Option<bool>
    ensures counts { counting (as_selector first) (as_selector second) ≡
        option_map (λ is. if is then as_selector second else as_selector first) result }
    ensures gate { IfSome result (λ is. (if is then second else first).gate ≡ 1) }
{
    if first.gate != OPEN {
        if second.gate != OPEN {
            return None;
        }
        return Some(true);
    }
    if second.gate != OPEN {
        return Some(false);
    }
    if second.turn == first.turn.wrapping_add(1) {
        return Some(true);
    }
    if first.turn == second.turn.wrapping_add(1) {
        return Some(false);
    }
    None
}

/// Returns the one of two selectors at an offset that counts.
fn choose(selectors: u64, first: ReadSelector, second: ReadSelector) -> Option<Choice>
    ensures { MatchOption result (counting (as_selector first) (as_selector second) ≡ None)
        (λ c. Chooses selectors (as_selector first) (as_selector second) c) }
{
    match second_counts(first, second) {
        None => return None,
        Some(true) => {
            let selected = Selected {
                selectors,
                second: true,
                turn: second.turn,
                place: second.place,
            };
            return Some(Choice {
                selected,
                other: first.gate,
            });
        }
        Some(false) => {
            let selected = Selected {
                selectors,
                second: false,
                turn: first.turn,
                place: first.place,
            };
            return Some(Choice {
                selected,
                other: second.gate,
            });
        }
    }
}

/// Reads as many bytes of a file from an offset on as the buffer has.
pub(crate) fn read_all<D: Disk>(
    disk: &mut D,
    file: u8,
    at: u64,
    buf: &mut [u8],
) -> Result<(), LogFault>
    requires file { file < 2 }
    requires place { Tells (D.state disk.old) →
        at + length buf.old ≤ length ((D.state disk.old).reads file) }

    ensures bytes { OnOk result
        (Tells (D.state disk.old) →
        buf.new ≡ piece at (length buf.new) ((D.state disk.old).reads file)) }
    ensures damaged { (e : ℕ) → IsErrOf result (Damaged e) → ⊥ }
    ensures cause { IsErrOf result StoreFault →
        Rose (D.state disk.old).faults (D.state disk.new).faults }
    ensures same { Reads file (D.state disk.old) (D.state disk.new) }
    ensures run { RunOn file (D.state disk.old) (D.state disk.new) }
    ensures moments { LeavesOnly file (D.state disk.old) (D.state disk.new)
        ((D.state disk.old).leaves file) }
{
    disk.read(file, at, buf)?;
    Ok(())
}

/// Reads the byte of a file at an offset.
fn read_byte<D: Disk>(disk: &mut D, file: u8, at: u64) -> Result<u8, LogFault>
    requires file { file < 2 }
    requires place { Tells (D.state disk.old) →
        at + 1 ≤ length ((D.state disk.old).reads file) }

    ensures byte { IfOk result
        (λ b. Tells (D.state disk.old) → byte_at at ((D.state disk.old).reads file) ≡ b) }
    ensures damaged { (e : ℕ) → IsErrOf result (Damaged e) → ⊥ }
    ensures cause { IsErrOf result StoreFault →
        Rose (D.state disk.old).faults (D.state disk.new).faults }
    ensures same { Reads file (D.state disk.old) (D.state disk.new) }
    ensures run { RunOn file (D.state disk.old) (D.state disk.new) }
    ensures moments { LeavesOnly file (D.state disk.old) (D.state disk.new)
        ((D.state disk.old).leaves file) }
{
    let mut byte = [0u8; 1];
    read_all(disk, file, at, &mut byte)?;
    Ok(byte[0])
}

/// Reads the two selectors at an offset, and returns the one that counts.
fn read_selectors<D: Disk>(disk: &mut D, file: u8, at: u64) -> Result<Option<Choice>, LogFault>
    requires file { file < 2 }
    requires place { Tells (D.state disk.old) →
        at + 34 ≤ length ((D.state disk.old).reads file) }

    ensures choice { IfOk result
        (λ choice. Tells (D.state disk.old) →
        IsChosen ((D.state disk.old).reads file) at choice) }
    ensures damaged { (e : ℕ) → IsErrOf result (Damaged e) → ⊥ }
    ensures cause { IsErrOf result StoreFault →
        Rose (D.state disk.old).faults (D.state disk.new).faults }
    ensures same { Reads file (D.state disk.old) (D.state disk.new) }
    ensures run { RunOn file (D.state disk.old) (D.state disk.new) }
    ensures moments { LeavesOnly file (D.state disk.old) (D.state disk.new)
        ((D.state disk.old).leaves file) }
{
    let mut bytes = [0u8; 34];
    read_all(disk, file, at, &mut bytes)?;
    let first = selector_of(&bytes[..17]);
    let second = selector_of(&bytes[17..]);
    Ok(choose(at, first, second))
}

/// Reads the selectors that Moved names, whose gate is at an offset, and returns the one that counts.
/// Returns `Damaged` at that gate if Moved names another place than the one behind the gate that
/// follows it, or if this gate is open, and at the selectors if they don't lie in the file or none
/// counts.
pub(crate) fn read_choice<D: Disk>(
    disk: &mut D,
    file: u8,
    size: u64,
    gate: u64,
    place: u64,
) -> Result<Choice, LogFault>
    requires file { file < 2 }
    requires limit { size ≤ 2 ^ 62 }
    requires gate { gate + 15 ≤ size }
    requires size { Tells (D.state disk.old) → size ≡ length ((D.state disk.old).reads file) }

    ensures choice { IfOk result
        (λ c. Tells (D.state disk.old) →
        IsChoice ((D.state disk.old).reads file) gate place c) }
    ensures room { OnOk result (place + 34 ≤ size) }
    ensures damaged { (at : ℕ) → IsErrOf result (Damaged at) → Tells (D.state disk.old) →
        on_moved ((D.state disk.old).reads file)
        (moving_from gate place ((D.state disk.old).reads file)) ≡ Damage at }
    ensures cause { IsErrOf result StoreFault →
        Rose (D.state disk.old).faults (D.state disk.new).faults }
    ensures same { Reads file (D.state disk.old) (D.state disk.new) }
    ensures run { RunOn file (D.state disk.old) (D.state disk.new) }
    ensures moments { LeavesOnly file (D.state disk.old) (D.state disk.new)
        ((D.state disk.old).leaves file) }
{
    if place != gate + 15 {
        return Err(LogFault::Damaged { at: gate });
    }
    let end = read_byte(disk, file, gate + 14)?;
    if end == OPEN {
        return Err(LogFault::Damaged { at: gate });
    }
    if size - place < SELECTORS_SIZE {
        return Err(LogFault::Damaged { at: place });
    }
    match read_selectors(disk, file, place)? {
        Some(choice) => return Ok(choice),
        None => return Err(LogFault::Damaged { at: place }),
    }
}
