//! Compaction: the writes by which a log is to start from an image.
ghost use Rattle.std.specs.Prelude.{◌≡◌, ◌+◌, ◌<◌, ◌≤◌, ◌^◌, ◌++◌, [], ◌∷◌, ℕ, List, Option, None, Some, not, length, set, IfOk, IfSome, OnOk, OnErr};
ghost use Rattle.std.specs.List.{AllByRecursion};
ghost use Rattle.std.specs.Int.{w64, to_be_bytes};
ghost use Rattle.hk_base.specs.Disk.{DiskState, LeavesOnly, Only, RunOn, Tells, piece, written};
ghost use Rattle.hk_base.specs.Faults.{Rose};
ghost use Rattle.frame_log.specs.Format.{IsPayload, behind, front};
ghost use Rattle.frame_log.specs.FormatTwo.{IsOwn, holding, moved, next_turn};
ghost use Rattle.frame_log.specs.Bases.{Area, IsBase, IsWholeArea, MayFollow, area_base, area_start, front_of, front_on, start_of};
ghost use Rattle.frame_log.specs.Compacts.{CompactsTo, LeavesOneOf, OfEither, OfFirst, OfLog, OfSelected, ShutAt, StartsFrom, area_bytes, first_head, other_at};
ghost use Rattle.frame_log.specs.Stands.{Knows, NamesArea};
ghost use Rattle.frame_log.specs.Writes.{IsApart, WritesOn};

use crate::LogFault;
use crate::gates::{OPEN, SHUT};
use crate::image::Image;
use crate::log::{Log, Selected};
use hk_base::{Disk, Failed};
use std::alloc::Global;

/// The number of bytes of an image that are written at once.
const PART_SIZE: usize = 8_388_608;

/// Writes bytes at an offset and syncs the file.
fn put_synced<D: Disk>(disk: &mut D, file: u8, at: u64, bytes: &[u8]) -> Result<(), Failed>
    requires file { file < 2 }
    requires place { Tells (D.state disk.old) → at ≤ length ((D.state disk.old).reads file) }

    ensures written { OnOk result
        (Tells (D.state disk.old) →
        (D.state disk.new).reads file ≡ written at bytes.now ((D.state disk.old).reads file)) }
    ensures synced { OnOk result
        (Tells (D.state disk.old) →
        Only ((D.state disk.new).reads file) ((D.state disk.new).leaves file)) }
    ensures writes { Tells (D.state disk.old) →
        WritesOn file at (length bytes.now) (D.state disk.old) (D.state disk.new) }
    ensures run { RunOn file (D.state disk.old) (D.state disk.new) }
    ensures cause { OnErr result (Rose (D.state disk.old).faults (D.state disk.new).faults) }
{
    disk.write_at(file, at, bytes)?;
    disk.sync(file)?;
    Ok(())
}

/// Writes one byte of a synced file and syncs the file. A crash at any moment leaves the file as it was,
/// but for that byte.
fn turn_gate<D: Disk>(disk: &mut D, file: u8, at: u64, byte: u8) -> Result<(), Failed>
    requires file { file < 2 }
    requires place { Tells (D.state disk.old) → at < length ((D.state disk.old).reads file) }
    requires synced { Tells (D.state disk.old) →
        Only ((D.state disk.old).reads file) ((D.state disk.old).leaves file) }

    ensures turned { OnOk result
        (Tells (D.state disk.old) →
        (D.state disk.new).reads file ≡ set ((D.state disk.old).reads file) at byte) }
    ensures synced { OnOk result
        (Tells (D.state disk.old) →
        Only ((D.state disk.new).reads file) ((D.state disk.new).leaves file)) }
    ensures moments { Tells (D.state disk.old) →
        LeavesOnly file (D.state disk.old) (D.state disk.new)
        (λ c. (h : ℕ) × (c ≡ set ((D.state disk.old).reads file) at h)) }
    ensures run { RunOn file (D.state disk.old) (D.state disk.new) }
    ensures cause { OnErr result (Rose (D.state disk.old).faults (D.state disk.new).faults) }
{
    put_synced(disk, file, at, &[byte])?;
    Ok(())
}

/// Writes the bytes of an image at an offset, in parts of the buffer's length. What it leaves is what one
/// write of all of them may leave.
fn write_image<D: Disk, I: Image>(
    disk: &mut D,
    file: u8,
    at: u64,
    image: &I,
    size: u64,
    buf: &mut [u8],
) -> Result<(), Failed>
    requires file { file < 2 }
    requires own { I.file image.now ≡ file }
    requires room { 1 ≤ length buf.old }
    requires place { Tells (D.state disk.old) → at ≤ length ((D.state disk.old).reads file) }
    requires limit { at ≤ 2 ^ 63 }
    requires size { (held : List ℕ) → length held ≡ I.count image.now →
        size ≡ length (I.image image.now held) }
    requires small { size ≤ 2 ^ 30 }
    requires within { Tells (D.state disk.old) → I.from image.now + I.count image.now ≤
        length ((D.state disk.old).reads file) }
    requires apart { Tells (D.state disk.old) →
        IsApart at size (I.from image.now) (I.count image.now) }

    ensures written { OnOk result
        (Tells (D.state disk.old) →
        (D.state disk.new).reads file ≡
        written at
        (I.image image.now
        (piece (I.from image.now) (I.count image.now) ((D.state disk.old).reads file)))
        ((D.state disk.old).reads file)) }
    ensures writes { Tells (D.state disk.old) →
        WritesOn file at size (D.state disk.old) (D.state disk.new) }
    ensures length { length buf.new ≡ length buf.old }
    ensures run { RunOn file (D.state disk.old) (D.state disk.new) }
    ensures cause { OnErr result (Rose (D.state disk.old).faults (D.state disk.new).faults) }
{
    let mut done: u64 = 0;
    'parts: while done < size {
        let count = image.part(disk, done, buf)?;
        if count == 0 {
            return Ok(());
        }
        disk.write_at(file, at + done, &buf[..count])?;
        done = done + count as u64;
    }
    Ok(())
}

/// Writes an area without payloads at an offset: the size of the image, the image and an end gate. What
/// it leaves is what one write of all of them may leave.
fn write_area<D: Disk, I: Image>(
    disk: &mut D,
    file: u8,
    at: u64,
    image: &I,
    size: u64,
    buf: &mut [u8],
) -> Result<(), Failed>
    requires file { file < 2 }
    requires own { I.file image.now ≡ file }
    requires room { 1 ≤ length buf.old }
    requires place { Tells (D.state disk.old) → at ≤ length ((D.state disk.old).reads file) }
    requires limit { at ≤ 2 ^ 62 + 2 ^ 40 }
    requires size { (held : List ℕ) → length held ≡ I.count image.now →
        size ≡ length (I.image image.now held) }
    requires small { size ≤ 2 ^ 30 }
    requires within { Tells (D.state disk.old) → I.from image.now + I.count image.now ≤
        length ((D.state disk.old).reads file) }
    requires apart { Tells (D.state disk.old) →
        IsApart at (size + 9) (I.from image.now) (I.count image.now) }

    ensures written { OnOk result
        (Tells (D.state disk.old) →
        (D.state disk.new).reads file ≡
        written at
        (area_bytes
        (I.image image.now
        (piece (I.from image.now) (I.count image.now) ((D.state disk.old).reads file))))
        ((D.state disk.old).reads file)) }
    ensures limit { OnOk result (at + size + 9 ≤ 2 ^ 62) }
    ensures writes { Tells (D.state disk.old) →
        WritesOn file at (size + 9) (D.state disk.old) (D.state disk.new) }
    ensures length { length buf.new ≡ length buf.old }
    ensures run { RunOn file (D.state disk.old) (D.state disk.new) }
    ensures cause { OnErr result (Rose (D.state disk.old).faults (D.state disk.new).faults) }
{
    disk.write_at(file, at, &size.to_be_bytes())?;
    write_image(disk, file, at + 8, image, size, buf)?;
    disk.write_at(file, at + 8 + size, &[SHUT])?;
    Ok(())
}

/// Returns the bytes between the end gate of a log and its first area: room for the frame that says where
/// the log goes on, a selector that names the area, and one that is shut.
fn head_of(place: u64) -> [u8; 48]
    ensures { result ≡ first_head place }
{
    let p = place.to_be_bytes();
    [
        0, 0, 0, 0, 0, 0, 0, 0, 0, 0, 0, 0, 0, 0, OPEN, 0, 0, 0, 0, 0, 0, 0, 1, p[0], p[1], p[2],
        p[3], p[4], p[5], p[6], p[7], SHUT, 0, 0, 0, 0, 0, 0, 0, 0, 0, 0, 0, 0, 0, 0, 0, 0,
    ]
}

/// Returns the bytes behind the gate of the frame that says where the log goes on, and the end gate after
/// them.
fn moved_frame(selectors: u64) -> [u8; 14]
    ensures { result ≡ behind (moved selectors) ++ 0 ∷ [] }
{
    let q = selectors.to_be_bytes();
    [
        0, 0, 0, 9, 255, q[0], q[1], q[2], q[3], q[4], q[5], q[6], q[7], SHUT,
    ]
}

/// Writes the selectors and the first area behind the end gate of a log that was never compacted, and
/// syncs them.
fn stage_area<D: Disk, I: Image>(
    disk: &mut D,
    file: u8,
    end: u64,
    image: &I,
    size: u64,
    buf: &mut [u8],
) -> Result<(), Failed>
    requires file { file < 2 }
    requires own { I.file image.now ≡ file }
    requires room { 1 ≤ length buf.old }
    requires place { Tells (D.state disk.old) → end < length ((D.state disk.old).reads file) }
    requires limit { end ≤ 2 ^ 62 }
    requires size { (held : List ℕ) → length held ≡ I.count image.now →
        size ≡ length (I.image image.now held) }
    requires small { size ≤ 2 ^ 30 }
    requires before { Tells (D.state disk.old) → I.from image.now + I.count image.now ≤ end }

    ensures written { OnOk result
        (Tells (D.state disk.old) →
        (D.state disk.new).reads file ≡
        written (end + 1)
        (first_head (end + 49) ++
        area_bytes
        (I.image image.now
        (piece (I.from image.now) (I.count image.now) ((D.state disk.old).reads file))))
        ((D.state disk.old).reads file)) }
    ensures synced { OnOk result
        (Tells (D.state disk.old) →
        Only ((D.state disk.new).reads file) ((D.state disk.new).leaves file)) }
    ensures limit { OnOk result (end + size + 58 ≤ 2 ^ 62) }
    ensures writes { Tells (D.state disk.old) →
        WritesOn file (end + 1) (size + 57) (D.state disk.old) (D.state disk.new) }
    ensures length { length buf.new ≡ length buf.old }
    ensures run { RunOn file (D.state disk.old) (D.state disk.new) }
    ensures cause { OnErr result (Rose (D.state disk.old).faults (D.state disk.new).faults) }
{
    disk.write_at(file, end + 1, &head_of(end + 49))?;
    write_area(disk, file, end + 49, image, size, buf)?;
    disk.sync(file)?;
    Ok(())
}

/// Compacts a log that was never compacted, and returns where it goes on. The frame that says so is
/// appended last. A crash at any moment leaves what the log held, or the image alone.
fn migrate<D: Disk, I: Image>(
    disk: &mut D,
    file: u8,
    end: u64,
    image: &I,
    size: u64,
    buf: &mut [u8],
) -> Result<Selected, Failed>
    requires file { file < 2 }
    requires own { I.file image.now ≡ file }
    requires room { 1 ≤ length buf.old }
    requires limit { end ≤ 2 ^ 62 }
    requires size { (held : List ℕ) → length held ≡ I.count image.now →
        size ≡ length (I.image image.now held) }
    requires small { size ≤ 2 ^ 30 }
    requires before { Tells (D.state disk.old) → I.from image.now + I.count image.now ≤ end }
    requires stands { Tells (D.state disk.old) →
        ((payloads : List (List ℕ)) × AllByRecursion IsOwn payloads
        × ShutAt (front file payloads) file end (D.state disk.old)) }

    ensures moved { IfOk result
        (λ next. Tells (D.state disk.old) → OfFirst file end (D.state disk.old) (λ payloads.
        CompactsTo (I.image image.now) (I.from image.now) (I.count image.now) size file next
        (D.state disk.old) (D.state disk.new))) }
    ensures limit { IfOk result (λ next. next.place + size + 9 ≤ 2 ^ 62) }
    ensures selectors { IfOk result (λ next. next.selectors ≤ 2 ^ 62) }
    ensures any_moment { Tells (D.state disk.old) → OfFirst file end (D.state disk.old) (λ payloads.
        LeavesOneOf file (holding None payloads) (I.image image.now) (I.from image.now)
        (I.count image.now) (D.state disk.old) (D.state disk.new)) }
    ensures length { length buf.new ≡ length buf.old }
    ensures run { RunOn file (D.state disk.old) (D.state disk.new) }
    ensures cause { OnErr result (Rose (D.state disk.old).faults (D.state disk.new).faults) }
{
    stage_area(disk, file, end, image, size, buf)?;
    put_synced(disk, file, end + 1, &moved_frame(end + 15))?;
    turn_gate(disk, file, end, OPEN)?;
    Ok(Selected {
        selectors: end + 15,
        second: false,
        turn: 1,
        place: end + 49,
    })
}

/// Returns the offset of the gate of the selector that does not count.
fn other_gate(now: Selected) -> u64
    requires { now.selectors ≤ 2 ^ 62 }
    ensures { result ≡ other_at now.second now.selectors }
{
    if now.second {
        now.selectors
    } else {
        now.selectors + 17
    }
}

/// Returns the offset of the gate of the selector that counts.
fn this_gate(now: Selected) -> u64
    requires { now.selectors ≤ 2 ^ 62 }
    ensures { result ≡ other_at (not now.second) now.selectors }
{
    if now.second {
        now.selectors + 17
    } else {
        now.selectors
    }
}

/// Returns where the next area begins: behind the selectors if it ends there, its end gate included, at or
/// before the present area, else behind the end gate.
fn place_for(now: Selected, end: u64, size: u64) -> u64
    requires selectors { now.selectors ≤ 2 ^ 62 }
    requires end { end ≤ 2 ^ 62 }
    requires size { size ≤ 2 ^ 30 }
    ensures before { now.selectors + 43 + size ≤ now.place → result ≡ now.selectors + 34 }
    ensures behind { now.place < now.selectors + 43 + size → result ≡ end + 1 }
    ensures limit { result ≤ 2 ^ 62 + 34 }
{
    if now.selectors + 43 + size <= now.place {
        now.selectors + 34
    } else {
        end + 1
    }
}

/// Returns the turn after this one.
fn turn_after(turn: u64) -> u64
    ensures { result ≡ next_turn turn }
{
    turn.wrapping_add(1)
}

/// Returns the bytes of a selector after its gate.
fn numbers_of(turn: u64, place: u64) -> [u8; 16]
    ensures { result ≡ to_be_bytes w64 turn ++ to_be_bytes w64 place }
{
    let t = turn.to_be_bytes();
    let p = place.to_be_bytes();
    [
        t[0], t[1], t[2], t[3], t[4], t[5], t[6], t[7], p[0], p[1], p[2], p[3], p[4], p[5], p[6],
        p[7],
    ]
}

/// Compacts a log that was compacted before, and returns where it goes on. The image is to read nothing
/// before the present area. A crash at any moment leaves what the log held, or the image alone.
fn move_on<D: Disk, I: Image>(
    disk: &mut D,
    file: u8,
    end: u64,
    now: Selected,
    image: &I,
    size: u64,
    buf: &mut [u8],
) -> Result<Selected, Failed>
    requires file { file < 2 }
    requires own { I.file image.now ≡ file }
    requires room { 1 ≤ length buf.old }
    requires limit { end ≤ 2 ^ 62 }
    requires selectors { now.selectors ≤ 2 ^ 62 }
    requires size { (held : List ℕ) → length held ≡ I.count image.now →
        size ≡ length (I.image image.now held) }
    requires small { size ≤ 2 ^ 30 }
    requires behind { Tells (D.state disk.old) → now.place ≤ I.from image.now }
    requires before { Tells (D.state disk.old) → I.from image.now + I.count image.now ≤ end }
    requires stands { Tells (D.state disk.old) →
        ((area : Area) × (payloads : List (List ℕ)) × IsWholeArea area × NamesArea now area
        × AllByRecursion IsPayload payloads
        × ShutAt (front_on (area_base file area) payloads) file end (D.state disk.old)) }

    ensures moved { IfOk result
        (λ next. Tells (D.state disk.old) → OfSelected now file end (D.state disk.old) (λ area payloads.
        CompactsTo (I.image image.now) (I.from image.now) (I.count image.now) size file next
        (D.state disk.old) (D.state disk.new))) }
    ensures limit { IfOk result (λ next. next.place + size + 9 ≤ 2 ^ 62) }
    ensures selectors { IfOk result (λ next. next.selectors ≤ 2 ^ 62) }
    ensures any_moment { Tells (D.state disk.old) → OfSelected now file end (D.state disk.old) (λ area payloads.
        LeavesOneOf file (holding (Some (area_start area)) payloads) (I.image image.now)
        (I.from image.now) (I.count image.now) (D.state disk.old) (D.state disk.new)) }
    ensures length { length buf.new ≡ length buf.old }
    ensures run { RunOn file (D.state disk.old) (D.state disk.new) }
    ensures cause { OnErr result (Rose (D.state disk.old).faults (D.state disk.new).faults) }
{
    let place = place_for(now, end, size);
    let turn = turn_after(now.turn);
    let other = other_gate(now);
    let this = this_gate(now);
    write_area(disk, file, place, image, size, buf)?;
    put_synced(disk, file, other + 1, &numbers_of(turn, place))?;
    turn_gate(disk, file, other, OPEN)?;
    turn_gate(disk, file, this, SHUT)?;
    Ok(Selected {
        selectors: now.selectors,
        second: !now.second,
        turn,
        place,
    })
}

/// Compacts a log, whether it was compacted before or not, and returns where it goes on.
fn compact_on<D: Disk, I: Image>(
    disk: &mut D,
    file: u8,
    end: u64,
    area: Option<Selected>,
    image: &I,
    size: u64,
    buf: &mut [u8],
) -> Result<Selected, Failed>
    requires file { file < 2 }
    requires own { I.file image.now ≡ file }
    requires room { 1 ≤ length buf.old }
    requires limit { end ≤ 2 ^ 62 }
    requires selectors { IfSome area (λ now. now.selectors ≤ 2 ^ 62) }
    requires size { (held : List ℕ) → length held ≡ I.count image.now →
        size ≡ length (I.image image.now held) }
    requires small { size ≤ 2 ^ 30 }
    requires behind { Tells (D.state disk.old) →
        IfSome area (λ now. now.place ≤ I.from image.now) }
    requires before { Tells (D.state disk.old) → I.from image.now + I.count image.now ≤ end }
    requires stands { Tells (D.state disk.old) →
        ((base : Option Area) × (payloads : List (List ℕ)) × IsBase base × Knows area base
        × AllByRecursion (MayFollow (start_of base)) payloads
        × ShutAt (front_of file base payloads) file end (D.state disk.old)) }

    ensures moved { IfOk result
        (λ next. Tells (D.state disk.old) → OfEither area file end (D.state disk.old) (λ base payloads.
        CompactsTo (I.image image.now) (I.from image.now) (I.count image.now) size file next
        (D.state disk.old) (D.state disk.new))) }
    ensures limit { IfOk result (λ next. next.place + size + 9 ≤ 2 ^ 62) }
    ensures selectors { IfOk result (λ next. next.selectors ≤ 2 ^ 62) }
    ensures any_moment { Tells (D.state disk.old) → OfEither area file end (D.state disk.old) (λ base payloads.
        LeavesOneOf file (holding (start_of base) payloads) (I.image image.now)
        (I.from image.now) (I.count image.now) (D.state disk.old) (D.state disk.new)) }
    ensures length { length buf.new ≡ length buf.old }
    ensures run { RunOn file (D.state disk.old) (D.state disk.new) }
    ensures cause { OnErr result (Rose (D.state disk.old).faults (D.state disk.new).faults) }
{
    match area {
        None => return migrate(disk, file, end, image, size, buf),
        Some(now) => return move_on(disk, file, end, now, image, size, buf),
    }
}

impl Log {
    ghost use Rattle.std.specs.Prelude.{IsErrOf};
    ghost use Rattle.frame_log.specs.declared.fault.LogFault.TheVariants.{Damaged, StoreFault, NoMemory};
    ghost use Rattle.frame_log.specs.Stands.{StandsOn};

    /// Makes the log start from an image, without any payload since. The image is to stand for what the
    /// log stands for, and has at most 2^30 bytes. It may read from its own file what lies between the
    /// present area and the end gate, as it was before the call.
    ///
    /// A crash at any moment leaves what the log held, or the image alone. After `StoreFault` the log is
    /// not to be used again. `NoMemory` is returned before the first write; nothing is then changed.
    pub fn compact<D: Disk, I: Image>(
        &mut self,
        alloc: Global,
        disk: &mut D,
        image: &I,
    ) -> Result<(), LogFault>
        requires settled { self.old.unsettled ≡ None }
        requires own { I.file image.now ≡ self.old.file }
        requires size { (held : List ℕ) → length held ≡ I.count image.now →
            length (I.image image.now held) ≤ 2 ^ 30 }
        requires behind { Tells (D.state disk.old) →
            IfSome self.old.area (λ now. now.place ≤ I.from image.now) }
        requires before { Tells (D.state disk.old) →
            I.from image.now + I.count image.now ≤ self.old.end }
        requires stands { Tells (D.state disk.old) →
            ((base : Option Area) × (payloads : List (List ℕ))
            × StandsOn base (D.state disk.old) self.old payloads None
            × Knows self.old.area base × AllByRecursion (MayFollow (start_of base)) payloads) }

        ensures done { OnOk result
            (Tells (D.state disk.old) → OfLog self.old (D.state disk.old) (λ base payloads.
            StartsFrom (I.image image.now) (I.from image.now) (I.count image.now) self.new
            (D.state disk.old) (D.state disk.new))) }
        ensures any_moment { Tells (D.state disk.old) → OfLog self.old (D.state disk.old) (λ base payloads.
            LeavesOneOf self.old.file (holding (start_of base) payloads) (I.image image.now)
            (I.from image.now) (I.count image.now) (D.state disk.old) (D.state disk.new)) }
        ensures memory { IsErrOf result NoMemory → (self.new ≡ self.old) × (disk.new ≡ disk.old) }
        ensures damaged { (at : ℕ) → IsErrOf result (Damaged at) → ⊥ }
        ensures run { RunOn self.old.file (D.state disk.old) (D.state disk.new) }
        ensures file { self.new.file ≡ self.old.file }
        ensures now_settled { OnOk result (self.new.unsettled ≡ None) }
        ensures cause { IsErrOf result StoreFault →
            Rose (D.state disk.old).faults (D.state disk.new).faults }
    {
        let mut buf = vec![in alloc; 0u8; PART_SIZE]?;
        let size = image.size();
        let file = self.file;
        let end = self.end;
        let area = self.area;
        let next = compact_on(disk, file, end, area, image, size, &mut buf)?;
        self.area = Some(next);
        self.end = next.place + 8 + size;
        Ok(())
    }
}
