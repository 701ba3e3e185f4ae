//! A yard over real files.
ghost use Rattle.std.specs.Prelude.{◌<◌, IfOk, IsTrue};
ghost use Rattle.door_kinds.specs.Yards.{file_yard_state};

use crate::alarms::new_alarm;
use crate::both::{give_both, take_both};
use disk_kinds::{Alarm, LogFile};
use door_kinds::FileYard;
use hk_base::{Disk, Failed};
use std::alloc::Global;
use std::fs::{self, File};
use std::io::{self, ErrorKind};
use std::os::unix::fs::symlink;
use std::process::Abort;
use std::rt::{Files, Stderr};
use std::sync::Arc;

/// Opens the yard of a folder.
fn open(
    rt: &(impl AllocGlobal + Files<File = File>),
    folder: &str,
    errors: Stderr,
    alarm: &Arc<Alarm, Global>,
) -> io::Result<FileYard>
    ensures keys { IfOk result (λ yard. IsTrue ((file_yard_state yard).lies 0)) }
    ensures names { IfOk result (λ yard. IsTrue ((file_yard_state yard).lies 1)) }
{
    FileYard::open(rt, rt.alloc(), folder, errors, alarm)
}

fn write(rt: &impl Abort, disk: &mut LogFile, file: u8, bytes: &[u8])
    requires { file < 2 }
{
    assert_eq!(rt; disk.write_at(file, 0, bytes), Ok(()));
    assert_eq!(rt; disk.sync(file), Ok(()));
}

fn check_read(rt: &impl Abort, disk: &mut LogFile, file: u8, bytes: &[u8])
    requires { file < 2 }
{
    let mut piece = [0u8; 4];
    assert_eq!(rt; disk.read(file, 0, &mut piece), Ok(4));
    assert_eq!(rt; piece.as_slice(), bytes);
}

/// A log can't be opened while a disk of it lives, in the yard or outside.
fn check_held(
    rt: &(impl Abort + AllocGlobal + Files<File = File>),
    errors: Stderr,
    alarm: &Arc<Alarm, Global>,
) {
    match open(rt, "yard", errors, alarm) {
        Ok(_) => rt.abort(),
        Err(error) => assert!(rt; error.kind() == ErrorKind::WouldBlock),
    }
}

/// Opens the yard, takes both disks, writes both logs and gives the disks back.
fn fill(
    rt: &(impl Abort + AllocGlobal + Files<File = File>),
    errors: Stderr,
    alarm: &Arc<Alarm, Global>,
) {
    let mut yard = open(rt, "yard", errors, alarm).expect(rt, "a yard");
    check_held(rt, errors, alarm);
    let Ok((mut keys, mut names)) = take_both(&mut yard) else {
        rt.abort()
    };
    write(rt, &mut keys, 0, b"keys");
    write(rt, &mut names, 1, b"name");
    check_held(rt, errors, alarm);
    assert_eq!(rt; give_both(&mut yard, keys, names), (false, false));
    assert_eq!(rt; yard.faults, 0);
}

/// Opens both logs again and reads what was written.
fn read_again(
    rt: &(impl Abort + AllocGlobal + Files<File = File>),
    errors: Stderr,
    alarm: &Arc<Alarm, Global>,
) {
    let mut yard = open(rt, "yard", errors, alarm).expect(rt, "a yard");
    let Ok((mut keys, mut names)) = take_both(&mut yard) else {
        rt.abort()
    };
    check_read(rt, &mut keys, 0, b"keys");
    check_read(rt, &mut names, 1, b"name");
}

#[test]
fn real_logs_are_lent_and_given_back(rt: HostRuntime) {
    fs::create_dir(&rt, "yard").expect(&rt, "a folder");
    let alarm = new_alarm(&rt);
    fill(&rt, rt.stderr(), &alarm);
    read_again(&rt, rt.stderr(), &alarm);
    assert!(&rt; !alarm.is_raised());
    fs::remove_dir_all(&rt, "yard").expect(&rt, "a folder");
}

/// A write to `/dev/full` fails as one on a full disk does, and then a sync fails. Only the sync raises
/// the alarm.
fn check_alarm(rt: &impl Abort, alarm: &Alarm, names: &mut LogFile) {
    assert_eq!(rt; names.write_at(1, 0, b"name"), Err(Failed));
    assert!(rt; !alarm.is_raised());
    assert_eq!(rt; names.sync(1), Err(Failed));
    assert!(rt; alarm.is_raised());
    assert_eq!(rt; names.sync(1), Err(Failed));
    assert_eq!(rt; names.faults, 3);
}

/// Opens a folder whose name log can't be written or synced.
fn fail_names(
    rt: &(impl Abort + AllocGlobal + Files<File = File>),
    errors: Stderr,
    alarm: &Arc<Alarm, Global>,
) {
    let mut yard = open(rt, "full", errors, alarm).expect(rt, "a yard");
    let Ok((keys, mut names)) = take_both(&mut yard) else {
        rt.abort()
    };
    check_alarm(rt, alarm, &mut names);
    assert_eq!(rt; give_both(&mut yard, keys, names), (false, true));
    assert_eq!(rt; yard.faults, 1);
}

#[test]
fn a_failed_sync_raises_the_alarm(rt: HostRuntime) {
    fs::create_dir(&rt, "full").expect(&rt, "a folder");
    symlink(&rt, "/dev/full", "full/names.log").expect(&rt, "a link");
    let alarm = new_alarm(&rt);
    fail_names(&rt, rt.stderr(), &alarm);
    fs::remove_dir_all(&rt, "full").expect(&rt, "a folder");
}
