//! Yards and doors in memory.
ghost use Rattle.std.specs.Prelude.{◌≡◌, ◌≤◌, IsTrue};
ghost use Rattle.door_kinds.specs.Doors.{mem_door_state};
ghost use Rattle.door_kinds.specs.Yards.{mem_yard_state};

use crate::both::{give_both, take_both};
use disk_kinds::MemDisk;
use door_kinds::{MemClient, MemDoor, MemFile, MemYard};
use hk_base::{Disk, Ended, Failed, Sink, Source};
use server_parts::{Accepted, Door, HangUp};
use std::collections::VecDeque;
use std::process::Abort;

fn client(rt: &(impl Abort + AllocGlobal), sends: &[u8]) -> MemClient {
    MemClient {
        sends: sends.to_vec(rt.alloc()).expect(rt, "memory"),
        most: 4,
        failing_reads: Vec::new(rt.alloc()),
        failing_writes: Vec::new(rt.alloc()),
    }
}

/// A door for two clients, of which the second call fails.
fn door(rt: &(impl Abort + AllocGlobal)) -> MemDoor
    ensures { (mem_door_state result).left ≤ (mem_door_state result).accepted }
{
    let mut clients = VecDeque::new(rt.alloc());
    clients.push_back(client(rt, b"first")).expect(rt, "memory");
    clients.push_back(client(rt, b"next")).expect(rt, "memory");
    let failing = [2].to_vec(rt.alloc()).expect(rt, "memory");
    MemDoor::new(rt.alloc(), clients, failing).expect(rt, "memory")
}

/// Accepts a connection, reads once, answers and leaves it.
fn serve_one(rt: &impl Abort, door: &mut MemDoor, sends: &[u8])
    requires { (mem_door_state door.old).left ≤ (mem_door_state door.old).accepted }
    ensures { (mem_door_state door.new).left ≤ (mem_door_state door.new).accepted }
{
    let Ok(Some(came)) = door.accept() else {
        rt.abort()
    };
    let Accepted {
        mut input,
        mut out,
        handle,
    } = came;
    let mut piece = [0u8; 4];
    assert_eq!(rt; input.read(&mut piece), Ok(4));
    assert_eq!(rt; piece.as_slice(), sends);
    assert_eq!(rt; out.write(b"yes"), Ok(3));
    assert!(rt; !handle.has_ended() && handle.waits_since().is_none());
    door.leave(input, out, Ended::End);
}

fn check_refused(rt: &impl Abort, door: &mut MemDoor, faults: u64)
    ensures { mem_door_state door.new ≡ mem_door_state door.old }
{
    match door.accept() {
        Ok(_) => rt.abort(),
        Err(Failed) => assert_eq!(rt; door.faults(), faults),
    }
}

fn check_left(rt: &impl Abort, door: &MemDoor, at: usize, unread: &[u8]) {
    let left = door.left().get(at).expect(rt, "a connection");
    assert_eq!(rt; left.input.as_slice(), unread);
    assert_eq!(rt; left.out.as_slice(), b"yes".as_slice());
    assert_eq!(rt; left.ended, Ended::End);
}

/// The clients come in their order, and the door keeps what was left of each.
#[test]
fn a_door_in_memory_keeps_its_connections(rt: HostRuntime) {
    let mut door = door(&rt);
    serve_one(&rt, &mut door, b"firs");
    check_refused(&rt, &mut door, 1);
    serve_one(&rt, &mut door, b"next");
    check_refused(&rt, &mut door, 2);
    check_left(&rt, &door, 0, b"t");
    check_left(&rt, &door, 1, b"");
}

fn file(rt: &(impl Abort + AllocGlobal), bytes: &[u8], failing: &[u64]) -> MemFile
    ensures { result.bytes.items ≡ bytes.now }
{
    MemFile {
        bytes: bytes.to_vec(rt.alloc()).expect(rt, "memory"),
        failing: failing.to_vec(rt.alloc()).expect(rt, "memory"),
    }
}

/// A yard whose third take fails, and the second call on the disk of its first file.
fn yard(rt: &(impl Abort + AllocGlobal)) -> MemYard
    ensures keys { IsTrue ((mem_yard_state result).lies 0) }
    ensures names { IsTrue ((mem_yard_state result).lies 1) }
{
    let keys = file(rt, b"keys", &[2]);
    let names = file(rt, b"", &[]);
    let failing = [3].to_vec(rt.alloc()).expect(rt, "memory");
    MemYard::new(rt.alloc(), keys, names, failing).expect(rt, "memory")
}

/// Reads what the yard held, then meets a planned fault.
fn use_keys(rt: &impl Abort, disk: &mut MemDisk) {
    let mut piece = [0u8; 4];
    assert_eq!(rt; disk.read(0, 0, &mut piece), Ok(4));
    assert_eq!(rt; piece.as_slice(), b"keys".as_slice());
    assert_eq!(rt; disk.sync(0), Err(Failed));
}

/// Takes both disks, uses one and gives both back.
fn use_both(rt: &impl Abort, yard: &mut MemYard)
    requires keys { IsTrue ((mem_yard_state yard.old).lies 0) }
    requires names { IsTrue ((mem_yard_state yard.old).lies 1) }
    ensures keys { IsTrue ((mem_yard_state yard.new).lies 0) }
    ensures names { IsTrue ((mem_yard_state yard.new).lies 1) }
{
    let Ok((mut keys, names)) = take_both(yard) else {
        rt.abort()
    };
    use_keys(rt, &mut keys);
    assert_eq!(rt; give_both(yard, keys, names), (true, false));
    assert_eq!(rt; yard.faults(), 1);
}

/// The planned take fails. The next one gives a disk without a fault.
fn take_again(rt: &impl Abort, yard: &mut MemYard)
    requires keys { IsTrue ((mem_yard_state yard.old).lies 0) }
    requires names { IsTrue ((mem_yard_state yard.old).lies 1) }
{
    assert!(rt; take_both(yard).is_err());
    assert_eq!(rt; yard.faults(), 2);
    let Ok((keys, _)) = take_both(yard) else {
        rt.abort()
    };
    assert_eq!(rt; keys.faults(), 0);
    assert_eq!(rt; keys.bytes(0), b"keys".as_slice());
}

/// A disk that is given back with a fault raises the yard's count; a disk that is taken has none.
#[test]
fn a_yard_in_memory_lends_its_disks(rt: HostRuntime) {
    let mut yard = yard(&rt);
    use_both(&rt, &mut yard);
    take_again(&rt, &mut yard);
}
