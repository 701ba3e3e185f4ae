//! A door over TCP.
use crate::alarms::new_alarm;
use door_kinds::{TcpDoor, TcpHandle, TcpSink, TcpSource};
use hk_base::{Ended, Failed, Sink, Source};
use server_parts::{Accepted, CloseInput, CloseOutput, Door, HangUp};
use std::io::{Read, Write};
use std::net::{Net, TcpListener, TcpStream};
use std::process::Abort;
use std::sync::Arc;
use std::thread;
use std::time::{Clock, Duration};

/// Connects to the door and sends four bytes.
fn call<N: Net<Listener = TcpListener, Stream = TcpStream> + Abort>(
    rt: &N,
    port: u16,
) -> TcpStream {
    let mut stream = TcpStream::connect(rt, ("127.0.0.1", port)).expect(rt, "a connection");
    stream.write_all(b"ping").expect(rt, "a write");
    stream
}

/// Reads the next four bytes.
fn check_read<C: Clock>(rt: &impl Abort, input: &mut TcpSource<'_, C>, bytes: &[u8]) {
    let mut piece = [0u8; 4];
    assert_eq!(rt; input.read(&mut piece), Ok(4));
    assert_eq!(rt; piece.as_slice(), bytes);
}

/// Accepts the connection, reads what was sent, answers and closes it.
fn answer<N: Net<Listener = TcpListener, Stream = TcpStream> + Clock + Sync + Abort>(
    rt: &N,
    door: &mut TcpDoor<N>,
) {
    let Ok(Some(came)) = door.accept() else {
        rt.abort()
    };
    let Accepted {
        mut input,
        mut out,
        ..
    } = came;
    check_read(rt, &mut input, b"ping");
    assert_eq!(rt; out.write(b"pong"), Ok(4));
    door.leave(input, out, Ended::Closed);
}

/// Reads the answer and then the end.
fn check_answer(rt: &impl Abort, mut stream: TcpStream) {
    let mut piece = [0u8; 5];
    assert_eq!(rt; stream.read(&mut piece).expect(rt, "a read"), 4);
    assert_eq!(rt; piece.as_slice(), b"pong\0".as_slice());
    assert_eq!(rt; stream.read(&mut piece).expect(rt, "a read"), 0);
}

#[test]
fn a_client_is_answered_over_tcp(rt: HostRuntime) {
    let mut door = TcpDoor::new(&rt, rt.alloc(), new_alarm(&rt));
    assert_eq!(&rt; door.open(0), Ok(()));
    let port = door.port().expect(&rt, "a port");
    let stream = call(&rt, port);
    answer(&rt, &mut door);
    check_answer(&rt, stream);
}

/// A door that does not listen accepts nothing, and two doors can't have one port.
#[test]
fn a_port_is_opened_once(rt: HostRuntime) {
    let mut door = TcpDoor::new(&rt, rt.alloc(), new_alarm(&rt));
    assert!(&rt; door.accept().is_err());
    assert_eq!(&rt; door.open(0), Ok(()));
    let mut other = TcpDoor::new(&rt, rt.alloc(), new_alarm(&rt));
    let port = door.port().expect(&rt, "a port");
    assert_eq!(&rt; other.open(port), Err(Failed));
    assert_eq!(&rt; other.faults, 1);
}

/// A client that is still sending finds the end of its connection once both ends are closed, before the
/// connection is left. The handle sees the end too.
#[test]
fn a_closed_connection_ends_for_its_client(rt: HostRuntime) {
    let mut door = TcpDoor::new(&rt, rt.alloc(), new_alarm(&rt));
    assert_eq!(&rt; door.open(0), Ok(()));
    let port = door.port().expect(&rt, "a port");
    let stream = call(&rt, port);
    let Ok(Some(came)) = door.accept() else {
        rt.abort()
    };
    let Accepted {
        mut input,
        mut out,
        handle,
    } = came;
    assert_eq!(&rt; out.write(b"pong"), Ok(4));
    out.close_output();
    assert!(&rt; !handle.has_ended());
    input.close_input();
    assert!(&rt; handle.has_ended());
    assert!(&rt; out.write(b"more").is_err());
    check_answer(&rt, stream);
    door.leave(input, out, Ended::Wire);
}

/// A connection that is hung up in the middle of a request reads and answers it, and then ends.
#[test]
fn a_request_is_answered_before_the_end(rt: HostRuntime) {
    let mut door = TcpDoor::new(&rt, rt.alloc(), new_alarm(&rt));
    assert_eq!(&rt; door.open(0), Ok(()));
    let port = door.port().expect(&rt, "a port");
    let mut stream = call(&rt, port);
    let Ok(Some(came)) = door.accept() else {
        rt.abort()
    };
    let Accepted {
        mut input,
        mut out,
        handle,
    } = came;
    check_read(&rt, &mut input, b"ping");
    handle.hang_up();
    stream.write_all(b"more").expect(&rt, "a write");
    check_read(&rt, &mut input, b"more");
    assert_eq!(&rt; out.write(b"pong"), Ok(4));
    assert_eq!(&rt; input.read(&mut [0u8; 4]), Ok(0));
    door.leave(input, out, Ended::End);
    drop(handle);
    check_answer(&rt, stream);
}

/// A request that has come when its connection is hung up is answered. It is the last one.
#[test]
fn a_request_that_has_come_is_answered(rt: HostRuntime) {
    let mut door = TcpDoor::new(&rt, rt.alloc(), new_alarm(&rt));
    assert_eq!(&rt; door.open(0), Ok(()));
    let port = door.port().expect(&rt, "a port");
    let mut stream = call(&rt, port);
    let Ok(Some(came)) = door.accept() else {
        rt.abort()
    };
    let Accepted {
        mut input,
        mut out,
        handle,
    } = came;
    handle.hang_up();
    check_read(&rt, &mut input, b"ping");
    assert_eq!(&rt; out.write(b"pong"), Ok(4));
    stream.write_all(b"more").expect(&rt, "a write");
    assert_eq!(&rt; input.read(&mut [0u8; 4]), Ok(0));
    out.close_output();
    check_answer(&rt, stream);
    door.leave(input, out, Ended::End);
}

/// How often a wait looks again, a millisecond later each time.
const LOOKS: u32 = 20_000;

/// Hangs a connection up once it waits. Returns `false` if it did not wait in time.
fn hang_up_waiting<C: Clock>(clock: &C, handle: &TcpHandle) -> bool {
    for _ in 0..LOOKS {
        if handle.waits_since().is_some() {
            handle.hang_up();
            return true;
        }
        thread::sleep(clock, Duration::from_millis(1));
    }
    false
}

/// Answers a request, and waits for the next one until the connection is hung up.
fn wait_until_hung_up<C: Clock>(
    rt: &impl Abort,
    input: &mut TcpSource<'_, C>,
    out: &mut TcpSink<'_, C>,
) {
    check_read(rt, input, b"ping");
    assert_eq!(rt; out.write(b"pong"), Ok(4));
    assert_eq!(rt; input.read(&mut [0u8; 4]), Ok(0));
}

/// A connection that waits for a request ends at once when it is hung up.
#[test]
fn a_waiting_connection_is_hung_up(rt: HostRuntime) {
    let mut door = TcpDoor::new(&rt, rt.alloc(), new_alarm(&rt));
    assert_eq!(&rt; door.open(0), Ok(()));
    let port = door.port().expect(&rt, "a port");
    let stream = call(&rt, port);
    let Ok(Some(came)) = door.accept() else {
        rt.abort()
    };
    let Accepted {
        mut input,
        mut out,
        handle,
    } = came;
    let (waited, _) = thread::join(
        &rt,
        || hang_up_waiting(&rt, &handle),
        || wait_until_hung_up(&rt, &mut input, &mut out),
    );
    assert!(&rt; waited);
    assert!(&rt; handle.waits_since().is_none());
    door.leave(input, out, Ended::End);
    assert!(&rt; handle.has_ended());
    drop(handle);
    check_answer(&rt, stream);
}

/// A door takes no connection once its alarm is raised, though a client waits.
#[test]
fn a_raised_alarm_closes_the_door(rt: HostRuntime) {
    let alarm = new_alarm(&rt);
    let mut door = TcpDoor::new(
        &rt,
        rt.alloc(),
        Arc::try_clone(&alarm).expect(&rt, "memory"),
    );
    assert_eq!(&rt; door.open(0), Ok(()));
    let port = door.port().expect(&rt, "a port");
    let _stream = call(&rt, port);
    alarm.raise();
    assert!(&rt; matches!(door.accept(), Ok(None)));
    assert_eq!(&rt; door.faults, 0);
}

/// A door that waits looks at its alarm.
#[test]
fn a_waiting_door_is_closed(rt: HostRuntime) {
    let alarm = new_alarm(&rt);
    let mut door = TcpDoor::new(
        &rt,
        rt.alloc(),
        Arc::try_clone(&alarm).expect(&rt, "memory"),
    );
    assert_eq!(&rt; door.open(0), Ok(()));
    let raise = || {
        thread::sleep(&rt, Duration::from_millis(100));
        alarm.raise();
    };
    let (_, closed) = thread::join(&rt, raise, || matches!(door.accept(), Ok(None)));
    assert!(&rt; closed);
}
