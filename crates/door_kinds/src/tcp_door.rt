//! A door over TCP.
ghost use Rattle.std.specs.Prelude.{◌≡◌, ◌≤◌, ◌<◌, ◌-◌, ◌^◌, IfOk, IfSome, IsFalse, OnOk};
ghost use Rattle.door_kinds.specs.Doors.{opaque_door};

use crate::tcp_ends::{TcpSink, TcpSource, ends_of};
use crate::tcp_link::TcpHandle;
use disk_kinds::Alarm;
use hk_base::{Ended, Failed};
use server_parts::{Accepted, Door};
use std::alloc::Global;
use std::io::{self, ErrorKind};
use std::net::{Ipv4Addr, Net, SocketAddr, SocketAddrV4, TcpListener, TcpStream};
use std::os::fd::OwnedFd;
use std::sync::Arc;
use std::thread;
use std::time::{Clock, Duration};

/// How long to wait before the next accept after one that failed, in milliseconds.
const PAUSE: u64 = 50;

/// How long an accept waits before the door looks at its alarm, in seconds.
const LOOK_AFTER: u64 = 1;

/// Linux's numbers of the errors of an accept that leave the listener as it is. They tell of the
/// connection that was to be accepted: EPERM, ENONET, EPROTO, ENOPROTOOPT, EOPNOTSUPP, ENETDOWN,
/// ENETUNREACH, ECONNABORTED, EHOSTDOWN, EHOSTUNREACH; of a signal: EINTR; or of a lack of memory or
/// descriptors: ENOMEM, ENFILE, EMFILE, ENOBUFS.
const PASSING: [i32; 15] = [
    1, 64, 71, 92, 95, 100, 101, 103, 112, 113, 4, 12, 23, 24, 105,
];

/// A connection over TCP.
type TcpConnection<'n, C> = Accepted<TcpSource<'n, C>, TcpSink<'n, C>, TcpHandle>;

/// A door that listens on a port of 127.0.0.1. A read or a write of a connection fails if its peer is
/// too slow, as [`TcpSource`] and [`TcpSink`] say. The two ends of a connection and its handle have one
/// descriptor, which is closed once both ends are closed and the handle is dropped. It counts errors,
/// up to 2^64 - 1. Contracts promise nothing about what a peer sends or receives.
///
/// Within a second after its alarm is raised it takes no more connections, and closes its listener.
///
/// If the system lacks descriptors or memory for a connection, the door waits and accepts again. It
/// closes a connection that it can't set up, and accepts the next one. An accept fails if the listener
/// is lost.
#[derive(Drop)]
pub struct TcpDoor<'n, N: Net<Listener = TcpListener, Stream = TcpStream> + Clock + Sync> {
    net: &'n N,
    alloc: Global,
    alarm: Arc<Alarm, Global>,
    /// The port that it was opened on last.
    port: Option<u16>,
    listener: Option<TcpListener>,
    accepted: u64,
    left: u64,
    /// Whether an accept has found the alarm raised.
    pub closed: bool,
    pub faults: u64,
    ghost order: { left ≤ accepted },
}

/// Returns whether accepting may go on after an error.
fn is_passing(error: &io::Error) -> bool {
    match error.raw_os_error() {
        Some(number) => PASSING.contains(&number),
        None => false,
    }
}

/// Listens on a port of 127.0.0.1.
fn listen<N: Net<Listener = TcpListener, Stream = TcpStream>>(
    net: &N,
    port: u16,
) -> io::Result<TcpListener> {
    let addr = SocketAddr::V4(SocketAddrV4::new(Ipv4Addr::LOCALHOST, port));
    let listener = TcpListener::bind(net, addr)?;
    // An accept waits as long as a read may, and only a stream has a method that sets it.
    let socket = TcpStream::from(OwnedFd::from(listener.try_clone()?));
    socket.set_read_timeout(Some(Duration::from_secs(LOOK_AFTER)))?;
    Ok(listener)
}

/// Accepts a connection. Returns `None`, after a pause or at once, if the next try may succeed.
fn try_accept<'n, C: Clock>(
    clock: &'n C,
    alloc: Global,
    listener: &TcpListener,
) -> io::Result<Option<TcpConnection<'n, C>>>
    ensures { IfOk result
        (λ next.
        IfSome next (λ came. (came.input.reading.faults ≡ 0) × (came.out.writing.faults ≡ 0))) }
{
    match listener.accept() {
        Ok((stream, _)) => Ok(ends_of(clock, alloc, stream)),
        Err(error) => {
            if error.kind() == ErrorKind::WouldBlock {
                return Ok(None);
            }
            if !is_passing(&error) {
                return Err(error);
            }
            thread::sleep(clock, Duration::from_millis(PAUSE));
            Ok(None)
        }
    }
}

/// Accepts connections until one is set up. Returns `None` once the alarm is raised.
fn accept_ends<'n, C: Clock>(
    clock: &'n C,
    alloc: Global,
    listener: &TcpListener,
    alarm: &Alarm,
) -> io::Result<Option<TcpConnection<'n, C>>>
    ensures { IfOk result
        (λ next.
        IfSome next (λ came. (came.input.reading.faults ≡ 0) × (came.out.writing.faults ≡ 0))) }
{
    for _ in 0..u64::MAX {
        if alarm.is_raised() {
            return Ok(None);
        }
        if let Some(came) = try_accept(clock, alloc, listener)? {
            return Ok(unless_raised(alarm, came));
        }
    }
    Err(io::Error::from(ErrorKind::TimedOut))
}

/// Closes a connection if the alarm was raised before it came, or while it was set up.
fn unless_raised<'n, C: Clock>(
    alarm: &Alarm,
    came: TcpConnection<'n, C>,
) -> Option<TcpConnection<'n, C>>
    requires { (came.input.reading.faults ≡ 0) × (came.out.writing.faults ≡ 0) }
    ensures { IfSome result
        (λ came. (came.input.reading.faults ≡ 0) × (came.out.writing.faults ≡ 0)) }
{
    if alarm.is_raised() {
        drop(came);
        return None;
    }
    Some(came)
}

/// Accepts a connection if the door listens and its count has room. Returns `None` once the alarm is
/// raised.
fn next_ends<'n, C: Clock>(
    clock: &'n C,
    alloc: Global,
    listener: &Option<TcpListener>,
    alarm: &Alarm,
    accepted: u64,
) -> Result<Option<TcpConnection<'n, C>>, Failed>
    ensures room { OnOk result (accepted < 2 ^ 64 - 1) }
    ensures fresh { IfOk result
        (λ next.
        IfSome next (λ came. (came.input.reading.faults ≡ 0) × (came.out.writing.faults ≡ 0))) }
{
    let Some(listener) = listener else {
        return Err(Failed);
    };
    if accepted == u64::MAX {
        return Err(Failed);
    }
    match accept_ends(clock, alloc, listener, alarm) {
        Ok(next) => Ok(next),
        Err(_) => Err(Failed),
    }
}

impl<'n, N: Net<Listener = TcpListener, Stream = TcpStream> + Clock + Sync> TcpDoor<'n, N> {
    /// Creates a door that doesn't listen yet. Opening port 0 takes a free port.
    pub fn new(net: &'n N, alloc: Global, alarm: Arc<Alarm, Global>) -> TcpDoor<'n, N>
        ensures closed { IsFalse result.closed }
        ensures faults { result.faults ≡ 0 }
    {
        TcpDoor {
            net,
            alloc,
            alarm,
            port: None,
            listener: None,
            accepted: 0,
            left: 0,
            closed: false,
            faults: 0,
        }
    }

    /// Returns the port that the door listens on, which is a free one if it was opened on port 0.
    pub fn port(&self) -> Option<u16> {
        let listener = self.listener.as_ref()?;
        Some(listener.local_addr().ok()?.port())
    }
}

impl<'n, N: Net<Listener = TcpListener, Stream = TcpStream> + Clock + Sync> Door
    for TcpDoor<'n, N> {
    type In = TcpSource<'n, N>;

    type Out = TcpSink<'n, N>;

    type Handle = TcpHandle;

    ghost state = { λ d. opaque_door d.port d.accepted d.left d.closed };

    ghost faults = { λ d. d.faults };

    ghost no_more_left = { λ d. d.order };

    fn open(&mut self, port: u16) -> Result<(), Failed> {
        match listen(self.net, port) {
            Ok(listener) => {
                self.listener = Some(listener);
                self.port = Some(port);
                Ok(())
            }
            Err(_) => {
                self.faults = self.faults.saturating_add(1);
                Err(Failed)
            }
        }
    }

    fn accept(&mut self) -> Result<Option<TcpConnection<'n, N>>, Failed> {
        match next_ends(
            self.net,
            self.alloc,
            &self.listener,
            &self.alarm,
            self.accepted,
        ) {
            Ok(Some(came)) => {
                self.accepted += 1;
                Ok(Some(came))
            }
            Ok(None) => {
                // A client that comes from now on is refused at once.
                self.listener = None;
                self.closed = true;
                Ok(None)
            }
            Err(_) => {
                self.faults = self.faults.saturating_add(1);
                Err(Failed)
            }
        }
    }

    fn leave(&mut self, _input: TcpSource<'n, N>, _out: TcpSink<'n, N>, _ended: Ended) {
        // Dropping both ends closes them.
        self.left += 1;
    }
}
