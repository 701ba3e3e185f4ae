//! The ends of a connection over TCP.
ghost use Rattle.std.specs.Prelude.{◌≡◌, IfSome, None};
ghost use Rattle.std.specs.Io.{ReadsAtMost, WritesAtMost};

use crate::pace::{LONGEST_WAIT, Pace};
use crate::tcp_link::{Link, TcpHandle};
use disk_kinds::{Reading, Writing};
use hk_base::{Failed, Sink, Source};
use server_parts::{Accepted, CloseInput, CloseOutput};
use std::alloc::Global;
use std::io::{self, ErrorKind, Read, Write};
use std::net::{Shutdown, TcpStream};
use std::sync::Arc;
use std::time::{Clock, Duration, Instant};

/// How long an input that is being closed waits for each further piece of what its peer sends, in
/// seconds.
const LAST_WAIT: u64 = 2;

/// How long an input that is being closed reads what its peer sends, in seconds.
const LONGEST_CLOSE: u64 = 10;

/// One half of a connection, until it is closed.
#[derive(Drop)]
pub(crate) struct Half<'n, C: Clock> {
    link: Option<Arc<Link, Global>>,
    clock: &'n C,
    /// The pace of the request that is being read, or of the response that is being written.
    pace: Pace,
    /// How many seconds a read or a write waits, as the stream has it.
    wait: u64,
    /// Whether the connection was hung up before the request that is being read.
    last: bool,
}

/// Returns the milliseconds of the clock.
fn now_ms<C: Clock>(clock: &C) -> io::Result<u64> {
    let now = clock.monotonic()?.as_millis();
    Ok(now.min(u64::MAX as u128) as u64)
}

/// Reads what has come, without waiting. Returns 0 if nothing has.
fn read_come(mut stream: &TcpStream, buf: &mut [u8]) -> io::Result<usize>
    ensures { ReadsAtMost result buf.new }
{
    stream.set_nonblocking(true)?;
    let outcome = stream.read(buf);
    stream.set_nonblocking(false)?;
    match outcome {
        Ok(count) => Ok(count),
        Err(error) => {
            if error.kind() == ErrorKind::WouldBlock {
                return Ok(0);
            }
            Err(error)
        }
    }
}

/// Waits for the first part of a request. Returns 0 if the connection is hung up before it comes.
fn wait_first<C: Clock>(clock: &C, link: &Link, buf: &mut [u8]) -> io::Result<usize>
    ensures { ReadsAtMost result buf.new }
{
    if !link.begin_wait(now_ms(clock)?) {
        return read_come(&link.stream, buf);
    }
    let outcome = (&link.stream).read(buf);
    link.end_wait();
    outcome
}

/// Reads the first part of a request. A request that had come when the connection was hung up is still
/// read, as the last one.
fn read_first<C: Clock>(
    clock: &C,
    link: &Link,
    last: &mut bool,
    buf: &mut [u8],
) -> io::Result<usize>
    ensures { ReadsAtMost result buf.new }
{
    if *last {
        return Ok(0);
    }
    let count = wait_first(clock, link, buf)?;
    *last = link.is_hung_up();
    if count > 0 {
        link.note_read();
    }
    Ok(count)
}

/// Reads a further part of a request.
fn read_part<C: Clock>(clock: &C, link: &Link, pace: &mut Pace, buf: &mut [u8]) -> io::Result<usize>
    ensures { ReadsAtMost result buf.new }
{
    let start = Instant::now(clock)?;
    let count = (&link.stream).read(buf)?;
    pace.add(start.elapsed(clock)?, count);
    Ok(count)
}

/// Writes a part of a response.
fn write_part<C: Clock>(clock: &C, link: &Link, pace: &mut Pace, bytes: &[u8]) -> io::Result<usize>
    ensures { WritesAtMost result bytes.now }
{
    let start = Instant::now(clock)?;
    let count = (&link.stream).write(bytes)?;
    pace.add(start.elapsed(clock)?, count);
    Ok(count)
}

/// Sets how many seconds a read of a stream waits.
fn set_read_wait(stream: &TcpStream, wait: &mut u64, seconds: u64) -> io::Result<()> {
    if *wait != seconds {
        stream.set_read_timeout(Some(Duration::from_secs(seconds)))?;
        *wait = seconds;
    }
    Ok(())
}

/// Sets how many seconds a write of a stream waits.
fn set_write_wait(stream: &TcpStream, wait: &mut u64, seconds: u64) -> io::Result<()> {
    if *wait != seconds {
        stream.set_write_timeout(Some(Duration::from_secs(seconds)))?;
        *wait = seconds;
    }
    Ok(())
}

impl<'n, C: Clock> Half<'n, C> {
    fn new(clock: &'n C, link: Arc<Link, Global>) -> Half<'n, C> {
        Half {
            link: Some(link),
            clock,
            pace: Pace::new(0),
            wait: LONGEST_WAIT,
            last: false,
        }
    }
}

impl<'n, C: Clock> Read for Half<'n, C> {
    fn read(&mut self, buf: &mut [u8]) -> io::Result<usize> {
        let Some(link) = &self.link else {
            return Err(io::Error::from(ErrorKind::NotConnected));
        };
        if link.is_between() {
            set_read_wait(&link.stream, &mut self.wait, LONGEST_WAIT)?;
            let count = read_first(self.clock, link, &mut self.last, buf)?;
            self.pace = Pace::new(count);
            return Ok(count);
        }
        let wait = self.pace.next_wait()?;
        set_read_wait(&link.stream, &mut self.wait, wait)?;
        read_part(self.clock, link, &mut self.pace, buf)
    }
}

impl<'n, C: Clock> Write for Half<'n, C> {
    fn write(&mut self, buf: &[u8]) -> io::Result<usize> {
        let Some(link) = &self.link else {
            return Err(io::Error::from(ErrorKind::NotConnected));
        };
        if link.note_write() {
            self.pace = Pace::new(0);
        }
        let wait = self.pace.next_wait()?;
        set_write_wait(&link.stream, &mut self.wait, wait)?;
        write_part(self.clock, link, &mut self.pace, buf)
    }

    fn flush(&mut self) -> io::Result<()> {
        Ok(())
    }
}

/// The input of a connection over TCP. A read that waits longer than a minute fails. All reads of one
/// request together may wait a minute, after its first byte came, and a second more for each 16,384
/// bytes of it; the next one fails.
///
/// A request begins with the first byte that is read, and with each one that is read after a write.
/// Once the connection was hung up, a read that would begin a request returns 0, except that one more
/// request is read if its first bytes had come by then.
#[derive(Drop)]
pub struct TcpSource<'n, C: Clock> {
    pub(crate) reading: Reading<Half<'n, C>>,
}

/// The output of a connection over TCP. What is written is sent at once. A write that waits longer
/// than a minute fails. All writes of one response together, with no read between them, may wait a
/// minute, and a second more for each 16,384 bytes of it; the next one fails.
#[derive(Drop)]
pub struct TcpSink<'n, C: Clock> {
    pub(crate) writing: Writing<Half<'n, C>>,
}

/// Sets a stream up, and returns its two ends and a handle. Returns `None` if that fails; the stream is
/// then closed.
pub(crate) fn ends_of<'n, C: Clock>(
    clock: &'n C,
    alloc: Global,
    stream: TcpStream,
) -> Option<Accepted<TcpSource<'n, C>, TcpSink<'n, C>, TcpHandle>>
    ensures { IfSome result
        (λ came. (came.input.reading.faults ≡ 0) × (came.out.writing.faults ≡ 0)) }
{
    let longest = Some(Duration::from_secs(LONGEST_WAIT));
    stream.set_nodelay(true).ok()?;
    stream.set_read_timeout(longest).ok()?;
    stream.set_write_timeout(longest).ok()?;
    let link = Arc::new(alloc, Link::new(stream)).ok()?;
    let input = Half::new(clock, Arc::try_clone(&link).ok()?);
    let out = Half::new(clock, Arc::try_clone(&link).ok()?);
    Some(Accepted {
        input: TcpSource {
            reading: Reading::new(input),
        },
        out: TcpSink {
            writing: Writing::new(out),
        },
        handle: TcpHandle::new(link),
    })
}

impl<'n, C: Clock> Source for TcpSource<'n, C> {
    ghost left = { λ _. None };

    ghost faults = { λ s. s.reading.faults };

    fn read(&mut self, buf: &mut [u8]) -> Result<usize, Failed> {
        self.reading.read(buf)
    }
}

impl<'n, C: Clock> Sink for TcpSink<'n, C> {
    ghost written = { λ _. None };

    ghost faults = { λ s. s.writing.faults };

    fn write(&mut self, bytes: &[u8]) -> Result<usize, Failed> {
        self.writing.write(bytes)
    }
}

/// Reads what the peer still sends, until it ends, pauses, or has sent for too long.
fn linger<C: Clock>(clock: &C, stream: &TcpStream) -> io::Result<()> {
    stream.set_read_timeout(Some(Duration::from_secs(LAST_WAIT)))?;
    let start = Instant::now(clock)?;
    let mut piece = [0u8; 4096];
    let mut unread = stream;
    for _ in 0..u64::MAX {
        if unread.read(&mut piece)? == 0 {
            return Ok(());
        }
        if start.elapsed(clock)? > Duration::from_secs(LONGEST_CLOSE) {
            return Ok(());
        }
    }
    Ok(())
}

impl<'n, C: Clock> CloseInput for TcpSource<'n, C> {
    fn close_input(&mut self) {
        // A stream that is closed while it has unread bytes is reset, and its peer may then lose the
        // end of what was written.
        if let Some(link) = self.reading.inner.link.take() {
            let _ = linger(self.reading.inner.clock, &link.stream);
        }
    }
}

impl<'n, C: Clock> CloseOutput for TcpSink<'n, C> {
    fn close_output(&mut self) {
        if let Some(link) = self.writing.inner.link.take() {
            let _ = link.stream.shutdown(Shutdown::Write);
        }
    }
}
