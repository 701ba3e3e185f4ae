//! What both ends of a connection over TCP share with its handle.
use server_parts::HangUp;
use std::alloc::Global;
use std::net::{Shutdown, TcpStream};
use std::sync::Arc;
use std::sync::atomic::{AtomicBool, AtomicU64, Ordering};

/// The input waits for no request.
const BUSY: u64 = 0;

/// The input waited for a request when the connection was hung up.
const CUT: u64 = u64::MAX;

/// A stream, and what its owners tell each other.
#[derive(Drop)]
pub(crate) struct Link {
    pub(crate) stream: TcpStream,
    /// Since when the input waits for a request, in milliseconds, or `BUSY`, or `CUT`.
    waits: AtomicU64,
    /// Whether the connection was hung up.
    hung_up: AtomicBool,
    /// Whether nothing was read since something was written.
    between: AtomicBool,
}

impl Link {
    pub(crate) fn new(stream: TcpStream) -> Link {
        Link {
            stream,
            waits: AtomicU64::new(BUSY),
            hung_up: AtomicBool::new(false),
            between: AtomicBool::new(true),
        }
    }

    /// Returns whether the next byte that is read begins a request: nothing was read yet, or something
    /// was written since.
    pub(crate) fn is_between(&self) -> bool {
        self.between.load(Ordering::SeqCst)
    }

    /// Notes that a part of a request was read.
    pub(crate) fn note_read(&self) {
        self.between.store(false, Ordering::SeqCst);
    }

    /// Notes that a part of a response is written. Returns whether it is the first one.
    pub(crate) fn note_write(&self) -> bool {
        !self.between.swap(true, Ordering::SeqCst)
    }

    /// Returns whether the connection was hung up.
    pub(crate) fn is_hung_up(&self) -> bool {
        self.hung_up.load(Ordering::SeqCst)
    }

    /// Notes since when the input waits for a request. Returns `false` if the connection was hung up; it
    /// must not wait then.
    pub(crate) fn begin_wait(&self, since: u64) -> bool {
        // This side writes `waits` and then reads `hung_up`, the handle writes `hung_up` and then reads
        // `waits`: so one of them sees what the other wrote.
        self.waits.store(since.clamp(1, CUT - 1), Ordering::SeqCst);
        if self.is_hung_up() {
            self.waits.store(BUSY, Ordering::SeqCst);
            return false;
        }
        true
    }

    /// Notes that the input no longer waits.
    pub(crate) fn end_wait(&self) {
        self.waits.store(BUSY, Ordering::SeqCst);
    }

    /// Hangs up. If the input waits, it reads what has come, and then finds the end.
    fn hang_up(&self) {
        self.hung_up.store(true, Ordering::SeqCst);
        let Some(since) = self.waits_since() else {
            return;
        };
        let cut = self
            .waits
            .compare_exchange(since, CUT, Ordering::SeqCst, Ordering::SeqCst);
        if cut.is_ok() {
            let _ = self.stream.shutdown(Shutdown::Read);
        }
    }

    /// Returns since when the input waits for a request.
    fn waits_since(&self) -> Option<u64> {
        let since = self.waits.load(Ordering::SeqCst);
        if since == BUSY || since == CUT {
            return None;
        }
        Some(since)
    }
}

/// A handle on a connection over TCP. The connection's descriptor is closed once both ends are closed
/// and the handle is dropped.
#[derive(Drop)]
pub struct TcpHandle {
    link: Arc<Link, Global>,
}

impl TcpHandle {
    pub(crate) fn new(link: Arc<Link, Global>) -> TcpHandle {
        TcpHandle { link }
    }
}

impl HangUp for TcpHandle {
    fn hang_up(&self) {
        self.link.hang_up();
    }

    fn waits_since(&self) -> Option<u64> {
        self.link.waits_since()
    }

    fn has_ended(&self) -> bool {
        // Each end owns the link until it is closed.
        Arc::strong_count(&self.link) == 1
    }
}
