//! How much time a peer may take for a request or a response.
use std::io::{self, ErrorKind};
use std::time::Duration;

/// The most seconds that one read or write may wait.
pub(crate) const LONGEST_WAIT: u64 = 60;

/// How many bytes of a request or a response give its peer a further second.
const BYTES_A_SECOND: u64 = 16384;

/// How long the parts of a request or a response waited for the peer, and how many bytes they moved.
#[derive(Drop)]
pub(crate) struct Pace {
    waited: Duration,
    moved: u64,
}

impl Pace {
    /// Creates the pace of a request or a response of which `moved` bytes are there.
    pub(crate) fn new(moved: usize) -> Pace {
        Pace {
            waited: Duration::ZERO,
            moved: moved as u64,
        }
    }

    /// Counts a part.
    pub(crate) fn add(&mut self, waited: Duration, moved: usize) {
        self.waited = self.waited.saturating_add(waited);
        self.moved = self.moved.saturating_add(moved as u64);
    }

    /// Returns how much time is left. All parts together have a minute, and a second more for each
    /// 16,384 bytes.
    fn left(&self) -> Duration {
        let all = Duration::from_secs(LONGEST_WAIT + self.moved / BYTES_A_SECOND);
        all.saturating_sub(self.waited)
    }

    /// Returns how many seconds the next part may wait, rounded up and at most 60. Fails if there is no
    /// time left.
    pub(crate) fn next_wait(&self) -> io::Result<u64> {
        let left = self.left();
        if left.is_zero() {
            return Err(io::Error::from(ErrorKind::TimedOut));
        }
        let started = u64::from(left.subsec_nanos() > 0);
        Ok(left.as_secs().saturating_add(started).min(LONGEST_WAIT))
    }
}
