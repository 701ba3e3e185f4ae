//! Counts of the calls that connections were answered.
ghost use Rattle.std.specs.Prelude.{◌≡◌, max};
ghost use Rattle.service_health.specs.Counts.{after_call, after_change, after_kind, after_read, fails_after, is_failing, next, no_calls, no_counts, with_end};

/// How a call ended.
#[derive(Clone, Copy, Debug, PartialEq, Eq)]
pub enum CallEnd {
    /// It was done.
    Done,
    /// It was refused, and the log was not the cause.
    Refused,
    /// It was refused because a log could not be read, written or synced.
    Failed,
}

/// Numbers of calls by how they ended. Each begins with zero again after 2^64 - 1.
#[derive(Clone, Copy, Debug, PartialEq, Eq)]
pub struct CallTotals {
    pub done: u64,
    pub refused: u64,
    pub failed: u64,
}

/// Counts of one service.
#[derive(Clone, Copy, Debug, PartialEq, Eq)]
pub struct ServiceCounts {
    /// The calls that write no record.
    pub reads: CallTotals,
    /// The calls that write a record if they are done.
    pub changes: CallTotals,
    /// How many entries the history of the service had after the latest call that was counted.
    pub entries: u64,
    /// How many it had after the latest change that was counted.
    pub latest: u64,
    /// Whether the latest change that was not refused for a cause of its own failed.
    pub failing: bool,
}

/// A service.
#[derive(Clone, Copy, Debug, PartialEq, Eq)]
pub enum Service {
    /// The key management service.
    Keys,
    /// The namesystem.
    Names,
}

/// A call that a connection was answered.
#[derive(Clone, Copy, Debug, PartialEq, Eq)]
pub struct CallNote {
    pub service: Service,
    /// Whether it writes a record if it is done.
    pub change: bool,
    pub end: CallEnd,
    /// How many entries the history of the service had after it.
    pub at: u64,
}

/// Counts of both services.
#[derive(Clone, Copy, Debug, PartialEq, Eq)]
pub struct CallCounts {
    pub keys: ServiceCounts,
    pub names: ServiceCounts,
}

fn next(number: u64) -> u64
    ensures { result ≡ next number }
{
    number.wrapping_add(1)
}

fn fails_after(end: CallEnd, failing: bool) -> bool
    ensures { result ≡ fails_after end failing }
{
    match end {
        CallEnd::Done => false,
        CallEnd::Refused => failing,
        CallEnd::Failed => true,
    }
}

impl CallTotals {
    /// Returns the totals of no calls.
    pub fn new() -> CallTotals
        ensures { result ≡ record { done = 0; refused = 0; failed = 0 } }
    {
        CallTotals {
            done: 0,
            refused: 0,
            failed: 0,
        }
    }

    /// Returns the totals with one more call.
    fn with_end(self, end: CallEnd) -> CallTotals
        ensures { result ≡ with_end end self }
    {
        let CallTotals {
            done,
            refused,
            failed,
        } = self;
        match end {
            CallEnd::Done => CallTotals {
                done: next(done),
                refused,
                failed,
            },
            CallEnd::Refused => CallTotals {
                done,
                refused: next(refused),
                failed,
            },
            CallEnd::Failed => CallTotals {
                done,
                refused,
                failed: next(failed),
            },
        }
    }
}

fn larger(a: u64, b: u64) -> u64
    ensures { result ≡ max a b }
{
    a.max(b)
}

impl ServiceCounts {
    /// Returns the counts of no calls.
    pub fn new() -> ServiceCounts
        ensures { result ≡ no_calls }
    {
        ServiceCounts {
            reads: CallTotals::new(),
            changes: CallTotals::new(),
            entries: 0,
            latest: 0,
            failing: false,
        }
    }

    /// Returns the counts with one more call that writes no record, after which the history had `at`
    /// entries.
    fn after_read(self, end: CallEnd, at: u64) -> ServiceCounts
        ensures { result ≡ after_read end at self }
    {
        ServiceCounts {
            reads: self.reads.with_end(end),
            changes: self.changes,
            entries: larger(self.entries, at),
            latest: self.latest,
            failing: self.failing,
        }
    }

    /// Returns the counts with one more change, after which the history had `at` entries.
    fn after_change(self, end: CallEnd, at: u64) -> ServiceCounts
        ensures { result ≡ after_change end at self }
    {
        let failing = if self.latest <= at {
            fails_after(end, self.failing)
        } else {
            self.failing
        };
        ServiceCounts {
            reads: self.reads,
            changes: self.changes.with_end(end),
            entries: larger(self.entries, at),
            latest: larger(self.latest, at),
            failing,
        }
    }
}

impl ServiceCounts {
    fn after_kind(self, change: bool, end: CallEnd, at: u64) -> ServiceCounts
        ensures { result ≡ after_kind change end at self }
    {
        if change {
            self.after_change(end, at)
        } else {
            self.after_read(end, at)
        }
    }
}

impl CallCounts {
    /// Returns the counts of no calls.
    pub fn new() -> CallCounts
        ensures { result ≡ no_counts }
    {
        CallCounts {
            keys: ServiceCounts::new(),
            names: ServiceCounts::new(),
        }
    }

    /// Returns the counts with one more call. Threads may count their changes in another order than that
    /// of the history.
    pub fn after_call(self, note: CallNote) -> CallCounts
        ensures { result ≡ after_call note self }
    {
        let CallNote {
            service,
            change,
            end,
            at,
        } = note;
        match service {
            Service::Keys => CallCounts {
                keys: self.keys.after_kind(change, end, at),
                names: self.names,
            },
            Service::Names => CallCounts {
                keys: self.keys,
                names: self.names.after_kind(change, end, at),
            },
        }
    }

    /// Returns whether the log of either service fails.
    pub fn is_failing(&self) -> bool
        ensures { result ≡ is_failing self.now }
    {
        self.keys.failing || self.names.failing
    }
}
