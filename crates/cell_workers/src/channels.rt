//! The channels to the workers.
use crate::tasks::Task;
use crate::updates::Update;
use crossbeam_channel::{Receiver, SendError, Sender, unbounded};
use hk_base::NoMemory;
use name_calls::NPath;
use service_health::{CallCounts, CallNote};
use std::alloc::Global;
use std::sync::{Condvar, Mutex, Wait};
use std::time::Duration;
use turns::{Notices, Turns};

/// How many threads fill queues.
const FILLERS: usize = 2;

/// How long a task that was refused waits until it is tried again, in milliseconds.
const MOMENT: u64 = 1000;

/// The sending end of a channel. Threads share it, and any of them can close the channel.
#[derive(Drop)]
pub struct SharedSender<T: Drop> {
    sender: Mutex<Option<Sender<T>>>,
}

impl<T: Drop> SharedSender<T> {
    /// Opens a channel that holds any number of messages.
    pub fn open(alloc: Global) -> Result<(SharedSender<T>, Receiver<T>), NoMemory> {
        let (sender, receiver) = unbounded(alloc)?;
        let shared = SharedSender {
            sender: Mutex::new(Some(sender)),
        };
        Ok((shared, receiver))
    }

    /// Sends a message. Returns the message if the channel is closed or allocation fails.
    pub fn send<R: Wait>(&self, rt: &R, message: T) -> Result<(), T> {
        let sender = self.sender.lock(rt);
        match sender.as_ref() {
            None => Err(message),
            Some(sender) => match sender.send(rt, message) {
                Ok(()) => Ok(()),
                Err(SendError::Disconnected(message)) => Err(message),
                Err(SendError::OutOfMemory(message)) => Err(message),
            },
        }
    }

    /// Returns whether the channel is open.
    pub fn is_open<R: Wait>(&self, rt: &R) -> bool {
        self.sender.lock(rt).is_some()
    }

    /// Returns whether the channel is open and fewer than `count` messages wait in it.
    pub fn has_fewer<R: Wait>(&self, rt: &R, count: usize) -> bool {
        match self.sender.lock(rt).as_ref() {
            None => false,
            Some(sender) => sender.len() < count,
        }
    }

    /// Closes the channel. Its receivers still get what was sent.
    pub fn close<R: Wait>(&self, rt: &R) {
        let sender = self.sender.lock(rt).take();
        drop(sender);
    }
}

/// The sending ends of the channels to the workers. Connections and workers send the workers' tasks, and
/// connections count their calls here.
#[derive(Drop)]
pub struct WorkSenders<D, W, K: Drop, N: Drop, S: Turns<D = D, W = W, Keys = K, Names = N>> {
    /// A queue of ready keys may be low.
    pub low: SharedSender<()>,
    /// What a batch worker does next.
    pub tasks: SharedSender<Task<D, W, K, N, S>>,
    /// The reply for a batch, to deliver.
    pub updates: SharedSender<Update<D, W, K, N, S>>,
    /// A task to send to the batch workers after a moment.
    pub later: SharedSender<Task<D, W, K, N, S>>,
    /// Notified once all channels are closed.
    closed: Condvar,
    /// The calls that connections were answered.
    counts: Mutex<CallCounts>,
}

/// The receiving ends, which the workers share.
#[derive(Drop)]
pub struct WorkReceivers<D, W, K: Drop, N: Drop, S: Turns<D = D, W = W, Keys = K, Names = N>> {
    pub low: Receiver<()>,
    pub tasks: Receiver<Task<D, W, K, N, S>>,
    pub updates: Receiver<Update<D, W, K, N, S>>,
    pub later: Receiver<Task<D, W, K, N, S>>,
}

/// Opens the channels to the workers.
pub fn open_channels<D, W, K: Drop, N: Drop, S: Turns<D = D, W = W, Keys = K, Names = N>>(
    alloc: Global,
) -> Result<(WorkSenders<D, W, K, N, S>, WorkReceivers<D, W, K, N, S>), NoMemory> {
    let (low, lows) = SharedSender::open(alloc)?;
    let (tasks, next) = SharedSender::open(alloc)?;
    let (updates, replies) = SharedSender::open(alloc)?;
    let (later, refused) = SharedSender::open(alloc)?;
    let senders = WorkSenders {
        low,
        tasks,
        updates,
        later,
        closed: Condvar::new(),
        counts: Mutex::new(CallCounts::new()),
    };
    let receivers = WorkReceivers {
        low: lows,
        tasks: next,
        updates: replies,
        later: refused,
    };
    Ok((senders, receivers))
}

impl<D, W, K: Drop, N: Drop, S: Turns<D = D, W = W, Keys = K, Names = N>> WorkSenders<
    D,
    W,
    K,
    N,
    S,
> {
    /// Closes all channels, so that the workers end.
    pub fn close<R: Wait>(&self, rt: &R) {
        self.low.close(rt);
        self.tasks.close(rt);
        self.updates.close(rt);
        self.later.close(rt);
        self.closed.notify_all();
    }

    /// Waits for a moment, or until the channels are closed.
    pub(crate) fn wait_a_moment<R: Wait>(&self, rt: &R) {
        let seen = self.closed.notifications();
        if self.later.is_open(rt) {
            self.closed.sleep(rt, seen, Duration::from_millis(MOMENT));
        }
    }
}

impl<D, W, K: Drop, N: Drop, S: Turns<D = D, W = W, Keys = K, Names = N>> Notices
    for WorkSenders<D, W, K, N, S> {
    // A notice that waits already serves for later ones too.
    fn low<R: Wait>(&self, rt: &R) {
        if self.low.has_fewer(rt, FILLERS) {
            let _ = self.low.send(rt, ());
        }
    }

    // A zone that can't be sent is left to the last round.
    fn submitted<R: Wait>(&self, rt: &R, zone: NPath) {
        let _ = self.tasks.send(rt, Task::Walk(zone));
    }

    fn answered<R: Wait>(&self, rt: &R, note: CallNote) {
        let mut counts = self.counts.lock(rt);
        *counts = counts.after_call(note);
    }

    fn counts<R: Wait>(&self, rt: &R) -> CallCounts {
        *self.counts.lock(rt)
    }
}
