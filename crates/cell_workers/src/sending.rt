//! Sending tasks to the batch workers.
use crate::tasks::Task;
use crate::workers::WorkerPool;
use std::sync::Wait;
use turns::Turns;

impl<
    'a,
    R: Wait,
    D,
    W,
    K: Drop,
    N: Drop,
    S: Turns<D = D, W = W, Keys = K, Names = N>,
    G,
> WorkerPool<'a, R, D, W, K, N, S, G> {
    /// Sends a task to the batch workers. If there is no memory for that, it is sent later.
    pub(crate) fn send_now(&self, task: Task<D, W, K, N, S>) {
        match self.senders.tasks.send(self.rt, task) {
            Ok(()) => {}
            Err(task) => self.send_later(task),
        }
    }

    /// Has the waiter send a task after a moment, or sends it here if there is no memory for that.
    pub(crate) fn send_later(&self, task: Task<D, W, K, N, S>) {
        match self.senders.later.send(self.rt, task) {
            Ok(()) => {}
            Err(task) => self.send_after_moment(task),
        }
    }

    /// Sends a task to the batch workers after a moment. While there is no memory for that, it is tried
    /// again after each moment. Once the channels are closed, the task is dropped.
    fn send_after_moment(&self, task: Task<D, W, K, N, S>) {
        let mut task = task;
        for _ in self.rt.forever() {
            self.senders.wait_a_moment(self.rt);
            match self.senders.tasks.send(self.rt, task) {
                Ok(()) => return,
                Err(back) => task = back,
            }
            if !self.senders.tasks.is_open(self.rt) {
                drop(task);
                return;
            }
        }
        unreachable!()
    }

    /// Sends each task that it receives to the batch workers, each after a moment.
    pub(crate) fn send_refused(&self) {
        for _ in self.rt.forever() {
            match self.receivers.later.recv(self.rt) {
                Ok(task) => self.send_after_moment(task),
                Err(_) => return,
            }
        }
        unreachable!()
    }
}
