//! Hanging connections up.
ghost use Rattle.std.specs.Prelude.{◌≤◌, ◌<◌, ◌+◌};
ghost use Rattle.std.specs.VecDeque.{deque_len, deque_capacity};

use crate::ends::ServeEnd;
use crate::places::Places;
use crate::running::Queue;
use server_parts::Door;
use std::sync::Wait;
use turns::Turns;

/// How many times the acceptor waits for a place, a moment each, before it hangs a connection up: half a
/// second in all. Until then a client that has just connected can send its request.
const PATIENCE: u32 = 10;

/// Returns since when the connection at an index of the queue has waited for a request, if it waits.
fn waits_since<R: Wait, A: Door, S: Turns>(
    rt: &R,
    queue: &Queue<A, S>,
    index: usize,
) -> Option<u64> {
    match queue.get(index) {
        Some(running) => running.waits_since(rt),
        None => None,
    }
}

/// Returns the index of the connection that has waited longest for a request, if one waits.
fn longest_waiting<R: Wait, A: Door, S: Turns>(rt: &R, queue: &Queue<A, S>) -> Option<usize> {
    let mut longest = None;
    let mut earliest = u64::MAX;
    for index in 0..queue.len() {
        if let Some(since) = waits_since::<R, A, S>(rt, queue, index) {
            if since < earliest {
                longest = Some(index);
                earliest = since;
            }
        }
    }
    longest
}

/// Hangs the connection at an index of the queue up, if there is one.
fn hang_up_at<R: Wait, A: Door, S: Turns>(rt: &R, queue: &Queue<A, S>, index: usize) {
    if let Some(running) = queue.get(index) {
        running.hang_up(rt);
    }
}

/// Hangs the connection up that has waited longest for a request, if one waits.
fn hang_up_longest<R: Wait, A: Door, S: Turns>(rt: &R, queue: &Queue<A, S>) {
    if let Some(index) = longest_waiting::<R, A, S>(rt, queue) {
        hang_up_at::<R, A, S>(rt, queue, index);
    }
}

/// Takes a place for a connection. If all places are taken for half a second, the connection that has
/// waited longest for a request is ended, and then the next one, until there is a place.
pub fn take_place<R: Wait, A: Door, S: Turns>(rt: &R, places: &Places, queue: &Queue<A, S>) {
    let mut looks = 0u32;
    for _ in rt.forever() {
        let seen = places.changes();
        if places.take(rt) {
            return;
        }
        if looks >= PATIENCE {
            hang_up_longest::<R, A, S>(rt, queue);
        }
        places.wait(rt, seen);
        looks = looks.saturating_add(1);
    }
}

/// Returns whether the connection at an index of the queue has ended.
fn has_ended<R: Wait, A: Door, S: Turns>(rt: &R, queue: &Queue<A, S>, index: usize) -> bool {
    match queue.get(index) {
        Some(running) => running.has_ended(rt),
        None => false,
    }
}

/// Returns how many connections at the front of the queue have ended.
fn count_ended<R: Wait, A: Door, S: Turns>(rt: &R, queue: &Queue<A, S>) -> usize
    ensures { result ≤ deque_len queue.now }
{
    for index in 0..queue.len() {
        if !has_ended::<R, A, S>(rt, queue, index) {
            return index;
        }
    }
    queue.len()
}

/// Returns how many connections at the front of the queue to join before the next one is accepted:
/// those that have ended. If none has, and the queue is full, the oldest is hung up and is the one to
/// join.
pub fn count_to_join<R: Wait, A: Door, S: Turns>(rt: &R, queue: &Queue<A, S>) -> usize
    requires { 0 < deque_capacity queue.now }
    ensures bound { result ≤ deque_len queue.now }
    ensures room { deque_len queue.now < deque_capacity queue.now + result }
{
    let ended = count_ended::<R, A, S>(rt, queue);
    if ended > 0 {
        return ended;
    }
    if queue.len() < queue.capacity() {
        return 0;
    }
    hang_up_at::<R, A, S>(rt, queue, 0);
    1
}

/// Hangs all connections up if the server ends before its time: if it did not accept as many as it was
/// told.
pub fn hang_up_unserved<R: Wait, A: Door, S: Turns>(rt: &R, queue: &Queue<A, S>, end: ServeEnd) {
    if matches!(end, ServeEnd::Served) {
        return;
    }
    for index in 0..queue.len() {
        hang_up_at::<R, A, S>(rt, queue, index);
    }
}
