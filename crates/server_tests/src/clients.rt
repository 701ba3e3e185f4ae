//! A door in memory for clients.
use crate::requests::{Client, bytes_of, check_responses};
use door_kinds::{MemClient, MemDoor, MemLeft};
use hk_base::Ended;
use std::alloc::Global;
use std::collections::VecDeque;
use std::process::Abort;

fn mem_client(rt: &impl Abort, alloc: Global, client: Client) -> MemClient {
    MemClient {
        sends: bytes_of(rt, alloc, client),
        most: 300,
        failing_reads: Vec::new(alloc),
        failing_writes: Vec::new(alloc),
    }
}

/// Returns a door for clients, of which no call fails.
pub fn door(rt: &impl Abort, alloc: Global, clients: &[Client]) -> MemDoor {
    let mut queue = VecDeque::new(alloc);
    for client in clients {
        queue
            .push_back(mem_client(rt, alloc, *client))
            .expect(rt, "memory");
    }
    MemDoor::new(alloc, queue, Vec::new(alloc)).expect(rt, "memory")
}

fn check_connection(rt: &impl Abort, client: Client, left: &MemLeft) {
    assert_eq!(rt; left.ended, Ended::End);
    check_responses(rt, client, left.out.as_slice());
}

/// The connections of these clients were left in this order, each with all its responses.
pub fn check_left(rt: &impl Abort, door: &MemDoor, clients: &[Client]) {
    assert_eq!(rt; door.left().len(), clients.len());
    for (left, client) in door.left().iter().zip(clients) {
        check_connection(rt, *client, left);
    }
}
