//! The calls of a door in memory.
ghost use Rattle.std.specs.Prelude.{◌≡◌, ◌≤◌, ◌<◌, [], ◌∷◌, map, Some, None, Ok, IfOk, IfSome, IsSome, OnOk, OnErr};
ghost use Rattle.std.proofs.Common.{arith};
ghost use Rattle.std.proofs.lemmas.List.{length-map};
ghost use Rattle.hk_base.specs.Faults.{HasCause, Rose};
ghost use Rattle.server_parts.specs.Doors.{with_accepted, with_closed, with_port};
ghost use Rattle.door_kinds.specs.Doors.{came_of, left_of, mem_door_faults, mem_door_state, to_come, known_door};

use super::{MemClient, MemDoor, MemHandle, MemLeft};
use disk_kinds::{CallPlan, MemSink, MemSource};
use hk_base::{Ended, Failed};
use server_parts::{Accepted, Door};
use std::alloc::{AllocError, Global};
use std::collections::VecDeque;
use std::snapshot::Snapshot;

impl MemClient {
    /// Returns both ends of the client's connection.
    fn connect(self, alloc: Global) -> (MemSource, MemSink)
        ensures left { result.0.left ≡ self.sends.items }
        ensures input { result.0.plan.faults ≡ 0 }
        ensures out { result.1.plan.faults ≡ 0 }
    {
        let most = self.most.max(1);
        let input = MemSource::new(self.sends, most, self.failing_reads);
        let out = MemSink::new(alloc, most, self.failing_writes);
        (input, out)
    }
}

impl MemDoor {
    /// Creates a door for these clients. The calls of `open` and `accept` whose numbers, counted from
    /// 1, are in `failing` fail. So does an `accept` after the last client.
    pub fn new(
        alloc: Global,
        clients: VecDeque<MemClient>,
        failing: Vec<u64>,
    ) -> Result<MemDoor, AllocError>
        ensures state { IfOk result (λ door. mem_door_state door ≡ known_door None [] []) }
        ensures faults { IfOk result (λ door. mem_door_faults door ≡ 0) }
        ensures clients { IfOk result
            (λ door. to_come door ≡ map (λ (c : MemClient). c.sends.items) clients.items) }
    {
        Ok(MemDoor {
            alloc,
            port: None,
            came: Vec::with_capacity(alloc, clients.len())?,
            gone: Vec::with_capacity(alloc, clients.len())?,
            clients,
            plan: CallPlan::new(failing),
            faults: 0,
        })
    }

    /// Creates a door without clients.
    pub fn closed(alloc: Global) -> Result<MemDoor, AllocError>
        ensures { IfOk result (λ door. mem_door_state door ≡ known_door None [] []) }
    {
        MemDoor::new(alloc, VecDeque::new(alloc), Vec::new(alloc))
    }

    /// Returns the connections that were left, in that order.
    pub fn left(&self) -> &[MemLeft]
        ensures { Some (map left_of result.now) ≡ (mem_door_state self.now).gone }
    {
        self.gone.as_slice()
    }

    /// Returns the number of faults, up to 2^64 - 1.
    pub fn faults(&self) -> u64
        ensures { result ≡ mem_door_faults self.now }
    {
        self.faults
    }

    /// Connects the next client. Counts no fault.
    fn next(&mut self) -> Result<(MemSource, MemSink), Failed>
        ensures some { IfOk result
            (λ ends. mem_door_state self.new ≡ with_accepted (mem_door_state self.old) ends) }
        ensures none { OnErr result (mem_door_state self.new ≡ mem_door_state self.old) }
        ensures client { IfOk result (λ ends. to_come self.old ≡ ends.0.left ∷ to_come self.new) }
        ensures input { IfOk result (λ ends. ends.0.plan.faults ≡ 0) }
        ensures out { IfOk result (λ ends. ends.1.plan.faults ≡ 0) }
        ensures faults { self.new.faults ≡ self.old.faults }
    {
        self.plan.call()?;
        match self.clients.pop_front() {
            Some(client) => {
                let ends = client.connect(self.alloc);
                self.came.push_reserved(Snapshot::of(&ends));
                Ok(ends)
            }
            None => Err(Failed),
        }
    }

    /// Counts a fault.
    fn fault(&mut self) -> Failed
        ensures same { mem_door_state self.new ≡ mem_door_state self.old }
        ensures clients { to_come self.new ≡ to_come self.old }
        ensures later { self.old.faults ≤ self.new.faults }
        ensures rose { Rose self.old.faults self.new.faults }
    {
        self.faults = self.faults.saturating_add(1);
        Failed
    }
}

impl Door for MemDoor {
    type In = MemSource;

    type Out = MemSink;

    type Handle = MemHandle;

    ghost state = { mem_door_state };

    ghost faults = { mem_door_faults };

    ghost no_more_left = { λ d.
        Prim.omega
        (arith, d.order, length-map d.gone.items left_of, length-map d.came.items came_of) };

    fn open(&mut self, port: u16) -> Result<(), Failed> {
        match self.plan.call() {
            Ok(()) => {
                self.port = Some(port);
                Ok(())
            }
            Err(_) => Err(self.fault()),
        }
    }

    fn accept(&mut self) -> Result<Option<Accepted<MemSource, MemSink, MemHandle>>, Failed>
        ensures some { IfOk result
            (λ next.
            IfSome next
            (λ came. mem_door_state self.new ≡
            with_accepted (mem_door_state self.old) (came.input, came.out))) }
        ensures closed { result ≡ Ok None →
            mem_door_state self.new ≡ with_closed (mem_door_state self.old) }
        ensures none { OnErr result (mem_door_state self.new ≡ mem_door_state self.old) }
        ensures fresh { IfOk result
            (λ next.
            IfSome next (λ came. (came.input.plan.faults ≡ 0) × (came.out.plan.faults ≡ 0))) }
        ensures cause { HasCause (mem_door_faults self.old) (mem_door_faults self.new) result }
        ensures never_closed { IfOk result (λ next. IsSome next) }
        ensures client { IfOk result
            (λ next. IfSome next (λ came. to_come self.old ≡ came.input.left ∷ to_come self.new)) }
    {
        match self.next() {
            Ok((input, out)) => Ok(Some(Accepted {
                input,
                out,
                handle: MemHandle,
            })),
            Err(_) => Err(self.fault()),
        }
    }

    fn leave(&mut self, input: MemSource, out: MemSink, ended: Ended) {
        self.gone.push_reserved(MemLeft { input, out, ended });
    }
}
