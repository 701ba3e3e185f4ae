//! A door over TCP that says when it listens.
use disk_kinds::Alarm;
use door_kinds::{TcpDoor, TcpHandle, TcpSink, TcpSource};
use hk_base::{Ended, Failed};
use server_parts::{Accepted, Door};
use std::alloc::Global;
use std::sync::Arc;

/// A door over TCP that writes a line to standard error when it listens. It is otherwise the door that it has.
#[derive(Drop)]
pub struct Announcing<'a> {
    rt: &'a HostRuntime,
    door: TcpDoor<'a, HostRuntime>,
}

impl<'a> Announcing<'a> {
    /// Creates a door that takes no more connections once the alarm is raised.
    pub fn new(rt: &'a HostRuntime, alloc: Global, alarm: Arc<Alarm, Global>) -> Announcing<'a> {
        Announcing {
            rt,
            door: TcpDoor::new(rt, alloc, alarm),
        }
    }
}

impl<'a> Door for Announcing<'a> {
    ghost use Rattle.std.specs.Prelude.{◌≡◌};
    ghost use Rattle.std.proofs.Common.{rules};

    type In = TcpSource<'a, HostRuntime>;

    type Out = TcpSink<'a, HostRuntime>;

    type Handle = TcpHandle;

    ghost state = { λ d. ⟦<TcpDoor<'a, HostRuntime> as Door>⟧.state d.door };

    ghost faults = { λ d. ⟦<TcpDoor<'a, HostRuntime> as Door>⟧.faults d.door };

    ghost no_more_left = { λ d. Prim.search rules };

    fn open(&mut self, port: u16) -> Result<(), Failed> {
        self.door.open(port)?;
        let _ = eprintln!(self.rt; "hkms: listening on 127.0.0.1:{port}");
        Ok(())
    }

    fn accept(&mut self) -> Result<Option<Accepted<Self::In, Self::Out, TcpHandle>>, Failed> {
        self.door.accept()
    }

    fn leave(&mut self, input: Self::In, out: Self::Out, ended: Ended) {
        self.door.leave(input, out, ended)
    }
}
