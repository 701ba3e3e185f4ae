//! Calls of users.
ghost use Rattle.std.specs.Prelude.{◌≡◌, ℕ, List, is_some, true};
ghost use Rattle.hk_base.specs.Disk.{Tells};
ghost use Rattle.kms_acls.specs.Agreement.{AreListsOf};
ghost use Rattle.name_calls.specs.declared.calls.NameCall.TheVariants as call;
ghost use Rattle.prop_text.specs.declared.lines.PropLine.{PropLine};
ghost use Rattle.hk_events.specs.declared.event.Event.TheVariants as event;
ghost use Rattle.world_run.specs.Acknowledged.{Acknowledged, HoldsLogs};
ghost use Rattle.world_run.specs.Does.{CallHappens, Happens};
ghost use Rattle.world_run.specs.PathCalls.{path_call};
ghost use Rattle.world_run.specs.Step.{unread_reply};

use super::World;
use crate::path_calls::read_path_call;
use hk_base::{Disk, Text, Words};
use hk_events::{Event, Line};
use kms_calls::KmsCall;
use name_calls::{NameCall, NameRefusal, NameReply, PathFault};

/// Returns the answer to a path that could not be read.
fn unread(fault: PathFault) -> NameReply
    ensures { result ≡ unread_reply fault }
{
    match fault {
        PathFault::BadPath => NameReply::Refused(NameRefusal::BadPath),
        PathFault::NoMemory => NameReply::Refused(NameRefusal::NoMemory),
    }
}

impl World {
    /// Makes a call of the key management service.
    pub(super) fn call_keys<D: Disk, W: Words>(
        &mut self,
        disk: &mut D,
        words: &mut W,
        now: u64,
        user: Text,
        call: KmsCall,
    ) -> Line
        requires stands { Tells (D.state disk.old) →
            ((done : Acknowledged) × HoldsLogs (D.state disk.old) self.old done) }
        ensures { (lines : List PropLine) → AreListsOf self.old.keys.acls lines →
            Happens lines (D.state disk.old) (D.state disk.new) self.old (W.to_come words.old) now
            (event.Kms user call) result self.new (W.to_come words.new) }
    {
        let reply = self.keys.act(disk, words, now, &user, call);
        Line::Kms(reply)
    }

    /// Makes a call of the namesystem.
    fn call<D: Disk>(&mut self, disk: &mut D, user: &Text, call: NameCall) -> Line
        requires stands { Tells (D.state disk.old) →
            ((done : Acknowledged) × HoldsLogs (D.state disk.old) self.old done) }
        ensures { CallHappens (D.state disk.old) (D.state disk.new) self.old user.now call result
            self.new }
    {
        Line::Name(self.names.act(disk, user, call))
    }

    /// Asks for the encryption zones.
    pub(super) fn zones<D: Disk>(&mut self, disk: &mut D, user: Text) -> Line
        requires stands { Tells (D.state disk.old) →
            ((done : Acknowledged) × HoldsLogs (D.state disk.old) self.old done) }
        ensures { CallHappens (D.state disk.old) (D.state disk.new) self.old user call.Zones result
            self.new }
    {
        let line = self.call(disk, &user, NameCall::Zones);
        drop(user);
        line
    }

    /// Makes the call of an event about paths, or answers why they could not be read.
    pub(super) fn call_at_paths<D: Disk>(&mut self, disk: &mut D, event: Event) -> Line
        requires calls { is_some (path_call event) ≡ true }
        requires stands { Tells (D.state disk.old) →
            ((done : Acknowledged) × HoldsLogs (D.state disk.old) self.old done) }
        ensures { (lines : List PropLine) (words : ℕ → ℕ) (now : ℕ) →
            Happens lines (D.state disk.old) (D.state disk.new) self.old words now event result
            self.new words }
    {
        let (user, read) = read_path_call(self.alloc, event);
        match read {
            Err(fault) => {
                drop(user);
                Line::Name(unread(fault))
            }
            Ok(call) => {
                let line = self.call(disk, &user, call);
                drop(user);
                line
            }
        }
    }
}
