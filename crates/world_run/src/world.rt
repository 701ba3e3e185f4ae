//! The world and its events.
ghost use Rattle.std.specs.Prelude.{◌≡◌, ◌≤◌, IfOk, IsErrOf};
ghost use Rattle.hk_base.specs.Disk.{Tells};
ghost use Rattle.kms_acls.specs.Agreement.{AreListsOf};
ghost use Rattle.name_core.specs.Calls.{superuser};
ghost use Rattle.hk_events.specs.declared.event.Event.TheVariants as event;
ghost use Rattle.world_run.specs.Acknowledged.{Acknowledged, HoldsLogs};
ghost use Rattle.world_run.specs.Keeps.{BeginsFirstWorld, HappensOrFails, RestartsOrFails, StepsOrFails};
ghost use Rattle.world_run.specs.Linked.{ServicesFit};
ghost use Rattle.world_run.specs.Starts.{OpensBoth};
ghost use Rattle.world_run.specs.World.{world_of};

mod asks;
mod calls;
mod ready;
mod reencryption;

use crate::fault::WorldFault;
use crate::kept::KeptReply;
use frame_log::StartFault;
use hk_base::{Disk, NoMemory, Text, Words};
use hk_events::{Event, Line};
use kms_acls::Acls;
use kms_core::{Kms, Ticket};
use name_calls::AskNote;
use name_core::{Name, superuser};
use prop_text::{Props, Sizes};
use reenc_walk::BatchNote;
use std::alloc::Global;
use std::marker::Model;

/// The number of the file that has the key log.
const KEYS: u8 = 0;

/// The number of the file that has the edit log.
const NAMES: u8 = 1;

/// Both services, and the tickets, notes, batches and replies that are kept between events. Contracts
/// see the access control lists, the store and the queues of the key management service, the store,
/// the open asks and the walks of the namesystem, and the tickets, notes, batches and replies as
/// lists.
///
/// Always pass the disk that the world was started on. docs/glossary.md explains the words of its
/// contracts: ledger, draw, linked, sound.
#[derive(Drop)]
pub struct World {
    alloc: Global,
    keys: Kms,
    names: Name,
    tickets: Vec<Ticket>,
    notes: Vec<AskNote>,
    batches: Vec<BatchNote>,
    replies: Vec<KeptReply>,
    superuser: Text,
}

impl Model for World {
    ghost use Rattle.std.specs.Prelude.{◌≡◌};
    ghost use Rattle.name_core.specs.Calls as calls;
    ghost use Rattle.world_run.specs.World.{RunningWorld};

    ghost Value = { RunningWorld };

    ghost view = { λ a.
        record {
          keys = a.keys;
          names = a.names;
          kept = record {
            tickets = a.tickets.items;
            notes = a.notes.items;
            batches = a.batches.items;
            replies = a.replies.items;
          };
        } };

    ghost invariant = { λ a. a.superuser ≡ calls.superuser };
}

/// Makes what a world needs beside its logs: the user who makes the calls that asks want, and the
/// lists of the properties.
fn beside_logs(alloc: Global, props: &Props) -> Result<(Text, Acls), NoMemory>
    ensures { IfOk result (λ made. (made.0 ≡ superuser) × AreListsOf made.1 props.now.lines) }
{
    let user = superuser(alloc)?;
    let acls = Acls::from_props(alloc, props)?;
    Ok((user, acls))
}

/// Returns the number of files in a batch.
fn batch_size(sizes: &Sizes) -> u16
    ensures size { result ≡ sizes.now.batch }
    ensures some { 1 ≤ result }
    ensures most { result ≤ 1000 }
{
    sizes.batch
}

impl World {
    /// Opens the key log on file 0 of a disk, and then the edit log on file 1. The access control
    /// lists of the properties judge the calls of the key management service, and their sizes are its
    /// own, from now on and after each restart. If allocation fails before a log is opened, the fault is that of file 0.
    ///
    /// Returns `Damaged` exactly if the file is no log, or one of its records is none or doesn't
    /// apply, with the offset of its gate. Returns `Spent` exactly if opening 4,294,967,295 is
    /// recorded. The first file with a fault counts: if it is file 1, the key log was found good and
    /// was opened; if it is file 0, file 1 was not touched.
    pub fn start<D: Disk>(alloc: Global, disk: &mut D, props: &Props) -> Result<World, WorldFault>
        ensures began { IfOk result (BeginsFirstWorld props.now.sizes (D.state disk.old) (D.state disk.new)) }
        ensures lists { IfOk result (λ world. AreListsOf world.keys.acls props.now.lines) }
        ensures opens { OpensBoth (D.state disk.old) (D.state disk.new)
            (λ file fault. IsErrOf result (record { file = file; fault = fault })) }
    {
        let (user, acls) = match beside_logs(alloc, props) {
            Ok(made) => made,
            Err(_) => {
                return Err(WorldFault {
                    file: KEYS,
                    fault: StartFault::NoMemory,
                });
            }
        };
        let keys = match Kms::start(alloc, disk, acls, props.sizes) {
            Ok(keys) => keys,
            Err(fault) => {
                drop(user);
                return Err(WorldFault { file: KEYS, fault });
            }
        };
        // The key log is on file 0.
        let _ = keys.count();
        let names = match Name::start(alloc, disk, batch_size(&props.sizes)) {
            Ok(names) => names,
            Err(fault) => {
                drop(keys);
                drop(user);
                return Err(WorldFault { file: NAMES, fault });
            }
        };
        names.invariants();
        Ok(World {
            alloc,
            keys,
            names,
            tickets: Vec::new(alloc),
            notes: Vec::new(alloc),
            batches: Vec::new(alloc),
            replies: Vec::new(alloc),
            superuser: user,
        })
    }

    /// Lets an event happen, and answers it. `now` is the moment of the event. If the world was linked
    /// with the draws and entries so far, it is linked again, and each file in a zone, live or in a
    /// snapshot, opens to the data encryption key drawn for it, even with the keys and the files that a
    /// crash at any moment of the event leaves in both logs.
    ///
    /// The access control lists of the start judge each call of the key management service first: a
    /// user's call as that user's, and a call that an ask wants as one of the user `hdfs`. A call that
    /// is denied does nothing. The lists stay as they are.
    ///
    /// Only a restart may fail, if its opening fails. The world must not go on with this disk then.
    pub fn step<D: Disk, W: Words>(
        &mut self,
        disk: &mut D,
        words: &mut W,
        now: u64,
        event: Event,
    ) -> Result<Line, WorldFault>
        requires stands { Tells (D.state disk.old) →
            ((done : Acknowledged) × HoldsLogs (D.state disk.old) self.old done) }
        ensures { StepsOrFails (D.state disk.old) (D.state disk.new) self.old (W.to_come words.old)
            now event result self.new (W.to_come words.new) }
    {
        self.fits();
        let line = self.happen(disk, words, now, event);
        self.fits();
        line
    }

    /// Gives back the memory of a world that has ended. Its logs stay as they are.
    pub fn close(self) {
        drop(self);
    }

    /// Recalls what both services keep by themselves.
    pub fn fits(&self)
        ensures fits { ServicesFit (world_of self.now) }
        // The key log is that of file 0.
        ensures keys_file { self.now.keys.store.log.file ≡ 0 }
        // The edit log is that of file 1.
        ensures names_file { self.now.names.store.log.log.file ≡ 1 }
    {
        let _ = self.keys.count();
        self.names.invariants();
    }

    /// Returns the allocator that the world was started with.
    pub(crate) fn alloc(&self) -> Global {
        self.alloc
    }

    fn happen<D: Disk, W: Words>(
        &mut self,
        disk: &mut D,
        words: &mut W,
        now: u64,
        event: Event,
    ) -> Result<Line, WorldFault>
        requires stands { Tells (D.state disk.old) →
            ((done : Acknowledged) × HoldsLogs (D.state disk.old) self.old done) }
        ensures { HappensOrFails (D.state disk.old) (D.state disk.new) self.old (W.to_come words.old)
            now event result self.new (W.to_come words.new) }
    {
        match event {
            Event::Kms { user, call } => Ok(self.call_keys(disk, words, now, user, call)),
            Event::Ticket => Ok(self.ticket()),
            Event::Deposit { ticket } => Ok(self.deposit(words, ticket)),
            Event::RestartKms => self.restart_keys(disk),
            Event::RestartName => self.restart_names(disk),
            Event::Zones { user } => Ok(self.zones(disk, user)),
            Event::AskCreate { user, path } => Ok(self.ask_create(user, path)),
            Event::AskZone { user, path, key } => Ok(self.ask_zone(user, path, key)),
            Event::AskSubmit { user, path } => Ok(self.ask_submit(user, path)),
            Event::Draw { ask } => Ok(self.draw(disk, words, now, ask)),
            Event::Finish { reply } => Ok(self.finish(disk, reply)),
            Event::Walk { path } => Ok(self.walk(disk, path)),
            Event::Serve { batch } => Ok(self.serve(disk, words, now, batch)),
            Event::Deliver { reply } => Ok(self.deliver(disk, reply)),
            Event::GiveUp { batch } => Ok(self.give_up(disk, batch)),
            event => Ok(self.call_at_paths(disk, event)),
        }
    }

    /// Opens the key log again, and goes on with the keys that it finds and with the same lists. If it
    /// fails, nothing changes except the disk.
    fn restart_keys<D: Disk>(&mut self, disk: &mut D) -> Result<Line, WorldFault>
        requires stands { Tells (D.state disk.old) →
            ((done : Acknowledged) × HoldsLogs (D.state disk.old) self.old done) }
        ensures { RestartsOrFails (D.state disk.old) (D.state disk.new) self.old event.RestartKms
            result self.new }
    {
        self.fits();
        match self.keys.restart(self.alloc, disk) {
            Err(fault) => return Err(WorldFault { file: KEYS, fault }),
            Ok(()) => {}
        }
        let opening = self.keys.opening();
        Ok(Line::Opened { opening })
    }

    /// Opens the edit log again, and goes on with the rows that it finds. No ask is open then. If it
    /// fails, nothing changes except the disk.
    fn restart_names<D: Disk>(&mut self, disk: &mut D) -> Result<Line, WorldFault>
        requires stands { Tells (D.state disk.old) →
            ((done : Acknowledged) × HoldsLogs (D.state disk.old) self.old done) }
        ensures { RestartsOrFails (D.state disk.old) (D.state disk.new) self.old event.RestartName
            result self.new }
    {
        self.fits();
        match self.names.restart(self.alloc, disk) {
            Err(fault) => return Err(WorldFault { file: NAMES, fault }),
            Ok(()) => {}
        }
        let opening = self.names.opening();
        Ok(Line::Opened { opening })
    }
}
