//! The service as users call it.
ghost use Rattle.std.specs.Prelude.{◌≡◌, true, [], ℕ, List, IfOk, IsErrOf, MatchResult, OnOk, length};
ghost use Rattle.hk_base.specs.Disk.{Tells};
ghost use Rattle.key_rows.specs.declared.rows.KeyCommand.{KeyCommand};
ghost use Rattle.prop_text.specs.declared.lines.PropLine.{PropLine};
ghost use Rattle.kms_acls.specs.Agreement.{AreListsOf};
ghost use Rattle.kms_store.specs.Store.{OpensKeys, IsKeyStoreOf};
ghost use Rattle.kms_core.specs.State.{IsService, keys_of, no_queues, service_of};
ghost use Rattle.kms_core.specs.Ready.{deposit_answer, queues_with, ticket_of};
ghost use Rattle.kms_core.specs.Service.{Starts};
ghost use Rattle.kms_core.specs.Users.{ActsFor, hides, running, reply_to, without_material};

use crate::service::Service;
use eek_seal::{Deposit, Sealed, Ticket};
use frame_log::StartFault;
use hk_base::{Disk, Text, Words, put};
use kms_acls::{Acls, Denied, Shown};
use kms_calls::{KmsCall, KmsRefusal, KmsReply};
use prop_text::Sizes;
use std::alloc::Global;
use std::marker::Model;

/// The running key management service, over the key log on file 0 of a disk, with the access
/// control lists of its users. Contracts see the lists, the store, the counter of the next birth and
/// the queues of ready keys. They define a call by its effect on the keys and the pending command.
///
/// Always pass the disk that the service was started on.
#[derive(Drop)]
pub struct Kms {
    acls: Acls,
    service: Service,
}

impl Model for Kms {
    ghost use Rattle.kms_core.specs.Users.{RunningKms};

    ghost Value = { RunningKms };

    ghost view = { λ a.
        record {
          acls = a.acls;
          store = a.service.store;
          next = a.service.next;
          ready = a.service.ready;
        } };
}

/// Returns whether the reply to a call hides the material of the new version.
fn hides(shown: Shown, call: &KmsCall) -> bool
    ensures { result ≡ hides shown call.now }
{
    match call {
        KmsCall::Create { .. } => !shown.material,
        KmsCall::Roll { .. } => !shown.material,
        _ => false,
    }
}

fn without_material(reply: KmsReply) -> KmsReply
    ensures { result ≡ without_material reply }
{
    match reply {
        KmsReply::Version { version, .. } => KmsReply::Version {
            version,
            material: None,
        },
        other => other,
    }
}

impl Kms {
    /// Opens the key log on file 0 of a disk, builds the table from its commands, and records a new
    /// opening after them. A crash may stop it at any moment; a later start then works as usual.
    /// The lists decide who may do what. There are no ready keys yet.
    ///
    /// Returns `Damaged` exactly if the file is not a log, or a record encodes no command or one
    /// that doesn't apply, with the offset of its gate. Returns `Spent` exactly if opening
    /// 4,294,967,295 is recorded.
    pub fn start<D: Disk>(
        alloc: Global,
        disk: &mut D,
        acls: Acls,
        sizes: Sizes,
    ) -> Result<Kms, StartFault>
        ensures started { IfOk result
            (λ kms. Starts (D.state disk.old) (D.state disk.new) (running kms)) }
        ensures lists { IfOk result (λ kms. kms.acls ≡ acls) }
        ensures queues { IfOk result (λ kms. kms.ready ≡ no_queues sizes) }

        // A crash at any moment leaves what it might have left before, or the log found, as it is
        // or with its end gate read as 1, or its commands with or without the new opening. After the
        // first sync of the call a crash leaves only the latter. If that sync failed, nothing was written.
        ensures opens { OpensKeys (D.state disk.old) (D.state disk.new)
            (λ fault. IsErrOf result fault) }
    {
        match Service::start(alloc, disk, sizes.queue, sizes.watermark, sizes.cache) {
            Err(fault) => {
                drop(acls);
                Err(fault)
            }
            Ok(service) => Ok(Kms { acls, service }),
        }
    }

    /// Opens the key log again, as a start does, and continues with what it finds and with the same
    /// lists and sizes, and without ready keys. If that fails the service is unchanged, but must not be used with this disk again.
    pub fn restart<D: Disk>(&mut self, alloc: Global, disk: &mut D) -> Result<(), StartFault>
        ensures started { MatchResult result
            (λ _. Starts (D.state disk.old) (D.state disk.new) (running self.new))
            (λ _. self.new ≡ self.old) }
        ensures lists { self.new.acls ≡ self.old.acls }
        ensures queues { OnOk result (self.new.ready ≡ record self.old.ready { queues = [] }) }
        ensures opens { OpensKeys (D.state disk.old) (D.state disk.new)
            (λ fault. IsErrOf result fault) }
    {
        let size = self.service.size();
        let watermark = self.service.watermark();
        let cache = self.service.cache();
        match Service::start(alloc, disk, size, watermark, cache) {
            Err(fault) => Err(fault),
            Ok(service) => {
                put(&mut self.service, service);
                Ok(())
            }
        }
    }

    /// Ends the service and returns its lists for the next start. Does not allocate.
    pub fn stop(self) -> Acls
        ensures { result ≡ self.acls }
    {
        let Kms { acls, service } = self;
        drop(service);
        acls
    }

    /// Returns the number of keys.
    pub fn count(&self) -> u32
        ensures count { result ≡ length self.now.store.table.keys.rows }
        ensures rules { IsService (service_of (running self.now)) }
        // The log is on file 0.
        ensures file { self.now.store.log.file ≡ 0 }
    {
        self.service.count()
    }

    /// Returns the number of this opening.
    pub fn opening(&self) -> u32
        ensures { result ≡ self.now.store.table.keys.opening }
    {
        self.service.opening()
    }

    /// Returns a ticket for sealing ready keys for a low queue: the one with the fewest ready keys,
    /// of the oldest key among equals. Returns `None` if no queue is low.
    pub fn ticket(&self) -> Option<Ticket>
        ensures { result ≡ ticket_of (keys_of (running self.now)) }
    {
        self.service.ticket()
    }

    /// Puts a ready key at the end of the queue of its key. If its opening, birth or version is no
    /// longer current, or the queue is full, nothing changes. A key without a queue has no room for
    /// ready keys, either. Does not allocate.
    pub fn deposit(&mut self, sealed: Sealed) -> Deposit
        ensures answer { result ≡ deposit_answer (keys_of (running self.old)) sealed }
        ensures queues { self.new ≡
            record self.old { ready = queues_with self.old.ready sealed result } }
    {
        self.service.deposit(sealed)
    }

    /// Answers a call of a user. `now` is the current moment, which a created key records.
    ///
    /// The access control lists come first: a call that they deny is refused with Denied and has no
    /// effect. Any other refusal leaves the keys unchanged, and draws no word unless allocation or
    /// the disk fails. A crash inside a refused call leaves no record of it in the log, unless the
    /// reply is StoreFault. Create and Roll return the material of the new version only to users
    /// who may get keys.
    ///
    /// Create, Roll and Delete settle the pending command first, and are written to the log before
    /// they take effect. If the disk fails, they are refused with StoreFault: the command of the
    /// call is then pending, or the earlier one still is. Invalidate, Current, Version, Decrypt and
    /// Reencrypt do not allocate.
    pub fn act<D: Disk, W: Words>(
        &mut self,
        disk: &mut D,
        words: &mut W,
        now: u64,
        user: &Text,
        call: KmsCall,
    ) -> KmsReply
        requires stands { Tells (D.state disk.old) →
            ((commands : List KeyCommand) ×
            IsKeyStoreOf (D.state disk.old) self.old.store commands) }
        ensures { (lines : List PropLine) → AreListsOf self.old.acls lines
            → ActsFor lines user.now (D.state disk.old) (D.state disk.new) self.old
            (W.to_come words.old) now call result self.new (W.to_come words.new) }
    {
        let shown = match self.acls.verdict(user, &call) {
            Err(denied) => {
                drop(call);
                return refused(denied);
            }
            Ok(shown) => shown,
        };
        let hides = hides(shown, &call);
        let reply = self.service.act(disk, words, now, call);
        if hides {
            without_material(reply)
        } else {
            reply
        }
    }
}

fn refused(denied: Denied) -> KmsReply
    ensures { result ≡ KmsReply.Refused (KmsRefusal.Denied denied.table denied.op) }
{
    KmsReply::Refused(KmsRefusal::Denied {
        table: denied.table,
        op: denied.op,
    })
}
