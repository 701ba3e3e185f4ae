//! The log of the namesystem's operations.
use crate::copies::operation_of;
use crate::reader::OpReader;
use edit_ops::EditOp;
use frame_log::{Log, LogFault, StartFault, StoreRefusal};
use hk_base::{ByteList, Disk, put};
use std::alloc::Global;
use std::marker::Model;

/// The number of the file that has the edit log.
const NAMES: u8 = 1;

/// The edit log on file 1 of a disk.
///
/// After a store fault in a commit one operation is pending: the disk may or may not hold its record.
/// The next call that changes the namesystem settles it first.
#[derive(Drop)]
pub struct EditLog {
    log: Log,
    pending: Option<EditOp>,
}

impl Model for EditLog {
    ghost use Rattle.std.specs.Prelude.{◌≡◌};
    ghost use Rattle.edit_log.specs.Log.{EditLogState, WaitTogether};

    ghost Value = { EditLogState };

    ghost view = { λ a. record { log = a.log; pending = a.pending } };

    ghost invariant = { λ a. (a.log.file ≡ 1) × WaitTogether a.pending a.log.unsettled };
}

impl EditLog {
    ghost use Rattle.std.specs.Prelude.{◌≡◌, ◌<◌, ◌+◌, ◌⊎◌, ◌++◌, [], ◌∷◌, ℕ, List, Option, Some, None, Ok, IsTrue, IsErr, IfOk, OnOk, OnErr, IsErrOf, is_some, map};
    ghost use Rattle.hk_base.specs.Disk.{Tells, RunOn, LeavesOnly};
    ghost use Rattle.hk_base.specs.Faults.{Rose};
    ghost use Rattle.frame_log.specs.Format.{IsAsFound};
    ghost use Rattle.frame_log.specs.Opens.{RecoversLog};
    ghost use Rattle.frame_log.specs.declared.fault.StoreRefusal.TheVariants as store;
    ghost use Rattle.frame_log.specs.declared.fault.StartFault.TheVariants as start;
    ghost use Rattle.edit_ops.specs.Records.{fits};
    ghost use Rattle.edit_ops.specs.declared.ops.EditOp.{EditOp};
    ghost use Rattle.edit_ops.specs.declared.ops.EditOp.TheVariants as op;
    ghost use Rattle.edit_log.specs.Reader.{IsReaderOpened};
    ghost use Rattle.edit_log.specs.Log.{DropsUnlessGateSet, IsEditLogOf, IsWithOrWithout, KeepsIfGateSet};

    /// Recovers a disk's edit log. The reader returns its operations one after another. Nothing is
    /// committed: the file is unchanged, or its end gate is set to 0. Returns `Damaged` only if the file is
    /// not a log.
    ///
    /// Call `open` once the reader has returned all operations and they are known to apply to one another.
    /// If it returns `Damaged`, or an operation does not apply, the file is damaged at the first such place.
    pub fn recover_records<D: Disk>(
        alloc: Global,
        disk: &mut D,
    ) -> Result<(EditLog, OpReader), StartFault>
        ensures opened { IfOk result
            (λ r. Tells (D.state disk.old) →
            IsReaderOpened ((D.state disk.old).reads 1) (D.state disk.new) r.0 r.1) }
        ensures settled { IfOk result (λ r. (r.0.pending ≡ None) × (r.0.log.file ≡ 1)) }
        ensures spent { IsErrOf result start.Spent → ⊥ }

        // Whatever the result, after the first sync of the call a crash leaves the log found, or that log
        // with its end gate read as 1. A file that is not a log stays byte for byte. If that sync failed,
        // nothing was written.
        ensures opens { RecoversLog 1 (D.state disk.old) (D.state disk.new)
            (λ fault. IsErrOf result fault) }

        // A crash at any moment leaves what it might have left before, or the log found, or that with
        // its end gate read as 1.
        ensures any_moment { Tells (D.state disk.old) →
            LeavesOnly 1 (D.state disk.old) (D.state disk.new)
            (λ c. (D.state disk.old).leaves 1 c ⊎ IsAsFound 1 ((D.state disk.old).reads 1) c) }
    {
        let (log, records) = Log::recover_records(alloc, disk, NAMES)?;
        let reader = OpReader {
            records,
            opening: 0,
        };
        Ok((EditLog { log, pending: None }, reader))
    }

    /// Commits the record of the opening after `last`, which is 0 if there is none. Returns `Spent` exactly
    /// if `last` is 4,294,967,295, and then changes nothing. `NoMemory` changes nothing either. After
    /// `StoreFault` the opening is pending. Never returns `Damaged`.
    pub fn open<D: Disk>(
        &mut self,
        alloc: Global,
        disk: &mut D,
        last: u32,
    ) -> Result<(), StartFault>
        requires settled { self.old.pending ≡ None }
        requires stands { Tells (D.state disk.old) →
            ((ops : List EditOp) × IsEditLogOf (D.state disk.old) self.old ops) }

        ensures committed { OnOk result
            (Tells (D.state disk.old) → (ops : List EditOp) →
            IsEditLogOf (D.state disk.old) self.old ops
            → IsEditLogOf (D.state disk.new) self.new (ops ++ op.Opened (last + 1) ∷ [])) }
        ensures opened { OnOk result (self.new.pending ≡ None) }
        ensures pending { IsErrOf result start.StoreFault →
            self.new.pending ≡ Some (op.Opened (last + 1)) }
        ensures memory { IsErrOf result start.NoMemory →
            (self.new ≡ self.old) × (disk.new ≡ disk.old) }
        ensures spent { IsErrOf result start.Spent →
            (last ≡ 4294967295) × (self.new ≡ self.old) × (disk.new ≡ disk.old) }
        ensures room { OnOk result (last < 4294967295) }
        ensures damaged { (at : ℕ) → IsErrOf result (start.Damaged at) → ⊥ }
        ensures refused { OnErr result
            (Tells (D.state disk.old) → (ops : List EditOp) →
            IsEditLogOf (D.state disk.old) self.old ops
            → IsEditLogOf (D.state disk.new) self.new ops) }

        // A crash at any moment of the call leaves the operations from before it, with the opening or without.
        ensures any_moment { Tells (D.state disk.old) → (ops : List EditOp) →
            IsEditLogOf (D.state disk.old) self.old ops
            → LeavesOnly 1 (D.state disk.old) (D.state disk.new)
            (IsWithOrWithout ops (op.Opened (last + 1))) }

        ensures run { RunOn 1 (D.state disk.old) (D.state disk.new) }
        ensures cause { IsErrOf result start.StoreFault →
            Rose (D.state disk.old).faults (D.state disk.new).faults }
    {
        if last == u32::MAX {
            return Err(StartFault::Spent);
        }
        let next = EditOp::Opened { opening: last + 1 };
        let done = self.commit(alloc, disk, &next);
        drop(next);
        match done {
            Ok(()) => Ok(()),
            Err(StoreRefusal::StoreFault) => Err(StartFault::StoreFault),
            Err(StoreRefusal::NoMemory) => Err(StartFault::NoMemory),
        }
    }

    /// Writes the record of an operation to the log. Allocates only before the log is written: `NoMemory`
    /// changes nothing. After `StoreFault` the operation is pending.
    pub fn commit<D: Disk>(
        &mut self,
        alloc: Global,
        disk: &mut D,
        op: &EditOp,
    ) -> Result<(), StoreRefusal>
        requires settled { self.old.pending ≡ None }
        requires fits { IsTrue (fits op.now) }
        requires stands { Tells (D.state disk.old) →
            ((ops : List EditOp) × IsEditLogOf (D.state disk.old) self.old ops) }

        ensures committed { OnOk result
            (Tells (D.state disk.old) → (ops : List EditOp) →
            IsEditLogOf (D.state disk.old) self.old ops
            → IsEditLogOf (D.state disk.new) self.new (ops ++ op.now ∷ [])) }
        ensures done { OnOk result (self.new.pending ≡ None) }

        ensures pending { IsErrOf result store.StoreFault → self.new.pending ≡ Some op.now }
        ensures memory { IsErrOf result store.NoMemory →
            (self.new ≡ self.old) × (disk.new ≡ disk.old) }
        ensures refused { OnErr result
            (Tells (D.state disk.old) → (ops : List EditOp) →
            IsEditLogOf (D.state disk.old) self.old ops
            → IsEditLogOf (D.state disk.new) self.new ops) }

        // A crash at any moment of the call leaves the operations from before it, with the new one or without.
        ensures any_moment { Tells (D.state disk.old) → (ops : List EditOp) →
            IsEditLogOf (D.state disk.old) self.old ops
            → LeavesOnly 1 (D.state disk.old) (D.state disk.new) (IsWithOrWithout ops op.now) }

        ensures run { RunOn 1 (D.state disk.old) (D.state disk.new) }
        ensures cause { IsErrOf result store.StoreFault →
            Rose (D.state disk.old).faults (D.state disk.new).faults }
    {
        let mut record = ByteList::new(alloc);
        op.write(&mut record)?;
        let copy = operation_of(alloc, record.as_slice())?;
        match self.log.append(alloc, disk, record.as_slice()) {
            Ok(_) => {
                drop(copy);
                return Ok(());
            }
            Err(LogFault::StoreFault) => {
                put(&mut self.pending, Some(copy));
                return Err(StoreRefusal::StoreFault);
            }
            // An append never finds the log damaged.
            Err(_) => {
                drop(copy);
                return Err(StoreRefusal::NoMemory);
            }
        }
    }

    /// Returns whether an operation is pending.
    pub fn is_pending(&self) -> bool
        ensures pending { result ≡ is_some self.now.pending }
        // The log is that of file 1.
        ensures file { self.now.log.file ≡ 1 }
    {
        self.pending.is_some()
    }

    /// Settles the pending operation. It is kept and returned if the gate byte before its record reads 1
    /// after a sync, and dropped otherwise. Does nothing if none is pending. After `StoreFault`, the only
    /// error, it is still pending. Does not allocate.
    pub fn settle<D: Disk>(&mut self, disk: &mut D) -> Result<Option<EditOp>, StoreRefusal>
        requires stands { Tells (D.state disk.old) →
            ((ops : List EditOp) × IsEditLogOf (D.state disk.old) self.old ops) }

        ensures nothing { self.old.pending ≡ None →
            (result ≡ Ok None) × (self.new ≡ self.old) × (disk.new ≡ disk.old) }
        ensures settled { OnOk result (self.new.pending ≡ None) }
        ensures answer { IfOk result (λ kept. (kept ≡ None) ⊎ (kept ≡ self.old.pending)) }
        ensures kept { IfOk result
            (λ kept. KeepsIfGateSet (D.state disk.old) (D.state disk.new) self.old kept self.new) }
        ensures dropped { IfOk result
            (λ kept.
            DropsUnlessGateSet (D.state disk.old) (D.state disk.new) self.old kept self.new) }
        ensures still_pending { OnErr result (self.new ≡ self.old) }
        ensures refused { OnErr result
            (Tells (D.state disk.old) → (ops : List EditOp) →
            IsEditLogOf (D.state disk.old) self.old ops
            → IsEditLogOf (D.state disk.new) self.new ops) }
        ensures fault { IsErr result → IsErrOf result store.StoreFault }

        // A crash at any moment of the call leaves the operations from before it, with the pending one or without.
        ensures any_moment { Tells (D.state disk.old) → (ops : List EditOp) (op : EditOp) →
            IsEditLogOf (D.state disk.old) self.old ops → self.old.pending ≡ Some op
            → LeavesOnly 1 (D.state disk.old) (D.state disk.new) (IsWithOrWithout ops op) }

        ensures run { RunOn 1 (D.state disk.old) (D.state disk.new) }
        ensures cause { OnErr result (Rose (D.state disk.old).faults (D.state disk.new).faults) }
    {
        if self.pending.is_none() {
            return Ok(None);
        }
        let kept = match self.log.settle(disk) {
            Ok(kept) => kept,
            Err(_) => return Err(StoreRefusal::StoreFault),
        };
        let pending = self.pending.take();
        if kept {
            return Ok(pending);
        }
        drop(pending);
        Ok(None)
    }
}
