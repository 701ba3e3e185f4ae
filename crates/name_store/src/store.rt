//! The table of the namesystem over its edit log.
use crate::names::NameTables;
use crate::opening::open;
use crate::replay::replay;
use edit_log::EditLog;
use edit_ops::EditOp;
use frame_log::{StartFault, StoreRefusal};
use hk_base::{Disk, NoMemory};
use inode_tree::Tree;
use name_calls::{NPath, NameRefusal, ZoneList};
use snap_store::Snaps;
use std::alloc::Global;
use std::marker::Model;
use zone_table::Statuses;

/// The directories, files, encryption zones and snapshots of the namesystem, how far the re-encryptions
/// of its zones are, and the edit log on file 1 of a disk from which they can be made again.
///
/// After a store fault in a commit one operation is pending: the disk may or may not hold its record,
/// and the table is as before. The next call that changes the namesystem settles it first.
#[derive(Drop)]
pub struct NameStore {
    log: EditLog,
    names: NameTables,
}

impl Model for NameStore {
    ghost use Rattle.std.specs.Prelude.{◌<◌, IfSome};
    ghost use Rattle.name_store.specs.Names.{HasRoom};
    ghost use Rattle.name_store.specs.Store.{IsPendingOperation, StoreState};

    ghost Value = { StoreState };

    ghost view = { λ a. record { log = a.log; table = a.names.table } };

    ghost invariant = { λ a. (0 < a.names.table.opening) ×
        IfSome a.log.pending (λ op. IsPendingOperation a.names.table op × HasRoom op a.names) };
}

impl NameStore {
    ghost use Rattle.std.specs.Prelude.{◌≡◌, ◌≢◌, ◌≤◌, ◌<◌, ◌+◌, ◌++◌, [], ◌∷◌, ℕ, List, Option, Some, None, Ok, IsTrue, IsSome, IsOk, IsErr, IfOk, OnOk, OnErr, IsErrOf, MatchResult, true, false, map};
    ghost use Rattle.hk_base.specs.Disk.{Tells, RunOn, LeavesOnly};
    ghost use Rattle.hk_base.specs.Faults.{Rose};
    ghost use Rattle.frame_log.specs.declared.fault.StoreRefusal.TheVariants as store;
    ghost use Rattle.edit_ops.specs.Records.{fits};
    ghost use Rattle.edit_ops.specs.declared.ops.EditOp.{EditOp};
    ghost use Rattle.zone_table.specs.Zones.{zone_paths};
    ghost use Rattle.name_store.specs.Causes.{first_cause, rename_causes};
    ghost use Rattle.name_store.specs.Table.{after_table, allows};
    ghost use Rattle.name_store.specs.Store.{CommitsOperation, IsLeftOf, IsStore, NothingMore, OpensNames, SettlesNames, IsNameStoreOf, Started, LeavesUnsettled, is_opening, made_with};

    /// Opens the edit log of a disk, makes the table of its operations, and commits the record of a new
    /// opening. A crash may stop this call at any moment; start again then.
    ///
    /// Returns `Damaged` only if the file is not a log, or a record is not an operation or does not apply,
    /// with the offset of its gate. Returns `Spent` only if opening 4,294,967,295 is recorded.
    pub fn start<D: Disk>(alloc: Global, disk: &mut D) -> Result<NameStore, StartFault>
        ensures started { IfOk result (Started (D.state disk.old) (D.state disk.new)) }

        // A crash at any moment leaves what it might have left before, or the log found, now or with its end
        // gate read as 1, or its operations with the new opening or without it. After the first sync of the
        // call it leaves the latter alone. If that sync failed, nothing was written.
        ensures opens { OpensNames (D.state disk.old) (D.state disk.new)
            (λ fault. IsErrOf result fault) }
    {
        let (log, reader) = EditLog::recover_records(alloc, disk)?;
        let mut log = log;
        let mut reader = reader;
        let replayed = replay(alloc, disk, &mut reader);
        drop(reader);
        let mut names = match replayed {
            Ok(names) => names,
            Err(fault) => {
                drop(log);
                return Err(fault);
            }
        };
        match open(alloc, disk, &mut log, &mut names) {
            Ok(()) => Ok(NameStore { log, names }),
            Err(fault) => {
                drop(log);
                drop(names);
                Err(fault)
            }
        }
    }

    /// Writes the record of an operation to the log and then lets it take effect. Allocates only before
    /// the log is written: `NoMemory` changes nothing. After `StoreFault` the operation is pending, and the
    /// table is unchanged; the memory that the operation needs stays reserved.
    pub fn commit<D: Disk>(
        &mut self,
        alloc: Global,
        disk: &mut D,
        op: &EditOp,
    ) -> Result<(), StoreRefusal>
        requires settled { self.old.log.pending ≡ None }
        requires allowed { IsTrue (allows self.old.table op.now) }
        requires no_opening { is_opening op.now ≡ false }
        requires fits { IsTrue (fits op.now) }
        requires stands { Tells (D.state disk.old) →
            ((used : List ℕ) × (ops : List EditOp) ×
            IsNameStoreOf (D.state disk.old) self.old used ops) }

        ensures done { OnOk result
            ((self.new.table ≡ after_table self.old.table op.now) × (self.new.log.pending ≡ None)) }
        ensures pending { IsErrOf result store.StoreFault →
            (self.new.table ≡ self.old.table) × (self.new.log.pending ≡ Some op.now) }
        ensures memory { IsErrOf result store.NoMemory →
            (self.new ≡ self.old) × (disk.new ≡ disk.old) }
        ensures log { MatchResult result
            (λ _. CommitsOperation (D.state disk.old) (D.state disk.new) self.old op.now true self.new)
            (λ _. CommitsOperation (D.state disk.old) (D.state disk.new) self.old op.now false self.new) }
        ensures cause { IsErrOf result store.StoreFault →
            Rose (D.state disk.old).faults (D.state disk.new).faults }
    {
        self.names.reserve(op)?;
        match self.log.commit(alloc, disk, op) {
            Ok(()) => {
                self.names.apply(op)?;
                return Ok(());
            }
            Err(refusal) => return Err(refusal),
        }
    }

    /// Settles the pending operation. If the log keeps it, it takes effect and is returned; otherwise it is
    /// dropped. Does nothing if none is pending. Does not allocate. After `StoreFault`, the only error, it
    /// is still pending.
    pub fn settle<D: Disk>(&mut self, disk: &mut D) -> Result<Option<EditOp>, StoreRefusal>
        requires stands { Tells (D.state disk.old) →
            ((used : List ℕ) × (ops : List EditOp) ×
            IsNameStoreOf (D.state disk.old) self.old used ops) }

        ensures nothing { self.old.log.pending ≡ None →
            (result ≡ Ok None) × (self.new ≡ self.old) × (disk.new ≡ disk.old) }
        ensures settles { MatchResult result
            (λ answer. SettlesNames (D.state disk.old) (D.state disk.new) self.old answer self.new)
            (λ _. LeavesUnsettled (D.state disk.old) (D.state disk.new) self.old self.new) }
        ensures fault { IsErr result → IsErrOf result store.StoreFault }

        // A crash at any moment leaves the operations from before it, with the pending one or without.
        ensures any_moment { Tells (D.state disk.old) → (used : List ℕ) (ops : List EditOp) →
            IsNameStoreOf (D.state disk.old) self.old used ops
            → LeavesOnly 1 (D.state disk.old) (D.state disk.new)
            (IsLeftOf (made_with self.old used) self.old.log.pending NothingMore ops) }
        ensures run { RunOn 1 (D.state disk.old) (D.state disk.new) }
    {
        match self.log.settle(disk) {
            Ok(None) => return Ok(None),
            Ok(Some(op)) => {
                match self.names.apply(&op) {
                    Ok(()) => return Ok(Some(op)),
                    Err(why) => {
                        drop(op);
                        return Err(StoreRefusal::from(why));
                    }
                }
            }
            Err(_) => return Err(StoreRefusal::StoreFault),
        }
    }

    /// Returns the directories and files, without the pending operation.
    pub fn tree(&self) -> &Tree
        ensures rows { result.now.rows ≡ self.now.table.rows }
        // What it keeps by itself.
        ensures rules { IsStore self.now }
    {
        // Its log is that of file 1.
        let _ = self.log.is_pending();
        self.names.tree()
    }

    /// Returns the directories that may have snapshots, and the snapshots, without the pending operation.
    pub fn snaps(&self) -> &Snaps
        ensures { result.now.table ≡ self.now.table.snaps }
    {
        self.names.snaps()
    }

    /// Returns how far the re-encryptions of zones are, without the pending operation.
    pub fn statuses(&self) -> &Statuses
        ensures { result.now.rows ≡ self.now.table.statuses }
    {
        self.names.statuses()
    }

    /// Returns why a rename is refused, without the pending operation.
    pub fn rename_refusal(&self, path: &NPath, to: &NPath) -> Option<NameRefusal>
        ensures { result ≡
            first_cause
            (rename_causes self.now.table.rows self.now.table.snaps self.now.table.statuses path.now
            to.now) }
    {
        self.names.rename_refusal(path, to)
    }

    /// Returns the number of this opening.
    pub fn opening(&self) -> u32
        ensures { result ≡ self.now.table.opening }
    {
        self.names.opening()
    }

    /// Returns the encryption zones with their keys, in path order.
    pub fn zones(&self) -> Result<ZoneList, NoMemory>
        ensures { IfOk result (λ list. list ≡ zone_paths self.now.table.rows) }
    {
        self.names.zones()
    }
}
