//! The table of the namesystem as it is kept in memory.
use crate::copies::copy_of_mark;
use crate::effects::{count, disallow, make, make_file, mark, remove, rename, snap, update};
use crate::rules::{allows, id_at, renaming_refusal};
use edit_ops::EditOp;
use hk_base::NoMemory;
use inode_tree::Tree;
use name_calls::{NPath, NameRefusal, ZoneList};
use snap_store::Snaps;
use std::alloc::Global;
use std::marker::Model;
use zone_table::{Statuses, Zones, zones_are_the_marks};

/// The number of the opening, the directories and files, the encryption zones, the snapshots, and how
/// far the re-encryptions of zones are. `mark` is a copy of the mark of the update that memory was last
/// reserved for.
#[derive(Drop)]
pub(crate) struct NameTables {
    alloc: Global,
    opening: u32,
    tree: Tree,
    zones: Zones,
    snaps: Snaps,
    statuses: Statuses,
    mark: Option<NPath>,
}

impl Model for NameTables {
    ghost use Rattle.std.specs.Prelude.{◌≡◌};
    ghost use Rattle.zone_table.specs.Statuses.{StatusesFit};
    ghost use Rattle.zone_table.specs.Zones.{zones_of};
    ghost use Rattle.name_store.specs.Names.{NamesState};
    ghost use Rattle.name_store.specs.Table.{FitsRows};

    ghost Value = { NamesState };

    ghost view = { λ a.
        record {
          table = record {
            opening = a.opening;
            rows = a.tree.rows;
            snaps = a.snaps.table;
            statuses = a.statuses.rows;
          };
          tree_spare = a.tree.spare;
          zone_spare = a.zones.spare;
          snap_room = a.snaps.room;
          status_spare = a.statuses.spare;
          mark = a.mark;
        } };

    ghost invariant = { λ a. (a.zones.rows ≡ zones_of a.tree.rows) ×
        FitsRows a.tree.rows a.snaps.table × StatusesFit a.tree.rows a.statuses.rows };
}

impl NameTables {
    ghost use Rattle.std.specs.Prelude.{◌≡◌, IfOk, IsOk, IsTrue, OnOk, OnErr};
    ghost use Rattle.zone_table.specs.Zones.{zone_paths};
    ghost use Rattle.name_store.specs.Table.{IsNameTable, after_table, allows, nothing_logged};
    ghost use Rattle.name_store.specs.Names.{HasMark, HasRoom};
    ghost use Rattle.name_store.specs.Causes.{first_cause, rename_causes};
    ghost use Rattle.name_store.specs.Used.{HasFreeIds};

    /// Creates the table of the root alone, before the first opening.
    pub(crate) fn new(alloc: Global) -> Result<NameTables, NoMemory>
        ensures { IfOk result (λ names. names.table ≡ nothing_logged.table) }
    {
        // The root alone has no zones.
        zones_are_the_marks();
        Ok(NameTables {
            alloc,
            opening: 0,
            tree: Tree::new(alloc)?,
            zones: Zones::new(alloc),
            snaps: Snaps::new(alloc),
            statuses: Statuses::new(alloc),
            mark: None,
        })
    }

    /// Returns whether the operation, whose id no row must have, may take effect. Does not check whether
    /// its id was used before. Returns `NoMemory` if allocation fails.
    pub(crate) fn allows(&self, op: &EditOp) -> Result<bool, NoMemory>
        requires { HasFreeIds self.now.table.rows op.now }
        ensures { IfOk result (λ may. may ≡ allows self.now.table op.now) }
    {
        allows(
            self.opening,
            &self.tree,
            &self.zones,
            &self.snaps,
            &self.statuses,
            op,
        )
    }

    /// Makes the next calls for the operation's path faster.
    pub(crate) fn focus(&mut self, op: &EditOp)
        ensures { self.new ≡ self.old }
    {
        match op {
            EditOp::Opened { .. } => (),
            EditOp::Mkdir { path, .. } => self.tree.focus(path),
            EditOp::File { path, .. } => self.tree.focus(path),
            EditOp::Remove { path } => self.tree.focus(path),
            EditOp::Rename { path, .. } => self.tree.focus(path),
            EditOp::Zone { path, .. } => self.tree.focus(path),
            EditOp::Allow { path } => self.tree.focus(path),
            EditOp::Disallow { path } => self.tree.focus(path),
            EditOp::Snap { path, .. } => self.tree.focus(path),
            EditOp::Unsnap { path, .. } => self.tree.focus(path),
            EditOp::Submit { path, .. } => self.tree.focus(path),
            EditOp::Update { .. } => (),
            EditOp::Cancel { .. } => (),
            EditOp::Complete { .. } => (),
        }
    }

    /// Reserves the memory that the operation needs. The table is unchanged, even if allocation fails.
    /// After `Ok`, `apply` of this operation returns `Ok` as long as the table does not change.
    pub(crate) fn reserve(&mut self, op: &EditOp) -> Result<(), NoMemory>
        ensures same { self.new.table ≡ self.old.table }
        ensures ok { OnOk result (HasRoom op.now self.new) }
    {
        match op {
            EditOp::Opened { .. } => Ok(()),
            EditOp::Mkdir { id, path } => self.tree.reserve_mkdir(path, *id),
            EditOp::File { id, path, edek } => self.tree.reserve_add_file(path, *id, *edek),
            EditOp::Remove { .. } => Ok(()),
            EditOp::Rename { path, to } => self.tree.reserve_rename(path, to),
            EditOp::Zone { key, .. } => self.zones.reserve_add(0, *key),
            EditOp::Allow { .. } => self.snaps.reserve_allow(),
            EditOp::Disallow { .. } => Ok(()),
            EditOp::Snap { path, name } => {
                let dir = id_at(&self.tree, path);
                self.snaps.reserve_take(&self.tree, dir, name)
            }
            EditOp::Unsnap { .. } => Ok(()),
            EditOp::Submit { .. } => self.statuses.reserve_submit(),
            EditOp::Update { mark, .. } => self.keep_mark(mark),
            EditOp::Cancel { .. } => Ok(()),
            EditOp::Complete { .. } => Ok(()),
        }
    }

    /// Keeps a copy of the mark of an update. The table is unchanged, even if allocation fails.
    fn keep_mark(&mut self, mark: &Option<NPath>) -> Result<(), NoMemory>
        ensures same { self.new.table ≡ self.old.table }
        ensures ok { OnOk result (self.new.mark ≡ mark.now) }
    {
        self.mark = copy_of_mark(self.alloc, mark)?;
        Ok(())
    }

    /// Copies the mark of an update. Does nothing for another operation. The table is unchanged, even if
    /// allocation fails.
    pub(crate) fn reserve_mark(&mut self, op: &EditOp) -> Result<(), NoMemory>
        ensures same { self.new.table ≡ self.old.table }
        ensures ok { OnOk result (HasMark op.now self.new) }
    {
        match op {
            EditOp::Update { mark, .. } => self.keep_mark(mark),
            _ => Ok(()),
        }
    }

    /// Lets an operation take effect. The mark of an update must have been copied. If allocation fails,
    /// the table is unchanged. Returns `Ok` if there is room for the operation.
    pub(crate) fn apply(&mut self, op: &EditOp) -> Result<(), NoMemory>
        requires allowed { IsTrue (allows self.old.table op.now) }
        requires mark { HasMark op.now self.old }
        ensures ok { OnOk result (self.new.table ≡ after_table self.old.table op.now) }
        ensures err { OnErr result (self.new.table ≡ self.old.table) }
        ensures room { HasRoom op.now self.old → IsOk result }
    {
        // What the tree and the snapshots keep by themselves.
        let _ = self.tree.rows();
        self.snaps.invariants();
        match op {
            EditOp::Opened { opening } => {
                self.opening = *opening;
                Ok(())
            }
            EditOp::Mkdir { id, path } => make(&mut self.tree, path, *id),
            EditOp::File { id, path, edek } => make_file(&mut self.tree, path, *id, *edek),
            EditOp::Remove { path } => {
                remove(
                    &mut self.tree,
                    &mut self.zones,
                    &mut self.snaps,
                    &mut self.statuses,
                    path,
                );
                Ok(())
            }
            EditOp::Rename { path, to } => rename(&mut self.tree, path, to),
            EditOp::Zone { path, key } => mark(&mut self.tree, &mut self.zones, path, *key),
            EditOp::Allow { path } => self.snaps.allow(id_at(&self.tree, path)),
            EditOp::Disallow { path } => {
                disallow(&self.tree, &mut self.snaps, path);
                Ok(())
            }
            EditOp::Snap { path, name } => snap(&self.tree, &mut self.snaps, path, name),
            EditOp::Unsnap { path, name } => {
                self.snaps.remove(id_at(&self.tree, path), name);
                Ok(())
            }
            EditOp::Submit {
                session,
                path,
                noted,
            } => self
                .statuses
                .submit(id_at(&self.tree, path), *session, *noted),
            EditOp::Update {
                session,
                failed,
                files,
                ..
            } => {
                update(&mut self.tree, files.as_slice());
                let mark = self.mark.take();
                count(&mut self.statuses, *session, *failed, mark, files);
                Ok(())
            }
            EditOp::Cancel { session } => {
                self.statuses.end(*session, true);
                Ok(())
            }
            EditOp::Complete { session } => {
                self.statuses.end(*session, false);
                Ok(())
            }
        }
    }

    /// Returns the directories and files.
    pub(crate) fn tree(&self) -> &Tree
        ensures rows { result.now.rows ≡ self.now.table.rows }
        ensures rules { IsNameTable self.now.table }
    {
        let _ = self.tree.rows();
        self.snaps.invariants();
        &self.tree
    }

    /// Returns the directories that may have snapshots, and the snapshots.
    pub(crate) fn snaps(&self) -> &Snaps
        ensures { result.now.table ≡ self.now.table.snaps }
    {
        &self.snaps
    }

    /// Returns how far the re-encryptions of zones are.
    pub(crate) fn statuses(&self) -> &Statuses
        ensures { result.now.rows ≡ self.now.table.statuses }
    {
        &self.statuses
    }

    /// Returns why what is at a path can not move to another path.
    pub(crate) fn rename_refusal(&self, path: &NPath, to: &NPath) -> Option<NameRefusal>
        ensures { result ≡
            first_cause
            (rename_causes self.now.table.rows self.now.table.snaps self.now.table.statuses path.now
            to.now) }
    {
        renaming_refusal(
            &self.tree,
            &self.zones,
            &self.snaps,
            &self.statuses,
            path,
            to,
        )
    }

    /// Returns the number of the last opening, or 0 before the first.
    pub(crate) fn opening(&self) -> u32
        ensures { result ≡ self.now.table.opening }
    {
        self.opening
    }

    /// Returns the encryption zones with their keys, in path order.
    pub(crate) fn zones(&self) -> Result<ZoneList, NoMemory>
        ensures { IfOk result (λ list. list ≡ zone_paths self.now.table.rows) }
    {
        self.zones.all(&self.tree)
    }
}
