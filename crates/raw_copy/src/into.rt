//! Copying rows that are read into a namesystem over its disk.
ghost use Rattle.std.specs.Prelude.{◌≡◌, Some, [], true, count_by, IfErr, IfOk, OnErr, OnOk};
ghost use Rattle.backup_names.specs.Orders.{HoldsNamesystem, IsSettled, OrdersNames};
ghost use Rattle.copy_target.specs.Targets.{CanCopy, WorksOnTarget, state_of};
ghost use Rattle.inode_tree.specs.Rows.{is_marked, row_at};
ghost use Rattle.row_copies.specs.Copies.{ChainOf, CopiesAll, StopsEarly, is_file};
ghost use Rattle.row_copies.specs.Walks.{is_directory};
ghost use Rattle.raw_copy.specs.Copies.{EndsByCause, copy_state};
ghost use Rattle.raw_copy.specs.Refusals.{IntoRefused, RefusedFor};

use body_stream::Vault;
use copy_target::BothClusters;
use file_orders::FsEnd;
use hk_base::{Disk, Text};
use name_calls::NPath;
use name_core::Name;
use row_copies::{Copied, copy_rows};
use source_rows::SourceRows;
use std::alloc::Global;

/// Copies all rows of one of two clusters to a path of the other. They still hold what they held.
fn copy_both<'a, S: SourceRows, E: Disk, V: Vault, U: Vault>(
    alloc: Global,
    both: &mut BothClusters<'a, S, E, V, U>,
    to: &NPath,
) -> Result<Copied, FsEnd>
    requires ready { CanCopy S.ready E.state both.old }
    ensures all { OnOk result (CopiesAll to.now
        (state_of S.rows V.state U.state both.old) (state_of S.rows V.state U.state both.new)) }
    ensures files { IfOk result
        (λ copied. copied.files ≡ count_by is_file (S.rows both.old.source.now)) }
    ensures directories { IfOk result
        (λ copied. copied.directories ≡ count_by is_directory (S.rows both.old.source.now)) }
    ensures zone { OnOk result
        ((row : _) × (row_at (S.rows both.old.source.now) [] ≡ Some row) ×
        (is_marked row ≡ true)) }
    ensures part { OnErr result (StopsEarly to.now
        (state_of S.rows V.state U.state both.old) (state_of S.rows V.state U.state both.new)) }
    ensures ends { IfErr result (EndsByCause
        (E.state both.old.backup.now) (E.state both.new.backup.now)
        (V.state both.old.vault.now) (V.state both.new.vault.now)
        (U.state both.old.copies.now) (U.state both.new.copies.now)) }
    ensures refused { IfErr result (RefusedFor (IntoRefused S.follows S.refuses S.replies E.state
        both.old.user.now to.now (state_of S.rows V.state U.state both.old) both.old.source.now
        both.new.source.now both.old.backup.now both.new.backup.now both.old.names.now
        both.new.names.now)) }
    ensures works { WorksOnTarget S.follows E.state V.state U.state both.old both.new }
    ensures ready { OnOk result (CanCopy S.ready E.state both.new) }
    ensures source { both.new.source.ghost_name ≡ both.old.source.ghost_name }
    ensures names { both.new.names.ghost_name ≡ both.old.names.ghost_name }
    ensures backup { both.new.backup.ghost_name ≡ both.old.backup.ghost_name }
    ensures vault { both.new.vault.ghost_name ≡ both.old.vault.ghost_name }
    ensures copies { both.new.copies.ghost_name ≡ both.old.copies.ghost_name }
{
    copy_rows(alloc, both, to)
}

/// Copies all rows of a source, with the bodies of their files, to a path of the namesystem of another
/// cluster at which nothing is. All changes of that namesystem are made by one user.
///
/// After an error the rows at and below the path are copies of the first rows of the source, in path
/// order, each file with its whole body. The last one may be a directory that should get a mark.
pub fn copy_into<S: SourceRows, E: Disk, V: Vault, U: Vault>(
    alloc: Global,
    user: &Text,
    source: &mut S,
    names: &mut Name,
    backup: &mut E,
    vault: &mut V,
    copies: &mut U,
    to: &NPath,
) -> Result<Copied, FsEnd>
    requires ready { S.ready source.old }
    requires holds { HoldsNamesystem (E.state backup.old) names.old }
    requires settled { IsSettled names.old }
    ensures all { OnOk result (CopiesAll to.now
        (copy_state (S.rows source.old) (V.state vault.old) names.old (U.state copies.old))
        (copy_state (S.rows source.new) (V.state vault.new) names.new (U.state copies.new))) }
    ensures files { IfOk result
        (λ copied. copied.files ≡ count_by is_file (S.rows source.old)) }
    ensures directories { IfOk result
        (λ copied. copied.directories ≡ count_by is_directory (S.rows source.old)) }
    ensures zone { OnOk result
        ((row : _) × (row_at (S.rows source.old) [] ≡ Some row) × (is_marked row ≡ true)) }
    ensures part { OnErr result (StopsEarly to.now
        (copy_state (S.rows source.old) (V.state vault.old) names.old (U.state copies.old))
        (copy_state (S.rows source.new) (V.state vault.new) names.new (U.state copies.new))) }
    ensures ends { IfErr result (EndsByCause (E.state backup.old) (E.state backup.new)
        (V.state vault.old) (V.state vault.new) (U.state copies.old) (U.state copies.new)) }
    ensures refused { IfErr result (RefusedFor (IntoRefused S.follows S.refuses S.replies E.state
        user.now to.now
        (copy_state (S.rows source.old) (V.state vault.old) names.old (U.state copies.old))
        source.old source.new backup.old backup.new names.old names.new)) }
    ensures source { ChainOf S.follows source.old source.new }
    ensures orders { OrdersNames (E.state backup.old) (E.state backup.new) names.old names.new }
    ensures settled { OnOk result (IsSettled names.new) }
{
    let mut both = BothClusters::new(alloc, user, source, names, backup, vault, copies);
    copy_both(alloc, &mut both, to)
}
