//! The directories above a copy.
ghost use Rattle.std.specs.Prelude.{◌≡◌, ◌++◌, ◌∷◌, [], None, IfErr, OnOk, OnErr, take};
ghost use Rattle.inode_tree.specs.Rows.{row_at};
ghost use Rattle.row_copies.specs.Clusters.{EndsFor, KeepsBoth};
ghost use Rattle.row_copies.specs.Copies.{ChainOf, CopyEnds, IsPathTaken, MakesAbove, MakesMissing, MakesParents, StepRefuses, above};

use crate::clusters::Clusters;
use crate::paths::add_name;
use file_orders::FsEnd;
use name_calls::{NPath, NameRefusal};
use std::alloc::Global;

/// Makes a directory of the target, unless there is a row at the path.
fn make_missing<C: Clusters>(clusters: &mut C, path: &NPath) -> Result<(), FsEnd>
    requires ready { C.ready clusters.old }
    ensures ok { OnOk result
        (MakesMissing (row_at (C.state clusters.old).target.rows path.now) path.now
        (C.state clusters.old) (C.state clusters.new)) }
    ensures err { OnErr result (KeepsBoth (C.state clusters.old) (C.state clusters.new)) }
    ensures ready { OnOk result (C.ready clusters.new) }
    ensures steps { ChainOf C.follows clusters.old clusters.new }
    ensures ends { IfErr result (CopyEnds C.state C.follows C.store_fails C.vault_fails
        C.refuses clusters.old clusters.new) }
{
    match clusters.is_directory(path) {
        Ok(Some(_)) => Ok(()),
        Ok(None) => clusters.make_directory(path),
        Err(end) => Err(end),
    }
}

/// Makes the directories above a path that are missing, from above.
pub(crate) fn make_parents<C: Clusters>(
    alloc: Global,
    clusters: &mut C,
    to: &NPath,
) -> Result<(), FsEnd>
    requires ready { C.ready clusters.old }
    ensures ok { OnOk result
        (MakesAbove (above to.now) to.now (C.state clusters.old) (C.state clusters.new)) }
    ensures err { OnErr result (MakesParents to.now (C.state clusters.old) (C.state clusters.new)) }
    ensures ready { OnOk result (C.ready clusters.new) }
    ensures steps { ChainOf C.follows clusters.old clusters.new }
    ensures ends { IfErr result (CopyEnds C.state C.follows C.store_fails C.vault_fails
        C.refuses clusters.old clusters.new) }
{
    let mut path = NPath::root(alloc);
    for k in 0..to.len().saturating_sub(1) {
        match add_name(alloc, &mut path, to.name(k)) {
            Ok(()) => {}
            Err(_) => return Err(FsEnd::NoMemory),
        }
        match make_missing(clusters, &path) {
            Ok(()) => {}
            Err(end) => return Err(end),
        }
    }
    Ok(())
}

/// Checks that no row of the target is at a path.
pub(crate) fn check_absent<C: Clusters>(clusters: &mut C, path: &NPath) -> Result<(), FsEnd>
    requires ready { C.ready clusters.old }
    ensures ok { OnOk result (row_at (C.state clusters.old).target.rows path.now ≡ None) }
    ensures keeps { KeepsBoth (C.state clusters.old) (C.state clusters.new) }
    ensures ready { C.ready clusters.new }
    ensures follows { C.follows clusters.old clusters.new }
    ensures ends { IfErr result (EndsFor (C.store_fails clusters.old clusters.new)
        (C.vault_fails clusters.old clusters.new)
        (StepRefuses C.state C.refuses (IsPathTaken path.now) clusters.old clusters.new)) }
{
    match clusters.is_directory(path) {
        Ok(Some(_)) => Err(FsEnd::NameRefused(NameRefusal::Exists)),
        Ok(None) => Ok(()),
        Err(end) => Err(end),
    }
}
