//! The walk of a copy.
ghost use Rattle.std.specs.Prelude.{◌≡◌, ◌⊎◌, ◌+◌, Some, None, is_some, [], true, false, count_by, IfErr, IfOk, OnOk, OnErr};
ghost use Rattle.inode_tree.specs.declared.rows.Kind.TheVariants.{Dir};
ghost use Rattle.inode_tree.specs.Rows.{is_marked, row_at};
ghost use Rattle.row_blocks.specs.Below.{below};
ghost use Rattle.row_copies.specs.Clusters.{EndsFor, KeepsBoth, KeepsRows, MakesCopyDirectory};
ghost use Rattle.row_copies.specs.Copies.{ChainOf, CopiesAll, CopyEnds, HasNoMark, IsTooLong, StepRefuses, StopsEarly, WholeEnds, is_file};
ghost use Rattle.row_copies.specs.Walks.{AddsCopies, CopiesRow, CountsOne, CountsRows, IsNextSubtree, MakesCopy, MakesRow, StopsWalk, is_directory};

use crate::clusters::Clusters;
use crate::parents::{check_absent, make_parents};
use crate::paths::{child_path, join};
use file_orders::FsEnd;
use hk_base::KeyName;
use inode_tree::{Kind, Row};
use name_calls::{NPath, NameRefusal};
use std::alloc::Global;

/// The numbers of the files and directories that were copied. The directory of the source counts too.
#[derive(Clone, Copy)]
pub struct Copied {
    pub files: u64,
    pub directories: u64,
}

/// Returns the next number, or `NoMemory` if there is none.
fn next(count: u64) -> Result<u64, FsEnd>
    ensures more { IfOk result (λ more. more ≡ count + 1) }
    ensures ends { IfErr result (λ end. end ≡ FsEnd.NoMemory) }
{
    match count.checked_add(1) {
        Some(more) => Ok(more),
        None => Err(FsEnd::NoMemory),
    }
}

/// Makes a directory of the target, and marks it if it has a key.
fn make<C: Clusters>(clusters: &mut C, path: &NPath, key: Option<KeyName>) -> Result<(), FsEnd>
    requires ready { C.ready clusters.old }
    ensures ok { OnOk result
        (MakesRow (Dir key) path.now (C.state clusters.old) (C.state clusters.new)) }
    ensures err { OnErr result
        (KeepsBoth (C.state clusters.old) (C.state clusters.new) ⊎
        ((is_some key ≡ true) ×
        MakesCopyDirectory path.now (C.state clusters.old) (C.state clusters.new))) }
    ensures ready { OnOk result (C.ready clusters.new) }
    ensures steps { ChainOf C.follows clusters.old clusters.new }
    ensures ends { IfErr result (CopyEnds C.state C.follows C.store_fails C.vault_fails
        C.refuses clusters.old clusters.new) }
{
    match clusters.make_directory(path) {
        Ok(()) => {}
        Err(end) => return Err(end),
    }
    match key {
        Some(key) => clusters.mark(path, key),
        None => Ok(()),
    }
}

/// Makes a row of the target of the same kind as a row of the source, and copies the body of a file.
/// Returns whether it is a directory.
fn make_row<C: Clusters>(clusters: &mut C, row: Row, path: &NPath) -> Result<bool, FsEnd>
    requires ready { C.ready clusters.old }
    ensures ok { IfOk result
        (λ directory. MakesCopy row path.now directory (C.state clusters.old)
        (C.state clusters.new)) }
    ensures err { OnErr result
        (KeepsRows (C.state clusters.old) (C.state clusters.new) ⊎
        ((is_marked row ≡ true) ×
        MakesCopyDirectory path.now (C.state clusters.old) (C.state clusters.new))) }
    ensures ready { OnOk result (C.ready clusters.new) }
    ensures steps { ChainOf C.follows clusters.old clusters.new }
    ensures ends { IfErr result (CopyEnds C.state C.follows C.store_fails C.vault_fails
        C.refuses clusters.old clusters.new) }
{
    let Row { id, kind } = row;
    match kind {
        Kind::Dir { key } => match make(clusters, path, key) {
            Ok(()) => Ok(true),
            Err(end) => Err(end),
        },
        Kind::File { edek } => match clusters.copy_file(id, path, edek) {
            Ok(()) => Ok(false),
            Err(end) => Err(end),
        },
    }
}

/// Copies the row of the source at a path. Returns whether it is a directory.
fn copy_row<C: Clusters>(
    alloc: Global,
    clusters: &mut C,
    from: &NPath,
    to: &NPath,
) -> Result<bool, FsEnd>
    requires ready { C.ready clusters.old }
    requires next { IsNextSubtree from.now to.now (C.state clusters.old) }
    ensures ok { IfOk result
        (λ directory. CopiesRow from.now to.now directory (C.state clusters.old)
        (C.state clusters.new)) }
    ensures err { OnErr result
        (StopsWalk to.now (below (C.state clusters.old).source.rows from.now) (C.state clusters.old)
        (C.state clusters.new)) }
    ensures ready { OnOk result (C.ready clusters.new) }
    ensures steps { ChainOf C.follows clusters.old clusters.new }
    ensures ends { IfErr result (CopyEnds C.state C.follows C.store_fails C.vault_fails
        (StepRefuses C.state C.refuses (IsTooLong to.now)) clusters.old clusters.new) }
{
    clusters.facts();
    let row = match clusters.look(from) {
        Ok(row) => row,
        Err(end) => return Err(end),
    };
    match join(alloc, to, from) {
        Ok(path) => make_row(clusters, row, &path),
        Err(end) => Err(end),
    }
}

/// Counts a row that was copied.
fn count(counts: &mut Copied, directory: bool) -> Result<(), FsEnd>
    ensures counts { OnOk result (CountsOne directory counts.old counts.new) }
    ensures ends { IfErr result (λ end. end ≡ FsEnd.NoMemory) }
{
    let before = *counts;
    if directory {
        let directories = next(before.directories)?;
        *counts = Copied {
            files: before.files,
            directories,
        };
    } else {
        let files = next(before.files)?;
        *counts = Copied {
            files,
            directories: before.directories,
        };
    }
    Ok(())
}

/// Copies the rows of the source at and below a path.
fn copy_block<C: Clusters>(
    alloc: Global,
    clusters: &mut C,
    from: &NPath,
    to: &NPath,
    counts: &mut Copied,
) -> Result<(), FsEnd>
    requires ready { C.ready clusters.old }
    requires next { IsNextSubtree from.now to.now (C.state clusters.old) }
    ensures adds { OnOk result
        (AddsCopies to.now (below (C.state clusters.old).source.rows from.now) (C.state clusters.old)
        (C.state clusters.new)) }
    ensures counts { OnOk result
        (CountsRows (below (C.state clusters.old).source.rows from.now) counts.old counts.new) }
    ensures err { OnErr result
        (StopsWalk to.now (below (C.state clusters.old).source.rows from.now) (C.state clusters.old)
        (C.state clusters.new)) }
    ensures ready { OnOk result (C.ready clusters.new) }
    ensures steps { ChainOf C.follows clusters.old clusters.new }
    ensures ends { IfErr result (CopyEnds C.state C.follows C.store_fails C.vault_fails
        (StepRefuses C.state C.refuses (IsTooLong to.now)) clusters.old clusters.new) }
{
    clusters.facts();
    let directory = match copy_row(alloc, clusters, from, to) {
        Ok(directory) => directory,
        Err(end) => return Err(end),
    };
    match count(counts, directory) {
        Ok(()) => {}
        Err(end) => return Err(end),
    }
    if !directory {
        return Ok(());
    }
    let children = match clusters.list(from) {
        Ok(children) => children,
        Err(end) => return Err(end),
    };
    for child in children.as_slice() {
        let path = match child_path(alloc, from, &child.name) {
            Ok(path) => path,
            Err(end) => return Err(end),
        };
        match copy_block(alloc, clusters, &path, to, counts) {
            Ok(()) => {}
            Err(end) => return Err(end),
        }
    }
    Ok(())
}

/// Checks that the directory of the source is an encryption zone.
fn check_zone<C: Clusters>(clusters: &mut C, root: &NPath) -> Result<(), FsEnd>
    requires ready { C.ready clusters.old }
    ensures ok { OnOk result
        ((row : _) × (row_at (C.state clusters.old).source.rows root.now ≡ Some row) ×
        (is_marked row ≡ true)) }
    ensures keeps { KeepsBoth (C.state clusters.old) (C.state clusters.new) }
    ensures ready { C.ready clusters.new }
    ensures follows { C.follows clusters.old clusters.new }
    ensures ends { IfErr result (EndsFor (C.store_fails clusters.old clusters.new)
        (C.vault_fails clusters.old clusters.new)
        (StepRefuses C.state C.refuses (HasNoMark root.now) clusters.old clusters.new)) }
{
    match clusters.look(root) {
        Ok(row) => match row.kind {
            Kind::Dir { key: Some(_) } => Ok(()),
            _ => Err(FsEnd::NameRefused(NameRefusal::NotAZoneRoot)),
        },
        Err(end) => Err(end),
    }
}

/// Copies all rows of the source, with their bodies, to a path of the target. Returns how many there
/// are.
///
/// The directory of the source must be an encryption zone, else `NotAZoneRoot` is returned and nothing
/// is made. Directories above the path that are missing are made first. If there is an entry at the
/// path, `Exists` is returned. The rows are copied in path order, and a directory is marked right after
/// it was made. Returns `BadPath` at a path that would be too long. The first call that is refused or
/// fails ends the copy. What was copied until then stays, each file with its whole body.
pub fn copy_rows<C: Clusters>(alloc: Global, clusters: &mut C, to: &NPath) -> Result<Copied, FsEnd>
    requires ready { C.ready clusters.old }
    ensures all { OnOk result
        (CopiesAll to.now (C.state clusters.old) (C.state clusters.new)) }
    ensures files { IfOk result
        (λ copied. copied.files ≡ count_by is_file (C.state clusters.old).source.rows) }
    ensures directories { IfOk result
        (λ copied. copied.directories ≡
        count_by is_directory (C.state clusters.old).source.rows) }
    ensures zone { OnOk result
        ((row : _) × (row_at (C.state clusters.old).source.rows [] ≡ Some row) ×
        (is_marked row ≡ true)) }
    ensures unmarked { (row : _) → row_at (C.state clusters.old).source.rows [] ≡ Some row →
        is_marked row ≡ false → KeepsBoth (C.state clusters.old) (C.state clusters.new) }
    ensures absent { OnOk result (row_at (C.state clusters.old).target.rows to.now ≡ None) }
    ensures part { OnErr result
        (StopsEarly to.now (C.state clusters.old) (C.state clusters.new)) }
    ensures ready { OnOk result (C.ready clusters.new) }
    ensures steps { ChainOf C.follows clusters.old clusters.new }
    ensures ends { IfErr result (WholeEnds C.state C.follows C.store_fails C.vault_fails
        C.refuses to.now clusters.old clusters.new) }
{
    let root = NPath::root(alloc);
    match check_zone(clusters, &root) {
        Ok(()) => {}
        Err(end) => return Err(end),
    }
    match make_parents(alloc, clusters, to) {
        Ok(()) => {}
        Err(end) => return Err(end),
    }
    match check_absent(clusters, to) {
        Ok(()) => {}
        Err(end) => return Err(end),
    }
    clusters.facts();
    let mut counts = Copied {
        files: 0,
        directories: 0,
    };
    match copy_block(alloc, clusters, &root, to, &mut counts) {
        Ok(()) => Ok(counts),
        Err(end) => Err(end),
    }
}
