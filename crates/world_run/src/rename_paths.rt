//! The two paths of a rename.
ghost use Rattle.std.specs.Prelude.{◌≡◌, ◌≢◌, ◌↔◌, Err, IfOk, None, Some, is_some, true};
ghost use Rattle.name_calls.specs.Paths.{read_path};
ghost use Rattle.world_run.specs.RenamePaths.{read_rename_paths};

use hk_base::ByteList;
use name_calls::{NPath, PathFault, is_path};
use std::alloc::Global;

/// The path of an entry, and the path that it moves to.
#[derive(Drop)]
pub struct RenamePaths {
    pub path: NPath,
    pub to: NPath,
}

impl RenamePaths {
    /// Reads both paths. Returns `BadPath` exactly if one of them breaks the rule of paths, which is
    /// found before any memory is taken.
    pub fn read(alloc: Global, path: &ByteList, to: &ByteList) -> Result<RenamePaths, PathFault>
        ensures ok { IfOk result (λ paths. read_rename_paths path.now to.now ≡ Some paths) }
        ensures bad { (result ≡ Err PathFault.BadPath) ↔
            (read_rename_paths path.now to.now ≡ None) }
    {
        if !is_path(to.as_slice()) {
            return Err(PathFault::BadPath);
        }
        match NPath::read(alloc, path.as_slice()) {
            Err(fault) => Err(fault),
            Ok(path) => with_path(alloc, path, to),
        }
    }
}

/// Reads the path to move to, which keeps the rule of paths.
fn with_path(alloc: Global, path: NPath, to: &ByteList) -> Result<RenamePaths, PathFault>
    requires { is_some (read_path to.now) ≡ true }
    ensures ok { IfOk result (λ paths. (paths.path ≡ path) × (read_path to.now ≡ Some paths.to)) }
    ensures bad { result ≢ Err PathFault.BadPath }
{
    match NPath::read(alloc, to.as_slice()) {
        Err(fault) => Err(fault),
        Ok(to) => Ok(RenamePaths { path, to }),
    }
}
