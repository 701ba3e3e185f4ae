//! The path of a directory with the name of one of its snapshots.
ghost use Rattle.std.specs.Prelude.{◌≡◌, ◌↔◌, Err, IfOk, None, Some};
ghost use Rattle.name_calls.specs.Paths.{read_path};
ghost use Rattle.world_run.specs.SnapPaths.{read_snap_path};

use hk_base::{ByteList, Text};
use name_calls::{NPath, PathFault, is_component};
use std::alloc::Global;

/// The path of a directory, and the name of a snapshot of it.
#[derive(Drop)]
pub struct SnapPath {
    pub path: NPath,
    pub name: Text,
}

impl SnapPath {
    /// Reads the path and the name. Returns `BadPath` exactly if the path breaks the rule of paths, or
    /// the name can't be a name of a path, which is found before any memory is taken.
    pub fn read(alloc: Global, path: &ByteList, name: ByteList) -> Result<SnapPath, PathFault>
        ensures ok { IfOk result (λ at. read_snap_path path.now name ≡ Some at) }
        ensures bad { (result ≡ Err PathFault.BadPath) ↔ (read_snap_path path.now name ≡ None) }
    {
        if !is_component(name.as_slice()) {
            return Err(PathFault::BadPath);
        }
        let name = match Text::from_utf8(name.into_vec()) {
            None => unreachable!(),
            Some(name) => name,
        };
        match NPath::read(alloc, path.as_slice()) {
            Err(fault) => Err(fault),
            Ok(path) => Ok(SnapPath { path, name }),
        }
    }
}
