//! Calls of the namesystem whose paths and names an event gives by their bytes.
ghost use Rattle.std.specs.Prelude.{◌≡◌, is_some, option_map, true};
ghost use Rattle.name_calls.specs.Paths.{read_path};
ghost use Rattle.name_calls.specs.ReadPaths.{read_any_path};
ghost use Rattle.name_calls.specs.declared.calls.NameCall.TheVariants as call;
ghost use Rattle.world_run.specs.PathCalls.{IsPathCallRead, ReadsCall, path_call};
ghost use Rattle.world_run.specs.RenamePaths.{read_rename_paths, rename_along};
ghost use Rattle.world_run.specs.SnapPaths.{read_snap_path, snap_at, unsnap_at};
ghost use Rattle.world_run.specs.Step.{delete_with};

use crate::rename_paths::RenamePaths;
use crate::snap_path::SnapPath;
use hk_base::{ByteList, Text};
use hk_events::Event;
use name_calls::{NPath, NameCall, PathFault, ReadPath};
use std::alloc::Global;

/// Reads the paths and names of an event that makes a call about them. Returns its user, and the call
/// or why there is none.
pub fn read_path_call(alloc: Global, event: Event) -> (Text, Result<NameCall, PathFault>)
    requires { is_some (path_call event) ≡ true }
    ensures { ReadsCall event result.0 result.1 }
{
    match event {
        Event::Mkdir { user, path } => (user, mkdir(alloc, path)),
        Event::Delete {
            user,
            path,
            recursive,
        } => (user, delete(alloc, path, recursive)),
        Event::Rename { user, path, to } => (user, rename(alloc, path, to)),
        Event::Info { user, path } => (user, info(alloc, path)),
        Event::List { user, path } => (user, list(alloc, path)),
        Event::Allow { user, path } => (user, allow(alloc, path)),
        Event::Disallow { user, path } => (user, disallow(alloc, path)),
        Event::Snap { user, path, name } => (user, snap(alloc, path, name)),
        Event::Unsnap { user, path, name } => (user, unsnap(alloc, path, name)),
        Event::Cancel { user, path } => (user, cancel(alloc, path)),
        Event::Status { user, path } => (user, status(alloc, path)),
        _ => unreachable!(),
    }
}

fn mkdir(alloc: Global, path: ByteList) -> Result<NameCall, PathFault>
    ensures { IsPathCallRead (option_map call.Mkdir (read_path path)) result }
{
    match NPath::read(alloc, path.as_slice()) {
        Err(fault) => Err(fault),
        Ok(path) => Ok(NameCall::Mkdir { path }),
    }
}

fn delete(alloc: Global, path: ByteList, recursive: bool) -> Result<NameCall, PathFault>
    ensures { IsPathCallRead (option_map (delete_with recursive) (read_path path)) result }
{
    match NPath::read(alloc, path.as_slice()) {
        Err(fault) => Err(fault),
        Ok(path) => Ok(NameCall::Delete { path, recursive }),
    }
}

fn info(alloc: Global, path: ByteList) -> Result<NameCall, PathFault>
    ensures { IsPathCallRead (option_map call.Info (read_any_path path)) result }
{
    match ReadPath::read(alloc, path.as_slice()) {
        Err(fault) => Err(fault),
        Ok(path) => Ok(NameCall::Info { path }),
    }
}

fn list(alloc: Global, path: ByteList) -> Result<NameCall, PathFault>
    ensures { IsPathCallRead (option_map call.List (read_any_path path)) result }
{
    match ReadPath::read(alloc, path.as_slice()) {
        Err(fault) => Err(fault),
        Ok(path) => Ok(NameCall::List { path }),
    }
}

fn allow(alloc: Global, path: ByteList) -> Result<NameCall, PathFault>
    ensures { IsPathCallRead (option_map call.Allow (read_path path)) result }
{
    match NPath::read(alloc, path.as_slice()) {
        Err(fault) => Err(fault),
        Ok(path) => Ok(NameCall::Allow { path }),
    }
}

fn disallow(alloc: Global, path: ByteList) -> Result<NameCall, PathFault>
    ensures { IsPathCallRead (option_map call.Disallow (read_path path)) result }
{
    match NPath::read(alloc, path.as_slice()) {
        Err(fault) => Err(fault),
        Ok(path) => Ok(NameCall::Disallow { path }),
    }
}

fn cancel(alloc: Global, path: ByteList) -> Result<NameCall, PathFault>
    ensures { IsPathCallRead (option_map call.Cancel (read_path path)) result }
{
    match NPath::read(alloc, path.as_slice()) {
        Err(fault) => Err(fault),
        Ok(path) => Ok(NameCall::Cancel { path }),
    }
}

fn status(alloc: Global, path: ByteList) -> Result<NameCall, PathFault>
    ensures { IsPathCallRead (option_map call.Status (read_path path)) result }
{
    match NPath::read(alloc, path.as_slice()) {
        Err(fault) => Err(fault),
        Ok(path) => Ok(NameCall::Status { path }),
    }
}

fn rename(alloc: Global, path: ByteList, to: ByteList) -> Result<NameCall, PathFault>
    ensures { IsPathCallRead (option_map rename_along (read_rename_paths path to)) result }
{
    match RenamePaths::read(alloc, &path, &to) {
        Err(fault) => Err(fault),
        Ok(paths) => Ok(NameCall::Rename {
            path: paths.path,
            to: paths.to,
        }),
    }
}

fn snap(alloc: Global, path: ByteList, name: ByteList) -> Result<NameCall, PathFault>
    ensures { IsPathCallRead (option_map snap_at (read_snap_path path name)) result }
{
    match SnapPath::read(alloc, &path, name) {
        Err(fault) => Err(fault),
        Ok(at) => Ok(NameCall::Snap {
            path: at.path,
            name: at.name,
        }),
    }
}

fn unsnap(alloc: Global, path: ByteList, name: ByteList) -> Result<NameCall, PathFault>
    ensures { IsPathCallRead (option_map unsnap_at (read_snap_path path name)) result }
{
    match SnapPath::read(alloc, &path, name) {
        Err(fault) => Err(fault),
        Ok(at) => Ok(NameCall::Unsnap {
            path: at.path,
            name: at.name,
        }),
    }
}
