//! Copies of paths.
ghost use Rattle.std.specs.Prelude.{◌≡◌, IfOk};

use hk_base::NoMemory;
use name_calls::NPath;
use std::alloc::Global;

/// Returns a copy of a path, if there is one.
pub(crate) fn copy_of_mark(alloc: Global, mark: &Option<NPath>) -> Result<Option<NPath>, NoMemory>
    ensures { IfOk result (λ copy. copy ≡ mark.now) }
{
    match mark {
        None => Ok(None),
        Some(path) => Ok(Some(path.copy(alloc)?)),
    }
}
