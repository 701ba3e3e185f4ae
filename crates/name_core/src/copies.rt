//! Paths that go on as another one does.
ghost use Rattle.std.specs.Prelude.{◌≡◌, ◌≤◌, ◌++◌, IfOk, length, take, true};
ghost use Rattle.name_calls.specs.Paths.{is_relative};

use hk_base::{NoMemory, Text};
use name_calls::NPath;
use std::alloc::Global;

/// Returns a path followed by the first `count` names of another one.
pub fn joined(alloc: Global, path: NPath, below: &NPath, count: usize) -> Result<NPath, NoMemory>
    requires within { count ≤ length below.now }
    requires rule { is_relative (path ++ take count below.now) ≡ true }
    ensures { IfOk result (λ joined. joined ≡ path ++ take count below.now) }
{
    let mut joined = path;
    for k in 0..count {
        joined.push(copy_of_name(alloc, below.name(k))?)?;
    }
    Ok(joined)
}

fn copy_of_name(alloc: Global, name: &Text) -> Result<Text, NoMemory>
    ensures { IfOk result (λ copy. copy ≡ name.now) }
{
    Ok(Text::of(String::from_str(alloc, name.as_str())?))
}
