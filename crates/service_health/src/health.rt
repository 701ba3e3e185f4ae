//! The health of both services.
ghost use Rattle.std.specs.Prelude.{◌≡◌, ◌++◌, OnOk};
ghost use Rattle.service_health.specs.Texts.{health_text, state_text};

use crate::counts::CallCounts;
use crate::pieces::append;
use hk_base::{ByteList, NoMemory};

fn state_text(failed: bool) -> &'static str
    ensures { result.now ≡ state_text failed }
{
    if failed { "\"failed\"" } else { "\"ok\"" }
}

/// Appends the health. If allocation fails, a prefix may have been appended.
#[tactic(auto, unfolding(crate::specs::Texts::health_text))]
pub(crate) fn append_health(out: &mut ByteList, counts: &CallCounts) -> Result<(), NoMemory>
    ensures { OnOk result (out.new ≡ out.old ++ health_text counts.now) }
{
    append(out, "{\"status\":")?;
    append(out, state_text(counts.is_failing()))?;
    append(out, ",\"services\":{\"keys\":")?;
    append(out, state_text(counts.keys.failing))?;
    append(out, ",\"names\":")?;
    append(out, state_text(counts.names.failing))?;
    append(out, "}}\n")
}
