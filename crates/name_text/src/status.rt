//! How far the re-encryption of a zone is, as text.
ghost use Rattle.std.specs.Prelude.{◌≡◌, ◌++◌, OnOk, codes};
ghost use Rattle.std.specs.String.{string_bytes};
ghost use Rattle.hk_base.specs.Names.{version_text};
ghost use Rattle.name_text.specs.Answers.{counts_text, mark_text, state_text, status_text, yes_or_no};

use crate::pieces::{write_number, write_relative_path, write_text, write_version};
use hk_base::NoMemory;
use name_calls::{NPath, State, ZoneStatus};
use std::alloc::Global;

/// Appends the answer to a call for the status of a zone.
pub(crate) fn write_status(
    alloc: Global,
    status: &Option<ZoneStatus>,
    out: &mut String,
) -> Result<(), NoMemory>
    ensures { OnOk result (string_bytes out.new ≡ string_bytes out.old ++ status_text status.now) }
{
    match status {
        None => write_text("status None", out),
        Some(status) => write_fields(alloc, status, out),
    }
}

fn write_fields(alloc: Global, status: &ZoneStatus, out: &mut String) -> Result<(), NoMemory>
    ensures { OnOk result
        (string_bytes out.new ≡ string_bytes out.old ++ status_text (Some status.now)) }
{
    write_text("status ", out)?;
    write_text(state_name(status.state), out)?;
    write_text(" ", out)?;
    write_version(&status.noted, out)?;
    write_text(" ", out)?;
    write_counts(status, out)?;
    write_text(" ", out)?;
    write_text(yes_or_no(status.cancelled), out)?;
    write_text(" ", out)?;
    write_mark(alloc, &status.mark, out)
}

fn state_name(state: State) -> &'static str
    ensures { result.now ≡ state_text state }
{
    match state {
        State::Submitted => "Submitted",
        State::Processing => "Processing",
        State::Completed => "Completed",
    }
}

/// Appends how many files got another key, and how many failed.
fn write_counts(status: &ZoneStatus, out: &mut String) -> Result<(), NoMemory>
    ensures { OnOk result (string_bytes out.new ≡ string_bytes out.old ++ counts_text status.now) }
{
    write_number(status.reencrypted, out)?;
    write_text(" ", out)?;
    write_number(status.failed, out)
}

fn yes_or_no(value: bool) -> &'static str
    ensures { result.now ≡ yes_or_no value }
{
    if value { "yes" } else { "no" }
}

fn write_mark(alloc: Global, mark: &Option<NPath>, out: &mut String) -> Result<(), NoMemory>
    ensures { OnOk result (string_bytes out.new ≡ string_bytes out.old ++ mark_text mark.now) }
{
    match mark {
        None => write_text("-", out),
        Some(path) => write_relative_path(alloc, path, out),
    }
}
