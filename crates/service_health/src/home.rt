//! The page for readers.
ghost use Rattle.std.specs.Prelude.{◌≡◌, ◌++◌, codes, OnOk};
ghost use Rattle.std.specs.Fmt.{decimal};
ghost use Rattle.service_health.specs.Texts.{home_foot, home_head, home_text, kind_rows, state_word, table_cell, table_row};

use crate::counts::{CallCounts, CallTotals};
use crate::pieces::append;
use hk_base::{ByteList, NoMemory};
use itoa::Buffer;

#[tactic(auto, unfolding(crate::specs::Texts::home_head))]
fn home_head() -> &'static str
    ensures { result.now ≡ home_head }
{
    "<!DOCTYPE html>\n<html lang=\"en\">\n<title>hkms</title>\n<h1>hkms</h1>\n<table>\n<tr><th></th><th>Keys</th><th>Namesystem</th></tr>\n"
}

#[tactic(auto, unfolding(crate::specs::Texts::home_foot))]
fn home_foot() -> &'static str
    ensures { result.now ≡ home_foot }
{
    "</table>\n<p><a href=\"/health\">health</a> <a href=\"/metrics\">metrics</a></p>\n</html>\n"
}

fn state_word(failed: bool) -> &'static str
    ensures { result.now ≡ state_word failed }
{
    if failed { "failed" } else { "ok" }
}

#[tactic(auto, unfolding(crate::specs::Texts::table_cell))]
fn append_cell(out: &mut ByteList, text: &str) -> Result<(), NoMemory>
    ensures { OnOk result (out.new ≡ out.old ++ table_cell text.now) }
{
    append(out, "<td>")?;
    append(out, text)?;
    append(out, "</td>")
}

#[tactic(auto, unfolding(crate::specs::Texts::table_row))]
fn append_row(out: &mut ByteList, heading: &str, keys: &str, names: &str) -> Result<(), NoMemory>
    ensures { OnOk result (out.new ≡ out.old ++ table_row heading.now keys.now names.now) }
{
    append(out, "<tr><th>")?;
    append(out, heading)?;
    append(out, "</th>")?;
    append_cell(out, keys)?;
    append_cell(out, names)?;
    append(out, "</tr>\n")
}

fn append_numbers(out: &mut ByteList, heading: &str, keys: u64, names: u64) -> Result<(), NoMemory>
    ensures { OnOk result
        (out.new ≡ out.old ++ table_row heading.now (decimal keys) (decimal names)) }
{
    let mut left = Buffer::new();
    let mut right = Buffer::new();
    append_row(out, heading, left.format(keys), right.format(names))
}

fn append_states(out: &mut ByteList, heading: &str, keys: bool, names: bool) -> Result<(), NoMemory>
    ensures { OnOk result
        (out.new ≡ out.old ++ table_row heading.now (state_word keys) (state_word names)) }
{
    append_row(out, heading, state_word(keys), state_word(names))
}

#[tactic(auto, unfolding(crate::specs::Texts::kind_rows))]
fn append_kind(
    out: &mut ByteList,
    done: &str,
    refused: &str,
    failed: &str,
    keys: CallTotals,
    names: CallTotals,
) -> Result<(), NoMemory>
    ensures { OnOk result
        (out.new ≡ out.old ++ kind_rows done.now refused.now failed.now keys names) }
{
    append_numbers(out, done, keys.done, names.done)?;
    append_numbers(out, refused, keys.refused, names.refused)?;
    append_numbers(out, failed, keys.failed, names.failed)
}

fn append_reads(out: &mut ByteList, keys: CallTotals, names: CallTotals) -> Result<(), NoMemory>
    ensures { OnOk result
        (out.new ≡
        out.old ++
        kind_rows (codes "Reads done") (codes "Reads refused") (codes "Reads failed") keys names) }
{
    append_kind(
        out,
        "Reads done",
        "Reads refused",
        "Reads failed",
        keys,
        names,
    )
}

fn append_changes(out: &mut ByteList, keys: CallTotals, names: CallTotals) -> Result<(), NoMemory>
    ensures { OnOk result
        (out.new ≡
        out.old ++
        kind_rows (codes "Changes done") (codes "Changes refused") (codes "Changes failed") keys
        names) }
{
    append_kind(
        out,
        "Changes done",
        "Changes refused",
        "Changes failed",
        keys,
        names,
    )
}

/// Appends the page. If allocation fails, a prefix may have been appended.
#[tactic(auto, unfolding(crate::specs::Texts::home_text))]
pub(crate) fn append_home(out: &mut ByteList, counts: &CallCounts) -> Result<(), NoMemory>
    ensures { OnOk result (out.new ≡ out.old ++ home_text counts.now) }
{
    append(out, home_head())?;
    append_states(out, "Log", counts.keys.failing, counts.names.failing)?;
    append_numbers(
        out,
        "Calls, those of workers included",
        counts.keys.entries,
        counts.names.entries,
    )?;
    append_reads(out, counts.keys.reads, counts.names.reads)?;
    append_changes(out, counts.keys.changes, counts.names.changes)?;
    append(out, home_foot())
}
