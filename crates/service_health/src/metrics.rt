//! The metrics of both services.
ghost use Rattle.std.specs.Prelude.{◌≡◌, ◌++◌, OnOk};
ghost use Rattle.service_health.specs.Texts.{calls_labels, calls_line, calls_metric, comment_lines, entries_metric, failing_metric, label, metric, metrics_text, sample_line, state_number, totals_lines};

use crate::counts::{CallCounts, CallTotals};
use crate::pieces::{append, append_number};
use hk_base::{ByteList, NoMemory};

const COUNTER: &str = "counter";

const GAUGE: &str = "gauge";

fn state_number(failing: bool) -> u64
    ensures { result ≡ state_number failing }
{
    if failing { 1 } else { 0 }
}

#[tactic(auto, unfolding(crate::specs::Texts::comment_lines))]
fn append_comments(out: &mut ByteList, name: &str, kind: &str, help: &str) -> Result<(), NoMemory>
    ensures { OnOk result (out.new ≡ out.old ++ comment_lines name.now kind.now help.now) }
{
    append(out, "# HELP ")?;
    append(out, name)?;
    append(out, " ")?;
    append(out, help)?;
    append(out, "\n# TYPE ")?;
    append(out, name)?;
    append(out, " ")?;
    append(out, kind)?;
    append(out, "\n")
}

#[tactic(auto, unfolding(crate::specs::Texts::sample_line))]
fn append_sample(out: &mut ByteList, name: &str, service: &str, value: u64) -> Result<(), NoMemory>
    ensures { OnOk result (out.new ≡ out.old ++ sample_line name.now service.now value) }
{
    append(out, name)?;
    append(out, "{service=\"")?;
    append(out, service)?;
    append(out, "\"} ")?;
    append_number(out, value)?;
    append(out, "\n")
}

#[tactic(auto, unfolding(crate::specs::Texts::metric))]
fn append_metric(
    out: &mut ByteList,
    name: &str,
    kind: &str,
    help: &str,
    keys: u64,
    names: u64,
) -> Result<(), NoMemory>
    ensures { OnOk result (out.new ≡ out.old ++ metric name.now kind.now help.now keys names) }
{
    append_comments(out, name, kind, help)?;
    append_sample(out, name, "keys", keys)?;
    append_sample(out, name, "names", names)
}

#[tactic(auto, unfolding(crate::specs::Texts::label))]
fn append_label(out: &mut ByteList, before: &str, value: &str) -> Result<(), NoMemory>
    ensures { OnOk result (out.new ≡ out.old ++ label before.now value.now) }
{
    append(out, before)?;
    append(out, value)?;
    append(out, "\"")
}

#[tactic(auto, unfolding(crate::specs::Texts::calls_labels))]
fn append_calls_labels(
    out: &mut ByteList,
    service: &str,
    kind: &str,
    how: &str,
) -> Result<(), NoMemory>
    ensures { OnOk result (out.new ≡ out.old ++ calls_labels service.now kind.now how.now) }
{
    append_label(out, "hkms_calls_total{service=\"", service)?;
    append_label(out, ",kind=\"", kind)?;
    append_label(out, ",result=\"", how)
}

#[tactic(auto, unfolding(crate::specs::Texts::calls_line))]
fn append_calls_line(
    out: &mut ByteList,
    service: &str,
    kind: &str,
    how: &str,
    value: u64,
) -> Result<(), NoMemory>
    ensures { OnOk result (out.new ≡ out.old ++ calls_line service.now kind.now how.now value) }
{
    append_calls_labels(out, service, kind, how)?;
    append(out, "} ")?;
    append_number(out, value)?;
    append(out, "\n")
}

#[tactic(auto, unfolding(crate::specs::Texts::totals_lines))]
fn append_totals(
    out: &mut ByteList,
    service: &str,
    kind: &str,
    totals: CallTotals,
) -> Result<(), NoMemory>
    ensures { OnOk result (out.new ≡ out.old ++ totals_lines service.now kind.now totals) }
{
    append_calls_line(out, service, kind, "done", totals.done)?;
    append_calls_line(out, service, kind, "refused", totals.refused)?;
    append_calls_line(out, service, kind, "failed", totals.failed)
}

#[tactic(auto, unfolding(crate::specs::Texts::calls_metric))]
fn append_calls(out: &mut ByteList, counts: &CallCounts) -> Result<(), NoMemory>
    ensures { OnOk result (out.new ≡ out.old ++ calls_metric counts.now) }
{
    append_comments(
        out,
        "hkms_calls_total",
        COUNTER,
        "Calls that connections were answered.",
    )?;
    append_totals(out, "keys", "read", counts.keys.reads)?;
    append_totals(out, "keys", "change", counts.keys.changes)?;
    append_totals(out, "names", "read", counts.names.reads)?;
    append_totals(out, "names", "change", counts.names.changes)
}

#[tactic(auto, unfolding(crate::specs::Texts::entries_metric))]
fn append_entries(out: &mut ByteList, counts: &CallCounts) -> Result<(), NoMemory>
    ensures { OnOk result (out.new ≡ out.old ++ entries_metric counts.now) }
{
    append_metric(
        out,
        "hkms_entries_total",
        COUNTER,
        "Calls of a service since the start, those of workers included.",
        counts.keys.entries,
        counts.names.entries,
    )
}

#[tactic(auto, unfolding(crate::specs::Texts::failing_metric))]
fn append_failing(out: &mut ByteList, counts: &CallCounts) -> Result<(), NoMemory>
    ensures { OnOk result (out.new ≡ out.old ++ failing_metric counts.now) }
{
    append_metric(
        out,
        "hkms_log_failing",
        GAUGE,
        "1 if the log could not take the latest change.",
        state_number(counts.keys.failing),
        state_number(counts.names.failing),
    )
}

/// Appends the metrics. If allocation fails, a prefix may have been appended.
#[tactic(auto, unfolding(crate::specs::Texts::metrics_text))]
pub(crate) fn append_metrics(out: &mut ByteList, counts: &CallCounts) -> Result<(), NoMemory>
    ensures { OnOk result (out.new ≡ out.old ++ metrics_text counts.now) }
{
    append_calls(out, counts)?;
    append_entries(out, counts)?;
    append_failing(out, counts)
}
