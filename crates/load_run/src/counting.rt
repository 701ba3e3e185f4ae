//! How a task is counted.
ghost use Rattle.std.specs.Prelude.{◌≡◌, ◌+◌, ◌&&◌, true, IfOk};
ghost use Rattle.load_run.specs.Answers.{done_in, keys_in, reencrypted_by, status_in, versions_in};
ghost use Rattle.load_run.specs.Counting.{is_good, is_step, one_if, with_answer, with_refused};

use crate::answers::{done_in, is_completed, keys_in, none_failed, reencrypted_in, versions_in};
use crate::counts::Counts;
use crate::task::Task;
use hk_base::NoMemory;
use hk_events::Line;

/// Adds to a count. Returns `NoMemory` if it gets too large, which no memory allows.
fn plus(count: u64, more: u64) -> Result<u64, NoMemory>
    ensures { IfOk result (λ sum. sum ≡ count + more) }
{
    count.checked_add(more).ok_or(NoMemory)
}

fn with_created(answer: &Line, counts: Counts) -> Result<Counts, NoMemory>
    ensures { IfOk result
        (λ after. after ≡ record counts { created = counts.created + done_in answer.now }) }
{
    let created = plus(counts.created, done_in(answer))?;
    Ok(Counts { created, ..counts })
}

fn with_deleted(answer: &Line, counts: Counts) -> Result<Counts, NoMemory>
    ensures { IfOk result
        (λ after. after ≡ record counts { deleted = counts.deleted + done_in answer.now }) }
{
    let deleted = plus(counts.deleted, done_in(answer))?;
    Ok(Counts { deleted, ..counts })
}

fn with_rolled(answer: &Line, counts: Counts) -> Result<Counts, NoMemory>
    ensures { IfOk result
        (λ after. after ≡ record counts { rolled = counts.rolled + versions_in answer.now }) }
{
    let rolled = plus(counts.rolled, versions_in(answer))?;
    Ok(Counts { rolled, ..counts })
}

fn with_ready(answer: &Line, counts: Counts) -> Result<Counts, NoMemory>
    ensures { IfOk result
        (λ after. after ≡ record counts { ready = counts.ready + keys_in answer.now }) }
{
    let ready = plus(counts.ready, keys_in(answer))?;
    Ok(Counts { ready, ..counts })
}

fn with_snapshots(answer: &Line, counts: Counts) -> Result<Counts, NoMemory>
    ensures { IfOk result
        (λ after. after ≡ record counts { snapshots = counts.snapshots + done_in answer.now }) }
{
    let snapshots = plus(counts.snapshots, done_in(answer))?;
    Ok(Counts {
        snapshots,
        ..counts
    })
}

fn with_reencrypted(answer: &Line, counts: Counts) -> Result<Counts, NoMemory>
    ensures { IfOk result
        (λ after. after ≡
        record counts {
          reencrypted = counts.reencrypted +
              reencrypted_by (status_in answer.now);
        }) }
{
    let reencrypted = plus(counts.reencrypted, reencrypted_in(answer))?;
    Ok(Counts {
        reencrypted,
        ..counts
    })
}

/// Returns the counts after a task with this last answer.
fn with_answer(task: Task, answer: &Line, counts: Counts) -> Result<Counts, NoMemory>
    ensures { IfOk result (λ after. after ≡ with_answer task answer.now counts) }
{
    match task {
        Task::MakeFile { .. } => with_created(answer, counts),
        Task::Delete { .. } => with_deleted(answer, counts),
        Task::Roll { .. } => with_rolled(answer, counts),
        Task::Generate { .. } => with_ready(answer, counts),
        Task::Snap { .. } => with_snapshots(answer, counts),
        Task::Status { .. } => with_reencrypted(answer, counts),
        _ => Ok(counts),
    }
}

/// Returns whether a task is that of a step.
fn is_step(task: Task) -> bool
    ensures { result ≡ is_step task }
{
    match task {
        Task::MakeFile { .. } => true,
        Task::Delete { .. } => true,
        Task::Roll { .. } => true,
        Task::Generate { .. } => true,
        Task::Snap { .. } => true,
        _ => false,
    }
}

/// Returns 1 if a step was refused, and otherwise 0.
fn one_if(step: bool, refused: bool) -> u64
    ensures { result ≡ one_if (step && refused) }
{
    if !step {
        return 0;
    }
    if refused { 1 } else { 0 }
}

/// Returns the counts after a task of which an event was refused or none.
fn with_refused(task: Task, was_refused: bool, counts: Counts) -> Result<Counts, NoMemory>
    ensures { IfOk result (λ after. after ≡ with_refused task was_refused counts) }
{
    let refused = plus(counts.refused, one_if(is_step(task), was_refused))?;
    Ok(Counts { refused, ..counts })
}

/// Returns whether the last answer of a task lets the load go on.
fn is_good(task: Task, answer: &Line) -> bool
    ensures { result ≡ is_good task answer.now }
{
    match task {
        Task::Drive { .. } => is_completed(answer),
        Task::Status { .. } => none_failed(answer),
        _ => true,
    }
}

/// Counts a task with this last answer. Returns `NoMemory` if it is a re-encryption that is not
/// completed or of which a file failed.
pub(crate) fn count_task(
    task: Task,
    was_refused: bool,
    answer: &Line,
    counts: Counts,
) -> Result<Counts, NoMemory>
    ensures counted { IfOk result
        (λ after. after ≡ with_refused task was_refused (with_answer task answer.now counts)) }
    ensures good { IfOk result (λ after. is_good task answer.now ≡ true) }
{
    if !is_good(task, answer) {
        return Err(NoMemory);
    }
    let answered = with_answer(task, answer, counts)?;
    with_refused(task, was_refused, answered)
}
