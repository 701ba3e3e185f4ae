//! The tasks of a load.
ghost use Rattle.std.specs.Prelude.{◌≡◌, ◌+◌, ◌^◌, ◌/◌, ◌<◌, ◌≤◌, ◌++◌, IfOk, OnOk};
ghost use Rattle.load_run.specs.Generator.{chosen, closing, random_after, set_up, step_by, steps, tasks};

use crate::task::Task;
use hk_base::NoMemory;
use std::alloc::Global;

/// What comes before the steps.
const SET_UP: [Task; 16] = [
    Task::MakeKey { zone: 0 },
    Task::MakeKey { zone: 1 },
    Task::MakeKey { zone: 2 },
    Task::MakeKey { zone: 3 },
    Task::MakeDirectory { zone: 0 },
    Task::MakeDirectory { zone: 1 },
    Task::MakeDirectory { zone: 2 },
    Task::MakeDirectory { zone: 3 },
    Task::Allow { zone: 0 },
    Task::Allow { zone: 1 },
    Task::Allow { zone: 2 },
    Task::Allow { zone: 3 },
    Task::MakeZone { zone: 0 },
    Task::MakeZone { zone: 1 },
    Task::MakeZone { zone: 2 },
    Task::MakeZone { zone: 3 },
];

/// What comes after the steps.
const CLOSING: [Task; 12] = [
    Task::Submit { zone: 0 },
    Task::Drive { zone: 0 },
    Task::Status { zone: 0 },
    Task::Submit { zone: 1 },
    Task::Drive { zone: 1 },
    Task::Status { zone: 1 },
    Task::Submit { zone: 2 },
    Task::Drive { zone: 2 },
    Task::Status { zone: 2 },
    Task::Submit { zone: 3 },
    Task::Drive { zone: 3 },
    Task::Status { zone: 3 },
];

/// Returns the random number after another.
fn random_after(x: u64) -> u64
    ensures { result ≡ random_after x }
{
    x.wrapping_mul(6364136223846793005)
        .wrapping_add(1442695040888963407)
}

/// Returns the task of a step: `kind` chooses it, and `other` is a file or a count.
fn chosen(kind: u32, zone: u32, other: u32, step: u32) -> Task
    ensures { result ≡ chosen kind zone other step }
{
    match kind {
        12 => Task::Delete { zone, file: other },
        13 => Task::Roll { zone },
        14 => Task::Snap {
            zone,
            snapshot: step,
        },
        15 => Task::Generate {
            zone,
            count: 1 + other % 8,
        },
        _ => Task::MakeFile { zone, file: step },
    }
}

/// Returns the task that the bits of a random number choose for a step.
fn step_by(bits: u32, step: u32) -> Task
    requires { 1 ≤ step }
    ensures { result ≡ step_by bits step }
{
    chosen(bits % 16, bits / 16 % 4, bits / 256 % step, step)
}

/// Returns the upper half of a random number.
fn upper_half(x: u64) -> u32
    ensures { result ≡ x / 2 ^ 32 }
{
    (x >> 32) as u32
}

/// Appends the tasks of the steps of a load.
fn add_steps(tasks: &mut Vec<Task>, count: u32) -> Result<(), NoMemory>
    ensures { OnOk result (tasks.new.items ≡ tasks.old.items ++ steps count count) }
{
    let mut x = count as u64;
    for step in 0..count {
        x = random_after(x);
        tasks.push(step_by(upper_half(x), step + 1))?;
    }
    Ok(())
}

/// Returns the tasks of a load of `count` steps.
#[tactic(auto, unfolding(crate::specs::Generator::tasks))]
pub(crate) fn load_tasks(alloc: Global, count: u32) -> Result<Vec<Task>, NoMemory>
    ensures { IfOk result (λ made. made.items ≡ tasks count) }
{
    let mut tasks = Vec::new(alloc);
    tasks.extend_from_slice(&SET_UP)?;
    add_steps(&mut tasks, count)?;
    tasks.extend_from_slice(&CLOSING)?;
    Ok(tasks)
}
