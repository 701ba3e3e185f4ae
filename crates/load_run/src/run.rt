//! A load from its start to its line.
ghost use Rattle.std.specs.Prelude.{◌≡◌, ◌⊎◌, ◌||◌, [], false, true, codes, IfOk};
ghost use Rattle.disk_kinds.specs.Plain.{contents};
ghost use Rattle.hk_base.specs.Faults.{Rose};
ghost use Rattle.command_io.specs.Ends.{ShowsWith};
ghost use Rattle.world_run.specs.Drives.{Leads};
ghost use Rattle.world_run.specs.Ready.{IsReady};
ghost use Rattle.load_run.specs.Answers.{is_refused, lacks};
ghost use Rattle.prop_text.specs.Sizes.{default_sizes};
ghost use Rattle.load_run.specs.Counting.{is_good, with_answer, with_refused};
ghost use Rattle.load_run.specs.Counts.{load_line};
ghost use Rattle.load_run.specs.Generator.{tasks};
ghost use Rattle.load_run.specs.History.{DoesAll, DoesInto, DoesTask};
ghost use Rattle.load_run.specs.Load.{Load, Loads};
ghost use Rattle.load_run.specs.Props.{open_lines};

use crate::answers::{is_refused, unless_lacking};
use crate::counting::count_task;
use crate::counts::{Counts, load_line, no_counts};
use crate::events::{Advance, after, first_event};
use crate::generator::load_tasks;
use crate::props::open_props;
use crate::task::Task;
use command_io::show;
use disk_kinds::PlainDisk;
use hk_base::{Disk, NoMemory, Sink, Words};
use hk_events::{Event, Line};
use prop_text::Props;
use std::alloc::Global;
use world_run::World;

/// The moment of each event.
const NOW: u64 = 0;

/// Lets an event happen. Returns `NoMemory` if a restart fails, or if either service answers that
/// allocation or the disk failed.
fn happen<D: Disk, W: Words>(
    world: &mut World,
    disk: &mut D,
    words: &mut W,
    event: Event,
) -> Result<Line, NoMemory>
    requires ready { IsReady open_lines (D.state disk.old) world.old }
    ensures leads { IfOk result
        (λ answer.
        Leads D.state W.to_come open_lines 0
        (record { disk = disk.old; world = world.old; words = words.old }) event answer
        (record { disk = disk.new; world = world.new; words = words.new })) }
    ensures ready { IfOk result (λ answer. IsReady open_lines (D.state disk.new) world.new) }
    ensures lacks { IfOk result (λ answer. lacks answer ≡ false) }
{
    match world.step(disk, words, NOW, event) {
        Err(_) => Err(NoMemory),
        Ok(answer) => unless_lacking(answer),
    }
}

/// Returns whether an event was refused, this one or one before.
fn or_refused(before: bool, answer: &Line) -> bool
    ensures { result ≡ before || is_refused answer.now }
{
    if before {
        return true;
    }
    is_refused(answer)
}

/// Counts a task with this last answer, and drops the answer.
fn close_task(
    task: Task,
    was_refused: bool,
    answer: Line,
    counts: Counts,
) -> Result<Counts, NoMemory>
    ensures counted { IfOk result
        (λ after. after ≡ with_refused task was_refused (with_answer task answer counts)) }
    ensures good { IfOk result (λ after. is_good task answer ≡ true) }
{
    let counted = count_task(task, was_refused, &answer, counts);
    drop(answer);
    counted
}

/// Does a task, and returns the counts after it. Returns `NoMemory` if allocation or the disk fails in
/// it, or if it is a re-encryption that is not completed or of which a file failed.
fn do_task<D: Disk, W: Words>(
    alloc: Global,
    world: &mut World,
    disk: &mut D,
    words: &mut W,
    task: Task,
    counts: Counts,
) -> Result<Counts, NoMemory>
    requires ready { IsReady open_lines (D.state disk.old) world.old }
    ensures does { IfOk result
        (λ after.
        DoesTask (Leads D.state W.to_come open_lines 0) task
        (record { disk = disk.old; world = world.old; words = words.old }) counts after
        (record { disk = disk.new; world = world.new; words = words.new })) }
    ensures ready { IfOk result (λ after. IsReady open_lines (D.state disk.new) world.new) }
{
    let mut event = first_event(alloc, task)?;
    let mut was_refused = false;
    // Only a drive has more than three events, and each batch of it is kept, so memory runs out before
    // the count of events does.
    'events: for _ in 0..u64::MAX {
        let answer = happen(world, disk, words, event)?;
        was_refused = or_refused(was_refused, &answer);
        match after(alloc, task, &answer) {
            Advance::Event(next) => {
                drop(answer);
                event = next;
            }
            Advance::End => return close_task(task, was_refused, answer, counts),
            Advance::NoMemory => {
                drop(answer);
                return Err(NoMemory);
            }
        }
    }
    drop(event);
    Err(NoMemory)
}

/// Does tasks one after another, and returns their counts.
fn do_all<D: Disk, W: Words>(
    alloc: Global,
    world: &mut World,
    disk: &mut D,
    words: &mut W,
    tasks: &Vec<Task>,
) -> Result<Counts, NoMemory>
    requires ready { IsReady open_lines (D.state disk.old) world.old }
    ensures does { IfOk result
        (λ counts.
        DoesAll (Leads D.state W.to_come open_lines 0) tasks.now.items
        (record { disk = disk.old; world = world.old; words = words.old }) counts
        (record { disk = disk.new; world = world.new; words = words.new })) }
{
    let mut counts = no_counts();
    for task in tasks {
        let next = do_task(alloc, world, disk, words, *task, counts)?;
        counts = next;
    }
    Ok(counts)
}

/// Does tasks in a world, and drops it.
fn do_all_in<D: Disk, W: Words>(
    alloc: Global,
    mut world: World,
    disk: &mut D,
    words: &mut W,
    tasks: &Vec<Task>,
) -> Result<Counts, NoMemory>
    requires ready { IsReady open_lines (D.state disk.old) world }
    ensures does { IfOk result
        (λ counts.
        DoesInto (Leads D.state W.to_come open_lines 0) tasks.now.items
        (record { disk = disk.old; world = world; words = words.old }) counts words.new) }
{
    let counts = do_all(alloc, &mut world, disk, words, tasks);
    world.close();
    counts
}

/// Starts both services on a disk of two empty files, and does the tasks of a load.
fn load_on<W: Words>(
    alloc: Global,
    disk: &mut PlainDisk,
    props: &Props,
    tasks: &Vec<Task>,
    rand: &mut W,
) -> Result<Counts, NoMemory>
    requires no_key_log { contents disk.old 0 ≡ [] }
    requires no_edit_log { contents disk.old 1 ≡ [] }
    requires lines { props.now.lines ≡ open_lines }
    requires sizes { props.now.sizes ≡ default_sizes }
    ensures loads { IfOk result
        (λ counts. Loads W.to_come tasks.now.items rand.old rand.new counts) }
{
    match World::start(alloc, disk, props) {
        Err(_) => Err(NoMemory),
        Ok(world) => do_all_in(alloc, world, disk, rand, tasks),
    }
}

/// Does the tasks of a load over a disk in memory.
fn load_with<W: Words>(
    alloc: Global,
    props: &Props,
    tasks: &Vec<Task>,
    rand: &mut W,
) -> Result<Counts, NoMemory>
    requires lines { props.now.lines ≡ open_lines }
    requires sizes { props.now.sizes ≡ default_sizes }
    ensures loads { IfOk result
        (λ counts. Loads W.to_come tasks.now.items rand.old rand.new counts) }
{
    let mut disk = PlainDisk::new(alloc);
    let counts = load_on(alloc, &mut disk, props, tasks, rand);
    drop(disk);
    counts
}

/// Does a load of `count` steps, and returns its counts.
fn load<W: Words>(alloc: Global, count: u32, rand: &mut W) -> Result<Counts, NoMemory>
    ensures loads { IfOk result (λ counts. Loads W.to_come (tasks count) rand.old rand.new counts) }
{
    let tasks = load_tasks(alloc, count)?;
    let props = open_props(alloc)?;
    load_with(alloc, &props, &tasks, rand)
}

/// Writes the line of a load. Returns 0; or 6 if allocation fails, after a line that says so; or 8 if
/// the output fails.
fn show_counts<K: Sink>(alloc: Global, count: u32, counts: Counts, out: &mut K) -> u8
    ensures shows { ShowsWith (load_line count counts) 0 (K.written out.old) (K.written out.new)
        result ⊎ ShowsWith (codes "no memory\n") 6 (K.written out.old) (K.written out.new) result }
    ensures write { result ≡ 8 → Rose (K.faults out.old) (K.faults out.new) }
{
    match load_line(alloc, count, counts) {
        Err(_) => show(out, b"no memory\n", 6),
        Ok(line) => {
            let status = show(out, line.as_slice(), 0);
            drop(line);
            status
        }
    }
}

/// Lets the events of a load happen to both services over a disk in memory, and writes a line of what
/// came of them. The events are chosen by `count`, the number of steps, alone: keys, zones and their
/// files, rolls of the keys, snapshots and generated keys, and a re-encryption of each zone at the end.
///
/// Returns the exit status:
///
/// - 0: the line is written.
/// - 6: allocation failed.
/// - 8: the output failed.
pub fn run_load<K: Sink, W: Words>(alloc: Global, count: u32, out: &mut K, rand: &mut W) -> u8
    ensures load { Load W.to_come count rand.old rand.new (K.written out.old) (K.written out.new)
        result }
    ensures statuses { (result ≡ 0) ⊎ ((result ≡ 6) ⊎ (result ≡ 8)) }
    ensures write { result ≡ 8 → Rose (K.faults out.old) (K.faults out.new) }
{
    match load(alloc, count, rand) {
        Err(_) => show(out, b"no memory\n", 6),
        Ok(counts) => show_counts(alloc, count, counts, out),
    }
}
