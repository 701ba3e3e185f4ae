//! What calls do to the queues of ready keys.
ghost use Rattle.std.specs.Prelude.{◌≡◌, ◌-◌, length, take, true, IfOk, MatchResult, OnErr, OnOk};
ghost use Rattle.std.specs.Option.{option_copied};
ghost use Rattle.eek_queues.specs.Queues.{AllQueues, ready_in};
ghost use Rattle.kms_core.specs.State.{settled_queues};
ghost use Rattle.kms_core.specs.Calls.{with_queue};
ghost use Rattle.kms_core.specs.Steps.{DrewSome, HandsOut, changed};

use crate::drawing::{CurrentVersion, draw_edeks};
use eek_queues::Queues;
use hk_base::{NoMemory, Words};
use key_rows::KeyCommand;
use kms_calls::EdekList;
use std::alloc::Global;

/// What a command does to the queues.
#[derive(Clone, Copy)]
pub enum QueueChange {
    Keep,
    Empty { birth: u64 },
    Remove { birth: u64 },
}

/// Returns what a pending command does to the queues if it takes effect.
pub fn change_by(pending: Option<&KeyCommand>) -> QueueChange
    ensures { (all : AllQueues) →
        changed result all ≡ settled_queues true (option_copied pending.entry) all }
{
    match pending {
        Some(KeyCommand::Roll { birth, .. }) => QueueChange::Empty { birth: *birth },
        Some(KeyCommand::Delete { birth }) => QueueChange::Remove { birth: *birth },
        _ => QueueChange::Keep,
    }
}

/// Changes the queues.
pub fn change(queues: &mut Queues, change: QueueChange)
    ensures { queues.new ≡ changed change queues.old }
{
    match change {
        QueueChange::Keep => {}
        QueueChange::Empty { birth } => queues.drain(birth),
        QueueChange::Remove { birth } => queues.drop_queue(birth),
    }
}

/// Makes the queue of a key if it has none.
fn make_queue(queues: &mut Queues, birth: u64) -> Result<(), NoMemory>
    ensures ok { OnOk result (queues.new ≡ with_queue queues.old birth) }
    ensures err { OnErr result (queues.new ≡ queues.old) }
{
    if queues.has(birth) {
        return Ok(());
    }
    queues.make(birth)
}

/// Copies the `count` oldest ready keys of a birth, or all of them if it has fewer.
fn copy_ready(alloc: Global, queues: &Queues, birth: u64, count: u32) -> Result<EdekList, NoMemory>
    ensures { IfOk result (λ keys. keys ≡ take count (ready_in queues.now.queues birth)) }
{
    let mut keys = EdekList::with_room(alloc, count as usize)?;
    for position in 0..count {
        match queues.get(birth, position as usize) {
            None => return Ok(keys),
            Some(key) => keys.push(key)?,
        }
    }
    Ok(keys)
}

/// Takes the oldest ready keys of a key, and draws the rest of `count` keys. Allocates everything
/// before a ready key is taken: after `NoMemory` the queues are unchanged.
pub fn hand_out<W: Words>(
    alloc: Global,
    words: &mut W,
    queues: &mut Queues,
    current: &CurrentVersion,
    count: u32,
) -> Result<EdekList, NoMemory>
    ensures given { IfOk result
        (HandsOut queues.old queues.new current.now (W.to_come words.old) (W.to_come words.new)
        count) }
    ensures wanting { OnErr result
        ((queues.new ≡ queues.old) ×
        DrewSome current.now (W.to_come words.old) (W.to_come words.new)
        (count - length (ready_in queues.old.queues current.now.birth))) }
{
    let birth = current.birth;
    let ready = copy_ready(alloc, queues, birth, count)?;
    let rest = count.saturating_sub(queues.length(birth) as u32);
    let keys = draw_edeks(words, current, rest, ready)?;
    make_queue(queues, birth)?;
    queues.remove(birth, count as usize);
    Ok(keys)
}
