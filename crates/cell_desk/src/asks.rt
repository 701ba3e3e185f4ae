//! Asks of the namesystem, with the calls of the key management service that they want.
ghost use Rattle.std.specs.Prelude.{◌≡◌, [], IfOk};
ghost use Rattle.hist_cell.specs.History.{Splits};
ghost use Rattle.kms_cell.specs.Entries.{KmsKnown};
ghost use Rattle.hk_serve.specs.Transactions.{OfNames};
ghost use Rattle.name_core.specs.Calls.{superuser};
ghost use Rattle.name_history.specs.Asked.{AnswersWant, HasNote};
ghost use Rattle.name_history.specs.Served.{IfWanted, act_wanted};
ghost use Rattle.cell_desk.specs.Connections.{MakesOrder};
ghost use Rattle.cell_desk.specs.Finishes.{FinishesAsk};
ghost use Rattle.cell_desk.specs.Orders.{CallsOnce, finish_reply};

use hk_base::{NoMemory, Text};
use kms_calls::{KmsCall, KmsReply};
use name_calls::{Answered, Ask, AskNote, NPath, NameRefusal, NameReply, Want};
use name_core::superuser;
use name_rest::NameOrder;
use std::alloc::Global;
use std::sync::Wait;
use turns::Turns;

/// Returns the zone of a submission, or `None` of another ask.
fn zone_of(alloc: Global, ask: &Ask) -> Result<Option<NPath>, NoMemory> {
    match ask {
        Ask::Submit { path } => Ok(Some(path.copy(alloc)?)),
        _ => Ok(None),
    }
}

/// Makes what is needed beside an ask: the user who makes the call that it wants, and the zone of a
/// submission.
pub(crate) fn prepare(alloc: Global, ask: &Ask) -> Result<(Text, Option<NPath>), NoMemory>
    ensures { IfOk result (λ made. made.0 ≡ superuser) }
{
    let caller = superuser(alloc)?;
    let zone = zone_of(alloc, ask)?;
    Ok((caller, zone))
}

/// Makes the call that a note wants, if it wants one, by a new pass.
fn call_wanted<S: Turns, R: Wait>(
    rt: &R,
    shared: &S,
    pass: &mut S::Keys,
    caller: Text,
    want: Want,
) -> Option<KmsReply>
    requires caller { caller ≡ superuser }
    requires new { (kept : KmsKnown S.D S.W) × Splits kept (S.keys_seen pass.old) }
    ensures got { IfWanted
        (λ q r. CallsOnce q r (S.keys_seen pass.new).number (S.keys_seen pass.new).seen)
        (act_wanted want) result }
    ensures none_met { (S.keys_seen pass.new).ended ≡ [] }
    ensures answers { AnswersWant want result }
{
    match want {
        Want::Nothing => None,
        Want::Generate(name) => {
            let call = KmsCall::Generate { name, count: 1 };
            Some(shared.call_keys(rt, pass, caller, call))
        }
        Want::Metadata(name) => {
            let call = KmsCall::Metadata { name };
            Some(shared.call_keys(rt, pass, caller, call))
        }
    }
}

/// Makes the call that the note of an ask wants, if it wants one, and finishes the ask with the reply. The
/// pass of the keys makes no other call, and is met into the one that the namesystem keeps.
fn finish_asked<S: Turns, R: Wait>(
    rt: &R,
    shared: &S,
    mut keys: S::Keys,
    names: &mut S::Names,
    caller: Text,
    note: AskNote,
) -> Result<(), NameRefusal>
    requires caller { caller ≡ superuser }
    requires new { (kept : KmsKnown S.D S.W) × Splits kept (S.keys_seen keys) }
    requires noted { HasNote note (S.names_seen names.old).seen }
    ensures { FinishesAsk S.state S.to_come (S.names_seen names.old) note result
        (S.names_seen names.new) }
{
    let id = note.id;
    match call_wanted(rt, shared, &mut keys, caller, note.want) {
        None => {
            drop(keys);
            shared.finish_names(rt, names, Answered { id, reply: None })
        }
        Some(reply) => {
            let answered = Answered {
                id,
                reply: Some(reply),
            };
            shared.finish_meeting(rt, names, keys, answered)
        }
    }
}

fn finish_reply(finished: Result<(), NameRefusal>) -> NameReply
    ensures { result ≡ finish_reply finished }
{
    match finished {
        Ok(()) => NameReply::Done,
        Err(why) => NameReply::Refused(why),
    }
}

/// Carries out an ask of a user: makes it, makes the call that its note wants, and finishes it. The call is
/// made by a pass that is split from the one of the keys before the ask, and makes no other.
pub(crate) fn carry_out<S: Turns, R: Wait>(
    rt: &R,
    shared: &S,
    keys: &mut S::Keys,
    names: &mut S::Names,
    caller: Text,
    user: Text,
    ask: Ask,
) -> NameReply
    requires { caller ≡ superuser }
    ensures { MakesOrder S.state S.to_come
        (record { keys = S.keys_seen keys.old; names = S.names_seen names.old }) user
        (OfNames (NameOrder.Ask ask) result)
        (record { keys = S.keys_seen keys.new; names = S.names_seen names.new }) }
{
    // The history that the pass has seen is legal.
    let _ = shared.count_keys(keys);
    let split = shared.split_keys(rt, keys);
    match shared.ask_names(rt, names, user, ask) {
        Ok(note) => finish_reply(finish_asked(rt, shared, split, names, caller, note)),
        Err(why) => {
            drop(split);
            NameReply::Refused(why)
        }
    }
}
