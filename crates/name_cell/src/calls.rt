//! Calls of the namesystem in its cell.
ghost use Rattle.std.specs.Prelude.{◌≡◌, IfErr, IfOk, None, Result as AResult};
ghost use Rattle.hist_cell.specs.History.{Closes};
ghost use Rattle.name_calls.specs.declared.calls.AskNote.{AskNote as ANote};
ghost use Rattle.name_calls.specs.declared.calls.NameRefusal.{NameRefusal as ARefusal};
ghost use Rattle.name_calls.specs.declared.calls.NameReply.{NameReply as AReply};
ghost use Rattle.name_calls.specs.declared.status.Delivered.{Delivered as ADelivery};
ghost use Rattle.name_core.specs.declared.walks.Walked.{Walked as AWalk};
ghost use Rattle.name_history.specs.Asked.{HasNote, IsAnswered, NameAllows};
ghost use Rattle.name_history.specs.Entries.{Makes, MakesLending, MakesMeeting};
ghost use Rattle.name_history.specs.Served.{GotForBatch, GotForNote};
ghost use Rattle.name_history.specs.Steps.{NameSteps};
ghost use Rattle.name_history.specs.Views.{NameView, NamesRunOn};

use crate::keys::KeysCell;
use crate::side::NameSide;
use hist_cell::{Cell, Naming, Pass};
use hk_base::{NoMemory, Text};
use name_calls::{Answered, Ask, AskNote, Delivered, NPath, NameCall, NameRefusal, NameReply};
use name_core::{Name, Walked};
use name_history::{NameAct, NameActed};
use reenc_update::BatchReply;
use std::sync::Wait;

/// The cell of the namesystem.
pub type NameCell<K, N> = Cell<NameSide<K>, N>;

/// A pass of that cell.
pub type NamePass<K, N> = Pass<NameSide<K>, N>;

fn reply_in(acted: NameActed) -> NameReply
    requires { (reply : AReply) × (acted ≡ NameActed.Call reply) }
    ensures { acted ≡ NameActed.Call result }
{
    match acted {
        NameActed::Call(reply) => reply,
        _ => unreachable!(),
    }
}

fn note_in(acted: NameActed) -> Result<AskNote, NameRefusal>
    requires { (note : AResult ANote ARefusal) × (acted ≡ NameActed.Ask note) }
    ensures { acted ≡ NameActed.Ask result }
{
    match acted {
        NameActed::Ask(note) => note,
        _ => unreachable!(),
    }
}

fn finish_in(acted: NameActed) -> Result<(), NameRefusal>
    requires { (finished : AResult (Unit {0}) ARefusal) × (acted ≡ NameActed.Finish finished) }
    ensures { acted ≡ NameActed.Finish result }
{
    match acted {
        NameActed::Finish(finished) => finished,
        _ => unreachable!(),
    }
}

fn walk_in(acted: NameActed) -> Result<Walked, NameRefusal>
    requires { (walked : AResult AWalk ARefusal) × (acted ≡ NameActed.Walk walked) }
    ensures { acted ≡ NameActed.Walk result }
{
    match acted {
        NameActed::Walk(walked) => walked,
        _ => unreachable!(),
    }
}

fn delivery_in(acted: NameActed) -> Result<Delivered, NameRefusal>
    requires { (delivered : AResult ADelivery ARefusal) × (acted ≡ NameActed.Deliver delivered) }
    ensures { acted ≡ NameActed.Deliver result }
{
    match acted {
        NameActed::Deliver(delivered) => delivered,
        _ => unreachable!(),
    }
}

/// Makes a call of a user. It may wait for the lock.
pub fn call_names<K: KeysCell, N: Naming, R: Wait>(
    rt: &R,
    cell: &NameCell<K, N>,
    pass: &mut NamePass<K, N>,
    user: Text,
    call: NameCall,
) -> NameReply
    ensures { Makes K.D.state K.to_come pass.old (NameAct.Call user call) (NameActed.Call result)
        pass.new }
{
    let acted = cell.act(rt, pass, NameAct::Call { user, call });
    reply_in(acted)
}

/// Opens an ask of a user. It may wait for the lock.
pub fn ask_names<K: KeysCell, N: Naming, R: Wait>(
    rt: &R,
    cell: &NameCell<K, N>,
    pass: &mut NamePass<K, N>,
    user: Text,
    ask: Ask,
) -> Result<AskNote, NameRefusal>
    ensures { Makes K.D.state K.to_come pass.old (NameAct.Ask user ask) (NameActed.Ask result)
        pass.new }
{
    let acted = cell.act(rt, pass, NameAct::Ask { user, ask });
    note_in(acted)
}

/// Finishes an ask that wanted no call. The pass must have seen its note. It may wait for the lock.
pub fn finish_names<K: KeysCell, N: Naming, R: Wait>(
    rt: &R,
    cell: &NameCell<K, N>,
    pass: &mut NamePass<K, N>,
    answered: Answered,
) -> Result<(), NameRefusal>
    requires seen { (note : ANote) × HasNote note pass.old.seen × IsAnswered note answered }
    requires alone { answered.reply ≡ None }
    ensures { Makes K.D.state K.to_come pass.old (NameAct.Finish answered) (NameActed.Finish result)
        pass.new }
{
    let acted = cell.act(rt, pass, NameAct::Finish { answered });
    finish_in(acted)
}

/// Finishes an ask with the reply to the call that its note wants. The pass must have seen the note, and
/// `with` must have got the reply. `with` is met into the pass that the namesystem keeps. It may wait for
/// the locks of both cells.
pub fn finish_meeting<K: KeysCell, N: Naming, R: Wait>(
    rt: &R,
    cell: &NameCell<K, N>,
    pass: &mut NamePass<K, N>,
    other: &K,
    with: K::Pass,
    answered: Answered,
) -> Result<(), NameRefusal>
    requires seen { (note : ANote) × HasNote note pass.old.seen × IsAnswered note answered }
    requires got { (note : ANote) × HasNote note pass.old.seen ×
        GotForNote note answered (K.seen with) }
    ensures { MakesMeeting K.D.state K.to_come pass.old (K.seen with) (NameAct.Finish answered)
        (NameActed.Finish result) pass.new }
{
    let acted = cell.act_meeting(rt, pass, other, with, NameAct::Finish { answered });
    finish_in(acted)
}

/// Takes the next batch of a zone that is being re-encrypted, and splits a pass from the one that the
/// namesystem keeps. If there is no memory for the pass, nothing is walked. It may wait for the locks of
/// both cells.
pub fn walk_names<K: KeysCell, N: Naming, R: Wait>(
    rt: &R,
    cell: &NameCell<K, N>,
    pass: &mut NamePass<K, N>,
    other: &K,
    zone: NPath,
) -> Result<(Result<Walked, NameRefusal>, K::Pass), NoMemory>
    ensures lent { IfOk result
        (λ r.
        MakesLending K.D.state K.to_come pass.old (NameAct.Walk zone) (NameActed.Walk r.0)
        pass.new (K.seen r.1)) }
    ensures none { IfErr result (λ _. pass.new ≡ pass.old) }
{
    match cell.act_lending(rt, pass, other, NameAct::Walk { zone }) {
        Err(_) => Err(NoMemory),
        Ok((acted, lent)) => {
            let walked = walk_in(acted);
            Ok((walked, lent))
        }
    }
}

/// Delivers the reply to the call for a batch, with the front of the walk that gave the batch. `with` must
/// have got the reply, with at least as many entries before it. It is met into the pass that the
/// namesystem keeps. It may wait for the locks of both cells.
pub fn deliver_names<K: KeysCell, N: Naming, R: Wait>(
    rt: &R,
    cell: &NameCell<K, N>,
    pass: &mut NamePass<K, N>,
    other: &K,
    with: K::Pass,
    front: u64,
    reply: BatchReply,
) -> Result<Delivered, NameRefusal>
    requires got { GotForBatch front reply (K.seen with) }
    ensures { MakesMeeting K.D.state K.to_come pass.old (K.seen with) (NameAct.Deliver front reply)
        (NameActed.Deliver result) pass.new }
{
    let acted = cell.act_meeting(rt, pass, other, with, NameAct::Deliver { front, reply });
    delivery_in(acted)
}

/// Ends the cell and returns the namesystem, its disk and its pass of the keys, after the whole history.
/// Other passes may have been dropped.
pub fn close_names<K: KeysCell, N: Naming>(
    cell: NameCell<K, N>,
    pass: NamePass<K, N>,
) -> (Name, K::D, K::Pass)
    ensures closes { (last : NameView K.D K.W) ×
        Closes (NameSteps K.D.state K.to_come) NameAllows pass last × (result.0 ≡ last.names) ×
        (result.1 ≡ last.disk) × (K.seen result.2 ≡ last.keys) }
    ensures runs { NamesRunOn (K.D.state result.1) result.0 }
{
    let side = cell.close(pass);
    side.into_parts()
}
