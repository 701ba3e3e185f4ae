//! Asks of the namesystem, each with the call of the key management service that it wants.
ghost use Rattle.std.specs.Prelude.{◌≡◌, Some};
ghost use Rattle.kms_calls.specs.declared.calls.KmsCall.TheVariants as key_call;
ghost use Rattle.kms_cell.specs.declared.acts.KmsAct.TheVariants as key_act;
ghost use Rattle.name_calls.specs.declared.calls.Want.TheVariants as want;
ghost use Rattle.name_core.specs.Calls.{superuser};
ghost use Rattle.name_history.specs.Asked.{AnswersWant, HasNote};
ghost use Rattle.name_history.specs.Served.{Got, IfWanted, act_wanted};

use crate::callers::{Caller, text};
use hk_base::{Edek, KeyName};
use kms_calls::{KmsCall, KmsReply};
use name_calls::{Answered, Ask, AskNote, Want};
use name_core::superuser;
use std::process::Abort;
use std::sync::Wait;
use turns::Turns;

fn key_of(edek: &Edek) -> KeyName
    ensures { result ≡ edek.now.version.key }
{
    edek.version.key
}

/// Checks that the reply has one encrypted key, of the key with this name.
fn check_generated(rt: &impl Abort, reply: &KmsReply, name: KeyName)
    ensures { AnswersWant (want.Generate name) (Some reply.now) }
{
    match reply {
        KmsReply::Ready(edeks) => {
            let edeks = edeks.as_slice();
            assert_eq!(rt; edeks.len(), 1);
            let key = key_of(&edeks[0]);
            assert!(rt; key == name);
        }
        _ => panic!(rt; "no encrypted key"),
    }
}

/// Checks that the reply has the metadata of the key with this name.
fn check_metadata(rt: &impl Abort, reply: &KmsReply, name: KeyName)
    ensures { AnswersWant (want.Metadata name) (Some reply.now) }
{
    match reply {
        KmsReply::Metadata(known) => assert!(rt; known.name == name),
        _ => panic!(rt; "no metadata"),
    }
}

/// Calls the key management service as the superuser.
fn call<S: Turns, R: Wait + Abort + AllocGlobal>(
    rt: &R,
    shared: &S,
    keys: &mut S::Keys,
    call: KmsCall,
) -> KmsReply
    ensures { Got 0 (key_act.Call superuser call) result (S.keys_seen keys.new).number
        (S.keys_seen keys.new).seen }
{
    let user = superuser(rt.alloc()).expect(rt, "memory");
    shared.call_keys(rt, keys, user, call)
}

/// Makes the call that a note wants. It must want one.
fn call_wanted<S: Turns, R: Wait + Abort + AllocGlobal>(
    rt: &R,
    shared: &S,
    keys: &mut S::Keys,
    wanted: Want,
) -> KmsReply
    ensures got { IfWanted
        (λ q r. Got 0 q r (S.keys_seen keys.new).number (S.keys_seen keys.new).seen)
        (act_wanted wanted) (Some result) }
    ensures answers { AnswersWant wanted (Some result) }
{
    match wanted {
        Want::Generate(name) => {
            let reply = call(rt, shared, keys, KmsCall::Generate { name, count: 1 });
            check_generated(rt, &reply, name);
            reply
        }
        Want::Metadata(name) => {
            let reply = call(rt, shared, keys, KmsCall::Metadata { name });
            check_metadata(rt, &reply, name);
            reply
        }
        Want::Nothing => panic!(rt; "no call is wanted"),
    }
}

/// Makes the call that a note wants by a pass of its own, and finishes the ask with the reply.
fn finish<S: Turns, R: Wait + Abort + AllocGlobal>(
    rt: &R,
    shared: &S,
    mut keys: S::Keys,
    names: &mut S::Names,
    note: AskNote,
)
    requires { HasNote note (S.names_seen names.old).seen }
{
    let reply = call_wanted(rt, shared, &mut keys, note.want);
    let answered = Answered {
        id: note.id,
        reply: Some(reply),
    };
    let finished = shared.finish_meeting(rt, names, keys, answered);
    assert_eq!(rt; finished, Ok(()));
}

impl<S: Turns, R: Wait + Abort + AllocGlobal> Caller<'_, S, R> {
    /// Carries out an ask of a user. It must want a call, and must be done.
    pub fn carry_out(&mut self, user: &str, ask: Ask) {
        let user = text(self.rt, user);
        let split = self.shared.split_keys(self.rt, &mut self.keys);
        let asked = self.shared.ask_names(self.rt, &mut self.names, user, ask);
        let note = asked.expect(self.rt, "a note");
        finish(self.rt, self.shared, split, &mut self.names, note);
    }
}
