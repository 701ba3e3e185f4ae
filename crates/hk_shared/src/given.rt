//! Both cells as threads share them.
use crate::batches::{serve_batch, try_serve_batch};
use crate::changes::{changes_keys, changes_names, lock_if};
use crate::keys::KeyService;
use crate::shared::Shared;
use hist_cell::Naming;
use hk_base::{Gate, NoMemory, Point, Text, Words};
use kms_calls::{KmsCall, KmsReply};
use kms_cell::FillTurn;
use name_calls::{Answered, Ask, AskNote, Delivered, NPath, NameCall, NameRefusal, NameReply};
use name_cell::{
    NamePass, ask_names, call_names, deliver_names, finish_meeting, finish_names, walk_names,
};
use reenc_update::BatchReply;
use reenc_walk::BatchNote;
use std::alloc::Global;
use std::sync::Wait;
use turns::{Lent, Turns};

impl<K: KeyService, N: Naming> Turns for Shared<K, N> {
    type D = K::D;

    type W = K::W;

    type Keys = K::Pass;

    type Names = NamePass<K, N>;

    ghost state = { K.D.state };

    ghost to_come = { K.to_come };

    ghost keys_seen = { K.seen };

    ghost names_seen = { λ v. v };

    fn call_keys<R: Wait>(
        &self,
        rt: &R,
        pass: &mut K::Pass,
        user: Text,
        call: KmsCall,
    ) -> KmsReply {
        let _alone = lock_if(rt, &self.key_changes, changes_keys(&call));
        self.keys.call(rt, pass, user, call)
    }

    fn call_names<R: Wait>(
        &self,
        rt: &R,
        pass: &mut NamePass<K, N>,
        user: Text,
        call: NameCall,
    ) -> NameReply {
        let _alone = lock_if(rt, &self.name_changes, changes_names(&call));
        call_names(rt, &self.names, pass, user, call)
    }

    fn ask_names<R: Wait>(
        &self,
        rt: &R,
        pass: &mut NamePass<K, N>,
        user: Text,
        ask: Ask,
    ) -> Result<AskNote, NameRefusal> {
        ask_names(rt, &self.names, pass, user, ask)
    }

    fn finish_names<R: Wait>(
        &self,
        rt: &R,
        pass: &mut NamePass<K, N>,
        answered: Answered,
    ) -> Result<(), NameRefusal> {
        let _alone = lock_if(rt, &self.name_changes, true);
        finish_names(rt, &self.names, pass, answered)
    }

    fn finish_meeting<R: Wait>(
        &self,
        rt: &R,
        pass: &mut NamePass<K, N>,
        keys: K::Pass,
        answered: Answered,
    ) -> Result<(), NameRefusal> {
        let _alone = lock_if(rt, &self.name_changes, true);
        finish_meeting(rt, &self.names, pass, &self.keys, keys, answered)
    }

    fn fill_turn<R: Wait, V: Words, G: Gate>(
        &self,
        rt: &R,
        pass: &mut K::Pass,
        words: &mut V,
        gate: &G,
    ) -> FillTurn {
        self.keys.fill(rt, pass, words, gate)
    }

    fn walk_turn<R: Wait>(
        &self,
        rt: &R,
        pass: &mut NamePass<K, N>,
        zone: NPath,
    ) -> Result<Lent<K::Pass>, NoMemory> {
        let (walked, keys) = walk_names(rt, &self.names, pass, &self.keys, zone)?;
        let front = K::count(&keys);
        Ok(Lent {
            walked,
            front,
            keys,
        })
    }

    fn serve_turn<R: Wait, G: Gate>(
        &self,
        rt: &R,
        alloc: Global,
        pass: &mut K::Pass,
        note: BatchNote,
        gate: &G,
    ) -> BatchReply {
        gate.pass(rt, Point::BeforeServe);
        serve_batch(rt, alloc, &self.keys, pass, note)
    }

    fn try_serve_turn<R: Wait, G: Gate>(
        &self,
        rt: &R,
        alloc: Global,
        pass: &mut K::Pass,
        note: BatchNote,
        gate: &G,
    ) -> Result<BatchReply, BatchNote> {
        gate.pass(rt, Point::BeforeServe);
        try_serve_batch(rt, alloc, &self.keys, pass, note)
    }

    fn update_turn<R: Wait, G: Gate>(
        &self,
        rt: &R,
        names: &mut NamePass<K, N>,
        keys: K::Pass,
        front: u64,
        reply: BatchReply,
        gate: &G,
    ) -> Result<Delivered, NameRefusal> {
        gate.pass(rt, Point::BeforeDeliver);
        let _alone = lock_if(rt, &self.name_changes, true);
        deliver_names(rt, &self.names, names, &self.keys, keys, front, reply)
    }

    fn count_keys(&self, pass: &K::Pass) -> u64 {
        K::count(pass)
    }

    fn count_names(&self, pass: &NamePass<K, N>) -> u64 {
        pass.count()
    }

    fn split_keys<R: Wait>(&self, rt: &R, pass: &mut K::Pass) -> K::Pass {
        self.keys.split(rt, pass)
    }

    fn split_names<R: Wait>(&self, rt: &R, pass: &mut NamePass<K, N>) -> NamePass<K, N> {
        self.names.split(rt, pass)
    }

    fn meet_keys<R: Wait>(&self, rt: &R, into: &mut K::Pass, from: K::Pass) {
        self.keys.meet(rt, into, from)
    }

    fn meet_names<R: Wait>(&self, rt: &R, into: &mut NamePass<K, N>, from: NamePass<K, N>) {
        self.names.meet(rt, into, from)
    }
}
