//! The cell of the key management service as threads use it.
ghost use Rattle.kms_cell.specs.Entries.{Makes};
ghost use Rattle.kms_cell.specs.Fills.{FillsTurn};
ghost use Rattle.kms_cell.specs.declared.acts.KmsAct.TheVariants as act;
ghost use Rattle.kms_cell.specs.declared.acts.KmsActed.TheVariants as acted;

use hist_cell::Naming;
use hk_base::{Clock, Disk, Gate, Text, Words};
use kms_calls::{KmsCall, KmsReply};
use kms_cell::{FillTurn, KmsCell, KmsPass, call_keys, fill_turn};
use name_cell::KeysCell;
use std::sync::Wait;

/// The cell of the key management service, with the calls of users and the turns of fillers.
pub trait KeyService: KeysCell {
    /// Makes a call of a user. It may wait for the lock.
    fn call<R: Wait>(&self, rt: &R, pass: &mut Self::Pass, user: Text, call: KmsCall) -> KmsReply
        ensures { Makes Self.D.state Self.to_come (Self.seen pass.old) (act.Call user call)
            (acted.Call result) (Self.seen pass.new) };

    /// Fills a low queue of ready keys, if there is one. It may wait for the gate and the lock.
    fn fill<R: Wait, V: Words, G: Gate>(
        &self,
        rt: &R,
        pass: &mut Self::Pass,
        words: &mut V,
        gate: &G,
    ) -> FillTurn
        ensures { FillsTurn Self.D.state Self.to_come (V.to_come words.old) (V.to_come words.new)
            (Self.seen pass.old) result (Self.seen pass.new) };
}

impl<D: Disk + Drop, W: Words, C: Clock, M: Naming> KeyService for KmsCell<D, W, C, M> {
    fn call<R: Wait>(
        &self,
        rt: &R,
        pass: &mut KmsPass<D, W, C, M>,
        user: Text,
        call: KmsCall,
    ) -> KmsReply {
        call_keys(rt, self, pass, user, call)
    }

    fn fill<R: Wait, V: Words, G: Gate>(
        &self,
        rt: &R,
        pass: &mut KmsPass<D, W, C, M>,
        words: &mut V,
        gate: &G,
    ) -> FillTurn {
        fill_turn(rt, self, pass, words, gate)
    }
}
