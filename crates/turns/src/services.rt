//! Both services.
ghost use Rattle.std.specs.Prelude.{◌≡◌, ℕ, length, IfErr, IfOk, None};
ghost use Rattle.hk_base.specs.Disk.{DiskState};
ghost use Rattle.hist_cell.specs.History.{LegalOf, Meets, Splits};
ghost use Rattle.kms_cell.specs.Entries.{KmsKnown, Makes as KeysMakeOne};
ghost use Rattle.kms_cell.specs.Fills.{FillsTurn};
ghost use Rattle.kms_cell.specs.Steps.{KmsSteps};
ghost use Rattle.kms_cell.specs.Tickets.{KmsAllows};
ghost use Rattle.kms_cell.specs.declared.acts.KmsAct.TheVariants as key_act;
ghost use Rattle.kms_cell.specs.declared.acts.KmsActed.TheVariants as key_acted;
ghost use Rattle.name_calls.specs.declared.calls.AskNote.{AskNote as ANote};
ghost use Rattle.name_history.specs.Asked.{HasNote, IsAnswered, NameAllows};
ghost use Rattle.name_history.specs.Entries.{Makes, MakesMeeting, NameKnown};
ghost use Rattle.name_history.specs.Served.{GotForBatch, GotForNote};
ghost use Rattle.name_history.specs.Steps.{NameSteps};
ghost use Rattle.name_history.specs.declared.acts.NameAct.TheVariants as act;
ghost use Rattle.name_history.specs.declared.acts.NameActed.TheVariants as acted;
ghost use Rattle.turns.specs.Turns.{AnswersBatch, LendsTurn, ServesTurn, unserved};

use crate::lent::Lent;
use hk_base::{Gate, NoMemory, Text, Words};
use kms_calls::{KmsCall, KmsReply};
use kms_cell::FillTurn;
use name_calls::{Answered, Ask, AskNote, Delivered, NPath, NameCall, NameRefusal, NameReply};
use reenc_update::BatchReply;
use reenc_walk::BatchNote;
use std::alloc::Global;
use std::sync::Wait;

/// Both services, which threads share. Each has one legal history of its own. A thread makes calls by a pass of each,
/// which has seen a prefix of that history. Every method may wait.
pub trait Turns {
    /// The disks of both services.
    type D;

    /// The random words of the key management service.
    type W;

    /// A pass of the key management service.
    type Keys: Drop;

    /// A pass of the namesystem.
    type Names: Drop;

    /// What a disk is.
    ghost state: { Self.D → DiskState };

    /// The random words to come.
    ghost to_come: { Self.W → ℕ → ℕ };

    /// What a pass has seen of the key management service.
    ghost keys_seen: { Self.Keys → KmsKnown Self.D Self.W };

    /// What a pass has seen of the namesystem.
    ghost names_seen: { Self.Names → NameKnown Self.D Self.W };

    /// Makes a call of a user to the key management service.
    fn call_keys<R: Wait>(
        &self,
        rt: &R,
        pass: &mut Self::Keys,
        user: Text,
        call: KmsCall,
    ) -> KmsReply
        ensures { KeysMakeOne state to_come (keys_seen pass.old) (key_act.Call user call)
            (key_acted.Call result) (keys_seen pass.new) };

    /// Makes a call of a user to the namesystem.
    fn call_names<R: Wait>(
        &self,
        rt: &R,
        pass: &mut Self::Names,
        user: Text,
        call: NameCall,
    ) -> NameReply
        ensures { Makes state to_come (names_seen pass.old) (act.Call user call) (acted.Call result)
            (names_seen pass.new) };

    /// Opens an ask of a user.
    fn ask_names<R: Wait>(
        &self,
        rt: &R,
        pass: &mut Self::Names,
        user: Text,
        ask: Ask,
    ) -> Result<AskNote, NameRefusal>
        ensures { Makes state to_come (names_seen pass.old) (act.Ask user ask) (acted.Ask result)
            (names_seen pass.new) };

    /// Finishes an ask that wanted no call. The pass must have seen its note.
    fn finish_names<R: Wait>(
        &self,
        rt: &R,
        pass: &mut Self::Names,
        answered: Answered,
    ) -> Result<(), NameRefusal>
        requires seen { (note : ANote) × HasNote note (names_seen pass.old).seen ×
            IsAnswered note answered }
        requires alone { answered.reply ≡ None }
        ensures { Makes state to_come (names_seen pass.old) (act.Finish answered)
            (acted.Finish result) (names_seen pass.new) };

    /// Finishes an ask with the reply to the call that its note wants. The pass must have seen the note, and `keys` must
    /// have got the reply. `keys` is met into the pass that the namesystem keeps.
    fn finish_meeting<R: Wait>(
        &self,
        rt: &R,
        pass: &mut Self::Names,
        keys: Self::Keys,
        answered: Answered,
    ) -> Result<(), NameRefusal>
        requires seen { (note : ANote) × HasNote note (names_seen pass.old).seen ×
            IsAnswered note answered }
        requires got { (note : ANote) × HasNote note (names_seen pass.old).seen ×
            GotForNote note answered (keys_seen keys) }
        ensures { MakesMeeting state to_come (names_seen pass.old) (keys_seen keys)
            (act.Finish answered) (acted.Finish result) (names_seen pass.new) };

    /// Fills a low queue of ready keys, if there is one: takes a ticket, passes the gate, and then deposits keys that
    /// are drawn from `words` and sealed with the ticket.
    fn fill_turn<R: Wait, V: Words, G: Gate>(
        &self,
        rt: &R,
        pass: &mut Self::Keys,
        words: &mut V,
        gate: &G,
    ) -> FillTurn
        ensures { FillsTurn state to_come (V.to_come words.old) (V.to_come words.new)
            (keys_seen pass.old) result (keys_seen pass.new) };

    /// Takes the next batch of a zone that is being re-encrypted, and lends a pass with which it is served. If there is
    /// no memory for the pass, nothing is walked.
    fn walk_turn<R: Wait>(
        &self,
        rt: &R,
        pass: &mut Self::Names,
        zone: NPath,
    ) -> Result<Lent<Self::Keys>, NoMemory>
        ensures lent { IfOk result
            (λ lent.
            LendsTurn state to_come (names_seen pass.old) zone lent.walked lent.front
            (names_seen pass.new) (keys_seen lent.keys)) }
        ensures none { IfErr result (λ _. names_seen pass.new ≡ names_seen pass.old) };

    /// Passes the gate, and has a batch re-encrypted: calls the key management service as `hdfs`. If there is no memory
    /// for the call, nothing is called, and the batch is refused.
    fn serve_turn<R: Wait, G: Gate>(
        &self,
        rt: &R,
        alloc: Global,
        pass: &mut Self::Keys,
        note: BatchNote,
        gate: &G,
    ) -> BatchReply
        ensures { ServesTurn state to_come (keys_seen pass.old) note result (keys_seen pass.new) };

    /// Passes the gate, and has a batch re-encrypted, as `serve_turn` does. If the key management service refuses the
    /// call for the disk or for memory, or there is no memory for the call, the same call may be answered later: the
    /// batch is returned.
    fn try_serve_turn<R: Wait, G: Gate>(
        &self,
        rt: &R,
        alloc: Global,
        pass: &mut Self::Keys,
        note: BatchNote,
        gate: &G,
    ) -> Result<BatchReply, BatchNote>
        ensures served { IfOk result
            (λ came.
            AnswersBatch state to_come (keys_seen pass.old) note came (keys_seen pass.new)) }
        ensures unserved { IfErr result
            (λ left.
            (left ≡ note) ×
            ServesTurn state to_come (keys_seen pass.old) note (unserved note)
            (keys_seen pass.new)) };

    /// Passes the gate, and delivers the reply to the call for a batch, with the front of its walk. `keys` must have got
    /// the reply, with at least as many entries before it. It is met into the pass that the namesystem keeps.
    fn update_turn<R: Wait, G: Gate>(
        &self,
        rt: &R,
        names: &mut Self::Names,
        keys: Self::Keys,
        front: u64,
        reply: BatchReply,
        gate: &G,
    ) -> Result<Delivered, NameRefusal>
        requires got { GotForBatch front reply (keys_seen keys) }
        ensures { MakesMeeting state to_come (names_seen names.old) (keys_seen keys)
            (act.Deliver front reply) (acted.Deliver result) (names_seen names.new) };

    /// Returns the number of entries that a pass of the key management service has seen. They are a legal history.
    fn count_keys(&self, pass: &Self::Keys) -> u64
        ensures count { result ≡ length (keys_seen pass.now).seen }
        ensures legal { LegalOf (KmsSteps state to_come) KmsAllows (keys_seen pass.now).start
            (keys_seen pass.now).seen };

    /// Returns the number of entries that a pass of the namesystem has seen. They are a legal history.
    fn count_names(&self, pass: &Self::Names) -> u64
        ensures count { result ≡ length (names_seen pass.now).seen }
        ensures legal { LegalOf (NameSteps state to_come) NameAllows (names_seen pass.now).start
            (names_seen pass.now).seen };

    /// Creates a pass of the key management service with a new number, which has seen what the old one has.
    fn split_keys<R: Wait>(&self, rt: &R, pass: &mut Self::Keys) -> Self::Keys
        ensures same { keys_seen pass.new ≡ keys_seen pass.old }
        ensures new { Splits (keys_seen pass.old) (keys_seen result) };

    /// Creates a pass of the namesystem with a new number, which has seen what the old one has.
    fn split_names<R: Wait>(&self, rt: &R, pass: &mut Self::Names) -> Self::Names
        ensures same { names_seen pass.new ≡ names_seen pass.old }
        ensures new { Splits (names_seen pass.old) (names_seen result) };

    /// Joins a pass of the key management service to another, which has then seen what both had.
    fn meet_keys<R: Wait>(&self, rt: &R, into: &mut Self::Keys, from: Self::Keys)
        ensures { Meets (keys_seen into.old) (keys_seen from) (keys_seen into.new) };

    /// Joins a pass of the namesystem to another, which has then seen what both had.
    fn meet_names<R: Wait>(&self, rt: &R, into: &mut Self::Names, from: Self::Names)
        ensures { Meets (names_seen into.old) (names_seen from) (names_seen into.new) };
}
