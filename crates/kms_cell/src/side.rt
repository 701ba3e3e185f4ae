//! The key management service as the state machine of a cell.
ghost use Rattle.std.specs.Prelude.{◌≡◌};
ghost use Rattle.kms_core.specs.State.{IsService, service_of};
ghost use Rattle.kms_core.specs.Users.{running};
ghost use Rattle.kms_cell.specs.Steps.{CallSteps, DepositSteps, KmsDoes};
ghost use Rattle.kms_cell.specs.Views.{RunsOn};

use crate::acts::{KmsAct, KmsActed};
use eek_seal::Sealed;
use hist_cell::Core;
use hk_base::{Clock, Disk, Text, Words};
use kms_calls::{KmsCall, KmsReply};
use kms_core::{Deposit, Kms};
use std::marker::Model;

/// The key management service with the disk that it was started on, the random words that it draws
/// from, and the clock that gives the moment of each call. Contracts see it without the clock. If the
/// disk tells its files, it holds the log of the service, with or without the pending command.
#[derive(Drop)]
pub struct KmsSide<D: Disk, W: Words, C: Clock> {
    kms: Kms,
    disk: D,
    words: W,
    clock: C,
}

impl<D: Disk, W: Words, C: Clock> Model for KmsSide<D, W, C> {
    ghost use Rattle.kms_cell.specs.Views.{KmsView, RunsOn};

    ghost Value = { KmsView D W };

    ghost view = { λ s. record { kms = s.kms; disk = s.disk; words = s.words } };

    ghost invariant = { λ s. RunsOn (D.state s.disk) s.kms };
}

impl<D: Disk, W: Words, C: Clock> KmsSide<D, W, C> {
    /// The disk must be the one that the service was started on.
    pub fn new(kms: Kms, disk: D, words: W, clock: C) -> KmsSide<D, W, C>
        requires runs { RunsOn (D.state disk) kms }
        ensures { result ≡ record { kms = kms; disk = disk; words = words } }
    {
        KmsSide {
            kms,
            disk,
            words,
            clock,
        }
    }

    /// Returns the service and its disk.
    pub fn into_parts(self) -> (Kms, D)
    where
        W: Drop,
        C: Drop,
        ensures kms { result.0 ≡ self.kms }
        ensures disk { result.1 ≡ self.disk }
        ensures runs { RunsOn (D.state result.1) result.0 }
    {
        let KmsSide {
            kms,
            disk,
            words: _,
            clock: _,
        } = self;
        (kms, disk)
    }

    /// Answers a call of a user at the moment that the clock gives.
    fn call(&mut self, user: Text, call: KmsCall) -> KmsReply
        ensures { CallSteps D.state W.to_come self.old user call result self.new }
    {
        let now = self.clock.now_ms();
        self.kms
            .act(&mut self.disk, &mut self.words, now, &user, call)
    }

    /// Puts a ready key into the queue of its key.
    fn deposit(&mut self, sealed: Sealed) -> Deposit
        ensures { DepositSteps self.old sealed result self.new }
    {
        self.kms.deposit(sealed)
    }

    /// Answers a call.
    fn answer(&mut self, call: KmsAct) -> KmsActed
        ensures { KmsDoes D.state W.to_come self.old call result self.new }
    {
        match call {
            KmsAct::Call { user, call } => {
                let reply = self.call(user, call);
                KmsActed::Call(reply)
            }
            KmsAct::Ticket => {
                let ticket = self.kms.ticket();
                KmsActed::Ticket(ticket)
            }
            KmsAct::Deposit { sealed } => {
                let answer = self.deposit(sealed);
                KmsActed::Deposit(answer)
            }
        }
    }

    /// Says that the service keeps its rules.
    fn keep_rules(&self)
        ensures { IsService (service_of (running self.now.kms)) }
    {
        let _ = self.kms.count();
    }
}

impl<D: Disk, W: Words, C: Clock> Core for KmsSide<D, W, C> {
    ghost use Rattle.std.specs.Prelude.{⊤};
    ghost use Rattle.kms_cell.specs.Steps.{KmsSteps};
    ghost use Rattle.kms_cell.specs.Tickets.{KmsAllows, KmsAllows-grows};

    type Call = KmsAct;

    type Reply = KmsActed;

    ghost step = { KmsSteps D.state W.to_come };

    ghost acts = { KmsSteps D.state W.to_come };

    ghost allows = { KmsAllows };

    ghost can = { λ _ _. ⊤ };

    ghost alone = { λ _. ⊤ };

    ghost sound = { λ _. ⊤ };

    fn act(&mut self, call: KmsAct) -> KmsActed {
        self.keep_rules();
        let reply = self.answer(call);
        self.keep_rules();
        reply
    }

    ghost grows = { KmsAllows-grows };

    ghost fits = { λ s es q sound legal a. tt };

    ghost plain = { λ s t q r can alone acted. acted };
}
