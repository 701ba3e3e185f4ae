//! A service that registers the numbers which an issuer in another cell issued.
ghost use Rattle.std.specs.Prelude.{◌≡◌};

use crate::issuer::Issuer;
use hist_cell::{Cell, Core, Holds, Naming, Pass};
use std::alloc::AllocError;
use std::marker::Model;
use std::sync::Wait;

/// A pass of the issuer, and how many numbers are registered.
#[derive(Drop)]
pub struct Registry<M: Naming> {
    issued: Pass<Issuer, M>,
    count: u64,
}

/// A call of the service.
#[derive(Drop)]
pub enum RegistryCall {
    /// Asks how many numbers are registered.
    Count,
    /// Registers a number. The pass that is handed over must have seen that the number was issued. The
    /// reply counts the entries of the issuer that the kept pass has then seen.
    Register(u64),
}

impl<M: Naming> Model for Registry<M> {
    ghost use Rattle.cell_tests.specs.Registering.{RegistryView};

    ghost Value = { RegistryView };

    ghost view = { λ r. record { issued = r.issued; count = r.count } };
}

impl<M: Naming> Registry<M> {
    /// Creates a registry without numbers, which keeps this pass.
    pub fn new(issued: Pass<Issuer, M>) -> Registry<M>
        ensures { result ≡ record { issued = issued; count = 0 } }
    {
        Registry { issued, count: 0 }
    }

    /// Returns the pass and how many numbers are registered.
    pub fn into_parts(self) -> (Pass<Issuer, M>, u64)
        ensures { (result.0 ≡ self.issued) × (result.1 ≡ self.count) }
    {
        let Registry { issued, count } = self;
        (issued, count)
    }
}

impl<M: Naming> Core for Registry<M> {
    ghost use Rattle.std.specs.Prelude.{⊤};
    ghost use Rattle.cell_tests.specs.Registering.{IsCallAlone, Registers, RegistersKept, alone_registers};

    type Call = RegistryCall;

    type Reply = u64;

    ghost step = { Registers };

    ghost acts = { RegistersKept };

    ghost allows = { λ _ _. ⊤ };

    ghost can = { λ _ _. ⊤ };

    ghost alone = { IsCallAlone };

    ghost sound = { λ _. ⊤ };

    fn act(&mut self, call: RegistryCall) -> u64 {
        match call {
            RegistryCall::Count => self.count,
            RegistryCall::Register(_) => {
                self.count = self.count.wrapping_add(1);
                self.issued.count()
            }
        }
    }

    ghost grows = { λ es fs q p a. tt };

    ghost fits = { λ s es q sound legal a. tt };

    ghost plain = { λ s t q r can alone acted. alone_registers s t q r alone acted };
}

impl<M: Naming> Holds for Registry<M> {
    ghost use Rattle.std.specs.Prelude.{IfOk};
    ghost use Rattle.hist_cell.specs.History.{Splits};
    ghost use Rattle.cell_tests.specs.Registering.{MeetsPass, NeedsPass, meeting_registers};

    type OtherCell = Cell<Issuer, M>;

    type OtherPass = Pass<Issuer, M>;

    ghost needs = { λ es q w. NeedsPass q w };

    ghost suits = { λ s q w. NeedsPass q w };

    ghost takes = { MeetsPass };

    ghost lends = { λ s w. Splits s.issued w };

    fn take_in<R: Wait>(&mut self, rt: &R, other: &Cell<Issuer, M>, with: Pass<Issuer, M>) {
        other.meet(rt, &mut self.issued, with);
    }

    fn lend<R: Wait>(
        &mut self,
        rt: &R,
        other: &Cell<Issuer, M>,
    ) -> Result<Pass<Issuer, M>, AllocError> {
        Ok(other.split(rt, &mut self.issued))
    }

    ghost needs_grow = { λ es fs q w p need. need };

    ghost needs_fit = { λ s es q w sound legal need. need };

    ghost still_can = { λ s m w q took can. tt };

    ghost meeting = { λ s m t w q r need took acted.
        meeting_registers s m t w q r need took acted };
}
