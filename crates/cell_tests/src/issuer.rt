//! A service that issues numbers, and takes back only those that it issued.
use hist_cell::Core;

/// The next number.
#[derive(Drop)]
pub struct Issuer {
    pub next: u64,
}

/// A call of the service.
#[derive(Drop)]
pub enum IssuerCall {
    /// Asks for a number.
    Issue,
    /// Gives back a number that was issued, and asks how many were issued after it.
    Redeem(u64),
}

impl Core for Issuer {
    ghost use Rattle.std.specs.Prelude.{⊤};
    ghost use Rattle.cell_tests.specs.Issuing.{IssuerSteps, Allows, Can, Allows-grows, Allows-fits};

    type Call = IssuerCall;

    type Reply = Option<u64>;

    ghost step = { IssuerSteps };

    ghost acts = { IssuerSteps };

    ghost allows = { Allows };

    ghost can = { Can };

    ghost alone = { λ _. ⊤ };

    ghost sound = { λ _. ⊤ };

    fn act(&mut self, call: IssuerCall) -> Option<u64> {
        match call {
            IssuerCall::Issue => {
                if self.next == u64::MAX {
                    return None;
                }
                let number = self.next;
                self.next += 1;
                Some(number)
            }
            IssuerCall::Redeem(number) => Some(self.next - 1 - number),
        }
    }

    ghost grows = { Allows-grows };

    ghost fits = { Allows-fits };

    ghost plain = { λ s t q r can alone acted. acted };
}
