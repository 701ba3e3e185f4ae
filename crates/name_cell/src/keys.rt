//! The cell of the keys.
ghost use Rattle.std.specs.Prelude.{◌≡◌, ℕ, length};
ghost use Rattle.hist_cell.specs.History.{LegalOf, Meets, Splits};
ghost use Rattle.kms_cell.specs.Entries.{KmsKnown};
ghost use Rattle.kms_cell.specs.Steps.{KmsSteps};
ghost use Rattle.kms_cell.specs.Tickets.{KmsAllows};

use hist_cell::Naming;
use hk_base::{Clock, Disk, Words};
use kms_cell::{KmsCell, KmsPass};
use std::sync::Wait;

/// The cell of the key management service, as the namesystem uses it.
pub trait KeysCell {
    /// The disks of both services.
    type D: Disk + Drop;

    /// The random words of the key management service.
    type W;

    /// A pass of the cell.
    type Pass: Drop;

    /// The random words to come.
    ghost to_come: { Self.W → ℕ → ℕ };

    /// What a pass has seen.
    ghost seen: { Self.Pass → KmsKnown Self.D Self.W };

    /// Returns the number of entries that a pass has seen. They are a legal history.
    fn count(pass: &Self::Pass) -> u64
        ensures count { result ≡ length (seen pass.now).seen }
        ensures legal { LegalOf (KmsSteps Self.D.state to_come) KmsAllows (seen pass.now).start
            (seen pass.now).seen };

    /// Joins a pass to another, which has then seen what both had. It may wait.
    fn meet<R: Wait>(&self, rt: &R, into: &mut Self::Pass, from: Self::Pass)
        ensures both { Meets (seen into.old) (seen from) (seen into.new) }
        ensures legal { LegalOf (KmsSteps Self.D.state to_come) KmsAllows (seen into.new).start
            (seen into.new).seen };

    /// Creates a pass with a new number, which has seen what the old one has. It may wait.
    fn split<R: Wait>(&self, rt: &R, pass: &mut Self::Pass) -> Self::Pass
        ensures same { seen pass.new ≡ seen pass.old }
        ensures new { Splits (seen pass.old) (seen result) };
}

impl<D: Disk + Drop, W: Words, C: Clock, M: Naming> KeysCell for KmsCell<D, W, C, M> {
    type D = D;

    type W = W;

    type Pass = KmsPass<D, W, C, M>;

    ghost to_come = { W.to_come };

    ghost seen = { λ known. known };

    fn count(pass: &KmsPass<D, W, C, M>) -> u64 {
        pass.count()
    }

    fn meet<R: Wait>(&self, rt: &R, into: &mut KmsPass<D, W, C, M>, from: KmsPass<D, W, C, M>) {
        self.meet(rt, into, from)
    }

    fn split<R: Wait>(&self, rt: &R, pass: &mut KmsPass<D, W, C, M>) -> KmsPass<D, W, C, M> {
        self.split(rt, pass)
    }
}
