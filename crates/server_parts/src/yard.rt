//! A yard: the disks of both logs lie here while no service has them.
ghost use Rattle.std.specs.Prelude.{◌≡◌, ◌<◌, ◌↔◌, ℕ, IfOk, OnErr, IsTrue, IsFalse};
ghost use Rattle.hk_base.specs.Disk.{DiskState};
ghost use Rattle.hk_base.specs.Faults.{HasCause};
ghost use Rattle.server_parts.specs.Yards.{YardState, Taken, GivenBack, OnlyFaults};

use hk_base::{Disk, Failed};

/// The disks of file 0 and file 1, each of which may be taken by one service and given back.
///
/// A disk that was taken serves one file and may move to a thread. The yard may promise what a file
/// reads as while its disk lies there; a yard over real files does not.
pub trait Yard {
    /// The disk of one file.
    type Own: Disk + Send + Drop;

    /// The state of the yard, as proofs see it.
    ghost state: { Self → YardState };

    /// Takes the disk of a file. The disk has counted no fault, and a crash leaves exactly what the
    /// file reads as. If this fails, the disk still lies in the yard.
    fn take(&mut self, file: u8) -> Result<Self::Own, Failed>
        requires file { file < 2 }
        requires lies { IsTrue ((state self.old).lies file) }
        ensures taken { IfOk result
            (λ own. Taken file (state self.old) (state self.new) (Self.Own.state own)) }
        ensures kept { OnErr result (OnlyFaults (state self.old) (state self.new)) }
        ensures cause { HasCause (state self.old).faults (state self.new).faults result };

    /// Gives the disk of a file back, and returns whether it has counted a fault. This cannot fail. The
    /// yard's count of faults rises exactly if the disk has counted one.
    fn give(&mut self, file: u8, own: Self::Own) -> bool
        requires file { file < 2 }
        requires away { IsFalse ((state self.old).lies file) }
        ensures given { GivenBack file (state self.old) (state self.new) (Self.Own.state own) }
        ensures fault { IsTrue result ↔ 0 < (Self.Own.state own).faults };
}
