//! Both disks of a yard, through its trait.
ghost use Rattle.std.specs.Prelude.{◌≡◌, IsTrue, IsFalse, IfOk, OnOk, OnErr};

use hk_base::{Disk, Failed};
use server_parts::Yard;

/// Takes both disks, or none.
pub fn take_both<Y: Yard>(yard: &mut Y) -> Result<(Y::Own, Y::Own), Failed>
    requires keys { IsTrue ((Y.state yard.old).lies 0) }
    requires names { IsTrue ((Y.state yard.old).lies 1) }
    ensures keys { OnOk result (IsFalse ((Y.state yard.new).lies 0)) }
    ensures names { OnOk result (IsFalse ((Y.state yard.new).lies 1)) }
    ensures keys_back { OnErr result (IsTrue ((Y.state yard.new).lies 0)) }
    ensures names_back { OnErr result (IsTrue ((Y.state yard.new).lies 1)) }
{
    let keys = yard.take(0)?;
    match yard.take(1) {
        Ok(names) => Ok((keys, names)),
        Err(failed) => {
            let _ = yard.give(0, keys);
            Err(failed)
        }
    }
}

/// Gives both disks back, and returns whether each has counted a fault.
pub fn give_both<Y: Yard>(yard: &mut Y, keys: Y::Own, names: Y::Own) -> (bool, bool)
    requires keys { IsFalse ((Y.state yard.old).lies 0) }
    requires names { IsFalse ((Y.state yard.old).lies 1) }
    ensures keys { IsTrue ((Y.state yard.new).lies 0) }
    ensures names { IsTrue ((Y.state yard.new).lies 1) }
{
    let keys_failed = yard.give(0, keys);
    let names_failed = yard.give(1, names);
    (keys_failed, names_failed)
}
