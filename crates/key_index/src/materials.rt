//! Reading a material from the file of the key log.
ghost use Rattle.std.specs.Prelude.{◌≡◌, ◌+◌, ◌≤◌, IsTrue, IfOk, OnErr, length};
ghost use Rattle.hk_base.specs.Disk.{LeavesOnly, Reads, RunOn, Tells, piece};
ghost use Rattle.hk_base.specs.Faults.{Rose};
ghost use Rattle.hk_base.specs.Names.{is_key_length};

use hk_base::{Dek, Disk, Failed};

/// The file of the disk with the key log.
const KEYS: u8 = 0;

/// Reads the material of `len` bytes, 16, 24 or 32, at an offset of the key log. If the disk returns
/// fewer bytes, which no disk does whose log has the material, the call fails as a read at an offset
/// beyond any file does. Only if the disk answers even that read is the rest of the material zeros.
pub fn read_material<D: Disk>(disk: &mut D, place: u64, len: usize) -> Result<Dek, Failed>
    requires length { IsTrue (is_key_length len) }
    requires within { Tells (D.state disk.old) →
        place + len ≤ length ((D.state disk.old).reads 0) }
    ensures length { IfOk result (λ material. length material ≡ len) }
    ensures bytes { IfOk result
        (λ material. Tells (D.state disk.old) →
        material ≡ piece place len ((D.state disk.old).reads 0)) }
    ensures same { Reads 0 (D.state disk.old) (D.state disk.new) }
    ensures run { RunOn 0 (D.state disk.old) (D.state disk.new) }
    ensures moments { LeavesOnly 0 (D.state disk.old) (D.state disk.new)
        ((D.state disk.old).leaves 0) }
    ensures cause { OnErr result (Rose (D.state disk.old).faults (D.state disk.new).faults) }
{
    let mut bytes = [0u8; 32];
    let (front, _) = bytes.split_at_mut(len);
    let count = disk.read(KEYS, place, front)?;
    if count < len {
        disk.read(KEYS, u64::MAX, front)?;
    }
    Ok(Dek::of(front))
}
