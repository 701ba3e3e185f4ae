//! The vault that keeps the bodies of files.
ghost use Rattle.std.specs.Prelude.{◌≡◌, ◌-◌, ◌≤◌, min, length, take, IfOk, OnOk, OnErr};
ghost use Rattle.hk_base.specs.Disk.{piece};
ghost use Rattle.hk_base.specs.Faults.{HasCause};
ghost use Rattle.body_stream.specs.Vaults.{VaultState, TellsBodies, GrowsBody, GrowsInPart, KeepsBodies};

use hk_base::Failed;

/// A store of bodies, one for each id. A body that was never written is empty.
///
/// A vault may promise nothing about its bodies, as a real one does; it may then also read less than
/// was asked for. A call fails only if the count of faults rises. Nothing is promised about a crash.
pub trait Vault {
    /// The state of the vault, as proofs see it.
    ghost state: { Self → VaultState };

    /// Returns the size of a body in bytes.
    fn size(&mut self, id: u64) -> Result<u64, Failed>
        ensures answer { IfOk result
            (λ n. TellsBodies (state self.old) → n ≡ length ((state self.old).bodies id)) }
        ensures same { KeepsBodies (state self.old) (state self.new) }
        ensures cause { HasCause (state self.old).faults (state self.new).faults result };

    /// Appends bytes to a body whose size is `at`. After a failure a prefix of the bytes may have been
    /// appended. No other body changes.
    fn write(&mut self, id: u64, at: u64, bytes: &[u8]) -> Result<(), Failed>
        requires place { TellsBodies (state self.old) → at ≡ length ((state self.old).bodies id) }
        ensures tells { (state self.new).tells ≡ (state self.old).tells }
        ensures written { OnOk result
            (TellsBodies (state self.old) →
            GrowsBody id bytes.now (state self.old).bodies (state self.new).bodies) }
        ensures torn { OnErr result
            (TellsBodies (state self.old) →
            GrowsInPart id bytes.now (state self.old).bodies (state self.new).bodies) }
        ensures cause { HasCause (state self.old).faults (state self.new).faults result };

    /// Reads from an offset of a body into the start of the buffer, up to the end of the buffer or of
    /// the body. Returns the number of bytes read.
    fn read(&mut self, id: u64, at: u64, buf: &mut [u8]) -> Result<usize, Failed>
        requires place { TellsBodies (state self.old) → at ≤ length ((state self.old).bodies id) }
        ensures count { IfOk result (λ n. n ≤ length buf.new) }
        ensures answer { IfOk result
            (λ n. TellsBodies (state self.old) →
            n ≡ min (length buf.new) (length ((state self.old).bodies id) - at)) }
        ensures bytes { IfOk result
            (λ n. TellsBodies (state self.old) →
            take n buf.new ≡ piece at n ((state self.old).bodies id)) }
        ensures same { KeepsBodies (state self.old) (state self.new) }
        ensures cause { HasCause (state self.old).faults (state self.new).faults result };
}
