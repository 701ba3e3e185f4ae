//! Copying the stored bytes of a body.
ghost use Rattle.std.specs.Prelude.{◌≡◌, ◌⊎◌, ◌≤◌, ◌<◌, length, false, IsTrue, IfErr, IfOk, OnErr, OnOk};
ghost use Rattle.hk_base.specs.Faults.{Rose};
ghost use Rattle.body_copies.specs.Copies.{CopiesBody, CopiesInPart, CopyFails, HasNoBody};
ghost use Rattle.body_copies.specs.Pieces.{CopiesPiece, CopiesPieceInPart, PieceFails};
ghost use Rattle.body_stream.specs.Vaults.{KeepsBodies, TellsBodies};

use body_stream::{BodyFault, Vault};

/// The most bytes that are read and stored at a time.
const PIECE: usize = 65536;

/// Returns whether a vault has no body with this id. Returns false if it failed.
fn has_none<U: Vault>(copies: &mut U, to: u64) -> bool
    ensures keeps { KeepsBodies (U.state copies.old) (U.state copies.new) }
    ensures later { (U.state copies.old).faults ≤ (U.state copies.new).faults }
    ensures none { IsTrue result → HasNoBody to (U.state copies.old) }
    ensures cause { result ≡ false →
        Rose (U.state copies.old).faults (U.state copies.new).faults ⊎
        (HasNoBody to (U.state copies.old) → TellsBodies (U.state copies.old) → ⊥) }
{
    match copies.size(to) {
        Ok(size) => size == 0,
        Err(_) => false,
    }
}

/// Copies a piece of a body from byte `at` on, none of it past `end`. Returns the length of the
/// piece, which is not 0.
fn copy_piece<V: Vault, U: Vault>(
    vault: &mut V,
    from: u64,
    copies: &mut U,
    to: u64,
    at: u64,
    end: u64,
    buffer: &mut [u8],
) -> Result<usize, BodyFault>
    requires room { 0 < length buffer.old }
    requires order { at < end }
    requires source { TellsBodies (V.state vault.old) →
        end ≤ length ((V.state vault.old).bodies from) }
    requires place { TellsBodies (U.state copies.old) →
        at ≡ length ((U.state copies.old).bodies to) }
    ensures copied { IfOk result
        (λ n.
        CopiesPiece from to at end n (V.state vault.old) (U.state copies.old)
        (U.state copies.new)) }
    ensures part { OnErr result
        (CopiesPieceInPart from to at (V.state vault.old) (U.state copies.old)
        (U.state copies.new)) }
    ensures same { KeepsBodies (V.state vault.old) (V.state vault.new) }
    ensures vault_later { (V.state vault.old).faults ≤ (V.state vault.new).faults }
    ensures copies_later { (U.state copies.old).faults ≤ (U.state copies.new).faults }
    ensures only { IfErr result (λ fault. fault ≡ BodyFault.VaultFault) }
    ensures cause { OnErr result
        (PieceFails (V.state vault.old) (V.state vault.new) (U.state copies.old)
        (U.state copies.new)) }
{
    let want = (buffer.len() as u64).min(end - at) as usize;
    let (wanted, _) = buffer.split_at_mut(want);
    let count = match vault.read(from, at, wanted) {
        Err(_) => return Err(BodyFault::VaultFault),
        Ok(count) => count,
    };
    // Only a vault that promises nothing ends early. The copy would not be whole.
    if count == 0 {
        return Err(BodyFault::VaultFault);
    }
    let (piece, _) = wanted.split_at_mut(count);
    match copies.write(to, at, piece) {
        Err(_) => Err(BodyFault::VaultFault),
        Ok(()) => Ok(count),
    }
}

/// Copies the stored bytes of the body `from` of one vault into another, as the body `to`. They are
/// written in pieces of at most 65,536 bytes. No other body changes.
///
/// Returns `VaultFault` if a vault fails, if `copies` has a body `to` already, or if a vault that
/// promises nothing ends the body before the size that it returned. After an error a prefix of the
/// body may have been appended to `to`.
pub fn copy_body<V: Vault, U: Vault>(
    vault: &mut V,
    from: u64,
    copies: &mut U,
    to: u64,
) -> Result<(), BodyFault>
    ensures copied { OnOk result
        (CopiesBody from to (V.state vault.old) (U.state copies.old) (U.state copies.new)) }
    ensures part { OnErr result
        (CopiesInPart from to (V.state vault.old) (U.state copies.old) (U.state copies.new)) }
    ensures same { KeepsBodies (V.state vault.old) (V.state vault.new) }
    ensures vault_later { (V.state vault.old).faults ≤ (V.state vault.new).faults }
    ensures copies_later { (U.state copies.old).faults ≤ (U.state copies.new).faults }
    ensures only { IfErr result (λ fault. fault ≡ BodyFault.VaultFault) }
    ensures cause { OnErr result
        (CopyFails to (V.state vault.old) (V.state vault.new) (U.state copies.old)
        (U.state copies.new)) }
{
    if !has_none(copies, to) {
        return Err(BodyFault::VaultFault);
    }
    let size = match vault.size(from) {
        Err(_) => return Err(BodyFault::VaultFault),
        Ok(size) => size,
    };
    let mut buffer = [0u8; PIECE];
    let mut at: u64 = 0;
    'pieces: while at < size {
        match copy_piece(vault, from, copies, to, at, size, &mut buffer) {
            Err(fault) => return Err(fault),
            Ok(count) => at += count as u64,
        }
    }
    Ok(())
}
