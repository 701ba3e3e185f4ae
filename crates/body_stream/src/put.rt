//! Putting the body of a file.
ghost use Rattle.std.specs.Prelude.{◌≡◌, ◌+◌, ◌<◌, ◌≤◌, ℕ, List, [], Some, length, IfErr, IfOk, OnErr, IsErrOf};
ghost use Rattle.hk_base.specs.Faults.{Rose};
ghost use Rattle.body_stream.specs.Pieces.{PutsPiece, PutsPieceInPart};
ghost use Rattle.body_stream.specs.Transfers.{EndsPut, PutsBody, PutsInPart, longest_body};
ghost use Rattle.body_stream.specs.Vaults.{TellsBodies};

use crate::coding::Coding;
use crate::faults::BodyFault;
use crate::keys::BodyKey;
use crate::vault::Vault;
use hk_base::Source;

/// The largest size of a body, in bytes: 2^40.
pub const LONGEST_BODY: u64 = 1 << 40;

/// The most bytes that are read and stored at a time.
const PIECE: usize = 65536;

/// Reads the next piece of a source and appends its stored form to a body of `at` bytes. Returns the
/// length of the piece, which is 0 at the end of the source.
fn put_piece<S: Source, V: Vault>(
    source: &mut S,
    vault: &mut V,
    id: u64,
    coding: &Coding,
    at: u64,
    buffer: &mut [u8],
) -> Result<usize, BodyFault>
    requires room { 0 < length buffer.old }
    requires at { at ≤ longest_body }
    requires place { TellsBodies (V.state vault.old) → at ≡ length ((V.state vault.old).bodies id) }
    ensures put { IfOk result
        (λ n.
        PutsPiece coding.now id at n (S.left source.old) (S.left source.new) (V.state vault.old)
        (V.state vault.new)) }
    ensures part { OnErr result
        (PutsPieceInPart coding.now id at (S.left source.old) (S.left source.new)
        (V.state vault.old) (V.state vault.new)) }
    ensures source_later { S.faults source.old ≤ S.faults source.new }
    ensures vault_later { (V.state vault.old).faults ≤ (V.state vault.new).faults }
    ensures only { IfErr result EndsPut }
    ensures read { IsErrOf result BodyFault.ReadFault →
        Rose (S.faults source.old) (S.faults source.new) }
    ensures vault { IsErrOf result BodyFault.VaultFault →
        Rose (V.state vault.old).faults (V.state vault.new).faults }
    ensures long { IsErrOf result BodyFault.TooLong → (all : List ℕ) →
        S.left source.old ≡ Some all → longest_body < at + length all }
{
    let count = match source.read(buffer) {
        Err(_) => return Err(BodyFault::ReadFault),
        Ok(count) => count,
    };
    if count as u64 > LONGEST_BODY - at {
        return Err(BodyFault::TooLong);
    }
    let (piece, _) = buffer.split_at_mut(count);
    coding.apply(at, piece);
    match vault.write(id, at, piece) {
        Err(_) => Err(BodyFault::VaultFault),
        Ok(()) => Ok(count),
    }
}

/// Stores the bytes of a source, up to its end, as the body of a file, and returns how many they are.
/// The body must be empty. With a key it is encrypted in counter mode, without one it is the bytes
/// themselves. The body is written in pieces of at most 65,536 bytes.
///
/// A fault of the source or of the vault ends it only if that object's count of faults rises. It
/// returns `TooLong` if it reads a byte past the first 2^40, and `Ok` only if there is none. After
/// an error the body is a prefix of the stored form of what was read. No other body ever changes.
pub fn put_body<S: Source, V: Vault>(
    source: &mut S,
    vault: &mut V,
    id: u64,
    key: Option<BodyKey>,
) -> Result<u64, BodyFault>
    requires empty { TellsBodies (V.state vault.old) → (V.state vault.old).bodies id ≡ [] }
    ensures put { IfOk result
        (λ n.
        PutsBody key id n (S.left source.old) (S.left source.new) (V.state vault.old)
        (V.state vault.new)) }
    ensures part { OnErr result
        (PutsInPart key id (S.left source.old) (S.left source.new) (V.state vault.old)
        (V.state vault.new)) }
    ensures source_later { S.faults source.old ≤ S.faults source.new }
    ensures vault_later { (V.state vault.old).faults ≤ (V.state vault.new).faults }
    ensures only { IfErr result EndsPut }
    ensures read { IsErrOf result BodyFault.ReadFault →
        Rose (S.faults source.old) (S.faults source.new) }
    ensures vault { IsErrOf result BodyFault.VaultFault →
        Rose (V.state vault.old).faults (V.state vault.new).faults }
    ensures long { IsErrOf result BodyFault.TooLong → (all : List ℕ) →
        S.left source.old ≡ Some all → longest_body < length all }
{
    let coding = Coding::of(key);
    let mut buffer = [0u8; PIECE];
    let mut at: u64 = 0;
    'pieces: loop {
        match put_piece(source, vault, id, &coding, at, &mut buffer) {
            Err(fault) => return Err(fault),
            Ok(count) => {
                if count == 0 {
                    return Ok(at);
                }
                at += count as u64;
            }
        }
    }
}
