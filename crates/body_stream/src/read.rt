//! Reading a range of the body of a file.
ghost use Rattle.std.specs.Prelude.{◌≡◌, ◌<◌, ◌≤◌, length, IfErr, IfOk, OnErr, IsErrOf};
ghost use Rattle.hk_base.specs.Faults.{Rose};
ghost use Rattle.body_stream.specs.Pieces.{ReadsPiece, ReadsPieceInPart};
ghost use Rattle.body_stream.specs.Transfers.{EndsRead, ReadsBody, ReadsInPart};
ghost use Rattle.body_stream.specs.Vaults.{KeepsBodies, TellsBodies};

use crate::coding::Coding;
use crate::faults::BodyFault;
use crate::keys::BodyKey;
use crate::vault::Vault;
use hk_base::{Sink, write_all};

/// The most bytes that are read and written at a time.
const PIECE: usize = 65536;

/// Writes the bytes of a file from byte `from` on, up to `count` of them, and returns how many it
/// wrote. The file is the one whose stored form under the key is the body. A range past the end is
/// cut. Only the range is read, in pieces of at most 65,536 bytes.
///
/// A fault of the sink or of the vault ends it only if that object's count of faults rises. After an
/// error a prefix of the range has been written. No body changes. A vault that promises nothing may
/// end the range early.
pub fn read_body<V: Vault, K: Sink>(
    vault: &mut V,
    sink: &mut K,
    id: u64,
    key: Option<BodyKey>,
    from: u64,
    count: u64,
) -> Result<u64, BodyFault>
    ensures read { IfOk result
        (λ n.
        ReadsBody key id from count n (V.state vault.old) (K.written sink.old)
        (K.written sink.new)) }
    ensures part { OnErr result
        (ReadsInPart key id from count (V.state vault.old) (K.written sink.old)
        (K.written sink.new)) }
    ensures same { KeepsBodies (V.state vault.old) (V.state vault.new) }
    ensures sink_later { K.faults sink.old ≤ K.faults sink.new }
    ensures vault_later { (V.state vault.old).faults ≤ (V.state vault.new).faults }
    ensures only { IfErr result EndsRead }
    ensures write { IsErrOf result BodyFault.WriteFault →
        Rose (K.faults sink.old) (K.faults sink.new) }
    ensures vault { IsErrOf result BodyFault.VaultFault →
        Rose (V.state vault.old).faults (V.state vault.new).faults }
{
    let coding = Coding::of(key);
    let size = match vault.size(id) {
        Err(_) => return Err(BodyFault::VaultFault),
        Ok(size) => size,
    };
    if from >= size {
        return Ok(0);
    }
    let end = from + count.min(size - from);
    let mut buffer = [0u8; PIECE];
    let mut at = from;
    'pieces: while at < end {
        match read_piece(vault, sink, id, &coding, at, end, &mut buffer) {
            Err(fault) => return Err(fault),
            Ok(count) => {
                // Only a vault that promises nothing ends early.
                if count == 0 {
                    return Ok(at - from);
                }
                at += count as u64;
            }
        }
    }
    Ok(at - from)
}

/// Writes a piece of a file from byte `at` on, none of it past `end`. Returns the length of the piece.
fn read_piece<V: Vault, K: Sink>(
    vault: &mut V,
    sink: &mut K,
    id: u64,
    coding: &Coding,
    at: u64,
    end: u64,
    buffer: &mut [u8],
) -> Result<usize, BodyFault>
    requires room { 0 < length buffer.old }
    requires order { at < end }
    requires place { TellsBodies (V.state vault.old) →
        end ≤ length ((V.state vault.old).bodies id) }
    ensures read { IfOk result
        (λ n.
        ReadsPiece coding.now id at end n (V.state vault.old) (K.written sink.old)
        (K.written sink.new)) }
    ensures part { OnErr result
        (ReadsPieceInPart coding.now id at end (V.state vault.old) (K.written sink.old)
        (K.written sink.new)) }
    ensures same { KeepsBodies (V.state vault.old) (V.state vault.new) }
    ensures sink_later { K.faults sink.old ≤ K.faults sink.new }
    ensures vault_later { (V.state vault.old).faults ≤ (V.state vault.new).faults }
    ensures only { IfErr result EndsRead }
    ensures write { IsErrOf result BodyFault.WriteFault →
        Rose (K.faults sink.old) (K.faults sink.new) }
    ensures vault { IsErrOf result BodyFault.VaultFault →
        Rose (V.state vault.old).faults (V.state vault.new).faults }
{
    let want = (buffer.len() as u64).min(end - at) as usize;
    let (wanted, _) = buffer.split_at_mut(want);
    let count = match vault.read(id, at, wanted) {
        Err(_) => return Err(BodyFault::VaultFault),
        Ok(count) => count,
    };
    let (piece, _) = wanted.split_at_mut(count);
    coding.apply(at, piece);
    match write_all(sink, piece) {
        Err(_) => Err(BodyFault::WriteFault),
        Ok(()) => Ok(count),
    }
}
