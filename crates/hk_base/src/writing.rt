//! Writing a whole slice.
ghost use Rattle.std.specs.Prelude.{MatchResult};
ghost use Rattle.std.specs.Io.KnownBytes.{Appends};
ghost use Rattle.hk_base.specs.Faults.{HasCause};
ghost use Rattle.hk_base.specs.Writing.{WroteFront};

use crate::outside::{Failed, Sink};

/// Writes all the bytes to a sink, which may take fewer at a time. After `Failed` a prefix of them
/// has been written.
pub fn write_all<K: Sink>(sink: &mut K, bytes: &[u8]) -> Result<(), Failed>
    ensures wrote { MatchResult result
        (λ _. Appends (K.written sink.old) (K.written sink.new) bytes.now)
        (λ _. WroteFront (K.written sink.old) (K.written sink.new) bytes.now) }
    ensures cause { HasCause (K.faults sink.old) (K.faults sink.new) result }
{
    let mut done = 0;
    while done < bytes.len() {
        match sink.write(&bytes[done..]) {
            Err(failed) => return Err(failed),
            Ok(count) => {
                if count == 0 {
                    return Err(Failed);
                }
                done += count;
            }
        }
    }
    Ok(())
}
