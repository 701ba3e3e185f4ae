//! The call for a batch.
ghost use Rattle.std.specs.Prelude.{◌≡◌, ◌≤◌, [], length, vec_capacity, IfOk};
ghost use Rattle.kms_core.specs.Laws.{sent_of};
ghost use Rattle.batch_calls.specs.Batches.{batch_call, raw_keys};

use hk_base::{ByteList, Edek, KeyName, NoMemory};
use kms_calls::{KmsCall, RawEdek, RawEdekList};
use reenc_walk::{BatchNote, Sent};
use std::alloc::Global;

/// The call for a batch, and an empty vector with room for the keys of the reply.
#[derive(Drop)]
pub struct BatchCall {
    pub call: KmsCall,
    pub room: Vec<Edek>,
}

impl BatchCall {
    /// Makes the call for a batch: all of its encrypted keys, under the key of the first. Returns
    /// `NoMemory` if allocation fails.
    pub fn of(alloc: Global, batch: &BatchNote) -> Result<BatchCall, NoMemory>
        ensures call { IfOk result (λ made. made.call ≡ batch_call batch.now) }
        ensures empty { IfOk result (λ made. made.room.items ≡ []) }
        ensures room { IfOk result (λ made. length batch.now.sent ≤ vec_capacity made.room) }
    {
        let call = call_for(alloc, batch)?;
        let room = Vec::with_capacity(alloc, batch.sent.as_slice().len())?;
        Ok(BatchCall { call, room })
    }
}

fn call_for(alloc: Global, batch: &BatchNote) -> Result<KmsCall, NoMemory>
    ensures { IfOk result (λ call. call ≡ batch_call batch.now) }
{
    let files = batch.sent.as_slice();
    let name = key_of(&files[0].edek);
    let sent = raw_keys(alloc, files)?;
    Ok(KmsCall::Batch { name, sent })
}

fn key_of(edek: &Edek) -> KeyName
    ensures { result ≡ edek.now.version.key }
{
    edek.version.key
}

fn raw_keys(alloc: Global, sent: &[Sent]) -> Result<RawEdekList, NoMemory>
    ensures { IfOk result (λ raw. raw ≡ raw_keys sent.now) }
{
    let mut raw = RawEdekList::with_room(alloc, sent.len())?;
    for file in sent {
        let key = raw_key(alloc, &file.edek)?;
        raw.push(key)?;
    }
    Ok(raw)
}

fn raw_key(alloc: Global, edek: &Edek) -> Result<RawEdek, NoMemory>
    ensures { IfOk result (λ raw. raw ≡ sent_of edek.now) }
{
    let iv = bytes_of(alloc, edek.iv.as_bytes())?;
    let sealed = bytes_of(alloc, edek.sealed.as_bytes())?;
    Ok(RawEdek {
        version: edek.version,
        iv,
        sealed,
    })
}

fn bytes_of(alloc: Global, bytes: &[u8]) -> Result<ByteList, NoMemory>
    ensures { IfOk result (λ list. list ≡ bytes.now) }
{
    Ok(ByteList::of(Vec::from_slice(alloc, bytes)?))
}
