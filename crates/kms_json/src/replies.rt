//! Replies as JSON.
ghost use Rattle.std.specs.Prelude.{◌≡◌, IfOk, OnOk};
ghost use Rattle.kms_json.specs.Replies as spec;
ghost use Rattle.kms_json.specs.Writing.{AddsReply};

use crate::rows::{
    write_edek, write_edeks, write_meta, write_metas, write_names, write_opened, write_refusal,
    write_shown, write_versions,
};
use hk_base::{ByteList, NoMemory};
use json::Writer;
use kms_calls::KmsReply;
use std::alloc::Global;

/// Writes the body of a response, the JSON text of the reply. It has no blanks. The members of each
/// object are in byte order of their names. Byte strings are in URL-safe base64 without padding. The
/// body of `Done` is empty.
pub fn write_reply(alloc: Global, reply: &KmsReply) -> Result<ByteList, NoMemory>
    ensures { IfOk result (λ text. text ≡ spec.reply_text reply.now) }
{
    let mut out = Writer::new(Vec::new(alloc));
    write_value(alloc, reply, &mut out)?;
    Ok(ByteList::of(out.into_inner()))
}

/// Writes the value of a reply, which is nothing for `Done`.
fn write_value(alloc: Global, reply: &KmsReply, out: &mut Writer) -> Result<(), NoMemory>
    ensures { OnOk result (AddsReply (spec.reply_data reply.now) out.old out.new) }
{
    match reply {
        KmsReply::Version { version, material } => write_shown(alloc, version, material, out),
        KmsReply::Done => Ok(()),
        KmsReply::Metadata(meta) => write_meta(meta, out),
        KmsReply::Metadatas(metas) => write_metas(metas, out),
        KmsReply::Names(names) => write_names(names, out),
        KmsReply::Versions(versions) => write_versions(alloc, versions, out),
        KmsReply::Ready(edeks) => write_edeks(alloc, edeks, out),
        KmsReply::Resealed(edek) => write_edek(alloc, edek, out),
        KmsReply::Key(key) => write_opened(alloc, key, out),
        KmsReply::Refused(why) => write_refusal(alloc, why, out),
    }
}
