//! The JSON bodies of responses.
ghost use Rattle.std.specs.Prelude.{◌≡◌, IfOk, OnOk};
ghost use Rattle.serde_json.specs.Data.{string};
ghost use Rattle.kms_json.specs.Writing.{AddsData, AddsMember};
ghost use Rattle.name_rest.specs.Responses as spec;

use hk_base::{ByteList, NoMemory};
use json::Writer;
use name_calls::{NameRefusal, NameReply};
use name_text::{answer_text, refusal_name, refusal_text};
use std::alloc::Global;

/// Makes the body of an answer.
pub(crate) fn answer_body(alloc: Global, reply: &NameReply) -> Result<ByteList, NoMemory>
    ensures { IfOk result (λ body. body ≡ spec.answer_body reply.now) }
{
    let text = answer_text(alloc, reply)?;
    let mut out = Writer::new(Vec::new(alloc));
    write_answer(text.as_str(), &mut out)?;
    Ok(ByteList::of(out.into_inner()))
}

/// Makes the body of a refusal.
pub(crate) fn refusal_body(alloc: Global, why: &NameRefusal) -> Result<ByteList, NoMemory>
    ensures { IfOk result (λ body. body ≡ spec.refusal_body why.now) }
{
    let message = refusal_text(alloc, why)?;
    let mut out = Writer::new(Vec::new(alloc));
    write_error(refusal_name(why), message.as_str(), &mut out)?;
    Ok(ByteList::of(out.into_inner()))
}

fn write_answer(text: &str, out: &mut Writer) -> Result<(), NoMemory>
    ensures { OnOk result (AddsData (spec.answer_data text.now) out.old out.new) }
{
    out.begin_object()?;
    write_member("answer", text, out)?;
    out.end_object()?;
    Ok(())
}

fn write_error(name: &str, message: &str, out: &mut Writer) -> Result<(), NoMemory>
    ensures { OnOk result (AddsData (spec.error_data name.now message.now) out.old out.new) }
{
    out.begin_object()?;
    out.key("RemoteException")?;
    write_exception(name, message, out)?;
    out.end_object()?;
    Ok(())
}

fn write_exception(name: &str, message: &str, out: &mut Writer) -> Result<(), NoMemory>
    ensures { OnOk result (AddsData (spec.exception_data name.now message.now) out.old out.new) }
{
    out.begin_object()?;
    write_member("exception", name, out)?;
    write_member("message", message, out)?;
    out.end_object()?;
    Ok(())
}

fn write_member(name: &str, text: &str, out: &mut Writer) -> Result<(), NoMemory>
    ensures { OnOk result (AddsMember name.now (string text.now) out.old out.new) }
{
    out.key(name)?;
    out.string(text)?;
    Ok(())
}
