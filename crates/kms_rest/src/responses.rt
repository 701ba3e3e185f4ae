//! The responses of the service.
ghost use Rattle.std.specs.Prelude.{◌≡◌, IfOk};
ghost use Rattle.http_wire.specs.Responses.{IsStatus};
ghost use Rattle.kms_json.specs.Replies.{reply_text};
ghost use Rattle.kms_rest.specs.Responses as spec;

use crate::faults::RestFault;
use hk_base::{ByteList, NoMemory};
use http_wire::Response;
use kms_calls::{KmsRefusal, KmsReply};
use kms_json::write_reply;
use std::alloc::Global;

const NO_ROUTE: &str = "{\"RemoteException\":{\"exception\":\"NoRoute\",\"message\":\"NoRoute\"}}";

const BAD_METHOD: &str =
    "{\"RemoteException\":{\"exception\":\"BadMethod\",\"message\":\"BadMethod\"}}";

/// Returns the status of a refusal (RFC 9110).
pub fn refusal_status(why: &KmsRefusal) -> u16
    ensures status { result ≡ spec.refusal_status why.now }
    ensures known { IsStatus result }
{
    match why {
        KmsRefusal::BadRequest => 400,
        KmsRefusal::NoUser => 401,
        KmsRefusal::Denied { .. } => 403,
        KmsRefusal::NoSuchKey => 404,
        KmsRefusal::NoSuchVersion => 404,
        KmsRefusal::KeyExists => 409,
        KmsRefusal::WrongKey => 400,
        KmsRefusal::BadMaterial => 400,
        KmsRefusal::BadLength => 400,
        KmsRefusal::TooManyKeys => 409,
        KmsRefusal::TooManyVersions => 409,
        KmsRefusal::TooManyAsked => 400,
        KmsRefusal::NoMemory => 503,
        KmsRefusal::StoreFault => 500,
    }
}

fn done_status(created: bool) -> u16
    ensures status { result ≡ spec.done_status created }
    ensures known { IsStatus result }
{
    if created { 201 } else { 200 }
}

fn reply_status(reply: &KmsReply, created: bool) -> u16
    ensures status { result ≡ spec.reply_status reply.now created }
    ensures known { IsStatus result }
{
    match reply {
        KmsReply::Refused(why) => refusal_status(why),
        _ => done_status(created),
    }
}

/// Makes the response of a reply. `created` says that the call was Create, whose status is 201 instead
/// of 200 unless it is refused.
pub fn respond(alloc: Global, reply: &KmsReply, created: bool) -> Result<Response, NoMemory>
    ensures status { IfOk result
        (λ response. response.status ≡ spec.reply_status reply.now created) }
    ensures body { IfOk result (λ response. response.body ≡ reply_text reply.now) }
    ensures known { IfOk result (λ response. IsStatus response.status) }
{
    let body = write_reply(alloc, reply)?;
    Ok(Response {
        status: reply_status(reply, created),
        body,
    })
}

fn fault_status(fault: RestFault) -> u16
    ensures status { result ≡ spec.fault_status fault }
    ensures known { IsStatus result }
{
    match fault {
        RestFault::NoRoute => 404,
        RestFault::BadMethod => 405,
        RestFault::NoUser => 401,
        RestFault::BadRequest => 400,
        RestFault::NoMemory => 503,
    }
}

/// Copies the text.
fn text(alloc: Global, text: &str) -> Result<ByteList, NoMemory>
    ensures { IfOk result (λ found. found ≡ text.now) }
{
    let mut out = ByteList::new(alloc);
    out.append(text.as_bytes())?;
    Ok(out)
}

fn fault_text(alloc: Global, fault: RestFault) -> Result<ByteList, NoMemory>
    ensures { IfOk result (λ found. found ≡ spec.fault_text fault) }
{
    match fault {
        RestFault::NoRoute => text(alloc, NO_ROUTE),
        RestFault::BadMethod => text(alloc, BAD_METHOD),
        RestFault::NoUser => write_reply(alloc, &KmsReply::Refused(KmsRefusal::NoUser)),
        RestFault::BadRequest => write_reply(alloc, &KmsReply::Refused(KmsRefusal::BadRequest)),
        RestFault::NoMemory => write_reply(alloc, &KmsReply::Refused(KmsRefusal::NoMemory)),
    }
}

/// Makes the response to a request that is not a call. The bodies of NoUser, BadRequest and NoMemory
/// are those of the refusals K2, K1 and K13. NoRoute and BadMethod are named by themselves.
pub fn respond_fault(alloc: Global, fault: RestFault) -> Result<Response, NoMemory>
    ensures status { IfOk result (λ response. response.status ≡ spec.fault_status fault) }
    ensures body { IfOk result (λ response. response.body ≡ spec.fault_text fault) }
    ensures known { IfOk result (λ response. IsStatus response.status) }
{
    let body = fault_text(alloc, fault)?;
    Ok(Response {
        status: fault_status(fault),
        body,
    })
}
