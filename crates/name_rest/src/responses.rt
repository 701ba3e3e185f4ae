//! The responses of the namesystem.
ghost use Rattle.std.specs.Prelude.{◌≡◌, IfOk};
ghost use Rattle.http_wire.specs.Responses.{IsStatus};
ghost use Rattle.name_rest.specs.Responses as spec;

use crate::bodies::{answer_body, refusal_body};
use crate::faults::NameRestFault;
use hk_base::{ByteList, NoMemory};
use http_wire::Response;
use kms_rest::{RestFault, respond_fault};
use name_calls::{NameRefusal, NameReply};
use std::alloc::Global;

/// Makes the response of a reply. `created` says that the order was to make a file: then the status
/// of `Done` is 201 instead of 200.
pub fn respond_name(alloc: Global, reply: &NameReply, created: bool) -> Result<Response, NoMemory>
    ensures status { IfOk result
        (λ response. response.status ≡ spec.reply_status reply.now created) }
    ensures body { IfOk result (λ response. response.body ≡ spec.reply_text reply.now) }
    ensures known { IfOk result (λ response. IsStatus response.status) }
{
    let body = reply_body(alloc, reply)?;
    Ok(Response {
        status: reply_status(reply, created),
        body,
    })
}

fn reply_body(alloc: Global, reply: &NameReply) -> Result<ByteList, NoMemory>
    ensures { IfOk result (λ body. body ≡ spec.reply_text reply.now) }
{
    match reply {
        NameReply::Done => Ok(ByteList::new(alloc)),
        NameReply::Refused(why) => refusal_body(alloc, why),
        _ => answer_body(alloc, reply),
    }
}

fn reply_status(reply: &NameReply, created: bool) -> u16
    ensures status { result ≡ spec.reply_status reply.now created }
    ensures known { IsStatus result }
{
    match reply {
        NameReply::Done => done_status(created),
        NameReply::Refused(why) => refusal_status(why),
        _ => 200,
    }
}

fn done_status(created: bool) -> u16
    ensures status { result ≡ spec.done_status created }
    ensures known { IsStatus result }
{
    if created { 201 } else { 200 }
}

/// Returns the status of a refusal (RFC 9110). A refusal that carries one of the key management
/// service has the status of the carried one.
fn refusal_status(why: &NameRefusal) -> u16
    ensures status { result ≡ spec.refusal_status why.now }
    ensures known { IsStatus result }
{
    match why {
        NameRefusal::BadPath => 400,
        NameRefusal::NoSuchPath => 404,
        NameRefusal::Exists => 409,
        NameRefusal::NotADirectory => 409,
        NameRefusal::NotEmpty => 409,
        NameRefusal::NotSuperuser => 403,
        NameRefusal::AlreadyInZone => 409,
        NameRefusal::NotAZoneRoot => 404,
        NameRefusal::CrossZone => 409,
        NameRefusal::UnderReencryption => 409,
        NameRefusal::HasSnapshots => 409,
        NameRefusal::NotSnapshottable => 404,
        NameRefusal::SnapshotExists => 409,
        NameRefusal::NoSuchSnapshot => 404,
        NameRefusal::TooManySnapshots => 409,
        NameRefusal::AskGone { .. } => 409,
        NameRefusal::ZoneChanged => 409,
        NameRefusal::AlreadySubmitted => 409,
        NameRefusal::NotSubmitted => 409,
        NameRefusal::TooManyInodes => 409,
        NameRefusal::KeyRefused(refused) => kms_rest::refusal_status(refused),
        NameRefusal::NoMemory => 503,
        NameRefusal::StoreFault => 500,
        NameRefusal::NestedSnapshottable => 409,
        NameRefusal::RootOrInside => 400,
    }
}

/// Makes the response to a request that is not an order. NoRoute, BadMethod, NoUser and BadRequest
/// are answered as the key management service answers them, and BadPath and NoMemory as the
/// namesystem's refusals of these names.
pub fn respond_name_fault(alloc: Global, fault: NameRestFault) -> Result<Response, NoMemory>
    ensures status { IfOk result (λ response. response.status ≡ spec.fault_status fault) }
    ensures body { IfOk result (λ response. response.body ≡ spec.fault_text fault) }
    ensures known { IfOk result (λ response. IsStatus response.status) }
{
    match fault {
        NameRestFault::NoRoute => respond_fault(alloc, RestFault::NoRoute),
        NameRestFault::BadMethod => respond_fault(alloc, RestFault::BadMethod),
        NameRestFault::NoUser => respond_fault(alloc, RestFault::NoUser),
        NameRestFault::BadRequest => respond_fault(alloc, RestFault::BadRequest),
        NameRestFault::BadPath => respond_refusal(alloc, &NameRefusal::BadPath),
        NameRestFault::NoMemory => respond_refusal(alloc, &NameRefusal::NoMemory),
    }
}

fn respond_refusal(alloc: Global, why: &NameRefusal) -> Result<Response, NoMemory>
    ensures status { IfOk result (λ response. response.status ≡ spec.refusal_status why.now) }
    ensures body { IfOk result (λ response. response.body ≡ spec.refusal_body why.now) }
    ensures known { IfOk result (λ response. IsStatus response.status) }
{
    let body = refusal_body(alloc, why)?;
    Ok(Response {
        status: refusal_status(why),
        body,
    })
}
