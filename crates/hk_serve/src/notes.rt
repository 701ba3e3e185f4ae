//! What is counted of the calls and the orders of connections.
ghost use Rattle.std.specs.Prelude.{◌≡◌};
ghost use Rattle.service_health.specs.declared.counts.Service.TheVariants as service;
ghost use Rattle.hk_serve.specs.Notes.{changes_keys, changes_names, end_of_keys, end_of_names, is_read};

use kms_calls::{KmsCall, KmsRefusal, KmsReply};
use name_calls::{NameCall, NameRefusal, NameReply};
use name_rest::NameOrder;
use service_health::{CallEnd, CallNote, Service};

/// Returns whether a call of the key management service writes a record if it is done.
pub fn changes_keys(call: &KmsCall) -> bool
    ensures { result ≡ changes_keys call.now }
{
    match call {
        KmsCall::Create { .. } => true,
        KmsCall::Roll { .. } => true,
        KmsCall::Delete { .. } => true,
        _ => false,
    }
}

fn is_read(call: &NameCall) -> bool
    ensures { result ≡ is_read call.now }
{
    match call {
        NameCall::Info { .. } => true,
        NameCall::List { .. } => true,
        NameCall::Status { .. } => true,
        NameCall::Zones => true,
        _ => false,
    }
}

/// Returns whether an order of the namesystem writes a record if it is done.
pub fn changes_names(order: &NameOrder) -> bool
    ensures { result ≡ changes_names order.now }
{
    match order {
        NameOrder::Call(call) => !is_read(call),
        NameOrder::Ask(_) => true,
    }
}

fn end_of_keys(reply: &KmsReply) -> CallEnd
    ensures { result ≡ end_of_keys reply.now }
{
    match reply {
        KmsReply::Refused(KmsRefusal::StoreFault) => CallEnd::Failed,
        KmsReply::Refused(_) => CallEnd::Refused,
        _ => CallEnd::Done,
    }
}

fn end_of_names(reply: &NameReply) -> CallEnd
    ensures { result ≡ end_of_names reply.now }
{
    match reply {
        NameReply::Refused(NameRefusal::StoreFault) => CallEnd::Failed,
        NameReply::Refused(_) => CallEnd::Refused,
        _ => CallEnd::Done,
    }
}

/// Returns what is counted of a call of the key management service, after which its history had `at`
/// entries.
pub fn keys_note(change: bool, reply: &KmsReply, at: u64) -> CallNote
    ensures { result ≡
        record { service = service.Keys; change = change; end = end_of_keys reply.now; at = at } }
{
    CallNote {
        service: Service::Keys,
        change,
        end: end_of_keys(reply),
        at,
    }
}

/// Returns what is counted of an order of the namesystem, after which its history had `at` entries.
pub fn names_note(change: bool, reply: &NameReply, at: u64) -> CallNote
    ensures { result ≡
        record { service = service.Names; change = change; end = end_of_names reply.now; at = at } }
{
    CallNote {
        service: Service::Names,
        change,
        end: end_of_names(reply),
        at,
    }
}
