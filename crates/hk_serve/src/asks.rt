//! The responses of calls and orders, which the desk answers.
ghost use Rattle.std.specs.Prelude.{◌≡◌, IfOk};
ghost use Rattle.kms_calls.specs.declared.calls.KmsReply.{KmsReply};
ghost use Rattle.name_calls.specs.declared.calls.NameReply.{NameReply};
ghost use Rattle.hk_serve.specs.Exchanges.{Replied};
ghost use Rattle.hk_serve.specs.Transactions.{OfKeys, OfNames, creates, creates_file};
ghost use Rattle.hk_serve.specs.Turns.{Responds};

use crate::desk::Desk;
use hk_base::{NoMemory, Text};
use http_wire::Response;
use kms_calls::KmsCall;
use kms_rest::respond;
use name_calls::Ask;
use name_rest::{NameOrder, respond_name};
use std::alloc::Global;

fn creates(call: &KmsCall) -> bool
    ensures { result ≡ creates call.now }
{
    matches!(call, KmsCall::Create { .. })
}

fn creates_file(order: &NameOrder) -> bool
    ensures { result ≡ creates_file order.now }
{
    matches!(order, NameOrder::Ask(Ask::Create { .. }))
}

/// Passes a call to the desk, and returns the response of its reply.
pub(crate) fn ask_keys<E: Desk>(
    alloc: Global,
    desk: &mut E,
    user: Text,
    call: KmsCall,
) -> Result<Response, NoMemory>
    requires { E.ready desk.old }
    ensures asked { (reply : KmsReply) ×
        (E.answers desk.old user (OfKeys call reply) desk.new ×
        IfOk result (Responds (Replied user (OfKeys call reply)))) }
    ensures ready { E.ready desk.new }
{
    let created = creates(&call);
    let reply = desk.kms(user, call);
    respond(alloc, &reply, created)
}

/// Passes an order to the desk, and returns the response of its reply.
pub(crate) fn ask_names<E: Desk>(
    alloc: Global,
    desk: &mut E,
    user: Text,
    order: NameOrder,
) -> Result<Response, NoMemory>
    requires { E.ready desk.old }
    ensures asked { (reply : NameReply) ×
        (E.answers desk.old user (OfNames order reply) desk.new ×
        IfOk result (Responds (Replied user (OfNames order reply)))) }
    ensures ready { E.ready desk.new }
{
    let created = creates_file(&order);
    let reply = desk.name(user, order);
    respond_name(alloc, &reply, created)
}
