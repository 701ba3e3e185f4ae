//! The order of an operation, from the query.
ghost use Rattle.std.specs.Prelude.{◌≡◌, Ok, Err, IfErr, IfOk};
ghost use Rattle.name_rest.specs.Orders as spec;
ghost use Rattle.name_rest.specs.declared.operation.Operation.TheVariants as op;

use crate::faults::NameRestFault;
use crate::operation::Operation;
use crate::order::NameOrder;
use crate::query::{
    any_path_in, key_in, needed, path_in, read_path, read_recursive, read_snapshot_name,
};
use name_calls::{Ask, NameCall};
use path_routes::Query;
use std::alloc::Global;

/// Returns the order of an operation. Faults of parameters are found before those of paths.
pub(crate) fn read_order(
    alloc: Global,
    operation: Operation,
    query: &Query,
) -> Result<NameOrder, NameRestFault>
    ensures ok { IfOk result (λ order. spec.order_of operation query.now ≡ Ok order) }
    ensures err { IfErr result
        (λ e. ¬ (e ≡ NameRestFault.NoMemory) → spec.order_of operation query.now ≡ Err e) }
{
    match operation {
        Operation::Mkdir => mkdir(alloc, query),
        Operation::Create => create(alloc, query),
        Operation::Delete => delete(alloc, query),
        Operation::Rename => rename(alloc, query),
        Operation::Zone => zone(alloc, query),
        Operation::Reencrypt => reencrypt(alloc, query),
        Operation::Cancel => cancel(alloc, query),
        Operation::Allow => allow(alloc, query),
        Operation::Disallow => disallow(alloc, query),
        Operation::Snapshot => snapshot(alloc, query),
        Operation::Unsnapshot => unsnapshot(alloc, query),
        Operation::Info => info(alloc, query),
        Operation::List => list(alloc, query),
        Operation::Status => status(alloc, query),
        Operation::Zones => Ok(NameOrder::Call(NameCall::Zones)),
    }
}

fn mkdir(alloc: Global, query: &Query) -> Result<NameOrder, NameRestFault>
    ensures ok { IfOk result (λ order. spec.order_of op.Mkdir query.now ≡ Ok order) }
    ensures err { IfErr result
        (λ e. ¬ (e ≡ NameRestFault.NoMemory) → spec.order_of op.Mkdir query.now ≡ Err e) }
{
    let path = path_in(alloc, query)?;
    Ok(NameOrder::Call(NameCall::Mkdir { path }))
}

fn create(alloc: Global, query: &Query) -> Result<NameOrder, NameRestFault>
    ensures ok { IfOk result (λ order. spec.order_of op.Create query.now ≡ Ok order) }
    ensures err { IfErr result
        (λ e. ¬ (e ≡ NameRestFault.NoMemory) → spec.order_of op.Create query.now ≡ Err e) }
{
    let path = path_in(alloc, query)?;
    Ok(NameOrder::Ask(Ask::Create { path }))
}

fn reencrypt(alloc: Global, query: &Query) -> Result<NameOrder, NameRestFault>
    ensures ok { IfOk result (λ order. spec.order_of op.Reencrypt query.now ≡ Ok order) }
    ensures err { IfErr result
        (λ e. ¬ (e ≡ NameRestFault.NoMemory) → spec.order_of op.Reencrypt query.now ≡ Err e) }
{
    let path = path_in(alloc, query)?;
    Ok(NameOrder::Ask(Ask::Submit { path }))
}

fn cancel(alloc: Global, query: &Query) -> Result<NameOrder, NameRestFault>
    ensures ok { IfOk result (λ order. spec.order_of op.Cancel query.now ≡ Ok order) }
    ensures err { IfErr result
        (λ e. ¬ (e ≡ NameRestFault.NoMemory) → spec.order_of op.Cancel query.now ≡ Err e) }
{
    let path = path_in(alloc, query)?;
    Ok(NameOrder::Call(NameCall::Cancel { path }))
}

fn allow(alloc: Global, query: &Query) -> Result<NameOrder, NameRestFault>
    ensures ok { IfOk result (λ order. spec.order_of op.Allow query.now ≡ Ok order) }
    ensures err { IfErr result
        (λ e. ¬ (e ≡ NameRestFault.NoMemory) → spec.order_of op.Allow query.now ≡ Err e) }
{
    let path = path_in(alloc, query)?;
    Ok(NameOrder::Call(NameCall::Allow { path }))
}

fn disallow(alloc: Global, query: &Query) -> Result<NameOrder, NameRestFault>
    ensures ok { IfOk result (λ order. spec.order_of op.Disallow query.now ≡ Ok order) }
    ensures err { IfErr result
        (λ e. ¬ (e ≡ NameRestFault.NoMemory) → spec.order_of op.Disallow query.now ≡ Err e) }
{
    let path = path_in(alloc, query)?;
    Ok(NameOrder::Call(NameCall::Disallow { path }))
}

fn status(alloc: Global, query: &Query) -> Result<NameOrder, NameRestFault>
    ensures ok { IfOk result (λ order. spec.order_of op.Status query.now ≡ Ok order) }
    ensures err { IfErr result
        (λ e. ¬ (e ≡ NameRestFault.NoMemory) → spec.order_of op.Status query.now ≡ Err e) }
{
    let path = path_in(alloc, query)?;
    Ok(NameOrder::Call(NameCall::Status { path }))
}

fn info(alloc: Global, query: &Query) -> Result<NameOrder, NameRestFault>
    ensures ok { IfOk result (λ order. spec.order_of op.Info query.now ≡ Ok order) }
    ensures err { IfErr result
        (λ e. ¬ (e ≡ NameRestFault.NoMemory) → spec.order_of op.Info query.now ≡ Err e) }
{
    let path = any_path_in(alloc, query)?;
    Ok(NameOrder::Call(NameCall::Info { path }))
}

fn list(alloc: Global, query: &Query) -> Result<NameOrder, NameRestFault>
    ensures ok { IfOk result (λ order. spec.order_of op.List query.now ≡ Ok order) }
    ensures err { IfErr result
        (λ e. ¬ (e ≡ NameRestFault.NoMemory) → spec.order_of op.List query.now ≡ Err e) }
{
    let path = any_path_in(alloc, query)?;
    Ok(NameOrder::Call(NameCall::List { path }))
}

fn delete(alloc: Global, query: &Query) -> Result<NameOrder, NameRestFault>
    ensures ok { IfOk result (λ order. spec.order_of op.Delete query.now ≡ Ok order) }
    ensures err { IfErr result
        (λ e. ¬ (e ≡ NameRestFault.NoMemory) → spec.order_of op.Delete query.now ≡ Err e) }
{
    let text = needed(query, b"path")?;
    let recursive = read_recursive(query)?;
    let path = read_path(alloc, text)?;
    Ok(NameOrder::Call(NameCall::Delete { path, recursive }))
}

fn rename(alloc: Global, query: &Query) -> Result<NameOrder, NameRestFault>
    ensures ok { IfOk result (λ order. spec.order_of op.Rename query.now ≡ Ok order) }
    ensures err { IfErr result
        (λ e. ¬ (e ≡ NameRestFault.NoMemory) → spec.order_of op.Rename query.now ≡ Err e) }
{
    let text = needed(query, b"path")?;
    let to = needed(query, b"to")?;
    let path = read_path(alloc, text)?;
    let to = read_path(alloc, to)?;
    Ok(NameOrder::Call(NameCall::Rename { path, to }))
}

fn zone(alloc: Global, query: &Query) -> Result<NameOrder, NameRestFault>
    ensures ok { IfOk result (λ order. spec.order_of op.Zone query.now ≡ Ok order) }
    ensures err { IfErr result
        (λ e. ¬ (e ≡ NameRestFault.NoMemory) → spec.order_of op.Zone query.now ≡ Err e) }
{
    let text = needed(query, b"path")?;
    let key = key_in(query)?;
    let path = read_path(alloc, text)?;
    Ok(NameOrder::Ask(Ask::Zone { path, key }))
}

fn snapshot(alloc: Global, query: &Query) -> Result<NameOrder, NameRestFault>
    ensures ok { IfOk result (λ order. spec.order_of op.Snapshot query.now ≡ Ok order) }
    ensures err { IfErr result
        (λ e. ¬ (e ≡ NameRestFault.NoMemory) → spec.order_of op.Snapshot query.now ≡ Err e) }
{
    let text = needed(query, b"path")?;
    let name = needed(query, b"name")?;
    let path = read_path(alloc, text)?;
    let name = read_snapshot_name(alloc, name)?;
    Ok(NameOrder::Call(NameCall::Snap { path, name }))
}

fn unsnapshot(alloc: Global, query: &Query) -> Result<NameOrder, NameRestFault>
    ensures ok { IfOk result (λ order. spec.order_of op.Unsnapshot query.now ≡ Ok order) }
    ensures err { IfErr result
        (λ e. ¬ (e ≡ NameRestFault.NoMemory) → spec.order_of op.Unsnapshot query.now ≡ Err e) }
{
    let text = needed(query, b"path")?;
    let name = needed(query, b"name")?;
    let path = read_path(alloc, text)?;
    let name = read_snapshot_name(alloc, name)?;
    Ok(NameOrder::Call(NameCall::Unsnap { path, name }))
}
