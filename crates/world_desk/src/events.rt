//! The events of an order.
ghost use Rattle.std.specs.Prelude.{◌≡◌, ◌++◌, IfOk, OnOk, option_map};
ghost use Rattle.name_calls.specs.Paths.{names_text, path_text};
ghost use Rattle.hk_events.specs.declared.event.Event.TheVariants as event;
ghost use Rattle.world_desk.specs.Orders.{event_numbered, event_of_ask, event_of_call, first_event, next_in_order, read_path_text, reply_of, submitted_by, text_in_snapshot};

use hk_base::{ByteList, NoMemory, Text};
use hk_events::{Event, Line};
use name_calls::{Ask, NPath, NameCall, NameRefusal, NameReply, ReadPath, SnapPart};
use name_rest::NameOrder;
use std::alloc::Global;

/// Returns the text form of a path.
fn text_of(alloc: Global, path: &NPath) -> Result<ByteList, NoMemory>
    ensures { IfOk result (λ text. text ≡ path_text path.now) }
{
    let mut text = ByteList::new(alloc);
    path.write(&mut text)?;
    Ok(text)
}

/// Appends a `/` before each name; nothing for the root. If allocation fails, a prefix may have been
/// appended.
fn append_names(path: &NPath, out: &mut ByteList) -> Result<(), NoMemory>
    ensures { OnOk result (out.new ≡ out.old ++ names_text path.now) }
{
    if path.is_root() {
        return Ok(());
    }
    path.write(out)
}

/// Returns the text form of a path in a snapshot of a directory.
fn text_in_snapshot(alloc: Global, path: &NPath, part: &SnapPart) -> Result<ByteList, NoMemory>
    ensures { IfOk result (λ text. text ≡ text_in_snapshot path.now part.now) }
{
    let mut text = ByteList::new(alloc);
    append_names(path, &mut text)?;
    text.append(b"/.snapshot/")?;
    text.append(part.name.as_str().as_bytes())?;
    append_names(&part.below, &mut text)?;
    Ok(text)
}

/// Returns the text form of the path of an entry that is read.
fn text_of_read(alloc: Global, path: &ReadPath) -> Result<ByteList, NoMemory>
    ensures { IfOk result (λ text. text ≡ read_path_text path.now) }
{
    match &path.snapshot {
        None => text_of(alloc, &path.path),
        Some(part) => text_in_snapshot(alloc, &path.path, part),
    }
}

/// Copies a name.
fn bytes_of(alloc: Global, name: &Text) -> Result<ByteList, NoMemory>
    ensures { IfOk result (λ bytes. bytes ≡ name.now) }
{
    let mut bytes = ByteList::new(alloc);
    bytes.append(name.as_str().as_bytes())?;
    Ok(bytes)
}

fn event_of_mkdir(alloc: Global, user: Text, path: &NPath) -> Result<Event, NoMemory>
    ensures { IfOk result (λ e. e ≡ event.Mkdir user (path_text path.now)) }
{
    let path = text_of(alloc, path)?;
    Ok(Event::Mkdir { user, path })
}

fn event_of_delete(
    alloc: Global,
    user: Text,
    path: &NPath,
    recursive: bool,
) -> Result<Event, NoMemory>
    ensures { IfOk result (λ e. e ≡ event.Delete user (path_text path.now) recursive) }
{
    let path = text_of(alloc, path)?;
    Ok(Event::Delete {
        user,
        path,
        recursive,
    })
}

fn event_of_rename(alloc: Global, user: Text, path: &NPath, to: &NPath) -> Result<Event, NoMemory>
    ensures { IfOk result (λ e. e ≡ event.Rename user (path_text path.now) (path_text to.now)) }
{
    let path = text_of(alloc, path)?;
    let to = text_of(alloc, to)?;
    Ok(Event::Rename { user, path, to })
}

fn event_of_snap(alloc: Global, user: Text, path: &NPath, name: &Text) -> Result<Event, NoMemory>
    ensures { IfOk result (λ e. e ≡ event.Snap user (path_text path.now) name.now) }
{
    let path = text_of(alloc, path)?;
    let name = bytes_of(alloc, name)?;
    Ok(Event::Snap { user, path, name })
}

fn event_of_unsnap(alloc: Global, user: Text, path: &NPath, name: &Text) -> Result<Event, NoMemory>
    ensures { IfOk result (λ e. e ≡ event.Unsnap user (path_text path.now) name.now) }
{
    let path = text_of(alloc, path)?;
    let name = bytes_of(alloc, name)?;
    Ok(Event::Unsnap { user, path, name })
}

fn event_of_info(alloc: Global, user: Text, path: &ReadPath) -> Result<Event, NoMemory>
    ensures { IfOk result (λ e. e ≡ event.Info user (read_path_text path.now)) }
{
    let path = text_of_read(alloc, path)?;
    Ok(Event::Info { user, path })
}

fn event_of_list(alloc: Global, user: Text, path: &ReadPath) -> Result<Event, NoMemory>
    ensures { IfOk result (λ e. e ≡ event.List user (read_path_text path.now)) }
{
    let path = text_of_read(alloc, path)?;
    Ok(Event::List { user, path })
}

fn event_of_allow(alloc: Global, user: Text, path: &NPath) -> Result<Event, NoMemory>
    ensures { IfOk result (λ e. e ≡ event.Allow user (path_text path.now)) }
{
    let path = text_of(alloc, path)?;
    Ok(Event::Allow { user, path })
}

fn event_of_disallow(alloc: Global, user: Text, path: &NPath) -> Result<Event, NoMemory>
    ensures { IfOk result (λ e. e ≡ event.Disallow user (path_text path.now)) }
{
    let path = text_of(alloc, path)?;
    Ok(Event::Disallow { user, path })
}

fn event_of_cancel(alloc: Global, user: Text, path: &NPath) -> Result<Event, NoMemory>
    ensures { IfOk result (λ e. e ≡ event.Cancel user (path_text path.now)) }
{
    let path = text_of(alloc, path)?;
    Ok(Event::Cancel { user, path })
}

fn event_of_status(alloc: Global, user: Text, path: &NPath) -> Result<Event, NoMemory>
    ensures { IfOk result (λ e. e ≡ event.Status user (path_text path.now)) }
{
    let path = text_of(alloc, path)?;
    Ok(Event::Status { user, path })
}

/// Returns the event of a call of the namesystem.
fn event_of_call(alloc: Global, user: Text, call: &NameCall) -> Result<Event, NoMemory>
    ensures { IfOk result (λ e. e ≡ event_of_call user call.now) }
{
    match call {
        NameCall::Mkdir { path } => event_of_mkdir(alloc, user, path),
        NameCall::Delete { path, recursive } => event_of_delete(alloc, user, path, *recursive),
        NameCall::Rename { path, to } => event_of_rename(alloc, user, path, to),
        NameCall::Info { path } => event_of_info(alloc, user, path),
        NameCall::List { path } => event_of_list(alloc, user, path),
        NameCall::Allow { path } => event_of_allow(alloc, user, path),
        NameCall::Disallow { path } => event_of_disallow(alloc, user, path),
        NameCall::Snap { path, name } => event_of_snap(alloc, user, path, name),
        NameCall::Unsnap { path, name } => event_of_unsnap(alloc, user, path, name),
        NameCall::Cancel { path } => event_of_cancel(alloc, user, path),
        NameCall::Status { path } => event_of_status(alloc, user, path),
        NameCall::Zones => Ok(Event::Zones { user }),
    }
}

/// Returns the event of an ask.
fn event_of_ask(alloc: Global, user: Text, ask: &Ask) -> Result<Event, NoMemory>
    ensures { IfOk result (λ e. e ≡ event_of_ask user ask.now) }
{
    match ask {
        Ask::Create { path } => {
            let path = text_of(alloc, path)?;
            Ok(Event::AskCreate { user, path })
        }
        Ask::Zone { path, key } => {
            let path = text_of(alloc, path)?;
            Ok(Event::AskZone {
                user,
                path,
                key: *key,
            })
        }
        Ask::Submit { path } => {
            let path = text_of(alloc, path)?;
            Ok(Event::AskSubmit { user, path })
        }
    }
}

/// Returns the first event of an order.
pub(crate) fn first_event(alloc: Global, user: Text, order: &NameOrder) -> Result<Event, NoMemory>
    ensures { IfOk result (λ e. e ≡ first_event user order.now) }
{
    match order {
        NameOrder::Call(call) => event_of_call(alloc, user, call),
        NameOrder::Ask(ask) => event_of_ask(alloc, user, ask),
    }
}

/// Returns the event that makes the call of a kept ask, or `None` if events have no such number.
fn draw_event(number: u64) -> Option<Event>
    ensures { result ≡ event_numbered (λ n. event.Draw n) number }
{
    if number > u32::MAX as u64 {
        return None;
    }
    Some(Event::Draw { ask: number as u32 })
}

/// Returns the event that finishes an ask by a kept reply, or `None` if events have no such number.
fn finish_event(number: u64) -> Option<Event>
    ensures { result ≡ event_numbered (λ n. event.Finish n) number }
{
    if number > u32::MAX as u64 {
        return None;
    }
    Some(Event::Finish {
        reply: number as u32,
    })
}

/// Returns the event that follows an answer within an order.
pub(crate) fn next_event(answer: &Line) -> Option<Event>
    ensures { result ≡ next_in_order answer.now }
{
    match answer {
        Line::Asked { number, .. } => draw_event(*number),
        Line::Replied { number, .. } => finish_event(*number),
        _ => None,
    }
}

/// Returns the reply of an order whose last event was answered so.
pub(crate) fn reply_of(answer: Line) -> NameReply
    ensures { result ≡ reply_of answer }
{
    match answer {
        Line::Name(reply) => reply,
        Line::Refused(why) => NameReply::Refused(why),
        _ => NameReply::Refused(NameRefusal::NoMemory),
    }
}

/// Returns the zone whose re-encryption was submitted, if one was.
pub(crate) fn submitted_by<'a>(order: &'a NameOrder, reply: &NameReply) -> Option<&'a NPath>
    ensures { option_map (λ zone. zone.now) result ≡ submitted_by order.now reply.now }
{
    match (order, reply) {
        (NameOrder::Ask(Ask::Submit { path }), NameReply::Done) => Some(path),
        _ => None,
    }
}
