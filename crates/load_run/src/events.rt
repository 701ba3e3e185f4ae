//! The events of a task.
ghost use Rattle.std.specs.Prelude.{◌≡◌, ◌++◌, [], false, None, Some, IfOk, IfSome, OnOk};
ghost use Rattle.std.specs.Fmt.{decimal};
ghost use Rattle.hk_events.specs.declared.event.Event.TheVariants as event;
ghost use Rattle.kms_calls.specs.declared.calls.KmsCall.TheVariants as key_call;
ghost use Rattle.name_core.specs.Calls.{superuser};
ghost use Rattle.world_run.specs.Drives.{next_event as next_in_drive};
ghost use Rattle.load_run.specs.Advances.{IsAdvance};
ghost use Rattle.load_run.specs.Tasks.{file_path, first_event, key_event, key_name, next_event, next_in_ask, snapshot_name, zone_path};

use crate::task::Task;
use hk_base::{ByteList, KeyName, NoMemory, Text};
use hk_events::{Event, Line};
use itoa::Buffer;
use kms_calls::{Description, KmsCall};
use name_core::superuser;
use std::alloc::Global;

/// Appends a text and a number.
fn append_numbered(out: &mut ByteList, text: &[u8], number: u32) -> Result<(), NoMemory>
    ensures { OnOk result (out.new ≡ out.old ++ text.now ++ decimal number) }
{
    out.append(text)?;
    let mut digits = Buffer::new();
    out.append(digits.format(number).as_bytes())
}

/// Returns a text followed by a number.
fn numbered(alloc: Global, text: &[u8], number: u32) -> Result<ByteList, NoMemory>
    ensures { IfOk result (λ made. made ≡ text.now ++ decimal number) }
{
    let mut made = ByteList::new(alloc);
    append_numbered(&mut made, text, number)?;
    Ok(made)
}

/// Returns the name of the key of a zone.
fn key_name(alloc: Global, zone: u32) -> Result<KeyName, NoMemory>
    ensures { IfOk result (λ name. name ≡ key_name zone) }
{
    let text = numbered(alloc, b"key", zone)?;
    // Three letters and at most ten digits are a name.
    KeyName::read(text.as_slice()).ok_or(NoMemory)
}

/// Returns the path of a zone.
fn zone_path(alloc: Global, zone: u32) -> Result<ByteList, NoMemory>
    ensures { IfOk result (λ path. path ≡ zone_path zone) }
{
    numbered(alloc, b"/z", zone)
}

/// Returns the path of a file in a zone.
fn file_path(alloc: Global, zone: u32, file: u32) -> Result<ByteList, NoMemory>
    ensures { IfOk result (λ path. path ≡ file_path zone file) }
{
    let mut path = zone_path(alloc, zone)?;
    append_numbered(&mut path, b"/f", file)?;
    Ok(path)
}

/// Returns the event of a call of the key management service.
fn key_event(alloc: Global, call: KmsCall) -> Result<Event, NoMemory>
    ensures { IfOk result (λ e. e ≡ key_event call) }
{
    let user = superuser(alloc)?;
    Ok(Event::Kms { user, call })
}

fn make_key(alloc: Global, zone: u32) -> Result<Event, NoMemory>
    ensures { IfOk result (λ e. e ≡ key_event (key_call.Create (key_name zone) 128 None [])) }
{
    let name = key_name(alloc, zone)?;
    let description = Description::empty(alloc);
    key_event(
        alloc,
        KmsCall::Create {
            name,
            bits: 128,
            material: None,
            description,
        },
    )
}

fn make_directory(alloc: Global, zone: u32) -> Result<Event, NoMemory>
    ensures { IfOk result (λ e. e ≡ event.Mkdir superuser (zone_path zone)) }
{
    let path = zone_path(alloc, zone)?;
    let user = superuser(alloc)?;
    Ok(Event::Mkdir { user, path })
}

fn allow(alloc: Global, zone: u32) -> Result<Event, NoMemory>
    ensures { IfOk result (λ e. e ≡ event.Allow superuser (zone_path zone)) }
{
    let path = zone_path(alloc, zone)?;
    let user = superuser(alloc)?;
    Ok(Event::Allow { user, path })
}

fn make_zone(alloc: Global, zone: u32) -> Result<Event, NoMemory>
    ensures { IfOk result (λ e. e ≡ event.AskZone superuser (zone_path zone) (key_name zone)) }
{
    let key = key_name(alloc, zone)?;
    let path = zone_path(alloc, zone)?;
    let user = superuser(alloc)?;
    Ok(Event::AskZone { user, path, key })
}

fn make_file(alloc: Global, zone: u32, file: u32) -> Result<Event, NoMemory>
    ensures { IfOk result (λ e. e ≡ event.AskCreate superuser (file_path zone file)) }
{
    let path = file_path(alloc, zone, file)?;
    let user = superuser(alloc)?;
    Ok(Event::AskCreate { user, path })
}

fn delete(alloc: Global, zone: u32, file: u32) -> Result<Event, NoMemory>
    ensures { IfOk result (λ e. e ≡ event.Delete superuser (file_path zone file) false) }
{
    let path = file_path(alloc, zone, file)?;
    let user = superuser(alloc)?;
    Ok(Event::Delete {
        user,
        path,
        recursive: false,
    })
}

fn roll(alloc: Global, zone: u32) -> Result<Event, NoMemory>
    ensures { IfOk result (λ e. e ≡ key_event (key_call.Roll (key_name zone) None)) }
{
    let name = key_name(alloc, zone)?;
    key_event(
        alloc,
        KmsCall::Roll {
            name,
            material: None,
        },
    )
}

fn snap(alloc: Global, zone: u32, snapshot: u32) -> Result<Event, NoMemory>
    ensures { IfOk result
        (λ e. e ≡ event.Snap superuser (zone_path zone) (snapshot_name snapshot)) }
{
    let path = zone_path(alloc, zone)?;
    let name = numbered(alloc, b"s", snapshot)?;
    let user = superuser(alloc)?;
    Ok(Event::Snap { user, path, name })
}

fn generate(alloc: Global, zone: u32, count: u32) -> Result<Event, NoMemory>
    ensures { IfOk result (λ e. e ≡ key_event (key_call.Generate (key_name zone) count)) }
{
    let name = key_name(alloc, zone)?;
    key_event(alloc, KmsCall::Generate { name, count })
}

fn submit(alloc: Global, zone: u32) -> Result<Event, NoMemory>
    ensures { IfOk result (λ e. e ≡ event.AskSubmit superuser (zone_path zone)) }
{
    let path = zone_path(alloc, zone)?;
    let user = superuser(alloc)?;
    Ok(Event::AskSubmit { user, path })
}

fn walk(alloc: Global, zone: u32) -> Result<Event, NoMemory>
    ensures { IfOk result (λ e. e ≡ event.Walk (zone_path zone)) }
{
    let path = zone_path(alloc, zone)?;
    Ok(Event::Walk { path })
}

fn status(alloc: Global, zone: u32) -> Result<Event, NoMemory>
    ensures { IfOk result (λ e. e ≡ event.Status superuser (zone_path zone)) }
{
    let path = zone_path(alloc, zone)?;
    let user = superuser(alloc)?;
    Ok(Event::Status { user, path })
}

/// Returns the first event of a task.
pub(crate) fn first_event(alloc: Global, task: Task) -> Result<Event, NoMemory>
    ensures { IfOk result (λ e. e ≡ first_event task) }
{
    match task {
        Task::MakeKey { zone } => make_key(alloc, zone),
        Task::MakeDirectory { zone } => make_directory(alloc, zone),
        Task::Allow { zone } => allow(alloc, zone),
        Task::MakeZone { zone } => make_zone(alloc, zone),
        Task::MakeFile { zone, file } => make_file(alloc, zone, file),
        Task::Delete { zone, file } => delete(alloc, zone, file),
        Task::Roll { zone } => roll(alloc, zone),
        Task::Snap { zone, snapshot } => snap(alloc, zone, snapshot),
        Task::Generate { zone, count } => generate(alloc, zone, count),
        Task::Submit { zone } => submit(alloc, zone),
        Task::Drive { zone } => walk(alloc, zone),
        Task::Status { zone } => status(alloc, zone),
    }
}

/// What comes after an event of a task.
#[derive(Drop)]
pub(crate) enum Advance {
    /// The event that follows.
    Event(Event),
    /// No event follows.
    End,
    /// Allocation failed.
    NoMemory,
}

/// Returns the number of something kept as events have it, or `None` if it is too large: no memory
/// holds 2^32 of them.
fn event_number(number: u64) -> Option<u32>
    ensures { IfSome result (λ small. small ≡ number) }
{
    if number > u32::MAX as u64 {
        return None;
    }
    Some(number as u32)
}

fn draw(number: u64) -> Advance
    ensures { IsAdvance (Some (event.Draw number)) result }
{
    match event_number(number) {
        None => Advance::NoMemory,
        Some(ask) => Advance::Event(Event::Draw { ask }),
    }
}

fn finish(number: u64) -> Advance
    ensures { IsAdvance (Some (event.Finish number)) result }
{
    match event_number(number) {
        None => Advance::NoMemory,
        Some(reply) => Advance::Event(Event::Finish { reply }),
    }
}

fn serve(number: u64) -> Advance
    ensures { IsAdvance (Some (event.Serve number)) result }
{
    match event_number(number) {
        None => Advance::NoMemory,
        Some(batch) => Advance::Event(Event::Serve { batch }),
    }
}

fn deliver(number: u64) -> Advance
    ensures { IsAdvance (Some (event.Deliver number)) result }
{
    match event_number(number) {
        None => Advance::NoMemory,
        Some(reply) => Advance::Event(Event::Deliver { reply }),
    }
}

fn walk_again(alloc: Global, zone: u32) -> Advance
    ensures { IsAdvance (Some (event.Walk (zone_path zone))) result }
{
    match walk(alloc, zone) {
        Err(_) => Advance::NoMemory,
        Ok(next) => Advance::Event(next),
    }
}

fn after_in_ask(answer: &Line) -> Advance
    ensures { IsAdvance (next_in_ask answer.now) result }
{
    match answer {
        Line::Asked { number, .. } => draw(*number),
        Line::Replied { number, .. } => finish(*number),
        _ => Advance::End,
    }
}

fn after_in_drive(alloc: Global, zone: u32, answer: &Line) -> Advance
    ensures { IsAdvance (next_in_drive (zone_path zone) answer.now) result }
{
    match answer {
        Line::Batch { number, .. } => serve(*number),
        Line::Replied { number, .. } => deliver(*number),
        Line::Delivered(_) => walk_again(alloc, zone),
        _ => Advance::End,
    }
}

/// Returns what comes after an event of a task that was answered so.
pub(crate) fn after(alloc: Global, task: Task, answer: &Line) -> Advance
    ensures { IsAdvance (next_event task answer.now) result }
{
    match task {
        Task::MakeZone { .. } => after_in_ask(answer),
        Task::MakeFile { .. } => after_in_ask(answer),
        Task::Submit { .. } => after_in_ask(answer),
        Task::Drive { zone } => after_in_drive(alloc, zone, answer),
        _ => Advance::End,
    }
}
