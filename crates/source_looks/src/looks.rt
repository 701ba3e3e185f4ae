//! Reading the entries at and below a place by events, and the metadata of keys.
ghost use Rattle.std.specs.Prelude.{◌≡◌, IfOk};
ghost use Rattle.hk_events.specs.declared.event.Event.TheVariants as event;
ghost use Rattle.kms_calls.specs.declared.calls.KmsCall.TheVariants as call;
ghost use Rattle.place_texts.specs.Places.{place_below, read_path_text};
ghost use Rattle.source_looks.specs.Looks.{AsksKey, ListsDirectory, Looks, children_by, children_in, reply_in, row_by, row_in};

use file_orders::{Events, FsEnd, end_of_names};
use hk_base::{KeyName, NoMemory, Text};
use hk_events::{Event, Line};
use inode_tree::{Kind, Row};
use kms_calls::{KmsCall, KmsReply};
use name_calls::{ChildList, NPath, NameReply, ReadPath};
use place_texts::place_text;
use std::alloc::Global;

/// Copies a text.
fn copy_text(alloc: Global, text: &Text) -> Result<Text, NoMemory>
    ensures { IfOk result (λ copy. copy ≡ text.now) }
{
    Ok(Text::of(String::from_str(alloc, text.as_str())?))
}

/// Makes the event that asks what is below a place.
fn info_event(
    alloc: Global,
    user: &Text,
    place: &ReadPath,
    below: &NPath,
) -> Result<Event, NoMemory>
    ensures { IfOk result (λ e. e ≡
        event.Info user.now (read_path_text (place_below place.now below.now))) }
{
    let path = place_text(alloc, place, below)?;
    let user = copy_text(alloc, user)?;
    Ok(Event::Info { user, path })
}

/// Makes the event that lists a directory below a place.
fn list_event(
    alloc: Global,
    user: &Text,
    place: &ReadPath,
    below: &NPath,
) -> Result<Event, NoMemory>
    ensures { IfOk result (λ e. e ≡
        event.List user.now (read_path_text (place_below place.now below.now))) }
{
    let path = place_text(alloc, place, below)?;
    let user = copy_text(alloc, user)?;
    Ok(Event::List { user, path })
}

/// Makes the event that asks for the metadata of a key.
fn metadata_event(alloc: Global, user: &Text, key: KeyName) -> Result<Event, NoMemory>
    ensures { IfOk result (λ e. e ≡ event.Kms user.now (call.Metadata key)) }
{
    let user = copy_text(alloc, user)?;
    Ok(Event::Kms {
        user,
        call: KmsCall::Metadata { name: key },
    })
}

/// Returns the row that a reply shows.
fn row_by(reply: NameReply) -> Result<Row, FsEnd>
    ensures { result ≡ row_by reply }
{
    match reply {
        NameReply::Dir { id, zone, key } => {
            drop(zone);
            Ok(Row {
                id,
                kind: Kind::Dir { key },
            })
        }
        NameReply::File { id, zone, edek } => {
            drop(zone);
            Ok(Row {
                id,
                kind: Kind::File { edek },
            })
        }
        NameReply::Refused(why) => Err(end_of_names(why)),
        _ => Err(FsEnd::NoMemory),
    }
}

/// Returns the row that an answer shows.
fn row_in(answer: Line) -> Result<Row, FsEnd>
    ensures { result ≡ row_in answer }
{
    match answer {
        Line::Name(reply) => row_by(reply),
        _ => Err(FsEnd::NoMemory),
    }
}

/// Returns the entries that a reply lists.
fn children_by(reply: NameReply) -> Result<ChildList, FsEnd>
    ensures { result ≡ children_by reply }
{
    match reply {
        NameReply::List(children) => Ok(children),
        NameReply::Refused(why) => Err(end_of_names(why)),
        _ => Err(FsEnd::NoMemory),
    }
}

/// Returns the entries that an answer lists.
fn children_in(answer: Line) -> Result<ChildList, FsEnd>
    ensures { result ≡ children_in answer }
{
    match answer {
        Line::Name(reply) => children_by(reply),
        _ => Err(FsEnd::NoMemory),
    }
}

/// Returns the reply of the key management service in an answer.
fn reply_in(answer: Line) -> Result<KmsReply, FsEnd>
    ensures { result ≡ reply_in answer }
{
    match answer {
        Line::Kms(reply) => Ok(reply),
        _ => Err(FsEnd::NoMemory),
    }
}

/// Returns the row of the entry below a place, for a user.
pub fn look_at<T: Events>(
    alloc: Global,
    events: &mut T,
    user: &Text,
    place: &ReadPath,
    below: &NPath,
) -> Result<Row, FsEnd>
    requires { T.ready events.old }
    ensures looks { Looks T.leads user.now (place_below place.now below.now)
        events.old result events.new }
    ensures ready { T.ready events.new }
{
    match info_event(alloc, user, place, below) {
        Ok(info) => row_in(events.happen(info)),
        Err(_) => Err(FsEnd::NoMemory),
    }
}

/// Returns the entries of the directory below a place, for a user.
pub fn list_at<T: Events>(
    alloc: Global,
    events: &mut T,
    user: &Text,
    place: &ReadPath,
    below: &NPath,
) -> Result<ChildList, FsEnd>
    requires { T.ready events.old }
    ensures lists { ListsDirectory T.leads user.now (place_below place.now below.now)
        events.old result events.new }
    ensures ready { T.ready events.new }
{
    match list_event(alloc, user, place, below) {
        Ok(list) => children_in(events.happen(list)),
        Err(_) => Err(FsEnd::NoMemory),
    }
}

/// Returns the reply of the key management service to a user who asks for the metadata of a key.
pub fn metadata_of<T: Events>(
    alloc: Global,
    events: &mut T,
    user: &Text,
    key: KeyName,
) -> Result<KmsReply, FsEnd>
    requires { T.ready events.old }
    ensures asks { AsksKey T.leads user.now key events.old result events.new }
    ensures ready { T.ready events.new }
{
    match metadata_event(alloc, user, key) {
        Ok(ask) => reply_in(events.happen(ask)),
        Err(_) => Err(FsEnd::NoMemory),
    }
}
