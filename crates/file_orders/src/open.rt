//! Opening a file: its id, and the key of its body.
ghost use Rattle.std.specs.Prelude.{◌≡◌, IfOk};
ghost use Rattle.hk_events.specs.declared.event.Event.TheVariants as event;
ghost use Rattle.kms_calls.specs.declared.calls.KmsCall.TheVariants as call;
ghost use Rattle.file_orders.specs.Opening.{CreatesFile, Decrypts, Draws, FinishesCreate, OpensFile, OpensShown, as_sent, asked_in, dek_by, dek_in, file_with, finished_in, kept_under, replied_in, shown_by, shown_in};

use crate::ends::{FsEnd, end_of_keys, end_of_names};
use crate::events::Events;
use body_stream::BodyKey;
use hk_base::{ByteList, Dek, Edek, Iv, NoMemory, Text};
use hk_events::{Event, Line};
use kms_calls::{KmsCall, KmsReply, RawEdek};
use name_calls::NameReply;
use std::alloc::Global;

/// A file that was opened.
#[derive(Clone, Copy)]
pub struct OpenFile {
    pub id: u64,
    /// The key of its body, or `None` outside every zone.
    pub key: Option<BodyKey>,
}

/// A file that was found at a path.
#[derive(Clone, Copy)]
pub struct ShownFile {
    pub id: u64,
    /// Its encrypted key, or `None` outside every zone.
    pub edek: Option<Edek>,
}

/// Copies a text.
fn copy_text(alloc: Global, text: &Text) -> Result<Text, NoMemory>
    ensures { IfOk result (λ copy. copy ≡ text.now) }
{
    Ok(Text::of(String::from_str(alloc, text.as_str())?))
}

/// Copies bytes.
fn bytes_of(alloc: Global, bytes: &[u8]) -> Result<ByteList, NoMemory>
    ensures { IfOk result (λ list. list ≡ bytes.now) }
{
    Ok(ByteList::of(Vec::from_slice(alloc, bytes)?))
}

/// Makes the event that asks for a new file.
fn ask_event(alloc: Global, user: &Text, path: &Text) -> Result<Event, NoMemory>
    ensures { IfOk result (λ e. e ≡ event.AskCreate user.now path.now) }
{
    let user = copy_text(alloc, user)?;
    let path = bytes_of(alloc, path.as_str().as_bytes())?;
    Ok(Event::AskCreate { user, path })
}

/// Makes the event that asks what is at a path.
fn info_event(alloc: Global, user: &Text, path: &Text) -> Result<Event, NoMemory>
    ensures { IfOk result (λ e. e ≡ event.Info user.now path.now) }
{
    let user = copy_text(alloc, user)?;
    let path = bytes_of(alloc, path.as_str().as_bytes())?;
    Ok(Event::Info { user, path })
}

/// Returns the number under which an answer is kept, if events may have it.
fn kept_under(number: u64) -> Result<u32, FsEnd>
    ensures { result ≡ kept_under number }
{
    if number > u32::MAX as u64 {
        return Err(FsEnd::NoMemory);
    }
    Ok(number as u32)
}

/// Returns the number of the ask in an answer.
fn asked_in(answer: Line) -> Result<u32, FsEnd>
    ensures { result ≡ asked_in answer }
{
    match answer {
        Line::Asked { number, note: _ } => kept_under(number),
        Line::Refused(why) => Err(end_of_names(why)),
        _ => Err(FsEnd::NoMemory),
    }
}

/// Returns the number of the reply in an answer.
fn replied_in(answer: Line) -> Result<u32, FsEnd>
    ensures { result ≡ replied_in answer }
{
    match answer {
        Line::Replied { number, reply: _ } => kept_under(number),
        _ => Err(FsEnd::NoMemory),
    }
}

/// Returns why the file was not made, if it wasn't.
fn finished_in(answer: Line) -> Option<FsEnd>
    ensures { result ≡ finished_in answer }
{
    match answer {
        Line::Name(NameReply::Done) => None,
        Line::Refused(why) => Some(end_of_names(why)),
        _ => Some(FsEnd::NoMemory),
    }
}

/// Finishes the ask by the reply of this number.
fn finish<T: Events>(events: &mut T, replied: Result<u32, FsEnd>) -> Option<FsEnd>
    requires { T.ready events.old }
    ensures finishes { FinishesCreate T.leads replied events.old result events.new }
    ensures ready { T.ready events.new }
{
    match replied {
        Ok(reply) => finished_in(events.happen(Event::Finish { reply })),
        Err(why) => Some(why),
    }
}

/// Makes the call that the ask of this number wants, and finishes the ask.
fn draw<T: Events>(events: &mut T, asked: Result<u32, FsEnd>) -> Option<FsEnd>
    requires { T.ready events.old }
    ensures draws { Draws T.leads asked events.old result events.new }
    ensures ready { T.ready events.new }
{
    match asked {
        Ok(ask) => {
            let replied = replied_in(events.happen(Event::Draw { ask }));
            finish(events, replied)
        }
        Err(why) => Some(why),
    }
}

/// Makes a file for a user. Returns why it could not be made, if it couldn't.
pub(crate) fn make_file<T: Events>(
    alloc: Global,
    events: &mut T,
    user: &Text,
    path: &Text,
) -> Option<FsEnd>
    requires { T.ready events.old }
    ensures makes { CreatesFile T.leads user.now path.now events.old result events.new }
    ensures ready { T.ready events.new }
{
    match ask_event(alloc, user, path) {
        Ok(ask) => {
            let asked = asked_in(events.happen(ask));
            draw(events, asked)
        }
        Err(_) => Some(FsEnd::NoMemory),
    }
}

/// Returns the file that a reply shows.
fn shown_by(reply: NameReply) -> Result<ShownFile, FsEnd>
    ensures { result ≡ shown_by reply }
{
    match reply {
        NameReply::File { id, zone, edek } => {
            drop(zone);
            Ok(ShownFile { id, edek })
        }
        NameReply::Dir { .. } => Err(FsEnd::Directory),
        NameReply::Refused(why) => Err(end_of_names(why)),
        _ => Err(FsEnd::NoMemory),
    }
}

/// Returns the file that an answer shows.
fn shown_in(answer: Line) -> Result<ShownFile, FsEnd>
    ensures { result ≡ shown_in answer }
{
    match answer {
        Line::Name(reply) => shown_by(reply),
        _ => Err(FsEnd::NoMemory),
    }
}

/// Returns the data encryption key in a reply.
fn dek_by(reply: KmsReply) -> Result<Dek, FsEnd>
    ensures { result ≡ dek_by reply }
{
    match reply {
        KmsReply::Key(dek) => Ok(dek),
        KmsReply::Refused(why) => Err(end_of_keys(why)),
        _ => Err(FsEnd::NoMemory),
    }
}

/// Returns the data encryption key in an answer.
fn dek_in(answer: Line) -> Result<Dek, FsEnd>
    ensures { result ≡ dek_in answer }
{
    match answer {
        Line::Kms(reply) => dek_by(reply),
        _ => Err(FsEnd::NoMemory),
    }
}

/// Makes an encrypted key as a client sends it.
fn as_sent(alloc: Global, edek: &Edek) -> Result<RawEdek, NoMemory>
    ensures { IfOk result (λ sent. sent ≡ as_sent edek.now) }
{
    let iv = bytes_of(alloc, edek.iv.as_bytes())?;
    let sealed = bytes_of(alloc, edek.sealed.as_bytes())?;
    Ok(RawEdek {
        version: edek.version,
        iv,
        sealed,
    })
}

/// Makes the event that decrypts an encrypted key.
fn decrypt_event(alloc: Global, user: &Text, edek: &Edek) -> Result<Event, NoMemory>
    ensures { IfOk result
        (λ e. e ≡ event.Kms user.now (call.Decrypt edek.now.version.key (as_sent edek.now))) }
{
    let user = copy_text(alloc, user)?;
    let sent = as_sent(alloc, edek)?;
    let name = edek.version.key;
    Ok(Event::Kms {
        user,
        call: KmsCall::Decrypt { name, sent },
    })
}

/// Decrypts an encrypted key for a user.
fn decrypt<T: Events>(alloc: Global, events: &mut T, user: &Text, edek: &Edek) -> Result<Dek, FsEnd>
    requires { T.ready events.old }
    ensures decrypts { Decrypts T.leads user.now edek.now events.old result events.new }
    ensures ready { T.ready events.new }
{
    match decrypt_event(alloc, user, edek) {
        Ok(decrypt) => dek_in(events.happen(decrypt)),
        Err(_) => Err(FsEnd::NoMemory),
    }
}

/// Returns the file with this id and this initialization vector, if its key was decrypted.
fn file_with(id: u64, iv: Iv, dek: Result<Dek, FsEnd>) -> Result<OpenFile, FsEnd>
    ensures { result ≡ file_with id iv dek }
{
    match dek {
        Ok(dek) => Ok(OpenFile {
            id,
            key: Some(BodyKey { dek, iv }),
        }),
        Err(end) => Err(end),
    }
}

/// Opens a file that was found: decrypts its key for a user, if it has one.
pub fn open_shown<T: Events>(
    alloc: Global,
    events: &mut T,
    user: &Text,
    shown: Result<ShownFile, FsEnd>,
) -> Result<OpenFile, FsEnd>
    requires { T.ready events.old }
    ensures opens { OpensShown T.leads user.now shown events.old result events.new }
    ensures ready { T.ready events.new }
{
    let ShownFile { id, edek } = match shown {
        Ok(shown) => shown,
        Err(end) => return Err(end),
    };
    match edek {
        None => Ok(OpenFile { id, key: None }),
        Some(edek) => file_with(id, edek.iv, decrypt(alloc, events, user, &edek)),
    }
}

/// Opens the file at a path for a user. In a zone its key is decrypted.
pub(crate) fn open_file<T: Events>(
    alloc: Global,
    events: &mut T,
    user: &Text,
    path: &Text,
) -> Result<OpenFile, FsEnd>
    requires { T.ready events.old }
    ensures opens { OpensFile T.leads user.now path.now events.old result events.new }
    ensures ready { T.ready events.new }
{
    match info_event(alloc, user, path) {
        Ok(info) => {
            let shown = shown_in(events.happen(info));
            open_shown(alloc, events, user, shown)
        }
        Err(_) => Err(FsEnd::NoMemory),
    }
}
