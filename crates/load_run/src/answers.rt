//! What a load reads in the answer to an event.
ghost use Rattle.std.specs.Prelude.{◌≡◌, false, option_map, IfOk};
ghost use Rattle.load_run.specs.Answers.{done_by, done_in, drawn_lacks, drawn_refused, is_completed, is_refused, key_lacks, key_refused, keys_given, keys_in, keys_lack, lacks, name_lacks, name_refused, names_lack, none_failed, reencrypted_by, status_given, status_in, versions_given, versions_in};

use hk_base::NoMemory;
use hk_events::Line;
use kms_calls::{KmsRefusal, KmsReply};
use name_calls::{NameRefusal, NameReply, ZoneStatus};

fn key_refused(reply: &KmsReply) -> bool
    ensures { result ≡ key_refused reply.now }
{
    match reply {
        KmsReply::Refused(_) => true,
        _ => false,
    }
}

fn drawn_refused(reply: &Option<KmsReply>) -> bool
    ensures { result ≡ drawn_refused reply.now }
{
    match reply {
        None => false,
        Some(reply) => key_refused(reply),
    }
}

fn name_refused(reply: &NameReply) -> bool
    ensures { result ≡ name_refused reply.now }
{
    match reply {
        NameReply::Refused(_) => true,
        _ => false,
    }
}

/// Returns whether an event is refused, or the call of the key management service that it makes.
pub(crate) fn is_refused(answer: &Line) -> bool
    ensures { result ≡ is_refused answer.now }
{
    match answer {
        Line::Kms(reply) => key_refused(reply),
        Line::Name(reply) => name_refused(reply),
        Line::Replied { reply, .. } => drawn_refused(reply),
        Line::Refused(_) => true,
        _ => false,
    }
}

fn keys_lack(why: KmsRefusal) -> bool
    ensures { result ≡ keys_lack why }
{
    match why {
        KmsRefusal::NoMemory => true,
        KmsRefusal::StoreFault => true,
        _ => false,
    }
}

fn names_lack(why: NameRefusal) -> bool
    ensures { result ≡ names_lack why }
{
    match why {
        NameRefusal::NoMemory => true,
        NameRefusal::StoreFault => true,
        _ => false,
    }
}

fn key_lacks(reply: &KmsReply) -> bool
    ensures { result ≡ key_lacks reply.now }
{
    match reply {
        KmsReply::Refused(why) => keys_lack(*why),
        _ => false,
    }
}

fn drawn_lacks(reply: &Option<KmsReply>) -> bool
    ensures { result ≡ drawn_lacks reply.now }
{
    match reply {
        None => false,
        Some(reply) => key_lacks(reply),
    }
}

fn name_lacks(reply: &NameReply) -> bool
    ensures { result ≡ name_lacks reply.now }
{
    match reply {
        NameReply::Refused(why) => names_lack(*why),
        _ => false,
    }
}

fn lacks(answer: &Line) -> bool
    ensures { result ≡ lacks answer.now }
{
    match answer {
        Line::Kms(reply) => key_lacks(reply),
        Line::Name(reply) => name_lacks(reply),
        Line::Replied { reply, .. } => drawn_lacks(reply),
        Line::Refused(why) => names_lack(*why),
        _ => false,
    }
}

/// Returns an answer, or `NoMemory` if either service answers that allocation or the disk failed.
pub(crate) fn unless_lacking(answer: Line) -> Result<Line, NoMemory>
    ensures same { IfOk result (λ given. given ≡ answer) }
    ensures lacks { IfOk result (λ given. lacks given ≡ false) }
{
    if lacks(&answer) {
        drop(answer);
        return Err(NoMemory);
    }
    Ok(answer)
}

fn done_by(reply: &NameReply) -> u64
    ensures { result ≡ done_by reply.now }
{
    match reply {
        NameReply::Done => 1,
        _ => 0,
    }
}

/// Returns 1 if a call of the namesystem was done, and otherwise 0.
pub(crate) fn done_in(answer: &Line) -> u64
    ensures { result ≡ done_in answer.now }
{
    match answer {
        Line::Name(reply) => done_by(reply),
        _ => 0,
    }
}

fn versions_given(reply: &KmsReply) -> u64
    ensures { result ≡ versions_given reply.now }
{
    match reply {
        KmsReply::Version { .. } => 1,
        _ => 0,
    }
}

/// Returns 1 if a version of a key was given, and otherwise 0.
pub(crate) fn versions_in(answer: &Line) -> u64
    ensures { result ≡ versions_in answer.now }
{
    match answer {
        Line::Kms(reply) => versions_given(reply),
        _ => 0,
    }
}

fn keys_given(reply: &KmsReply) -> u64
    ensures { result ≡ keys_given reply.now }
{
    match reply {
        KmsReply::Ready(keys) => keys.as_slice().len() as u64,
        _ => 0,
    }
}

/// Returns the number of encrypted keys in an answer.
pub(crate) fn keys_in(answer: &Line) -> u64
    ensures { result ≡ keys_in answer.now }
{
    match answer {
        Line::Kms(reply) => keys_given(reply),
        _ => 0,
    }
}

fn status_given(reply: &NameReply) -> Option<&ZoneStatus>
    ensures { option_map (λ status. status.now) result ≡ status_given reply.now }
{
    match reply {
        NameReply::Status(Some(status)) => Some(status),
        _ => None,
    }
}

/// Returns the status of a zone, if the answer is one.
pub(crate) fn status_in(answer: &Line) -> Option<&ZoneStatus>
    ensures { option_map (λ status. status.now) result ≡ status_in answer.now }
{
    match answer {
        Line::Name(reply) => status_given(reply),
        _ => None,
    }
}

/// Returns the number of files that got another encrypted key, by the status in an answer.
pub(crate) fn reencrypted_in(answer: &Line) -> u64
    ensures { result ≡ reencrypted_by (status_in answer.now) }
{
    match status_in(answer) {
        None => 0,
        Some(status) => status.reencrypted,
    }
}

/// Returns whether the answer is a status by which no file failed.
pub(crate) fn none_failed(answer: &Line) -> bool
    ensures { result ≡ none_failed (status_in answer.now) }
{
    match status_in(answer) {
        None => false,
        Some(status) => status.failed == 0,
    }
}

/// Returns whether a re-encryption is completed.
pub(crate) fn is_completed(answer: &Line) -> bool
    ensures { result ≡ is_completed answer.now }
{
    match answer {
        Line::Completed => true,
        _ => false,
    }
}
