//! Refusals as text.
ghost use Rattle.std.specs.Prelude.{◌≡◌, ◌++◌, IfOk, OnErr, OnOk, codes};
ghost use Rattle.std.specs.Fmt.{decimal};
ghost use Rattle.std.specs.String.{string_bytes};
ghost use Rattle.kms_calls.specs.Refusals.{refusal_text};
ghost use Rattle.name_text.specs.Refusals.{name_refusal_text, refusal_name, refusal_number, refusal_values};

use crate::pieces::{write_number, write_text};
use hk_base::{ByteList, NoMemory};
use kms_calls::KmsRefusal;
use name_calls::NameRefusal;
use std::alloc::Global;

/// Appends the text of the refusal. If allocation fails, `out` is unchanged.
pub fn write_name_refusal(
    alloc: Global,
    why: &NameRefusal,
    out: &mut ByteList,
) -> Result<(), NoMemory>
    ensures ok { OnOk result (out.new ≡ out.old ++ name_refusal_text why.now) }
    ensures err { OnErr result (out.new ≡ out.old) }
{
    let text = refusal_text(alloc, why)?;
    out.append(text.as_bytes())
}

/// Returns the text of the refusal: its number, a space and its name. AskGone also has the number of
/// the opening and the counter of its next id, and KeyRefused the text of the refusal that it carries.
pub fn refusal_text(alloc: Global, why: &NameRefusal) -> Result<String, NoMemory>
    ensures { IfOk result (λ text. string_bytes text ≡ name_refusal_text why.now) }
{
    let mut text = String::new(alloc);
    write_refusal(alloc, why, &mut text)?;
    Ok(text)
}

pub(crate) fn write_refusal(
    alloc: Global,
    why: &NameRefusal,
    out: &mut String,
) -> Result<(), NoMemory>
    ensures { OnOk result
        (string_bytes out.new ≡ string_bytes out.old ++ name_refusal_text why.now) }
{
    write_text("N", out)?;
    write_number(refusal_number(why), out)?;
    write_text(" ", out)?;
    write_text(refusal_name(why), out)?;
    write_values(alloc, why, out)
}

fn refusal_number(why: &NameRefusal) -> u64
    ensures { result ≡ refusal_number why.now }
{
    match why {
        NameRefusal::BadPath => 1,
        NameRefusal::NoSuchPath => 2,
        NameRefusal::Exists => 3,
        NameRefusal::NotADirectory => 4,
        NameRefusal::NotEmpty => 5,
        NameRefusal::NotSuperuser => 6,
        NameRefusal::AlreadyInZone => 7,
        NameRefusal::NotAZoneRoot => 8,
        NameRefusal::CrossZone => 9,
        NameRefusal::UnderReencryption => 10,
        NameRefusal::HasSnapshots => 11,
        NameRefusal::NotSnapshottable => 12,
        NameRefusal::SnapshotExists => 13,
        NameRefusal::NoSuchSnapshot => 14,
        NameRefusal::TooManySnapshots => 15,
        NameRefusal::AskGone { .. } => 16,
        NameRefusal::ZoneChanged => 17,
        NameRefusal::AlreadySubmitted => 18,
        NameRefusal::NotSubmitted => 19,
        NameRefusal::TooManyInodes => 20,
        NameRefusal::KeyRefused(_) => 21,
        NameRefusal::NoMemory => 22,
        NameRefusal::StoreFault => 23,
        NameRefusal::NestedSnapshottable => 24,
        NameRefusal::RootOrInside => 25,
    }
}

/// Returns the name of the refusal.
pub fn refusal_name(why: &NameRefusal) -> &'static str
    ensures { result.now ≡ refusal_name why.now }
{
    match why {
        NameRefusal::BadPath => "BadPath",
        NameRefusal::NoSuchPath => "NoSuchPath",
        NameRefusal::Exists => "Exists",
        NameRefusal::NotADirectory => "NotADirectory",
        NameRefusal::NotEmpty => "NotEmpty",
        NameRefusal::NotSuperuser => "NotSuperuser",
        NameRefusal::AlreadyInZone => "AlreadyInZone",
        NameRefusal::NotAZoneRoot => "NotAZoneRoot",
        NameRefusal::CrossZone => "CrossZone",
        NameRefusal::UnderReencryption => "UnderReencryption",
        NameRefusal::HasSnapshots => "HasSnapshots",
        NameRefusal::NotSnapshottable => "NotSnapshottable",
        NameRefusal::SnapshotExists => "SnapshotExists",
        NameRefusal::NoSuchSnapshot => "NoSuchSnapshot",
        NameRefusal::TooManySnapshots => "TooManySnapshots",
        NameRefusal::AskGone { .. } => "AskGone",
        NameRefusal::ZoneChanged => "ZoneChanged",
        NameRefusal::AlreadySubmitted => "AlreadySubmitted",
        NameRefusal::NotSubmitted => "NotSubmitted",
        NameRefusal::TooManyInodes => "TooManyInodes",
        NameRefusal::KeyRefused(_) => "KeyRefused",
        NameRefusal::NoMemory => "NoMemory",
        NameRefusal::StoreFault => "StoreFault",
        NameRefusal::NestedSnapshottable => "NestedSnapshottable",
        NameRefusal::RootOrInside => "RootOrInside",
    }
}

/// Appends the values of the refusal, if it has some.
fn write_values(alloc: Global, why: &NameRefusal, out: &mut String) -> Result<(), NoMemory>
    ensures { OnOk result (string_bytes out.new ≡ string_bytes out.old ++ refusal_values why.now) }
{
    match why {
        NameRefusal::AskGone { opening, next } => write_counters(*opening, *next, out),
        NameRefusal::KeyRefused(refused) => write_key_refusal(alloc, refused, out),
        _ => Ok(()),
    }
}

/// Appends the number of the opening and the counter of its next id.
fn write_counters(opening: u32, next: u64, out: &mut String) -> Result<(), NoMemory>
    ensures { OnOk result
        (string_bytes out.new ≡
        string_bytes out.old ++ codes " " ++ decimal opening ++ codes " " ++ decimal next) }
{
    write_text(" ", out)?;
    write_number(opening as u64, out)?;
    write_text(" ", out)?;
    write_number(next, out)
}

/// Appends the refusal of the key management service.
fn write_key_refusal(alloc: Global, refused: &KmsRefusal, out: &mut String) -> Result<(), NoMemory>
    ensures { OnOk result
        (string_bytes out.new ≡ string_bytes out.old ++ codes " " ++ refusal_text refused.now) }
{
    write_text(" ", out)?;
    write_kms_refusal(alloc, refused, out)
}

fn write_kms_refusal(alloc: Global, refused: &KmsRefusal, out: &mut String) -> Result<(), NoMemory>
    ensures { OnOk result
        (string_bytes out.new ≡ string_bytes out.old ++ refusal_text refused.now) }
{
    let mut bytes = ByteList::new(alloc);
    refused.write(&mut bytes)?;
    let text = str::from_utf8(bytes.as_slice()).unwrap();
    write_text(text, out)
}
