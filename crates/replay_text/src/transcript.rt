//! Lines of the transcript.
ghost use Rattle.std.specs.Prelude.{◌≡◌, ◌++◌, OnErr, OnOk, codes};
ghost use Rattle.std.specs.Fmt.{decimal};
ghost use Rattle.std.specs.List.{flat_map};
ghost use Rattle.hex.specs.Hex.{encode_lower};
ghost use Rattle.hk_base.specs.Names.{version_text};
ghost use Rattle.kms_calls.specs.Refusals.{refusal_text};
ghost use Rattle.name_text.specs.Answers.{edek_part};
ghost use Rattle.name_text.specs.Refusals.{name_refusal_text};
ghost use Rattle.replay_text.specs.Transcript.{deposit_text, edek_text, kept_text, kms_answer_text, line_text, material_text, meta_part, meta_text, name_part, outcome_text, shown_part, ticket_text, want_text};

use crate::delivered::write_delivered;
use eek_seal::Deposit;
use hk_base::{ByteList, Dek, Edek, KeyName, NoMemory, VersionName};
use hk_events::Line;
use itoa::Buffer;
use kms_calls::{
    EdekList, KeyMeta, KeyVersion, KmsRefusal, KmsReply, MetaList, NameList, VersionList,
};
use name_calls::{AskNote, NameRefusal, Want};
use name_text::{write_answer, write_edek, write_name_refusal};
use std::alloc::Global;

/// Appends the line of an event's number and answer. Returns `NoMemory` if allocation fails; the list
/// is then unchanged.
pub fn write_line(
    alloc: Global,
    number: u64,
    outcome: &Line,
    out: &mut ByteList,
) -> Result<(), NoMemory>
    ensures ok { OnOk result (out.new ≡ out.old ++ line_text number outcome.now) }
    ensures err { OnErr result (out.new ≡ out.old) }
{
    // The line is appended as a whole, so that no prefix of it is left in `out`.
    let mut line = ByteList::new(alloc);
    write_parts(alloc, number, outcome, &mut line)?;
    out.append(line.as_slice())
}

/// Appends the line of an event's number and answer. If allocation fails, a prefix of the line may
/// have been appended.
fn write_parts(
    alloc: Global,
    number: u64,
    outcome: &Line,
    out: &mut ByteList,
) -> Result<(), NoMemory>
    ensures { OnOk result (out.new ≡ out.old ++ line_text number outcome.now) }
{
    write_number(number, out)?;
    out.push(b' ')?;
    write_outcome(alloc, outcome, out)?;
    out.push(b'\n')
}

pub(crate) fn write_number(number: u64, out: &mut ByteList) -> Result<(), NoMemory>
    ensures { OnOk result (out.new ≡ out.old ++ decimal number) }
{
    let mut digits = Buffer::new();
    out.append(digits.format(number).as_bytes())
}

fn write_outcome(alloc: Global, outcome: &Line, out: &mut ByteList) -> Result<(), NoMemory>
    ensures { OnOk result (out.new ≡ out.old ++ outcome_text outcome.now) }
{
    match outcome {
        Line::Kms(reply) => write_kms_answer(alloc, reply, out),
        Line::Ticket {
            number,
            version,
            wanted,
        } => write_ticket(*number, version, *wanted, out),
        Line::NoTicket => out.append(b"none"),
        Line::Deposit(deposit) => write_deposit(deposit, out),
        Line::Opened { opening } => write_opened(*opening, out),
        Line::Name(reply) => write_answer(alloc, reply, out),
        Line::Asked { number, note } => write_asked(*number, note, out),
        Line::Replied { number, reply } => write_replied(alloc, *number, reply, out),
        Line::Batch { number, files } => write_batch(*number, *files, out),
        Line::NoneLeft { outstanding } => write_none_left(*outstanding, out),
        Line::Completed => out.append(b"completed"),
        Line::Delivered(delivered) => write_delivered(*delivered, out),
        Line::Refused(why) => write_refused(alloc, why, out),
        Line::Unknown => out.append(b"unknown"),
    }
}

/// Appends a ticket that is kept.
fn write_ticket(
    number: u64,
    version: &VersionName,
    wanted: u16,
    out: &mut ByteList,
) -> Result<(), NoMemory>
    ensures { OnOk result (out.new ≡ out.old ++ ticket_text number version.now wanted) }
{
    out.append(b"ticket ")?;
    write_number(number, out)?;
    out.push(b' ')?;
    version.write(out)?;
    out.push(b' ')?;
    write_number(wanted as u64, out)
}

/// Appends the answer to a deposit.
fn write_deposit(deposit: &Deposit, out: &mut ByteList) -> Result<(), NoMemory>
    ensures { OnOk result (out.new ≡ out.old ++ deposit_text deposit.now) }
{
    match deposit {
        Deposit::Kept => out.append(b"kept"),
        Deposit::Stale {
            opening,
            birth,
            number,
        } => write_stale(*opening, *birth, *number, out),
        Deposit::Full => out.append(b"full"),
    }
}

/// Appends the answer to a deposit that is stale: the current opening, birth and number of the version.
fn write_stale(opening: u32, birth: u64, number: u16, out: &mut ByteList) -> Result<(), NoMemory>
    ensures { OnOk result
        (out.new ≡
        out.old ++ codes "stale " ++ decimal opening ++ codes " " ++ decimal birth ++
        codes " " ++ decimal number) }
{
    out.append(b"stale ")?;
    write_number(opening as u64, out)?;
    out.push(b' ')?;
    write_number(birth, out)?;
    out.push(b' ')?;
    write_number(number as u64, out)
}

/// Appends the answer to a restart.
fn write_opened(opening: u32, out: &mut ByteList) -> Result<(), NoMemory>
    ensures { OnOk result (out.new ≡ out.old ++ codes "opened " ++ decimal opening) }
{
    out.append(b"opened ")?;
    write_number(opening as u64, out)
}

/// Appends the answer to an ask that was accepted.
fn write_asked(number: u64, note: &AskNote, out: &mut ByteList) -> Result<(), NoMemory>
    ensures { OnOk result
        (out.new ≡
        out.old ++ codes "ask " ++ decimal number ++ codes " " ++ decimal note.now.id ++
        codes " " ++ want_text note.now.want) }
{
    out.append(b"ask ")?;
    write_number(number, out)?;
    out.push(b' ')?;
    write_number(note.id, out)?;
    out.push(b' ')?;
    write_want(&note.want, out)
}

fn write_want(want: &Want, out: &mut ByteList) -> Result<(), NoMemory>
    ensures { OnOk result (out.new ≡ out.old ++ want_text want.now) }
{
    match want {
        Want::Nothing => out.append(b"none"),
        Want::Generate(key) => {
            out.append(b"generate ")?;
            out.append(key.as_bytes())
        }
        Want::Metadata(key) => {
            out.append(b"metadata ")?;
            out.append(key.as_bytes())
        }
    }
}

/// Appends the answer to a draw or a serve.
fn write_replied(
    alloc: Global,
    number: u64,
    reply: &Option<KmsReply>,
    out: &mut ByteList,
) -> Result<(), NoMemory>
    ensures { OnOk result
        (out.new ≡
        out.old ++ codes "reply " ++ decimal number ++ codes " " ++ kept_text reply.now) }
{
    out.append(b"reply ")?;
    write_number(number, out)?;
    out.push(b' ')?;
    match reply {
        None => out.append(b"nothing"),
        Some(reply) => write_kms_answer(alloc, reply, out),
    }
}

/// Appends the answer to a walk that gave a batch.
fn write_batch(number: u64, files: u32, out: &mut ByteList) -> Result<(), NoMemory>
    ensures { OnOk result
        (out.new ≡ out.old ++ codes "batch " ++ decimal number ++ codes " " ++ decimal files) }
{
    out.append(b"batch ")?;
    write_number(number, out)?;
    out.push(b' ')?;
    write_number(files as u64, out)
}

/// Appends the answer to a walk that found no file, while batches are outstanding.
fn write_none_left(outstanding: u32, out: &mut ByteList) -> Result<(), NoMemory>
    ensures { OnOk result (out.new ≡ out.old ++ codes "noneleft " ++ decimal outstanding) }
{
    out.append(b"noneleft ")?;
    write_number(outstanding as u64, out)
}

fn write_refused(alloc: Global, why: &NameRefusal, out: &mut ByteList) -> Result<(), NoMemory>
    ensures { OnOk result (out.new ≡ out.old ++ codes "refused " ++ name_refusal_text why.now) }
{
    out.append(b"refused ")?;
    write_name_refusal(alloc, why, out)
}

fn write_kms_answer(alloc: Global, reply: &KmsReply, out: &mut ByteList) -> Result<(), NoMemory>
    ensures { OnOk result (out.new ≡ out.old ++ kms_answer_text reply.now) }
{
    match reply {
        KmsReply::Version { version, material } => write_version(alloc, version, material, out),
        KmsReply::Done => out.append(b"done"),
        KmsReply::Metadata(meta) => write_meta(meta, out),
        KmsReply::Metadatas(metas) => write_meta_list(metas, out),
        KmsReply::Names(names) => write_name_list(names, out),
        KmsReply::Versions(versions) => write_version_list(alloc, versions, out),
        KmsReply::Ready(edeks) => write_edek_list(alloc, edeks, out),
        KmsReply::Resealed(edek) => write_resealed(alloc, edek, out),
        KmsReply::Key(dek) => write_key(alloc, dek, out),
        KmsReply::Refused(why) => write_kms_refused(why, out),
    }
}

fn write_version(
    alloc: Global,
    version: &VersionName,
    material: &Option<Dek>,
    out: &mut ByteList,
) -> Result<(), NoMemory>
    ensures { OnOk result
        (out.new ≡
        out.old ++ codes "version " ++ version_text version.now.key version.now.number ++
        codes " " ++ material_text material.now) }
{
    out.append(b"version ")?;
    version.write(out)?;
    out.push(b' ')?;
    write_material(alloc, material, out)
}

fn write_meta_list(metas: &MetaList, out: &mut ByteList) -> Result<(), NoMemory>
    ensures { OnOk result (out.new ≡ out.old ++ codes "metas" ++ flat_map meta_part metas.now) }
{
    out.append(b"metas")?;
    write_metas(metas.as_slice(), out)
}

fn write_name_list(names: &NameList, out: &mut ByteList) -> Result<(), NoMemory>
    ensures { OnOk result (out.new ≡ out.old ++ codes "names" ++ flat_map name_part names.now) }
{
    out.append(b"names")?;
    write_names(names.as_slice(), out)
}

fn write_version_list(
    alloc: Global,
    versions: &VersionList,
    out: &mut ByteList,
) -> Result<(), NoMemory>
    ensures { OnOk result
        (out.new ≡ out.old ++ codes "versions" ++ flat_map shown_part versions.now) }
{
    out.append(b"versions")?;
    write_versions(alloc, versions.as_slice(), out)
}

fn write_edek_list(alloc: Global, edeks: &EdekList, out: &mut ByteList) -> Result<(), NoMemory>
    ensures { OnOk result (out.new ≡ out.old ++ codes "ready" ++ flat_map edek_text edeks.now) }
{
    out.append(b"ready")?;
    write_edeks(alloc, edeks.as_slice(), out)
}

fn write_resealed(alloc: Global, edek: &Edek, out: &mut ByteList) -> Result<(), NoMemory>
    ensures { OnOk result (out.new ≡ out.old ++ codes "resealed " ++ edek_part edek.now) }
{
    out.append(b"resealed ")?;
    write_edek(alloc, edek, out)
}

fn write_key(alloc: Global, dek: &Dek, out: &mut ByteList) -> Result<(), NoMemory>
    ensures { OnOk result (out.new ≡ out.old ++ codes "key " ++ encode_lower dek.now) }
{
    out.append(b"key ")?;
    write_hex(alloc, dek.as_bytes(), out)
}

fn write_kms_refused(why: &KmsRefusal, out: &mut ByteList) -> Result<(), NoMemory>
    ensures { OnOk result (out.new ≡ out.old ++ codes "refused " ++ refusal_text why.now) }
{
    out.append(b"refused ")?;
    why.write(out)
}

fn write_material(alloc: Global, material: &Option<Dek>, out: &mut ByteList) -> Result<(), NoMemory>
    ensures { OnOk result (out.new ≡ out.old ++ material_text material.now) }
{
    match material {
        None => out.push(b'-'),
        Some(material) => write_hex(alloc, material.as_bytes(), out),
    }
}

fn write_hex(alloc: Global, bytes: &[u8], out: &mut ByteList) -> Result<(), NoMemory>
    ensures { OnOk result (out.new ≡ out.old ++ encode_lower bytes.now) }
{
    out.append(hex::encode(alloc, bytes)?.as_bytes())
}

fn write_edeks(alloc: Global, edeks: &[Edek], out: &mut ByteList) -> Result<(), NoMemory>
    ensures { OnOk result (out.new ≡ out.old ++ flat_map edek_text edeks.now) }
{
    'edeks: for edek in edeks {
        write_ready_edek(alloc, edek, out)?;
    }
    Ok(())
}

fn write_ready_edek(alloc: Global, edek: &Edek, out: &mut ByteList) -> Result<(), NoMemory>
    ensures { OnOk result (out.new ≡ out.old ++ edek_text edek.now) }
{
    out.push(b' ')?;
    write_edek(alloc, edek, out)
}

fn write_metas(metas: &[KeyMeta], out: &mut ByteList) -> Result<(), NoMemory>
    ensures { OnOk result (out.new ≡ out.old ++ flat_map meta_part metas.now) }
{
    'metas: for meta in metas {
        write_meta_part(meta, out)?;
    }
    Ok(())
}

fn write_meta_part(meta: &KeyMeta, out: &mut ByteList) -> Result<(), NoMemory>
    ensures { OnOk result (out.new ≡ out.old ++ meta_part meta.now) }
{
    out.push(b' ')?;
    out.append(meta.name.as_bytes())?;
    out.push(b':')?;
    write_number(meta.bits as u64, out)?;
    out.push(b':')?;
    write_number(meta.versions as u64, out)?;
    out.push(b':')?;
    write_number(meta.created, out)
}

fn write_names(names: &[KeyName], out: &mut ByteList) -> Result<(), NoMemory>
    ensures { OnOk result (out.new ≡ out.old ++ flat_map name_part names.now) }
{
    'names: for name in names {
        write_name(name, out)?;
    }
    Ok(())
}

fn write_name(name: &KeyName, out: &mut ByteList) -> Result<(), NoMemory>
    ensures { OnOk result (out.new ≡ out.old ++ name_part name.now) }
{
    out.push(b' ')?;
    out.append(name.as_bytes())
}

fn write_versions(
    alloc: Global,
    versions: &[KeyVersion],
    out: &mut ByteList,
) -> Result<(), NoMemory>
    ensures { OnOk result (out.new ≡ out.old ++ flat_map shown_part versions.now) }
{
    'versions: for version in versions {
        write_shown(alloc, version, out)?;
    }
    Ok(())
}

fn write_shown(alloc: Global, shown: &KeyVersion, out: &mut ByteList) -> Result<(), NoMemory>
    ensures { OnOk result (out.new ≡ out.old ++ shown_part shown.now) }
{
    out.push(b' ')?;
    shown.version.write(out)?;
    out.push(b':')?;
    write_material(alloc, &shown.material, out)
}

fn write_meta(meta: &KeyMeta, out: &mut ByteList) -> Result<(), NoMemory>
    ensures { OnOk result (out.new ≡ out.old ++ meta_text meta.now) }
{
    out.append(b"meta ")?;
    out.append(meta.name.as_bytes())?;
    out.push(b' ')?;
    write_number(meta.bits as u64, out)?;
    out.push(b' ')?;
    write_number(meta.versions as u64, out)?;
    out.push(b' ')?;
    write_number(meta.created, out)
}
