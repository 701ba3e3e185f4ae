//! Answers as text.
ghost use Rattle.std.specs.Prelude.{◌≡◌, ◌++◌, IfOk, OnErr, OnOk, codes};
ghost use Rattle.std.specs.List.{flat_map};
ghost use Rattle.std.specs.String.{string_bytes};
ghost use Rattle.name_text.specs.Answers.{answer_text, child_part, edek_field, key_text, row_front, zone_part, zone_text};
ghost use Rattle.name_text.specs.Refusals.{name_refusal_text};

use crate::edeks::write_edek_field;
use crate::pieces::{write_escaped, write_key, write_number, write_path, write_text};
use crate::refusals::write_refusal;
use crate::status::write_status;
use hk_base::{ByteList, Edek, KeyName, NoMemory};
use name_calls::{Child, ChildList, NPath, NameRefusal, NameReply, ZoneList, ZonePath};
use std::alloc::Global;

/// Appends the text of an answer. If allocation fails, `out` is unchanged.
pub fn write_answer(alloc: Global, reply: &NameReply, out: &mut ByteList) -> Result<(), NoMemory>
    ensures ok { OnOk result (out.new ≡ out.old ++ answer_text reply.now) }
    ensures err { OnErr result (out.new ≡ out.old) }
{
    let text = answer_text(alloc, reply)?;
    out.append(text.as_bytes())
}

/// Returns the text of an answer.
pub fn answer_text(alloc: Global, reply: &NameReply) -> Result<String, NoMemory>
    ensures { IfOk result (λ text. string_bytes text ≡ answer_text reply.now) }
{
    let mut text = String::new(alloc);
    write_reply(alloc, reply, &mut text)?;
    Ok(text)
}

fn write_reply(alloc: Global, reply: &NameReply, out: &mut String) -> Result<(), NoMemory>
    ensures { OnOk result (string_bytes out.new ≡ string_bytes out.old ++ answer_text reply.now) }
{
    match reply {
        NameReply::Done => write_text("done", out),
        NameReply::Dir { id, zone, key } => write_directory(alloc, *id, zone, key, out),
        NameReply::File { id, zone, edek } => write_file(alloc, *id, zone, edek, out),
        NameReply::List(children) => write_child_list(children, out),
        NameReply::Status(status) => write_status(alloc, status, out),
        NameReply::Zones(zones) => write_zone_list(alloc, zones, out),
        NameReply::Refused(why) => write_refused(alloc, why, out),
    }
}

fn write_refused(alloc: Global, why: &NameRefusal, out: &mut String) -> Result<(), NoMemory>
    ensures { OnOk result
        (string_bytes out.new ≡
        string_bytes out.old ++ codes "refused " ++ name_refusal_text why.now) }
{
    write_text("refused ", out)?;
    write_refusal(alloc, why, out)
}

fn write_directory(
    alloc: Global,
    id: u64,
    zone: &Option<NPath>,
    key: &Option<KeyName>,
    out: &mut String,
) -> Result<(), NoMemory>
    ensures { OnOk result
        (string_bytes out.new ≡
        string_bytes out.old ++ row_front (codes "dir ") id zone.now ++ key_text key.now) }
{
    write_row(alloc, "dir ", id, zone, out)?;
    write_zone_key(key, out)
}

fn write_file(
    alloc: Global,
    id: u64,
    zone: &Option<NPath>,
    edek: &Option<Edek>,
    out: &mut String,
) -> Result<(), NoMemory>
    ensures { OnOk result
        (string_bytes out.new ≡
        string_bytes out.old ++ row_front (codes "file ") id zone.now ++ edek_field edek.now) }
{
    write_row(alloc, "file ", id, zone, out)?;
    write_edek_field(alloc, edek, out)
}

/// Appends the fields before the key of an entry: its kind, id and zone.
fn write_row(
    alloc: Global,
    kind: &str,
    id: u64,
    zone: &Option<NPath>,
    out: &mut String,
) -> Result<(), NoMemory>
    ensures { OnOk result
        (string_bytes out.new ≡ string_bytes out.old ++ row_front kind.now id zone.now) }
{
    write_text(kind, out)?;
    write_number(id, out)?;
    write_text(" ", out)?;
    write_zone(alloc, zone, out)?;
    write_text(" ", out)
}

fn write_zone(alloc: Global, zone: &Option<NPath>, out: &mut String) -> Result<(), NoMemory>
    ensures { OnOk result (string_bytes out.new ≡ string_bytes out.old ++ zone_text zone.now) }
{
    match zone {
        None => write_text("-", out),
        Some(path) => write_path(alloc, path, out),
    }
}

fn write_zone_key(key: &Option<KeyName>, out: &mut String) -> Result<(), NoMemory>
    ensures { OnOk result (string_bytes out.new ≡ string_bytes out.old ++ key_text key.now) }
{
    match key {
        None => write_text("-", out),
        Some(key) => write_key(key, out),
    }
}

fn write_child_list(children: &ChildList, out: &mut String) -> Result<(), NoMemory>
    ensures { OnOk result
        (string_bytes out.new ≡
        string_bytes out.old ++ codes "list" ++ flat_map child_part children.now) }
{
    write_text("list", out)?;
    write_children(children.as_slice(), out)
}

fn write_children(children: &[Child], out: &mut String) -> Result<(), NoMemory>
    ensures { OnOk result
        (string_bytes out.new ≡ string_bytes out.old ++ flat_map child_part children.now) }
{
    'children: for child in children {
        write_child(child, out)?;
    }
    Ok(())
}

/// Appends a child of a list, with a slash after a directory.
fn write_child(child: &Child, out: &mut String) -> Result<(), NoMemory>
    ensures { OnOk result (string_bytes out.new ≡ string_bytes out.old ++ child_part child.now) }
{
    write_text(" ", out)?;
    write_escaped(child.name.as_str().as_bytes(), out)?;
    if child.directory {
        return write_text("/", out);
    }
    Ok(())
}

fn write_zone_list(alloc: Global, zones: &ZoneList, out: &mut String) -> Result<(), NoMemory>
    ensures { OnOk result
        (string_bytes out.new ≡
        string_bytes out.old ++ codes "zones" ++ flat_map zone_part zones.now) }
{
    write_text("zones", out)?;
    write_zones(alloc, zones.as_slice(), out)
}

fn write_zones(alloc: Global, zones: &[ZonePath], out: &mut String) -> Result<(), NoMemory>
    ensures { OnOk result
        (string_bytes out.new ≡ string_bytes out.old ++ flat_map zone_part zones.now) }
{
    'zones: for zone in zones {
        write_zone_part(alloc, zone, out)?;
    }
    Ok(())
}

/// Appends a zone of a list: its path and its key.
fn write_zone_part(alloc: Global, zone: &ZonePath, out: &mut String) -> Result<(), NoMemory>
    ensures { OnOk result (string_bytes out.new ≡ string_bytes out.old ++ zone_part zone.now) }
{
    write_text(" ", out)?;
    write_path(alloc, &zone.path, out)?;
    write_text(":", out)?;
    write_key(&zone.key, out)
}
