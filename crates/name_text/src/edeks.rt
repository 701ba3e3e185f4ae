//! Encrypted data encryption keys as text.
ghost use Rattle.std.specs.Prelude.{◌≡◌, ◌++◌, IfOk, OnErr, OnOk};
ghost use Rattle.std.specs.String.{string_bytes};
ghost use Rattle.name_text.specs.Answers.{edek_field, edek_part};

use crate::pieces::{write_hex, write_text, write_version};
use hk_base::{ByteList, Edek, NoMemory};
use std::alloc::Global;

/// Appends the text of an encrypted key. If allocation fails, `out` is unchanged.
pub fn write_edek(alloc: Global, edek: &Edek, out: &mut ByteList) -> Result<(), NoMemory>
    ensures ok { OnOk result (out.new ≡ out.old ++ edek_part edek.now) }
    ensures err { OnErr result (out.new ≡ out.old) }
{
    let text = edek_text(alloc, edek)?;
    out.append(text.as_bytes())
}

fn edek_text(alloc: Global, edek: &Edek) -> Result<String, NoMemory>
    ensures { IfOk result (λ text. string_bytes text ≡ edek_part edek.now) }
{
    let mut text = String::new(alloc);
    write_edek_part(alloc, edek, &mut text)?;
    Ok(text)
}

pub(crate) fn write_edek_field(
    alloc: Global,
    edek: &Option<Edek>,
    out: &mut String,
) -> Result<(), NoMemory>
    ensures { OnOk result (string_bytes out.new ≡ string_bytes out.old ++ edek_field edek.now) }
{
    match edek {
        None => write_text("-", out),
        Some(edek) => write_edek_part(alloc, edek, out),
    }
}

fn write_edek_part(alloc: Global, edek: &Edek, out: &mut String) -> Result<(), NoMemory>
    ensures { OnOk result (string_bytes out.new ≡ string_bytes out.old ++ edek_part edek.now) }
{
    write_version(&edek.version, out)?;
    write_text(":", out)?;
    write_hex(alloc, edek.iv.as_bytes(), out)?;
    write_text(":", out)?;
    write_hex(alloc, edek.sealed.as_bytes(), out)
}
