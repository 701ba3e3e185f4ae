//! Encoding the records of the key log.
ghost use Rattle.std.specs.Prelude.{◌≡◌, ◌≤◌, ◌++◌, ◌∷◌, IsTrue, OnOk, OnErr, length, take};
ghost use Rattle.std.specs.Str.{IsUtf8};
ghost use Rattle.hk_base.specs.Names.{IsKeyName, is_key_length};
ghost use Rattle.std.specs.Int.{w16, w32, w64, to_be_bytes};
ghost use Rattle.key_rows.specs.Records.{HasSpelling, fits, name_field, spelling, text_field};

use crate::fields::{append_head, append_name};
use crate::rows::KeyCommand;
use hk_base::{ByteList, Dek, KeyName, NoMemory};
use kms_calls::Description;

/// Appends a description after its length. If allocation fails, a prefix of that may have been
/// appended.
fn append_text(out: &mut ByteList, description: &Description) -> Result<(), NoMemory>
    ensures ok { OnOk result (out.new ≡ out.old ++ text_field description.now) }
    ensures short { OnOk result (length description.now ≤ 65535) }
    ensures is_text { OnOk result (IsUtf8 description.now) }
    ensures err { OnErr result (take (length out.old) out.new ≡ out.old) }
{
    let text = description.as_text().as_str();
    out.append(&(text.len() as u16).to_be_bytes())?;
    out.append(text.as_bytes())
}

/// Appends the first fields of the record of a creation. If allocation fails, a prefix of that may
/// have been appended.
fn append_front(out: &mut ByteList, birth: u64, name: &KeyName, bits: u16) -> Result<(), NoMemory>
    ensures ok { OnOk result
        (out.new ≡
        out.old ++ 2 ∷ (to_be_bytes w64 birth ++ name_field name.now ++ to_be_bytes w16 bits)) }
    ensures is_name { OnOk result (IsKeyName name.now) }
    ensures err { OnErr result (take (length out.old) out.new ≡ out.old) }
{
    append_head(out, 2, birth)?;
    append_name(out, name)?;
    out.append(&bits.to_be_bytes())
}

/// Appends the other fields of the record of a creation. If allocation fails, a prefix of that may
/// have been appended.
fn append_back(
    out: &mut ByteList,
    description: &Description,
    created: u64,
    material: &Dek,
) -> Result<(), NoMemory>
    ensures ok { OnOk result
        (out.new ≡
        out.old ++ text_field description.now ++ to_be_bytes w64 created ++ material.now) }
    ensures short { OnOk result (length description.now ≤ 65535) }
    ensures is_text { OnOk result (IsUtf8 description.now) }
    ensures err { OnErr result (take (length out.old) out.new ≡ out.old) }
{
    append_text(out, description)?;
    out.append(&created.to_be_bytes())?;
    out.append(material.as_bytes())
}

/// Appends the record of a roll. If allocation fails, a prefix of it may have been appended.
fn append_roll(out: &mut ByteList, birth: u64, number: u16, material: &Dek) -> Result<(), NoMemory>
    ensures ok { OnOk result
        (out.new ≡
        out.old ++ 3 ∷ (to_be_bytes w64 birth ++ to_be_bytes w16 number ++ material.now)) }
    ensures long { OnOk result (IsTrue (is_key_length (length material.now))) }
    ensures err { OnErr result (take (length out.old) out.new ≡ out.old) }
{
    append_head(out, 3, birth)?;
    out.append(&number.to_be_bytes())?;
    out.append(material.as_bytes())
}

impl KeyCommand {
    /// Appends the command as a record of the key log. Returns `NoMemory` if allocation fails;
    /// `out` is then unchanged.
    pub fn write(&self, out: &mut ByteList) -> Result<(), NoMemory>
        requires { IsTrue (fits self.now) }
        ensures ok { OnOk result (out.new ≡ out.old ++ spelling self.now) }
        ensures spelled { OnOk result (HasSpelling self.now) }
        ensures err { OnErr result (out.new ≡ out.old) }
    {
        let len = out.len();
        match self.append_to(out) {
            Ok(()) => Ok(()),
            Err(error) => {
                out.truncate(len);
                Err(error)
            }
        }
    }

    /// Appends the record. If allocation fails, a prefix of it may have been appended.
    fn append_to(&self, out: &mut ByteList) -> Result<(), NoMemory>
        requires { IsTrue (fits self.now) }
        ensures ok { OnOk result (out.new ≡ out.old ++ spelling self.now) }
        ensures spelled { OnOk result (HasSpelling self.now) }
        ensures err { OnErr result (take (length out.old) out.new ≡ out.old) }
    {
        match self {
            KeyCommand::Opened { opening } => {
                out.push(1)?;
                out.append(&opening.to_be_bytes())
            }
            KeyCommand::Create {
                birth,
                name,
                bits,
                description,
                created,
                material,
            } => {
                append_front(out, *birth, name, *bits)?;
                append_back(out, description, *created, material)
            }
            KeyCommand::Roll {
                birth,
                number,
                material,
            } => append_roll(out, *birth, *number, material),
            KeyCommand::Delete { birth } => append_head(out, 4, *birth),
        }
    }
}
