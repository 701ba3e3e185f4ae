//! Decoding the records of the key log.
ghost use Rattle.std.specs.Prelude.{◌≡◌, IfOk, IsErrOf, length, ◌≤◌};
ghost use Rattle.std.specs.Int.{w16, w32, w64};
ghost use Rattle.hk_base.specs.declared.records.RecordFault.TheVariants as fault;
ghost use Rattle.key_rows.specs.Records.{HasSpelling, fits_bits, spelling};
ghost use Rattle.key_rows.specs.Table.{is_length};
ghost use Rattle.key_rows.specs.Reading.{GivesRecord, bytes_at, command_at, create_at, delete_at, long_at, material_of, material_of_bits, name_of, number_at, opened_at, roll_at, short_at, text_of};

use crate::fields::{cut_long, cut_short, material_of, name_of, u16_at, u32_at, u64_at};
use crate::rows::KeyCommand;
use hk_base::{Dek, RecordFault};
use kms_calls::Description;
use std::alloc::Global;

/// Decodes all of the bytes as a text.
fn text_of(bytes: &[u8]) -> Result<&str, RecordFault>
    ensures { GivesRecord (λ x. x.now) result (text_of bytes.now) }
{
    match str::from_utf8(bytes) {
        Err(_) => Err(RecordFault::NoRecord),
        Ok(text) => Ok(text),
    }
}

/// Decodes all of the bytes as a description.
fn description_of(alloc: Global, bytes: &[u8]) -> Result<Description, RecordFault>
    requires { length bytes.now ≤ 65535 }
    ensures { GivesRecord (λ x. x) result (text_of bytes.now) }
{
    let text = text_of(bytes)?;
    let description = Description::from_str(alloc, text)?;
    Ok(description)
}

pub(crate) fn is_length(bits: u16) -> bool
    ensures { result ≡ is_length bits }
{
    bits == 128 || bits == 192 || bits == 256
}

/// Decodes all of the bytes as material of `bits` bits.
fn material_of_bits(bits: u16, bytes: &[u8]) -> Result<Dek, RecordFault>
    ensures { GivesRecord (λ x. x) result (material_of_bits bits bytes.now) }
{
    let long = is_length(bits);
    if !long || bytes.len() != bits as usize / 8 {
        return Err(RecordFault::NoRecord);
    }
    Ok(Dek::of(bytes))
}

#[tactic(auto, unfolding(crate::specs::Reading::opened_at))]
fn opened_of(bytes: &[u8]) -> Result<KeyCommand, RecordFault>
    ensures { GivesRecord (λ x. x) result (opened_at bytes.now) }
{
    let (opening, rest) = u32_at(bytes)?;
    if !rest.is_empty() {
        return Err(RecordFault::NoRecord);
    }
    Ok(KeyCommand::Opened { opening })
}

#[tactic(auto, unfolding(crate::specs::Reading::create_at))]
fn create_of(alloc: Global, bytes: &[u8]) -> Result<KeyCommand, RecordFault>
    ensures { GivesRecord (λ x. x) result (create_at bytes.now) }
{
    let (birth, rest) = u64_at(bytes)?;
    let (name, rest) = cut_short(rest)?;
    let name = name_of(name)?;
    let (bits, rest) = u16_at(rest)?;
    let (text, rest) = cut_long(rest)?;
    let description = description_of(alloc, text)?;
    let (created, rest) = u64_at(rest)?;
    let material = material_of_bits(bits, rest)?;
    Ok(KeyCommand::Create {
        birth,
        name,
        bits,
        description,
        created,
        material,
    })
}

#[tactic(auto, unfolding(crate::specs::Reading::roll_at))]
fn roll_of(bytes: &[u8]) -> Result<KeyCommand, RecordFault>
    ensures { GivesRecord (λ x. x) result (roll_at bytes.now) }
{
    let (birth, rest) = u64_at(bytes)?;
    let (number, rest) = u16_at(rest)?;
    let material = material_of(rest)?;
    Ok(KeyCommand::Roll {
        birth,
        number,
        material,
    })
}

#[tactic(auto, unfolding(crate::specs::Reading::delete_at))]
fn delete_of(bytes: &[u8]) -> Result<KeyCommand, RecordFault>
    ensures { GivesRecord (λ x. x) result (delete_at bytes.now) }
{
    let (birth, rest) = u64_at(bytes)?;
    if !rest.is_empty() {
        return Err(RecordFault::NoRecord);
    }
    Ok(KeyCommand::Delete { birth })
}

#[tactic(auto, unfolding(crate::specs::Reading::command_at))]
fn command_of(alloc: Global, bytes: &[u8]) -> Result<KeyCommand, RecordFault>
    ensures { GivesRecord (λ x. x) result (command_at bytes.now) }
{
    match bytes {
        [1, rest @ ..] => opened_of(rest),
        [2, rest @ ..] => create_of(alloc, rest),
        [3, rest @ ..] => roll_of(rest),
        [4, rest @ ..] => delete_of(rest),
        _ => Err(RecordFault::NoRecord),
    }
}

impl KeyCommand {
    /// Decodes a record of the key log. Returns `NoRecord` if the bytes do not encode any command.
    pub fn read(alloc: Global, bytes: &[u8]) -> Result<KeyCommand, RecordFault>
        ensures read { IfOk result
            (λ command. HasSpelling command × (bytes.now ≡ spelling command)) }
        ensures none { IsErrOf result fault.NoRecord → (command : KeyCommand) →
            HasSpelling command → ¬ (bytes.now ≡ spelling command) }
    {
        command_of(alloc, bytes)
    }
}
