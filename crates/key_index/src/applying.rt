//! Whether a command applies to the table that an index stands for.
ghost use Rattle.std.specs.Prelude.{◌≡◌, ◌/◌, ◌==◌, ◌&&◌, nat_lt, not, find, is_some, length};
ghost use Rattle.key_rows.specs.Table.{is_length, opening_of};
ghost use Rattle.key_index.specs.Index.{applies_at, is_born, is_named, may_roll_at};
ghost use Rattle.key_index.specs.Sound.{AreNamed, AreRising};

use crate::by_name::NamedBirth;
use crate::finding::{row_at, row_of};
use crate::rows::PlacedRow;
use hk_base::{Dek, KeyName};
use key_rows::KeyCommand;

fn has_name(rows: &Vec<PlacedRow>, names: &Vec<NamedBirth>, name: &KeyName) -> bool
    requires rising { AreRising rows.now.items }
    requires names { AreNamed rows.now.items names.now.items }
    ensures { result ≡ is_some (find (is_named name.now) rows.now.items) }
{
    match row_of(rows, names, name) {
        None => false,
        Some(_) => true,
    }
}

fn has_birth(rows: &Vec<PlacedRow>, birth: u64) -> bool
    requires { AreRising rows.now.items }
    ensures { result ≡ is_some (find (is_born birth) rows.now.items) }
{
    match row_at(rows, birth) {
        None => false,
        Some(_) => true,
    }
}

fn is_length(bits: u16) -> bool
    ensures { result ≡ is_length bits }
{
    bits == 128 || bits == 192 || bits == 256
}

/// Returns whether a key may be created. `named` says whether its name is taken, and `count` is the
/// number of keys.
fn may_create(
    opening: u32,
    greatest: u64,
    count: usize,
    named: bool,
    birth: u64,
    bits: u16,
    material: &Dek,
) -> bool
    ensures { result ≡
        (nat_lt 0 opening && not named && opening_of birth == opening && nat_lt greatest birth
        && nat_lt count 10000 && is_length bits && length material.now == bits / 8) }
{
    let opened = opening > 0;
    let present = birth / (1 << 32) == opening as u64;
    let above = greatest < birth;
    let room = count < 10000;
    let long = is_length(bits);
    let fits = material.as_bytes().len() == bits as usize / 8;
    opened && !named && present && above && room && long && fits
}

fn may_roll(rows: &Vec<PlacedRow>, birth: u64, number: u16, material: &Dek) -> bool
    requires { AreRising rows.now.items }
    ensures { result ≡ may_roll_at (find (is_born birth) rows.now.items) number material.now }
{
    match row_at(rows, birth) {
        None => false,
        Some(placed) => {
            let next = number as u32 == placed.row.versions;
            let room = number < 65535;
            let fits = material.as_bytes().len() == placed.row.bits as usize / 8;
            next && room && fits
        }
    }
}

/// Returns whether a command applies to the index with this opening, greatest birth and these keys.
pub(crate) fn applies_to(
    opening: u32,
    greatest: u64,
    rows: &Vec<PlacedRow>,
    names: &Vec<NamedBirth>,
    command: &KeyCommand,
) -> bool
    requires rising { AreRising rows.now.items }
    requires names { AreNamed rows.now.items names.now.items }
    ensures { result ≡
        applies_at (record { opening = opening; greatest = greatest; rows = rows.now.items })
        command.now }
{
    match command {
        KeyCommand::Opened { opening: next } => *next as u64 == opening as u64 + 1,
        KeyCommand::Create {
            birth,
            name,
            bits,
            description: _,
            created: _,
            material,
        } => {
            let named = has_name(rows, names, name);
            may_create(
                opening,
                greatest,
                rows.len(),
                named,
                *birth,
                *bits,
                material,
            )
        }
        KeyCommand::Roll {
            birth,
            number,
            material,
        } => {
            let opened = opening > 0;
            let may = may_roll(rows, *birth, *number, material);
            opened && may
        }
        KeyCommand::Delete { birth } => {
            let opened = opening > 0;
            let stands = has_birth(rows, *birth);
            opened && stands
        }
    }
}
