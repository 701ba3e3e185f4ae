//! Whether a command applies to a table.
ghost use Rattle.std.specs.Prelude.{◌≡◌, ◌/◌, ◌^◌, ◌==◌, ◌&&◌, ℕ, nat_lt, not, is_some, length};
ghost use Rattle.key_rows.specs.Table.{applies, find_birth, find_name, is_length, may_roll, opening_of};
ghost use Rattle.key_rows.specs.Sound.{AreRowsRising};
ghost use Rattle.key_rows.specs.Names.{IsIndex};

use crate::by_name::NamedBirth;
use crate::reading::is_length;
use crate::rows::{KeyCommand, KeyRow};
use crate::table::{row_at, row_of};
use hk_base::{Dek, KeyName};

fn is_named(rows: &Vec<KeyRow>, names: &Vec<NamedBirth>, name: &KeyName) -> bool
    requires rising { (top : ℕ) × AreRowsRising 0 rows.now.items top }
    requires index { IsIndex rows.now.items names.now.items }
    ensures { result ≡ is_some (find_name rows.now.items name.now) }
{
    match row_of(rows, names, name) {
        None => false,
        Some(_) => true,
    }
}

fn is_born(rows: &Vec<KeyRow>, birth: u64) -> bool
    requires { (top : ℕ) × AreRowsRising 0 rows.now.items top }
    ensures { result ≡ is_some (find_birth rows.now.items birth) }
{
    match row_at(rows, birth) {
        None => false,
        Some(_) => true,
    }
}

/// Returns whether a key may be created. `named` says whether its name is taken, and `count` is the
/// number of keys in the table.
fn may_create(
    opening: u32,
    greatest: u64,
    count: usize,
    named: bool,
    birth: u64,
    bits: u16,
    material: &Dek,
) -> bool
    ensures { result ≡
        (nat_lt 0 opening && not named && opening_of birth == opening && nat_lt greatest birth
        && nat_lt count 10000 && is_length bits && length material.now == bits / 8) }
{
    let opened = opening > 0;
    let present = birth / (1 << 32) == opening as u64;
    let above = greatest < birth;
    let room = count < 10000;
    let long = is_length(bits);
    let fits = material.as_bytes().len() == bits as usize / 8;
    opened && !named && present && above && room && long && fits
}

fn may_roll(rows: &Vec<KeyRow>, birth: u64, number: u16, material: &Dek) -> bool
    requires { (top : ℕ) × AreRowsRising 0 rows.now.items top }
    ensures { result ≡ may_roll (find_birth rows.now.items birth) number material.now }
{
    match row_at(rows, birth) {
        None => false,
        Some(row) => {
            let next = number as usize == row.materials.len();
            let room = number < 65535;
            let fits = material.as_bytes().len() == row.bits as usize / 8;
            next && room && fits
        }
    }
}

/// Returns whether a command applies to the table with this opening, greatest birth and these keys.
pub(crate) fn applies_to(
    opening: u32,
    greatest: u64,
    rows: &Vec<KeyRow>,
    names: &Vec<NamedBirth>,
    command: &KeyCommand,
) -> bool
    requires rising { (top : ℕ) × AreRowsRising 0 rows.now.items top }
    requires index { IsIndex rows.now.items names.now.items }
    ensures { result ≡
        applies (record { opening = opening; greatest = greatest; rows = rows.now.items })
        command.now }
{
    match command {
        KeyCommand::Opened { opening: next } => *next as u64 == opening as u64 + 1,
        KeyCommand::Create {
            birth,
            name,
            bits,
            description: _,
            created: _,
            material,
        } => {
            let named = is_named(rows, names, name);
            may_create(
                opening,
                greatest,
                rows.len(),
                named,
                *birth,
                *bits,
                material,
            )
        }
        KeyCommand::Roll {
            birth,
            number,
            material,
        } => {
            let opened = opening > 0;
            let may = may_roll(rows, *birth, *number, material);
            opened && may
        }
        KeyCommand::Delete { birth } => {
            let opened = opening > 0;
            let stands = is_born(rows, *birth);
            opened && stands
        }
    }
}
