//! Parsing the values of properties.
ghost use Rattle.std.specs.Prelude.{◌≡◌, ◌≤◌, [], ℕ, List, All, false, IfOk, MatchOption};
ghost use Rattle.std.specs.List.{slice_split};
ghost use Rattle.std.specs.Str.{IsUtf8};
ghost use Rattle.prop_text.specs.Acls.{IsName, SpellsAcl, SpellsNames, SpellsParts, is_comma, is_space};
ghost use Rattle.prop_text.specs.Properties.{SpellsGroup, SpellsList, SpellsSize, SpellsValue, acl_line, most, size_line};
ghost use Rattle.prop_text.specs.declared.acls.Acl.{Acl};
ghost use Rattle.prop_text.specs.declared.lines.PropLine.{PropLine};

use crate::acls::{Acl, TextList};
use crate::cuts::{behind, cut_at_comma, cut_at_space, without_space};
use crate::lines::PropLine;
use crate::names::each_is_plain;
use crate::setting::{AclPlace, Setting, SizeName};
use hk_base::{NoMemory, Text, read_number};
use std::alloc::Global;

/// Converts UTF-8 bytes to a text. Returns `None` if the bytes are not UTF-8.
fn read_text(alloc: Global, bytes: &[u8]) -> Result<Option<Text>, NoMemory>
    ensures { IfOk result
        (λ found.
        MatchOption found (¬ IsUtf8 bytes.now)
        (λ text. (text ≡ bytes.now) × IsUtf8 bytes.now)) }
{
    let bytes = Vec::from_slice(alloc, bytes)?;
    Ok(Text::from_utf8(bytes))
}

/// Parses the name of a user or a group. Returns `None` if the bytes are not a name.
fn read_name(alloc: Global, bytes: &[u8]) -> Result<Option<Text>, NoMemory>
    ensures { IfOk result
        (λ found.
        MatchOption found (¬ IsName bytes.now)
        (λ name. (name ≡ bytes.now) × IsName bytes.now)) }
{
    let len = bytes.len();
    if len == 0 {
        return Ok(None);
    }
    if len > 255 {
        return Ok(None);
    }
    if !each_is_plain(bytes) {
        return Ok(None);
    }
    read_text(alloc, bytes)
}

/// Parses names separated by commas. Returns `None` if a part is not a name.
fn read_parts(alloc: Global, bytes: &[u8]) -> Result<Option<TextList>, NoMemory>
    ensures { IfOk result
        (λ found.
        MatchOption found (¬ All IsName (slice_split is_comma bytes.now))
        (λ names. (slice_split is_comma bytes.now ≡ names) × All IsName names)) }
{
    let mut names = TextList::new(alloc);
    let mut rest = bytes;
    'parts: loop {
        let (part, more) = cut_at_comma(rest);
        let Some(name) = read_name(alloc, part)? else {
            return Ok(None);
        };
        names.push(name)?;
        match more {
            None => return Ok(Some(names)),
            Some(next) => rest = next,
        }
    }
}

/// Parses a list of names, which may be empty. Returns `None` if the bytes are not such a list.
fn read_names(alloc: Global, bytes: &[u8]) -> Result<Option<TextList>, NoMemory>
    ensures { IfOk result
        (λ found.
        MatchOption found ((names : List (List ℕ)) → ¬ SpellsNames bytes.now names)
        (SpellsNames bytes.now)) }
{
    if bytes.is_empty() {
        return Ok(Some(TextList::new(alloc)));
    }
    let Some(names) = read_parts(alloc, bytes)? else {
        return Ok(None);
    };
    Ok(Some(names))
}

/// Parses users and groups, separated by a space.
fn read_users_and_groups(alloc: Global, bytes: &[u8]) -> Result<Option<Acl>, NoMemory>
    ensures { IfOk result
        (λ found.
        MatchOption found
        ((users groups : List (List ℕ)) →
        ¬ SpellsParts (slice_split is_space bytes.now) users groups)
        (λ acl. (acl.everybody ≡ false) ×
        SpellsParts (slice_split is_space bytes.now) acl.users acl.groups)) }
{
    let (first, more) = cut_at_space(bytes);
    let Some(second) = more else {
        return read_users(alloc, first);
    };
    let Some(second) = without_space(second) else {
        return Ok(None);
    };
    let Some(users) = read_names(alloc, first)? else {
        return Ok(None);
    };
    let Some(groups) = read_names(alloc, second)? else {
        return Ok(None);
    };
    Ok(Some(Acl {
        everybody: false,
        users,
        groups,
    }))
}

/// Creates a list of users without groups.
fn read_users(alloc: Global, bytes: &[u8]) -> Result<Option<Acl>, NoMemory>
    ensures { IfOk result
        (λ found.
        MatchOption found ((users : List (List ℕ)) → ¬ SpellsNames bytes.now users)
        (λ acl. (acl.everybody ≡ false) × SpellsNames bytes.now acl.users ×
        (acl.groups ≡ []))) }
{
    let Some(users) = read_names(alloc, bytes)? else {
        return Ok(None);
    };
    Ok(Some(Acl {
        everybody: false,
        users,
        groups: TextList::new(alloc),
    }))
}

/// Parses an access control list. Returns `None` if the bytes are not one.
fn read_acl(alloc: Global, bytes: &[u8]) -> Result<Option<Acl>, NoMemory>
    ensures { IfOk result
        (λ found.
        MatchOption found ((acl : Acl) → ¬ SpellsAcl bytes.now acl) (SpellsAcl bytes.now)) }
{
    if bytes == b"*".as_slice() {
        return Ok(Some(Acl {
            everybody: true,
            users: TextList::new(alloc),
            groups: TextList::new(alloc),
        }));
    }
    read_users_and_groups(alloc, bytes)
}

fn acl_line(place: AclPlace, acl: Acl) -> PropLine
    ensures { result ≡ acl_line place acl }
{
    match place {
        AclPlace::Service { op } => PropLine::Service { op, acl },
        AclPlace::Blacklist { op } => PropLine::Blacklist { op, acl },
        AclPlace::Key { key, op } => PropLine::Key { key, op, acl },
        AclPlace::KeyAll { key } => PropLine::KeyAll { key, acl },
        AclPlace::Default { op } => PropLine::Default { op, acl },
        AclPlace::Whitelist { op } => PropLine::Whitelist { op, acl },
    }
}

fn read_list(alloc: Global, place: AclPlace, value: &[u8]) -> Result<Option<PropLine>, NoMemory>
    ensures { IfOk result
        (λ found.
        MatchOption found ((prop : PropLine) → ¬ SpellsList place value.now prop)
        (SpellsList place value.now)) }
{
    let Some(acl) = read_acl(alloc, value)? else {
        return Ok(None);
    };
    Ok(Some(acl_line(place, acl)))
}

fn read_group(alloc: Global, name: &[u8], value: &[u8]) -> Result<Option<PropLine>, NoMemory>
    ensures { IfOk result
        (λ found.
        MatchOption found ((prop : PropLine) → ¬ SpellsGroup name.now value.now prop)
        (SpellsGroup name.now value.now)) }
{
    let Some(group) = behind(b"group.", name) else {
        return Ok(None);
    };
    let Some(group) = read_text(alloc, group)? else {
        return Ok(None);
    };
    let Some(users) = read_names(alloc, value)? else {
        return Ok(None);
    };
    Ok(Some(PropLine::Group { group, users }))
}

fn most(which: SizeName) -> u64
    ensures value { result ≡ most which }
    ensures few { result ≤ 65535 }
{
    match which {
        SizeName::QueueSize => 10000,
        SizeName::QueueWatermark => 10000,
        SizeName::BatchSize => 1000,
        SizeName::CacheSize => 65535,
    }
}

fn size_line(which: SizeName, size: u16) -> PropLine
    ensures { result ≡ size_line which size }
{
    match which {
        SizeName::QueueSize => PropLine::QueueSize { size },
        SizeName::QueueWatermark => PropLine::QueueWatermark { size },
        SizeName::BatchSize => PropLine::BatchSize { size },
        SizeName::CacheSize => PropLine::CacheSize { size },
    }
}

fn read_size(which: SizeName, value: &[u8]) -> Option<PropLine>
    ensures { MatchOption result ((prop : PropLine) → ¬ SpellsSize which value.now prop)
        (SpellsSize which value.now) }
{
    let most = most(which);
    let Some(number) = read_number(value) else {
        return None;
    };
    if number == 0 {
        return None;
    }
    if number > most {
        return None;
    }
    Some(size_line(which, number as u16))
}

/// Parses a value for a name that sets this, and returns the line. Returns `None` if the value is
/// not allowed for the name.
pub fn read_value(
    alloc: Global,
    what: Setting,
    name: &[u8],
    value: &[u8],
) -> Result<Option<PropLine>, NoMemory>
    ensures { IfOk result
        (λ found.
        MatchOption found ((prop : PropLine) → ¬ SpellsValue what name.now value.now prop)
        (SpellsValue what name.now value.now)) }
{
    match what {
        Setting::List { place } => read_list(alloc, place, value),
        Setting::Group => read_group(alloc, name, value),
        Setting::Size { which } => Ok(read_size(which, value)),
    }
}
