//! The parameters of an operation in the query of a request.
ghost use Rattle.std.specs.Prelude.{◌≡◌, ◌<◌, ◌^◌, ◌∷◌, [], ℕ, List, length, codes, All, IfNone, IfOk, IfSome, MatchBool, MatchOption};
ghost use Rattle.std.specs.Char.{is_ascii_digit};
ghost use Rattle.std.specs.List.{list_all};
ghost use Rattle.std.specs.Str.{IsUtf8, bytes_eq};
ghost use Rattle.hk_base.specs.Names.{IsKeyName};
ghost use Rattle.kms_rest.specs.Calls as spec;

use hk_base::{KeyName, NoMemory};
use kms_calls::NameList;
use path_routes::{Given, Parameter, Query};
use std::alloc::Global;

/// Returns whether `eek_op` and `num_keys` occur at most once.
pub(crate) fn is_single(query: &Query) -> bool
    ensures { MatchBool result (spec.AreGivenOnce query.now) (¬ spec.AreGivenOnce query.now) }
{
    if let Given::Repeated = query.given(b"eek_op") {
        return false;
    }
    if let Given::Repeated = query.given(b"num_keys") {
        return false;
    }
    true
}

/// Returns whether `eek_op` has this value and no other.
pub(crate) fn has_operation(query: &Query, wanted: &[u8]) -> bool
    ensures { MatchBool result (spec.operation_values query.now ≡ wanted.now ∷ [])
        (¬ (spec.operation_values query.now ≡ wanted.now ∷ [])) }
{
    match query.given(b"eek_op") {
        Given::Once(value) => value == wanted,
        Given::Absent => false,
        Given::Repeated => false,
    }
}

fn all_digits(text: &[u8]) -> bool
    ensures { result ≡ list_all is_ascii_digit text.now }
{
    text.iter().all(|byte| byte.is_ascii_digit())
}

fn utf8(text: &[u8]) -> Option<&str>
    ensures some { IfSome result (λ found. found.now ≡ text.now) }
    ensures none { IfNone result (¬ IsUtf8 text.now) }
{
    str::from_utf8(text).ok()
}

/// Reads a decimal number, which may begin with zeros. Returns `None` if the bytes are not one, or if
/// it is not below 2^32.
fn read_count(text: &[u8]) -> Option<u32>
    ensures { MatchOption result ((count : ℕ) → ¬ spec.IsCount text.now count)
        (spec.IsCount text.now) }
{
    if text.is_empty() || !all_digits(text) {
        return None;
    }
    let Some(text) = utf8(text) else {
        return None;
    };
    text.parse::<u32>().ok()
}

/// Returns the number of keys that `num_keys` asks for: one if it is absent, `None` if it is not a
/// number.
pub(crate) fn count(query: &Query) -> Option<u32>
    ensures { MatchOption result ((count : ℕ) → ¬ spec.CountsKeys (spec.count_values query.now) count)
        (spec.CountsKeys (spec.count_values query.now)) }
{
    match query.given(b"num_keys") {
        Given::Absent => Some(1),
        Given::Once(text) => read_count(text),
        Given::Repeated => None,
    }
}

/// Returns the names in the parameters `key`, in their order, or `None` if one of them is not a name.
pub(crate) fn key_names(alloc: Global, query: &Query) -> Result<Option<NameList>, NoMemory>
    ensures { IfOk result
        (λ found.
        MatchOption found (¬ All IsKeyName (spec.key_values query.now))
        (λ names. (spec.key_values query.now ≡ names) × All IsKeyName names)) }
{
    let parameters = query.as_slice();
    names_in(alloc, parameters)
}

fn names_a_key(parameter: &Parameter) -> bool
    ensures { result ≡ bytes_eq parameter.now.name (codes "key") }
{
    parameter.name.as_slice() == b"key".as_slice()
}

fn names_in(alloc: Global, parameters: &[Parameter]) -> Result<Option<NameList>, NoMemory>
    ensures { IfOk result
        (λ found.
        MatchOption found (¬ All IsKeyName (spec.key_values parameters.now))
        (λ names. (spec.key_values parameters.now ≡ names) × All IsKeyName names)) }
{
    let mut names = NameList::with_room(alloc, 1)?;
    'parameters: for parameter in parameters {
        if !names_a_key(parameter) {
            continue;
        }
        let Some(name) = KeyName::read(parameter.value.as_slice()) else {
            return Ok(None);
        };
        names.push(name)?;
    }
    Ok(Some(names))
}
