//! The words of a command: their declaration, and their values.
ghost use Rattle.std.specs.Prelude.{◌≡◌, IfErr, IfOk, None, Some, codes, false, map, option_map};
ghost use Rattle.clap.specs.Words.{first_of, found_of, rows_of, rule_of};
ghost use Rattle.clap_lines.specs.Orders.{number_at, number_in, user_at, user_in};
ghost use Rattle.clap_lines.specs.Told.{word};

use crate::told::OrderFault;
use clap::{Arg, ArgMatches};
use hk_base::{Text, read_number};
use std::alloc::{AllocError, Global};

/// The most bytes of a user.
const LONGEST_USER: usize = 255;

/// Declares a word that a command needs. `clap` takes any word for it.
pub fn word<'a>(alloc: Global, id: &'a str, name: &'a str, help: &'a str) -> Arg<'a>
    ensures rule { rule_of result ≡ word id.entry.now }
    ensures local { result.global ≡ false }
{
    Arg::new(alloc, id)
        .value_name(name)
        .help(help)
        .required(true)
}

/// Parses a number below 2^63, without a sign and without leading zeros.
fn number_at(text: &str) -> Option<u64>
    ensures { result ≡ number_at text.now }
{
    match read_number(text.as_bytes()) {
        Some(number) => {
            if number >= 1 << 63 {
                return None;
            }
            Some(number)
        }
        None => None,
    }
}

/// Returns the number below 2^63 with this name, if it is given in decimal, without a sign or leading zeros.
pub fn number_in(values: &ArgMatches, name: &str) -> Option<u64>
    ensures { result ≡ number_in name.now (rows_of (found_of values.now)) }
{
    match values.get_str(name) {
        Some(text) => number_at(text),
        None => None,
    }
}

/// Returns the word if it may be a user.
fn user_at<'a>(text: &'a str) -> Option<&'a str>
    ensures { option_map (λ user. user.now) result ≡ user_at text.entry.now }
{
    if text.len() < 1 || text.len() > LONGEST_USER {
        return None;
    }
    Some(text)
}

/// Returns the word `user`, if it has from 1 to 255 bytes.
pub fn user_in<'a>(values: &ArgMatches<'a>) -> Option<&'a str>
    ensures { option_map (λ user. user.now) result ≡ user_in (rows_of (found_of values.now)) }
{
    match values.get_str("user") {
        Some(text) => user_at(text),
        None => None,
    }
}

/// Returns the word with this name, if it is given.
pub fn word_in<'a>(values: &ArgMatches<'a>, name: &str) -> Option<&'a str>
    ensures { option_map (λ text. text.now) result ≡
        first_of name.now (rows_of (found_of values.now)) }
{
    values.get_str(name)
}

/// Copies a word.
pub fn copy_word(alloc: Global, word: &str) -> Result<Text, OrderFault>
    ensures ok { IfOk result (λ text. text ≡ word.now) }
    ensures err { IfErr result (λ fault. fault ≡ OrderFault.NoMemory) }
{
    Ok(Text::of(String::from_str(alloc, word)?))
}

/// Returns the words as `clap` takes them.
pub fn texts_of<'w>(alloc: Global, words: &'w [Text]) -> Result<Vec<&'w str>, AllocError>
    ensures { IfOk result (λ texts. map (λ text. text.now) texts.items ≡ words.entry.now) }
{
    words.iter().map(Text::as_str).collect(alloc)
}
