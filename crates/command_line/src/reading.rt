//! Parsing a command line.
ghost use Rattle.std.specs.Prelude.{◌≡◌, ◌≢◌, ◌⊎◌, ◌≤◌, IfErr, IfOk, IfSome, Ok, Err, map};
ghost use Rattle.clap.specs.Words.{first_of, found_of, kind_of, rows_of, subcommand_rows_of};
ghost use Rattle.clap_lines.specs.Folders.{folder_of};
ghost use Rattle.clap_lines.specs.Orders.{HasMistake, IsMistake, IsShown, ShownAs, order_at};
ghost use Rattle.command_line.specs.Line as line;
ghost use Rattle.command_line.specs.Orders.{FindsHelp, FindsVersion, HasRightCount, IsHelp, IsOrderOf, IsSpelled, IsVersion, in_range, line_fault, count_at, number_at, number_or, order_named};
ghost use Rattle.command_line.specs.declared.order.Order.{Order as AnOrder};

use crate::commands::hkms;
use crate::order::Order;
use clap::error::ErrorKind;
use clap::{ArgMatches, Error};
use clap_lines::{OrderFault, answer_without_command, folder_given, texts_of};
use hk_base::{Text, read_number};
use std::alloc::Global;
use std::convert::AsStr;

/// The port of `serve` without an option.
const DEFAULT_PORT: u32 = 9600;

/// How many connections `serve` serves at a time without an option.
const DEFAULT_PLACES: u32 = 16;

/// The greatest number of steps of `load`.
const MOST_STEPS: u32 = 20_000;

/// Returns the number if it is one from 1 to `most`.
fn in_range(number: u64, most: u32) -> Option<u32>
    ensures value { result ≡ in_range most number }
    ensures most { IfSome result (λ number. number ≤ most) }
{
    if number < 1 || number > u64::from(most) {
        return None;
    }
    Some(number as u32)
}

/// Parses a number from 1 to `most`, without a sign and without leading zeros.
fn number_at(text: &str, most: u32) -> Option<u32>
    ensures value { result ≡ number_at most text.now }
    ensures most { IfSome result (λ number. number ≤ most) }
{
    match read_number(text.as_bytes()) {
        Some(number) => in_range(number, most),
        None => None,
    }
}

/// Returns the number of an option, from 1 to `most`, or `absent` if the option was not given.
fn number_or(options: &ArgMatches, name: &str, absent: u32, most: u32) -> Option<u32>
    requires { absent ≤ most }
    ensures value { result ≡
        number_or absent most (first_of name.now (rows_of (found_of options.now))) }
    ensures most { IfSome result (λ number. number ≤ most) }
{
    match options.get_str(name) {
        Some(text) => number_at(text, most),
        None => Some(absent),
    }
}

/// Returns the number of steps, if it is given.
fn count_of(values: &ArgMatches) -> Option<u32>
    ensures { result ≡ count_at (rows_of (found_of values.now)) }
{
    match values.get_str("count") {
        Some(text) => number_at(text, MOST_STEPS),
        None => None,
    }
}

/// Returns the order of the command with this name and these options.
fn order_named(name: &str, options: &ArgMatches) -> Option<Order>
    ensures { result ≡ order_named name.now (rows_of (found_of options.now)) }
{
    if name == "serve" {
        let port = number_or(options, "port", DEFAULT_PORT, 65_535)? as u16;
        let conns = number_or(options, "conns", u32::MAX, u32::MAX)?;
        let places = number_or(options, "connections", DEFAULT_PLACES, 1024)? as u16;
        Some(Order::Serve {
            port,
            conns,
            places,
        })
    } else if name == "load" {
        let count = count_of(options)?;
        Some(Order::Load { count })
    } else if name == "replay" {
        Some(Order::Replay)
    } else if name == "pipe" {
        Some(Order::Pipe)
    } else if name == "check" {
        Some(Order::Check)
    } else {
        None
    }
}

/// Returns the order that the matches name, unless a number in them is written in another form.
fn order_of(matches: &ArgMatches) -> Option<Order>
    ensures { result ≡ order_at order_named (subcommand_rows_of matches.now) }
{
    let (name, options) = matches.subcommand()?;
    order_named(name, options)
}

/// Returns what to do where `clap` finds no command: show a text, or report a fault.
fn order_without_command(alloc: Global, error: &Error) -> Result<Order, OrderFault>
    ensures shown { IfOk result (λ order. IsShown IsHelp IsVersion order (kind_of error.now)) }
    ensures usage { IfErr result
        (λ fault. fault ≡ OrderFault.Usage →
        (kind_of error.now ≢ ErrorKind.OutOfMemory) ×
        (kind_of error.now ≢ ErrorKind.DisplayHelp) ×
        (kind_of error.now ≢ ErrorKind.DisplayVersion)) }
{
    let told = answer_without_command(alloc, error)?;
    Ok(Order::from(told))
}

/// Does what `read_order` does, for words of any type.
fn read<'a, S: AsStr>(alloc: Global, words: &'a [S]) -> Result<Order, OrderFault>
    ensures ok { IfOk result (λ order. IsOrderOf order (map S.text words.entry.now)) }
    ensures usage { IfErr result
        (λ fault. fault ≡ OrderFault.Usage → HasMistake (line_fault (map S.text words.entry.now))) }
{
    let command = hkms(alloc)?;
    match command.try_get_matches_from(words) {
        Ok(matches) => order_of(&matches).ok_or(OrderFault::Usage),
        Err(error) => order_without_command(alloc, &error),
    }
}

/// Parses the words of a command line, without the program's own name.
///
/// `replay`, `pipe` and `check` are commands, of one word each. `serve` is a command with the options
/// `--port N`, `--conns N` and `--connections N`, each also with `=` before its number. `load` is a command
/// whose next word is a number from 1 to 20,000. Numbers are decimal, without a sign or a leading zero. `--help`
/// or `-h` asks for a help text, and `--version` or `-V` for the version; what follows them counts for nothing.
/// Other words are refused as `OrderFault::Usage`. The first fault
/// that `clap` finds decides.
/// `OrderFault::NoMemory` may come in place of any other answer.
pub fn read_order(alloc: Global, words: &[Text]) -> Result<Order, OrderFault>
    ensures ok { IfOk result (λ order. IsOrderOf order words.now) }
    ensures usage { IfErr result
        (λ fault. fault ≡ OrderFault.Usage → IsMistake (line_fault words.now)) }
    ensures mistake { IsMistake (line_fault words.now) →
        (result ≡ Err OrderFault.Usage) ⊎ (result ≡ Err OrderFault.NoMemory) }
    ensures named { (order : AnOrder) → IsSpelled order words.now →
        (result ≡ Ok order) ⊎ (result ≡ Err OrderFault.NoMemory) }
    ensures help { FindsHelp words.now → ShownAs IsHelp result }
    ensures version { FindsVersion words.now → ShownAs IsVersion result }
    ensures count { IfOk result HasRightCount }
{
    let texts = texts_of(alloc, words)?;
    read(alloc, texts.as_slice())
}

/// Returns the folder that the words give with `--dir`, which stands before the command. Returns `None` if they
/// give none, and also if `clap` finds a fault in them, help and the version included. Fails only if allocation
/// fails.
pub fn read_folder(alloc: Global, words: &[Text]) -> Result<Option<Text>, OrderFault>
    ensures ok { IfOk result (λ folder. folder ≡ folder_of line.hkms words.now) }
    ensures err { IfErr result (λ fault. fault ≡ OrderFault.NoMemory) }
{
    let texts = texts_of(alloc, words)?;
    let command = hkms(alloc)?;
    folder_given(alloc, command, texts.as_slice())
}
