//! Parsing a command line.
ghost use Rattle.std.specs.Prelude.{◌≡◌, ◌≢◌, ◌⊎◌, IfErr, IfOk, MatchResult, Ok, Err, None, Some, codes, map};
ghost use Rattle.clap.specs.Words.{first_of, found_of, kind_of, rows_of, subcommand_rows_of};
ghost use Rattle.clap_lines.specs.Folders.{folder_of};
ghost use Rattle.clap_lines.specs.Orders.{HasMistake, IsMistake, IsShown, ShownAs, order_at, user_in};
ghost use Rattle.read_words.specs.Values.{path_in};
ghost use Rattle.fs_command_line.specs.Line as line;
ghost use Rattle.fs_command_line.specs.Orders.{FindsHelp, FindsVersion, HasRightValues, IsHelp, IsOrderOf, IsSpelled, IsVersion, line_fault, order_named, put_order, read_order_in};
ghost use Rattle.fs_command_line.specs.declared.order.FsOrder.{FsOrder as AnOrder};

use crate::commands::hkfs;
use crate::order::FsOrder;
use clap::error::ErrorKind;
use clap::{ArgMatches, Error};
use clap_lines::{
    OrderFault, answer_without_command, copy_word, folder_given, texts_of, user_in, word_in,
};
use hk_base::Text;
use read_words::{ReadValues, read_values_in};
use std::alloc::Global;
use std::convert::AsStr;

/// Returns the order to put a file with these values.
fn put_order(alloc: Global, values: &ArgMatches) -> Result<FsOrder, OrderFault>
    ensures { MatchResult result
        (λ order.
        put_order (user_in (rows_of (found_of values.now)))
        (path_in (rows_of (found_of values.now))) ≡ Some order)
        (λ fault. fault ≡ OrderFault.Usage →
        put_order (user_in (rows_of (found_of values.now)))
        (path_in (rows_of (found_of values.now))) ≡ None) }
{
    let Some(user) = user_in(values) else {
        return Err(OrderFault::Usage);
    };
    let Some(path) = word_in(values, "path") else {
        return Err(OrderFault::Usage);
    };
    let user = copy_word(alloc, user)?;
    let path = copy_word(alloc, path)?;
    Ok(FsOrder::Put { user, path })
}

/// Returns the order to read a range with these values.
fn read_order_in(alloc: Global, values: &ArgMatches) -> Result<FsOrder, OrderFault>
    ensures { MatchResult result
        (λ order. read_order_in (rows_of (found_of values.now)) ≡ Some order)
        (λ fault. fault ≡ OrderFault.Usage →
        read_order_in (rows_of (found_of values.now)) ≡ None) }
{
    let ReadValues {
        user,
        path,
        from,
        count,
    } = read_values_in(alloc, values)?;
    Ok(FsOrder::Read {
        user,
        path,
        from,
        count,
    })
}

/// Returns the order of the command with this name and these values.
fn order_named(alloc: Global, name: &str, values: &ArgMatches) -> Result<FsOrder, OrderFault>
    ensures { MatchResult result
        (λ order. order_named name.now (rows_of (found_of values.now)) ≡ Some order)
        (λ fault. fault ≡ OrderFault.Usage →
        order_named name.now (rows_of (found_of values.now)) ≡ None) }
{
    if name == "put" {
        put_order(alloc, values)
    } else if name == "read" {
        read_order_in(alloc, values)
    } else {
        Err(OrderFault::Usage)
    }
}

/// Returns the order that the matches name, unless a value in them has another form.
fn order_of(alloc: Global, matches: &ArgMatches) -> Result<FsOrder, OrderFault>
    ensures { MatchResult result
        (λ order. order_at order_named (subcommand_rows_of matches.now) ≡ Some order)
        (λ fault. fault ≡ OrderFault.Usage → order_at order_named (subcommand_rows_of matches.now) ≡ None) }
{
    match matches.subcommand() {
        Some((name, values)) => order_named(alloc, name, values),
        None => Err(OrderFault::Usage),
    }
}

/// Returns what to do where `clap` finds no command: show a text, or report a fault.
fn order_without_command(alloc: Global, error: &Error) -> Result<FsOrder, OrderFault>
    ensures shown { IfOk result (λ order. IsShown IsHelp IsVersion order (kind_of error.now)) }
    ensures usage { IfErr result
        (λ fault. fault ≡ OrderFault.Usage →
        (kind_of error.now ≢ ErrorKind.OutOfMemory) ×
        (kind_of error.now ≢ ErrorKind.DisplayHelp) ×
        (kind_of error.now ≢ ErrorKind.DisplayVersion)) }
{
    let told = answer_without_command(alloc, error)?;
    Ok(FsOrder::from(told))
}

/// Does what `read_order` does, for words of any type.
fn read<'a, S: AsStr>(alloc: Global, words: &'a [S]) -> Result<FsOrder, OrderFault>
    ensures ok { IfOk result (λ order. IsOrderOf order (map S.text words.entry.now)) }
    ensures usage { IfErr result
        (λ fault. fault ≡ OrderFault.Usage → HasMistake (line_fault (map S.text words.entry.now))) }
{
    let command = hkfs(alloc)?;
    match command.try_get_matches_from(words) {
        Ok(matches) => order_of(alloc, &matches),
        Err(error) => order_without_command(alloc, &error),
    }
}

/// Parses the words of a command line, without the program's own name.
///
/// `put USER PATH` and `read USER PATH FROM COUNT` are the commands. USER has 1 to 255 bytes. The numbers are
/// decimal, below 2^63, without a sign or a leading zero. `--help` or `-h` asks for a help text, and `--version`
/// or `-V` for the version; what follows them counts for nothing. Other words are refused as
/// `OrderFault::Usage`. The first fault that `clap` finds decides. `OrderFault::NoMemory` may come in place of
/// any other answer.
pub fn read_order(alloc: Global, words: &[Text]) -> Result<FsOrder, OrderFault>
    ensures ok { IfOk result (λ order. IsOrderOf order words.now) }
    ensures usage { IfErr result
        (λ fault. fault ≡ OrderFault.Usage → IsMistake (line_fault words.now)) }
    ensures mistake { IsMistake (line_fault words.now) →
        (result ≡ Err OrderFault.Usage) ⊎ (result ≡ Err OrderFault.NoMemory) }
    ensures named { (order : AnOrder) → IsSpelled order words.now →
        (result ≡ Ok order) ⊎ (result ≡ Err OrderFault.NoMemory) }
    ensures help { FindsHelp words.now → ShownAs IsHelp result }
    ensures version { FindsVersion words.now → ShownAs IsVersion result }
    ensures values { IfOk result HasRightValues }
{
    let texts = texts_of(alloc, words)?;
    read(alloc, texts.as_slice())
}

/// Returns the folder that the words give with `--dir`, which stands before the command. Returns `None` if they
/// give none, and also if `clap` finds a fault in them, help and the version included. Fails only if allocation
/// fails.
pub fn read_folder(alloc: Global, words: &[Text]) -> Result<Option<Text>, OrderFault>
    ensures ok { IfOk result (λ folder. folder ≡ folder_of line.hkfs words.now) }
    ensures err { IfErr result (λ fault. fault ≡ OrderFault.NoMemory) }
{
    let texts = texts_of(alloc, words)?;
    let command = hkfs(alloc)?;
    folder_given(alloc, command, texts.as_slice())
}
