//! Parsing a command line.
ghost use Rattle.std.specs.Prelude.{◌≡◌, ◌≢◌, ◌⊎◌, IfErr, IfOk, MatchResult, Ok, Err, None, Some, codes, map};
ghost use Rattle.clap.specs.Words.{first_of, found_of, kind_of, rows_of, subcommand_rows_of};
ghost use Rattle.clap_lines.specs.Folders.{folder_of};
ghost use Rattle.clap_lines.specs.Orders.{HasMistake, IsMistake, IsShown, ShownAs, order_at};
ghost use Rattle.copy_command_line.specs.Line as line;
ghost use Rattle.copy_command_line.specs.Orders.{FindsHelp, FindsVersion, HasRightValues, IsHelp, IsOrderOf, IsSpelled, IsVersion, copy_order, line_fault, order_named, read_order_in, source_in, target_in};
ghost use Rattle.copy_command_line.specs.declared.order.CopyOrder.{CopyOrder as AnOrder};

use crate::commands::hkcopy;
use crate::order::CopyOrder;
use clap::error::ErrorKind;
use clap::{ArgMatches, Error};
use clap_lines::{OrderFault, answer_without_command, copy_word, folder_given, texts_of, word_in};
use hk_base::Text;
use read_words::{ReadValues, read_values_in};
use std::alloc::Global;
use std::convert::AsStr;

/// Returns the order to copy a zone with these values.
fn copy_order(alloc: Global, values: &ArgMatches) -> Result<CopyOrder, OrderFault>
    ensures { MatchResult result
        (λ order.
        copy_order (source_in (rows_of (found_of values.now)))
        (target_in (rows_of (found_of values.now))) ≡ Some order)
        (λ fault. fault ≡ OrderFault.Usage →
        copy_order (source_in (rows_of (found_of values.now)))
        (target_in (rows_of (found_of values.now))) ≡ None) }
{
    let Some(source) = word_in(values, "source") else {
        return Err(OrderFault::Usage);
    };
    let Some(target) = word_in(values, "target") else {
        return Err(OrderFault::Usage);
    };
    let source = copy_word(alloc, source)?;
    let target = copy_word(alloc, target)?;
    Ok(CopyOrder::Copy { source, target })
}

/// Returns the order to read a range with these values.
fn read_order_in(alloc: Global, values: &ArgMatches) -> Result<CopyOrder, OrderFault>
    ensures { MatchResult result
        (λ order. read_order_in (rows_of (found_of values.now)) ≡ Some order)
        (λ fault. fault ≡ OrderFault.Usage →
        read_order_in (rows_of (found_of values.now)) ≡ None) }
{
    let ReadValues {
        user,
        path,
        from,
        count,
    } = read_values_in(alloc, values)?;
    Ok(CopyOrder::Read {
        user,
        path,
        from,
        count,
    })
}

/// Returns the order of the command with this name and these values.
fn order_named(alloc: Global, name: &str, values: &ArgMatches) -> Result<CopyOrder, OrderFault>
    ensures { MatchResult result
        (λ order. order_named name.now (rows_of (found_of values.now)) ≡ Some order)
        (λ fault. fault ≡ OrderFault.Usage →
        order_named name.now (rows_of (found_of values.now)) ≡ None) }
{
    if name == "copy" {
        copy_order(alloc, values)
    } else if name == "read" {
        read_order_in(alloc, values)
    } else {
        Err(OrderFault::Usage)
    }
}

/// Returns the order that the matches name, unless a value in them has another form.
fn order_of(alloc: Global, matches: &ArgMatches) -> Result<CopyOrder, OrderFault>
    ensures { MatchResult result
        (λ order. order_at order_named (subcommand_rows_of matches.now) ≡ Some order)
        (λ fault. fault ≡ OrderFault.Usage → order_at order_named (subcommand_rows_of matches.now) ≡ None) }
{
    match matches.subcommand() {
        Some((name, values)) => order_named(alloc, name, values),
        None => Err(OrderFault::Usage),
    }
}

/// Returns what to do where `clap` finds no command: show a text, or report a fault.
fn order_without_command(alloc: Global, error: &Error) -> Result<CopyOrder, OrderFault>
    ensures shown { IfOk result (λ order. IsShown IsHelp IsVersion order (kind_of error.now)) }
    ensures usage { IfErr result
        (λ fault. fault ≡ OrderFault.Usage →
        (kind_of error.now ≢ ErrorKind.OutOfMemory) ×
        (kind_of error.now ≢ ErrorKind.DisplayHelp) ×
        (kind_of error.now ≢ ErrorKind.DisplayVersion)) }
{
    let told = answer_without_command(alloc, error)?;
    Ok(CopyOrder::from(told))
}

/// Does what `read_order` does, for words of any type.
fn read<'a, S: AsStr>(alloc: Global, words: &'a [S]) -> Result<CopyOrder, OrderFault>
    ensures ok { IfOk result (λ order. IsOrderOf order (map S.text words.entry.now)) }
    ensures usage { IfErr result
        (λ fault. fault ≡ OrderFault.Usage → HasMistake (line_fault (map S.text words.entry.now))) }
{
    let command = hkcopy(alloc)?;
    match command.try_get_matches_from(words) {
        Ok(matches) => order_of(alloc, &matches),
        Err(error) => order_without_command(alloc, &error),
    }
}

/// Parses the words of a command line, without the program's own name.
///
/// `copy FROM TO` and `read USER PATH FROM COUNT` are the commands. USER has 1 to 255 bytes. The numbers are
/// decimal, below 2^63, without a sign or a leading zero. `--help` or `-h` asks for a help text, and `--version`
/// or `-V` for the version; what follows them counts for nothing. Other words are refused as
/// `OrderFault::Usage`. The first fault that `clap` finds decides. `OrderFault::NoMemory` may come in place of
/// any other answer.
pub fn read_order(alloc: Global, words: &[Text]) -> Result<CopyOrder, OrderFault>
    ensures ok { IfOk result (λ order. IsOrderOf order words.now) }
    ensures usage { IfErr result
        (λ fault. fault ≡ OrderFault.Usage → IsMistake (line_fault words.now)) }
    ensures mistake { IsMistake (line_fault words.now) →
        (result ≡ Err OrderFault.Usage) ⊎ (result ≡ Err OrderFault.NoMemory) }
    ensures named { (order : AnOrder) → IsSpelled order words.now →
        (result ≡ Ok order) ⊎ (result ≡ Err OrderFault.NoMemory) }
    ensures help { FindsHelp words.now → ShownAs IsHelp result }
    ensures version { FindsVersion words.now → ShownAs IsVersion result }
    ensures values { IfOk result HasRightValues }
{
    let texts = texts_of(alloc, words)?;
    read(alloc, texts.as_slice())
}

/// Returns the folder that the words give with `--dir`, which stands before the command. Returns `None` if they
/// give none, and also if `clap` finds a fault in them, help and the version included. Fails only if allocation
/// fails.
pub fn read_folder(alloc: Global, words: &[Text]) -> Result<Option<Text>, OrderFault>
    ensures ok { IfOk result (λ folder. folder ≡ folder_of line.hkcopy words.now) }
    ensures err { IfErr result (λ fault. fault ≡ OrderFault.NoMemory) }
{
    let texts = texts_of(alloc, words)?;
    let command = hkcopy(alloc)?;
    folder_given(alloc, command, texts.as_slice())
}
