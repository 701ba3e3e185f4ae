//! The option that gives the folder of a program's files.
ghost use Rattle.std.specs.Prelude.{◌≡◌, ◌≢◌, IfErr, IfOk, None, codes, false, map, true};
ghost use Rattle.clap.specs.Words.{app_of, first_of, found_of, is_simple_and_free, kind_of, rows_of, rule_of};
ghost use Rattle.clap_lines.specs.Folders.{folder_of, folder_option};

use crate::told::OrderFault;
use crate::values::{copy_word, word_in};
use clap::error::ErrorKind;
use clap::{Arg, ArgMatches, Command, Error};
use hk_base::Text;
use std::alloc::Global;
use std::convert::AsStr;

/// What the help of each program says of the option.
const HELP: &str = "Use the files of FOLDER, not those of the current folder";

/// Declares the option `--dir FOLDER`, which stands before the command. `clap` takes any word for the
/// folder that doesn't begin with `-`, and after `=` any text.
pub fn folder_option<'a>(alloc: Global) -> Arg<'a>
    ensures rule { rule_of result ≡ folder_option }
    ensures local { result.global ≡ false }
{
    Arg::new(alloc, "dir")
        .long("dir")
        .value_name("FOLDER")
        .help(HELP)
}

/// Copies the folder among the values, if there is one.
fn folder_in(alloc: Global, values: &ArgMatches) -> Result<Option<Text>, OrderFault>
    ensures ok { IfOk result (λ folder. folder ≡ first_of (codes "dir") (rows_of (found_of values.now))) }
    ensures err { IfErr result (λ fault. fault ≡ OrderFault.NoMemory) }
{
    match word_in(values, "dir") {
        Some(word) => Ok(Some(copy_word(alloc, word)?)),
        None => Ok(None),
    }
}

/// Returns no folder, for an error that is not want of memory.
fn folder_after(error: &Error) -> Result<Option<Text>, OrderFault>
    ensures ok { IfOk result
        (λ folder. (folder ≡ None) × (kind_of error.now ≢ ErrorKind.OutOfMemory)) }
    ensures err { IfErr result (λ fault. fault ≡ OrderFault.NoMemory) }
{
    if error.kind() == ErrorKind::OutOfMemory {
        return Err(OrderFault::NoMemory);
    }
    Ok(None)
}

/// Returns the folder that the words of a program give with `--dir`. Returns `None` if they give none, and
/// also if `clap` finds a fault in them, help and the version included. Fails only if allocation fails.
pub fn folder_given<'a, S: AsStr>(
    alloc: Global,
    command: Command<'a>,
    words: &'a [S],
) -> Result<Option<Text>, OrderFault>
    ensures ok { is_simple_and_free (app_of command.entry) ≡ true → IfOk result
        (λ folder. folder ≡ folder_of (app_of command.entry) (map S.text words.entry.now)) }
    ensures err { IfErr result (λ fault. fault ≡ OrderFault.NoMemory) }
{
    match command.try_get_matches_from(words) {
        Ok(matches) => folder_in(alloc, &matches),
        Err(error) => folder_after(&error),
    }
}
