//! The commands of the program, as declared to `clap`.
ghost use Rattle.std.specs.Prelude.{◌≡◌, IfOk};
ghost use Rattle.clap.specs.Words.{app_of};
ghost use Rattle.fs_command_line.specs.Line as line;

use crate::help;
use clap::Command;
use clap_lines::{folder_option, word};
use read_words::with_read;
use std::alloc::{AllocError, Global};

/// Declares the program without its commands. A command is required, and `help` is not a command.
fn top<'a>(alloc: Global) -> Result<Command<'a>, AllocError>
    ensures { IfOk result (λ r. app_of r ≡ line.top) }
{
    let plain = Command::new(alloc, "hkfs")
        .about(help::PROGRAM)
        .after_help(help::PROGRAM_NOTES)
        .version(help::VERSION)
        .no_binary_name(true)
        .subcommand_required(true)
        .disable_help_subcommand(true)
        .bin_name("hkfs")?;
    plain.arg(folder_option(alloc))
}

/// Declares `put` with its words.
fn put<'a>(alloc: Global) -> Result<Command<'a>, AllocError>
    ensures { IfOk result (λ r. app_of r ≡ line.put) }
{
    let plain = Command::new(alloc, "put")
        .about(help::PUT)
        .after_help(help::PUT_NOTES);
    let half = plain.arg(word(alloc, "user", "USER", help::USER))?;
    half.arg(word(alloc, "path", "PATH", help::NEW_PATH))
}

/// Adds the command `put`.
fn with_put<'a>(alloc: Global, program: Command<'a>) -> Result<Command<'a>, AllocError>
    ensures { IfOk result (λ r. app_of r ≡ line.with_put (app_of program.entry)) }
{
    let put = put(alloc)?;
    program.subcommand(put)
}

/// Declares the program with its commands.
pub(crate) fn hkfs<'a>(alloc: Global) -> Result<Command<'a>, AllocError>
    ensures { IfOk result (λ r. app_of r ≡ line.hkfs) }
{
    let program = top(alloc)?;
    let half = with_put(alloc, program)?;
    with_read(alloc, half, help::READ, help::READ_NOTES, help::PATH)
}
