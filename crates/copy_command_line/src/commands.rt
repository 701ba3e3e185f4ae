//! The commands of the program, as declared to `clap`.
ghost use Rattle.std.specs.Prelude.{◌≡◌, IfOk};
ghost use Rattle.clap.specs.Words.{app_of};
ghost use Rattle.copy_command_line.specs.Line as line;

use crate::help;
use clap::Command;
use clap_lines::{folder_option, word};
use read_words::with_read;
use std::alloc::{AllocError, Global};

/// Declares the program without its commands. A command is required, and `help` is not a command.
fn top<'a>(alloc: Global) -> Result<Command<'a>, AllocError>
    ensures { IfOk result (λ r. app_of r ≡ line.top) }
{
    let plain = Command::new(alloc, "hkcopy")
        .about(help::PROGRAM)
        .after_help(help::PROGRAM_NOTES)
        .version(help::VERSION)
        .no_binary_name(true)
        .subcommand_required(true)
        .disable_help_subcommand(true)
        .bin_name("hkcopy")?;
    plain.arg(folder_option(alloc))
}

/// Declares `copy` with its words.
fn copy<'a>(alloc: Global) -> Result<Command<'a>, AllocError>
    ensures { IfOk result (λ r. app_of r ≡ line.copy) }
{
    let plain = Command::new(alloc, "copy")
        .about(help::COPY)
        .after_help(help::COPY_NOTES);
    let half = plain.arg(word(alloc, "source", "FROM", help::SOURCE))?;
    half.arg(word(alloc, "target", "TO", help::TARGET))
}

/// Adds the command `copy`.
fn with_copy<'a>(alloc: Global, program: Command<'a>) -> Result<Command<'a>, AllocError>
    ensures { IfOk result (λ r. app_of r ≡ line.with_copy (app_of program.entry)) }
{
    let copy = copy(alloc)?;
    program.subcommand(copy)
}

/// Declares the program with its commands.
pub(crate) fn hkcopy<'a>(alloc: Global) -> Result<Command<'a>, AllocError>
    ensures { IfOk result (λ r. app_of r ≡ line.hkcopy) }
{
    let program = top(alloc)?;
    let half = with_copy(alloc, program)?;
    with_read(alloc, half, help::READ, help::READ_NOTES, help::PATH)
}
