//! The command `read`, as declared to `clap`.
ghost use Rattle.std.specs.Prelude.{◌≡◌, IfOk};
ghost use Rattle.clap.specs.Words.{app_of};
ghost use Rattle.read_words.specs.Line as line;

use crate::help;
use clap::Command;
use clap_lines::word;
use std::alloc::{AllocError, Global};

/// Declares `read` with its words.
fn read<'a>(
    alloc: Global,
    about: &'a str,
    notes: &'a str,
    path: &'a str,
) -> Result<Command<'a>, AllocError>
    ensures { IfOk result (λ r. app_of r ≡ line.read) }
{
    let plain = Command::new(alloc, "read").about(about).after_help(notes);
    let one = plain.arg(word(alloc, "user", "USER", help::USER))?;
    let two = one.arg(word(alloc, "path", "PATH", path))?;
    let three = two.arg(word(alloc, "from", "FROM", help::FROM))?;
    three.arg(word(alloc, "count", "COUNT", help::COUNT))
}

/// Adds the command `read` to a program.
///
/// In its help `about` is the purpose, `path` says what its second word gives, and `notes` come at the end.
pub fn with_read<'a>(
    alloc: Global,
    program: Command<'a>,
    about: &'a str,
    notes: &'a str,
    path: &'a str,
) -> Result<Command<'a>, AllocError>
    ensures { IfOk result (λ r. app_of r ≡ line.with_read (app_of program.entry)) }
{
    let read = read(alloc, about, notes, path)?;
    program.subcommand(read)
}
