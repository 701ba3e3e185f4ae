//! Help and version, which are shown in place of an order.
ghost use Rattle.std.specs.Prelude.{◌≡◌, ◌≢◌, IfErr, IfOk};
ghost use Rattle.clap.specs.Words.{kind_of};
ghost use Rattle.clap_lines.specs.Told.{IsTold};

use clap::Error;
use clap::error::ErrorKind;
use std::alloc::{AllocError, Global};

/// A text to write to standard output before the program ends with status 0. It ends with a line feed.
#[derive(Drop)]
pub enum Told {
    /// A help text.
    Help(String),
    /// The program's name and version.
    Version(String),
}

/// Why a command line asks for nothing.
#[derive(Clone, Copy, Debug, PartialEq, Eq)]
pub enum OrderFault {
    /// The words are not a command line of the program.
    Usage,
    /// There is no memory to parse the words or to make a text.
    NoMemory,
}

impl From<AllocError> for OrderFault {
    ghost use Rattle.std.specs.Prelude.{◌≡◌};
    ghost use Rattle.clap_lines.specs.declared.told.OrderFault.TheVariants as fault;

    ghost from_gives = { λ _ given. given ≡ fault.NoMemory };

    fn from(_: AllocError) -> Self {
        OrderFault::NoMemory
    }
}

/// Returns the text of an error.
fn text_of(alloc: Global, error: &Error) -> Result<String, OrderFault>
    ensures { IfErr result (λ fault. fault ≡ OrderFault.NoMemory) }
{
    Ok(format!(in alloc; "{error}")?)
}

/// Returns what `clap` shows where it finds no command: help or the version. Any other error is a mistake in
/// the words, or want of memory.
pub fn answer_without_command(alloc: Global, error: &Error) -> Result<Told, OrderFault>
    ensures shown { IfOk result (λ told. IsTold told (kind_of error.now)) }
    ensures usage { IfErr result
        (λ fault. fault ≡ OrderFault.Usage →
        (kind_of error.now ≢ ErrorKind.OutOfMemory) ×
        (kind_of error.now ≢ ErrorKind.DisplayHelp) ×
        (kind_of error.now ≢ ErrorKind.DisplayVersion)) }
{
    match error.kind() {
        ErrorKind::OutOfMemory => Err(OrderFault::NoMemory),
        ErrorKind::DisplayHelp => Ok(Told::Help(text_of(alloc, error)?)),
        ErrorKind::DisplayVersion => Ok(Told::Version(text_of(alloc, error)?)),
        _ => Err(OrderFault::Usage),
    }
}
