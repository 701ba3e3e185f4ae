//! The commands of the program, as declared to `clap`.
ghost use Rattle.std.specs.Prelude.{◌≡◌, IfOk, false};
ghost use Rattle.clap.specs.Words.{app_of, rule_of};
ghost use Rattle.command_line.specs.Line as line;

use crate::help;
use clap::builder::ValueParser;
use clap::{Arg, Command, value_parser};
use clap_lines::folder_option;
use std::alloc::{AllocError, Global};

/// Declares the program without its commands. A command is required, and `help` is not a command.
fn top<'a>(alloc: Global) -> Result<Command<'a>, AllocError>
    ensures { IfOk result (λ r. app_of r ≡ line.top) }
{
    let plain = Command::new(alloc, "hkms")
        .about(help::PROGRAM)
        .after_help(help::PROGRAM_NOTES)
        .version(help::VERSION)
        .no_binary_name(true)
        .subcommand_required(true)
        .disable_help_subcommand(true)
        .bin_name("hkms")?;
    plain.arg(folder_option(alloc))
}

/// Adds a command whose only option is help.
fn with_plain<'a>(
    alloc: Global,
    program: Command<'a>,
    name: &'a str,
    about: &'a str,
    notes: &'a str,
) -> Result<Command<'a>, AllocError>
    ensures { IfOk result (λ r. app_of r ≡ line.with_plain (app_of program.entry) name.entry.now) }
{
    let command = Command::new(alloc, name).about(about).after_help(notes);
    program.subcommand(command)
}

/// Declares an option that takes one of these numbers.
fn number_option<'a>(
    alloc: Global,
    name: &'a str,
    help: &'a str,
    numbers: ValueParser<'a>,
) -> Arg<'a>
    ensures rule { rule_of result ≡ line.number_option name.entry.now numbers.entry }
    ensures local { result.global ≡ false }
{
    Arg::new(alloc, name)
        .long(name)
        .value_name("N")
        .help(help)
        .value_parser(numbers)
}

/// Declares the option `--port`.
fn port_option<'a>(alloc: Global) -> Arg<'a>
    ensures rule { rule_of result ≡ line.port }
    ensures local { result.global ≡ false }
{
    let ports = value_parser!(u16).range(1..);
    number_option(alloc, "port", help::PORT, ports)
}

/// Declares the option `--conns`.
fn conns_option<'a>(alloc: Global) -> Arg<'a>
    ensures rule { rule_of result ≡ line.conns }
    ensures local { result.global ≡ false }
{
    let counts = value_parser!(u32).range(1..);
    number_option(alloc, "conns", help::CONNS, counts)
}

/// Declares the option `--connections`.
fn connections_option<'a>(alloc: Global) -> Arg<'a>
    ensures rule { rule_of result ≡ line.connections }
    ensures local { result.global ≡ false }
{
    let places = value_parser!(u16).range(1..=1024);
    number_option(alloc, "connections", help::CONNECTIONS, places)
}

/// Declares `serve` with its options.
fn serve<'a>(alloc: Global) -> Result<Command<'a>, AllocError>
    ensures { IfOk result (λ r. app_of r ≡ line.serve) }
{
    let plain = Command::new(alloc, "serve")
        .about(help::SERVE)
        .after_help(help::SERVE_NOTES);
    let half = plain.arg(port_option(alloc))?;
    let most = half.arg(conns_option(alloc))?;
    most.arg(connections_option(alloc))
}

/// Adds the command `serve`.
fn with_serve<'a>(alloc: Global, program: Command<'a>) -> Result<Command<'a>, AllocError>
    ensures { IfOk result (λ r. app_of r ≡ line.with_serve (app_of program.entry)) }
{
    let serve = serve(alloc)?;
    program.subcommand(serve)
}

/// Declares the number of steps, without which there is no `load`.
fn count_argument<'a>(alloc: Global) -> Arg<'a>
    ensures rule { rule_of result ≡ line.count }
    ensures local { result.global ≡ false }
{
    let counts = value_parser!(u32).range(1..=20_000);
    Arg::new(alloc, "count")
        .value_name("N")
        .help(help::COUNT)
        .required(true)
        .value_parser(counts)
}

/// Declares `load` with its number.
fn load<'a>(alloc: Global) -> Result<Command<'a>, AllocError>
    ensures { IfOk result (λ r. app_of r ≡ line.load) }
{
    let plain = Command::new(alloc, "load")
        .about(help::LOAD)
        .after_help(help::LOAD_NOTES);
    plain.arg(count_argument(alloc))
}

/// Adds the command `load`.
fn with_load<'a>(alloc: Global, program: Command<'a>) -> Result<Command<'a>, AllocError>
    ensures { IfOk result (λ r. app_of r ≡ line.with_load (app_of program.entry)) }
{
    let load = load(alloc)?;
    program.subcommand(load)
}

/// Declares the program with its commands.
pub(crate) fn hkms<'a>(alloc: Global) -> Result<Command<'a>, AllocError>
    ensures { IfOk result (λ r. app_of r ≡ line.hkms) }
{
    let program = top(alloc)?;
    let half = with_plain(alloc, program, "replay", help::REPLAY, help::REPLAY_NOTES)?;
    let most = with_plain(alloc, half, "pipe", help::PIPE, help::PIPE_NOTES)?;
    let served = with_serve(alloc, most)?;
    let loaded = with_load(alloc, served)?;
    with_plain(alloc, loaded, "check", help::CHECK, help::CHECK_NOTES)
}
