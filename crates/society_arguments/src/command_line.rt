//! The words that the program takes, as `clap` reads and explains them.
ghost use Rattle.std.specs.Prelude.{◌≡◌, IfOk, false};
ghost use Rattle.clap.specs.Words.{app_of, rule_of};
ghost use Rattle.clap.specs.declared.builder.command.Command.TheViews.{out-Command as fields_of};
ghost use Rattle.society_arguments.specs.CommandLine.{audit_command, command_line, credit_command, flag, free_option, over_database, replay_command, required_option, serve_command, with_office, with_patience, with_place};

use clap::{Arg, ArgAction, Command, value_parser};
use std::alloc::{AllocError, Global};

/// Greatest number of a society.
const MAX_SOCIETY: i64 = 999;

/// Greatest number of a territory.
const MAX_TERRITORY: i64 = 9_999;

/// Greatest number of a port.
const MAX_PORT: i64 = 65_535;

/// Most connections of one run.
const MAX_CONNECTIONS: i64 = 1_000_000;

/// Longest patience with a connection, in seconds: a day.
const MAX_PATIENCE: i64 = 86_400;

/// The command line of the program: `replay`, `serve`, `audit` or `credit`, each with its options in any order.
pub fn command_line<'a>(alloc: Global) -> Result<Command<'a>, AllocError>
    ensures { IfOk result (λ r. app_of r ≡ command_line) }
{
    Command::new(alloc, "society")
        .about("Works registry and royalty office of an authors' society")
        .subcommand_required(true)
        .disable_help_subcommand(true)
        .subcommand(replay_command(alloc)?)?
        .subcommand(serve_command(alloc)?)?
        .subcommand(audit_command(alloc)?)?
        .subcommand(credit_command(alloc)?)
}

// Answers on standard output what came on standard input.
fn replay_command<'a>(alloc: Global) -> Result<Command<'a>, AllocError>
    ensures { IfOk result (λ r. (app_of r ≡ replay_command) × ((fields_of r).has_globals ≡ false)) }
{
    let command = Command::new(alloc, "replay").about(
        "Answer the requests on standard input on standard output",
    );
    with_office(alloc, command)
}

// Answers the requests of connections.
fn serve_command<'a>(alloc: Global) -> Result<Command<'a>, AllocError>
    ensures { IfOk result (λ r. (app_of r ≡ serve_command) × ((fields_of r).has_globals ≡ false)) }
{
    let command = over_database(
        alloc,
        "serve",
        "Listen on this machine and answer the requests of connections",
        "File of the office's database, made where there is none",
    )?;
    let existing = flag(alloc, "existing").help("Serve only a file that holds an office already");
    let command = with_place(alloc, command.arg(existing)?)?;
    with_office(alloc, with_patience(alloc, command)?)
}

// Tells whether a database is sound.
fn audit_command<'a>(alloc: Global) -> Result<Command<'a>, AllocError>
    ensures { IfOk result (λ r. (app_of r ≡ audit_command) × ((fields_of r).has_globals ≡ false)) }
{
    let command = over_database(
        alloc,
        "audit",
        "Tell whether a file holds the office's book, and write nothing to it",
        "File of the office's database",
    )?;
    with_office(alloc, command)
}

// Tells what orders would credit.
fn credit_command<'a>(alloc: Global) -> Result<Command<'a>, AllocError>
    ensures { IfOk result (λ r. (app_of r ≡ credit_command) × ((fields_of r).has_globals ≡ false)) }
{
    let command = over_database(
        alloc,
        "credit",
        "Tell what the orders on standard input would credit, and why",
        "File of the office's database",
    )?;
    with_office(alloc, command)
}

// A command over the database at a path.
fn over_database<'a>(
    alloc: Global,
    name: &'a str,
    about: &'a str,
    help: &'a str,
) -> Result<Command<'a>, AllocError>
    ensures { IfOk result (λ r. (app_of r ≡ over_database name.entry.now) × ((fields_of r).has_globals ≡ false)) }
{
    let database = required_option(alloc, "db", "PATH").help(help);
    Command::new(alloc, name).about(about).arg(database)
}

// The command with the options that say where to listen, and for how long.
fn with_place<'a>(alloc: Global, command: Command<'a>) -> Result<Command<'a>, AllocError>
    ensures { IfOk result (λ r. (app_of r ≡ with_place (app_of command.entry))
        × ((fields_of r).has_globals ≡ (fields_of command.entry).has_globals)) }
{
    let port = required_option(alloc, "port", "N")
        .value_parser(value_parser!(u16).range(1..=MAX_PORT))
        .help("Port of this machine, 1 to 65535");
    let connections = required_option(alloc, "connections", "N")
        .value_parser(value_parser!(u32).range(1..=MAX_CONNECTIONS))
        .help("Connections to serve, one after another, 1 to 1000000");
    command.arg(port)?.arg(connections)
}

// The command with the option that says for how long a connection's peer is waited for.
fn with_patience<'a>(alloc: Global, command: Command<'a>) -> Result<Command<'a>, AllocError>
    ensures { IfOk result (λ r. (app_of r ≡ with_patience (app_of command.entry))
        × ((fields_of r).has_globals ≡ (fields_of command.entry).has_globals)) }
{
    let patience = free_option(alloc, "patience", "SECONDS")
        .value_parser(value_parser!(u32).range(1..=MAX_PATIENCE))
        .help(
            "Longest wait for a peer in all, and again for each MiB that moves, 1 to 86400, else 300",
        );
    command.arg(patience)
}

// The command with the options that name an office.
fn with_office<'a>(alloc: Global, command: Command<'a>) -> Result<Command<'a>, AllocError>
    ensures { IfOk result (λ r. (app_of r ≡ with_office (app_of command.entry))
        × ((fields_of r).has_globals ≡ (fields_of command.entry).has_globals)) }
{
    let society = required_option(alloc, "society", "N")
        .value_parser(value_parser!(u16).range(1..=MAX_SOCIETY))
        .help("Number of the society, 1 to 999");
    let territory = required_option(alloc, "territory", "N")
        .value_parser(value_parser!(u16).range(1..=MAX_TERRITORY))
        .help("Territory of the office, 1 to 9999");
    let name = required_option(alloc, "name", "TEXT").help(
        "Name of the office, 1 to 45 bytes of printable ASCII",
    );
    command.arg(society)?.arg(territory)?.arg(name)
}

// An option that is to be given once, with one value.
fn required_option<'a>(alloc: Global, name: &'a str, value: &'a str) -> Arg<'a>
    ensures rule { rule_of result ≡ required_option name.entry.now }
    ensures local { result.global ≡ false }
{
    Arg::new(alloc, name)
        .long(name)
        .value_name(value)
        .action(ArgAction::Set)
        .required(true)
}

// An option that may be given once, with one value.
fn free_option<'a>(alloc: Global, name: &'a str, value: &'a str) -> Arg<'a>
    ensures rule { rule_of result ≡ free_option name.entry.now }
    ensures local { result.global ≡ false }
{
    Arg::new(alloc, name)
        .long(name)
        .value_name(value)
        .action(ArgAction::Set)
}

// An option without a value, which may be given once.
fn flag<'a>(alloc: Global, name: &'a str) -> Arg<'a>
    ensures rule { rule_of result ≡ flag name.entry.now }
    ensures local { result.global ≡ false }
{
    Arg::new(alloc, name).long(name).action(ArgAction::SetTrue)
}
