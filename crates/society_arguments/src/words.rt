//! What the program's arguments ask for, as `clap` has read them.
ghost use Rattle.std.specs.Prelude.{◌≡◌, IfErr, IfOk, Some, map, string_bytes};
ghost use Rattle.clap.specs.Words.{found_of, kind_of, rows_of};
ghost use Rattle.society_arguments.specs.Words.{Asked, IsReadAs, IsRefusedAs, asked, asked_at, asked_audit, asked_command, asked_credit, asked_office, asked_serve, auditing, crediting, flag_given, number_given, patience_given, place_given, serving};

use crate::command_line::command_line;
use clap::{ArgMatches, Error};
use share_rules::Office;
use std::alloc::Global;

/// Where the office listens, and for how long.
#[derive(Clone, Copy, Debug, PartialEq, Eq)]
pub struct Listening {
    /// A port of this machine.
    pub port: u16,
    /// How many connections it serves.
    pub connections: u32,
    /// How many seconds it waits for the peer of a connection in all, and as many more for each MiB that moves.
    pub patience: u32,
}

/// Seconds of patience where none are given: at 4,000 bytes a second a body of 1 MiB passes.
const USUAL_PATIENCE: u32 = 300;

/// Which database is served.
#[derive(Clone, Copy, Debug)]
pub struct Database<'a> {
    /// Where its file is.
    pub path: &'a str,
    /// Whether it has to be an office's already; else one is begun where there is none.
    pub existing: bool,
}

/// What the program's words ask for.
#[derive(Debug)]
pub enum Words<'a> {
    /// To replay standard input at this office.
    Replay(Office),
    /// To serve connections at this office, over a database.
    Serve(Database<'a>, Listening, Office),
    /// To audit the database of a path as this office's.
    Audit(&'a str, Office),
    /// To tell what orders on standard input would credit over the database of a path as this office's.
    Credit(&'a str, Office),
    /// The office's name is none.
    BadName,
    /// Nothing that the program knows.
    BadWords,
}

/// The number below 65,536 that an option gives.
fn short_number(options: &ArgMatches<'_>, option: &str) -> Option<u16>
    ensures { result ≡ number_given 16 option.now (rows_of (found_of options.now)) }
{
    options.get_one::<u16>(option)
}

/// The number below 2^32 that an option gives.
fn long_number(options: &ArgMatches<'_>, option: &str) -> Option<u32>
    ensures { result ≡ number_given 32 option.now (rows_of (found_of options.now)) }
{
    options.get_one::<u32>(option)
}

/// Whether an option without a value is given.
fn is_given(options: &ArgMatches<'_>, option: &str) -> bool
    ensures { result ≡ flag_given option.now (rows_of (found_of options.now)) }
{
    match options.get_str(option) {
        Some(text) => text == "true",
        None => false,
    }
}

/// To replay at the office with these numbers and this name, where there is such an office.
fn replay_at<'a>(society: u16, territory: u16, name: &str) -> Words<'a>
    ensures { IsReadAs (asked_at (Some society) (Some territory) (Some name.now)) result }
{
    match Office::new(society, territory, name.as_bytes()) {
        Some(office) => Words::Replay(office),
        None => Words::BadName,
    }
}

/// To replay at the office that options name.
fn office_in<'a>(options: &ArgMatches<'_>) -> Words<'a>
    ensures { IsReadAs (asked_office (rows_of (found_of options.now))) result }
{
    let Some(society) = short_number(options, "society") else {
        return Words::BadWords;
    };
    let Some(territory) = short_number(options, "territory") else {
        return Words::BadWords;
    };
    let Some(name) = options.get_str("name") else {
        return Words::BadWords;
    };
    replay_at(society, territory, name)
}

/// The patience that options give, or the usual one.
fn patience_in(options: &ArgMatches<'_>) -> u32
    ensures { result ≡ patience_given (rows_of (found_of options.now)) }
{
    match long_number(options, "patience") {
        Some(seconds) => seconds,
        None => USUAL_PATIENCE,
    }
}

/// The place that options name.
fn place_in(options: &ArgMatches<'_>) -> Option<Listening>
    ensures { result ≡ place_given (rows_of (found_of options.now)) }
{
    let port = short_number(options, "port")?;
    let connections = long_number(options, "connections")?;
    let patience = patience_in(options);
    Some(Listening {
        port,
        connections,
        patience,
    })
}

/// To serve a database at this place and the office that the words name.
fn serve_at<'a>(database: Database<'a>, place: Listening, words: Words<'a>) -> Words<'a>
    ensures { (a : Asked) → IsReadAs a words.entry
        → IsReadAs (serving (Some database.entry.path.now) database.entry.existing (Some place) a) result }
{
    match words {
        Words::Replay(office) => Words::Serve(database, place, office),
        other => other,
    }
}

/// To audit the database of a path as that of the office that the words name.
fn audit_at<'a>(path: &'a str, words: Words<'a>) -> Words<'a>
    ensures { (a : Asked) → IsReadAs a words.entry → IsReadAs (auditing (Some path.entry.now) a) result }
{
    match words {
        Words::Replay(office) => Words::Audit(path, office),
        other => other,
    }
}

/// To credit orders over the database of a path as that of the office that the words name.
fn credit_at<'a>(path: &'a str, words: Words<'a>) -> Words<'a>
    ensures { (a : Asked) → IsReadAs a words.entry → IsReadAs (crediting (Some path.entry.now) a) result }
{
    match words {
        Words::Replay(office) => Words::Credit(path, office),
        other => other,
    }
}

/// To serve as options say.
fn serve_in<'a>(options: &ArgMatches<'a>) -> Words<'a>
    ensures { IsReadAs (asked_serve (rows_of (found_of options.entry.now))) result }
{
    let Some(path) = options.get_str("db") else {
        return Words::BadWords;
    };
    let Some(place) = place_in(options) else {
        return Words::BadWords;
    };
    let existing = is_given(options, "existing");
    serve_at(Database { path, existing }, place, office_in(options))
}

/// To audit as options say.
fn audit_in<'a>(options: &ArgMatches<'a>) -> Words<'a>
    ensures { IsReadAs (asked_audit (rows_of (found_of options.entry.now))) result }
{
    match options.get_str("db") {
        Some(path) => audit_at(path, office_in(options)),
        None => Words::BadWords,
    }
}

/// To credit orders as options say.
fn credit_in<'a>(options: &ArgMatches<'a>) -> Words<'a>
    ensures { IsReadAs (asked_credit (rows_of (found_of options.entry.now))) result }
{
    match options.get_str("db") {
        Some(path) => credit_at(path, office_in(options)),
        None => Words::BadWords,
    }
}

/// What a command asks for with these options.
fn command_in<'a>(command: &str, options: &ArgMatches<'a>) -> Words<'a>
    ensures { IsReadAs (asked_command command.now (rows_of (found_of options.entry.now))) result }
{
    match command {
        "serve" => serve_in(options),
        "audit" => audit_in(options),
        "credit" => credit_in(options),
        _ => office_in(options),
    }
}

/// What the program's words ask for, its own name the first of them: what they give to the options of the command line.
/// Else `clap` says why they are not taken, or tells of them, or memory was refused.
pub fn words_in<'a>(alloc: Global, words: &'a [String]) -> Result<Words<'a>, Error>
    ensures ok { IfOk result (IsReadAs (asked (map string_bytes words.entry.now))) }
    ensures err { IfErr result (λ e. IsRefusedAs (asked (map string_bytes words.entry.now)) (kind_of e)) }
{
    let matches = command_line(alloc)?.try_get_matches_from(words)?;
    match matches.subcommand() {
        Some((command, options)) => Ok(command_in(command, options)),
        None => Ok(Words::BadWords),
    }
}
