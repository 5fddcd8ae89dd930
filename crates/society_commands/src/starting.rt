//! What the program does, by its words.
ghost use Rattle.std.specs.Prelude.{◌≡◌, ◌≢◌, ◌⊎◌, IfErr, IfOk, IsErr, OnErr, codes};
ghost use Rattle.std.specs.IoError.{error_kind};
ghost use Rattle.clap.specs.Words.{kind_of};
ghost use Rattle.clap.specs.declared.error.kind.ErrorKind.TheVariants.{DisplayHelp, OutOfMemory};
ghost use Rattle.http_desk.specs.Serves.{KeepsTurns, NeitherFails};
ghost use Rattle.society_commands.specs.Connections.{CreditsOpened, ListsEach, FindsSound, FindsUnsound, ServesOpened, StopsCrediting, StopsServing, IsUnheard, IsUnused, ListensNowhere, ReadsNothing, UsesNothing};
ghost use Rattle.society_commands.specs.Replays.{Replays, BreaksOff};
ghost use Rattle.desk_connections.specs.Faults.{most_turns};
ghost use Rattle.society_commands.specs.Refusals.{status_after, no_words_by, status_without};
ghost use Rattle.desk_connections.specs.Connections.{Prints};
ghost use Rattle.society_commands.specs.Troubles.{Tells, TellsAtEnd, TellsQuietly, TellsWithout, refused_line};
ghost use Rattle.society_arguments.specs.Words.{AsksHelp, EndsAudit, EndsCredit, EndsReplay, EndsServing, HasBadName, IsWrong, WantsReplay, asks};

use crate::auditing::audit_file;
use crate::crediting::credit_file;
use crate::file_tables::FileTables;
use crate::left::Left;
use crate::listened::Listened;
use crate::machine::OpenDatabase;
use crate::opening::{Job, serve_file};
use crate::replaying::{SERVED, replay};
use crate::trouble::{Trouble, tell};
use clap::Error;
use clap::error::ErrorKind as ClapKind;
use desk_connections::{Listen, Network, print};
use http_desk::{Counted, DeskFault, FaultKind};
use society_arguments::{Words, words_in};
use std::alloc::Global;
use std::io::{self, ErrorKind, Read, Write};

/// Status where the words are none that the program knows.
const WRONG_WORDS: u8 = 2;

/// Why the program's words could not be had.
#[derive(Clone, Copy, Debug, PartialEq, Eq, thiserror::Error)]
pub enum NoWords {
    /// A word is no text.
    #[error("a word is no text")]
    NoText,
    /// Memory was refused for them.
    #[error("out of memory")]
    Memory,
}

/// Does what the program's words ask for: replays the reader at the office that they name, or serves connections there over the
/// database that they name, or audits that database, or tells what orders would credit over it, or tells of the words on `out`; where they are wrong, says so on `err` and reads
/// and writes nothing else. Answers the exit status: that of `replay`, `serve_file`, `audit_file` or `credit_file`, 0 for help, 2 for wrong words;
/// else memory was refused for the words. What is left of the database comes back with it, and the opener where there is nothing to open; and
/// what is left of the network, which is used to serve a database alone. But to replay and to tell of orders, nothing is read.
pub fn start<N: Listen, O: OpenDatabase, R: Read, W: Write, E: Write>(
    net: N,
    opener: O,
    alloc: Global,
    words: &[String],
    reader: &mut Counted<R>,
    out: &mut Counted<W>,
    err: &mut Counted<E>,
) -> (Result<u8, NoWords>, Left<O::File, O>, Listened<N, N::Door>)
    ensures err { OnErr result.0 ((reader.new ≡ reader.old) × (out.new ≡ out.old) × (err.new ≡ err.old) × IsUnused opener result.1 × IsUnheard net result.2) }
    ensures memory { IfErr result.0 (λ why. why ≡ NoWords.Memory) }
    ensures wrong { IsWrong (asks words.now)
        → IfOk result.0 (λ status. (status ≡ 2) × (reader.new ≡ reader.old) × (out.new ≡ out.old)) }
    ensures name { asks words.now ≡ HasBadName → IfOk result.0 (λ _. Prints E.contents err.old err.new (refused_line (codes "bad name"))) }
    ensures help { asks words.now ≡ AsksHelp → IfOk result.0 (λ status. (status ≡ 0) × (reader.new ≡ reader.old)) }
    ensures status { IfOk result.0 (λ status. (status ≡ 0) ⊎ ((status ≡ 1) ⊎ ((status ≡ 2) × IsWrong (asks words.now)))) }
    // Where all that they ask for is done, nothing is said on `err` but that others may write the file, and that a log was not copied.
    ensures quiet { IfOk result.0 (λ status. status ≡ 0 → TellsQuietly O.OpenDatabase E.contents err.old err.new result.1 (asks words.now)) }
    // But to serve, to audit and to credit nothing is opened; but to serve nothing listens; but to replay and to credit nothing is read.
    ensures unused { UsesNothing (asks words.now) opener result.1 }
    ensures unheard { ListensNowhere (asks words.now) net result.2 }
    ensures unread { ReadsNothing (asks words.now) reader.old reader.new }
    ensures replayed { EndsReplay (asks words.now) 0 result.0 (λ office.
        Replays office R.remaining W.contents reader.old out.old out.new) }
    ensures broken_off { EndsReplay (asks words.now) 1 result.0 (λ office.
        BreaksOff office R.remaining W.contents reader.old reader.new out.old out.new (Tells E.contents err.old err.new)) }
    // No failure is passed over, and each read was needed.
    ensures kept { EndsReplay (asks words.now) 0 result.0 (λ office. NeitherFails reader.old reader.new out.old out.new) }
    ensures turns { WantsReplay (asks words.now) → IfOk result.0 (λ status. KeepsTurns R.remaining reader.old reader.new most_turns) }
    ensures served { EndsServing (asks words.now) 0 result.0 (λ s.
        ServesOpened ⟦<N as Network>⟧.network ⟦<O as FileTables>⟧.files s W.contents out.old out.new result.1 result.2) }
    ensures stopped { EndsServing (asks words.now) 1 result.0 (λ s. StopsServing
        ⟦<N as Network>⟧.network ⟦<O as FileTables>⟧.files net opener s W.contents out.old out.new E.contents err.old err.new result.1 result.2) }
    ensures sound { EndsAudit (asks words.now) 0 result.0 (λ path office.
        FindsSound O.OpenDatabase path office W.contents out.old out.new result.1) }
    ensures unsound { EndsAudit (asks words.now) 1 result.0 (λ path office.
        FindsUnsound O.OpenDatabase opener path office out.old out.new E.contents err.old err.new result.1) }
    ensures credited { EndsCredit (asks words.now) 0 result.0 (λ path office. CreditsOpened O.OpenDatabase path office 0
        (ListsEach _ E.contents office R.remaining W.contents reader.old reader.new out.old out.new) result.1) }
    ensures uncredited { EndsCredit (asks words.now) 1 result.0 (λ at office.
        StopsCrediting O.OpenDatabase opener at office R.remaining W.contents E.contents reader.old reader.new out.old out.new err.old err.new result.1) }
{
    match words_in(alloc, words) {
        Ok(Words::Replay(office)) => {
            let status = replay(alloc, &office, reader, out, err);
            (Ok(status), Left::Unused(opener), Listened::Unused(net))
        }
        Ok(Words::Serve(database, place, office)) => {
            let job = Job { database, place };
            let (status, left, listened) = serve_file(net, opener, alloc, job, &office, out, err);
            (Ok(status), left, listened)
        }
        Ok(Words::Audit(path, office)) => {
            let (status, left) = audit_file(opener, alloc, path, &office, out, err);
            (Ok(status), left, Listened::Unused(net))
        }
        Ok(Words::Credit(path, office)) => {
            let (status, left) = credit_file(opener, alloc, path, &office, reader, out, err);
            (Ok(status), left, Listened::Unused(net))
        }
        Ok(Words::BadName) => (
            Ok(refuse(err, "bad name")),
            Left::Unused(opener),
            Listened::Unused(net),
        ),
        Ok(Words::BadWords) => (
            Ok(refuse(err, "bad words")),
            Left::Unused(opener),
            Listened::Unused(net),
        ),
        Err(error) => (
            explain(alloc, &error, out, err),
            Left::Unused(opener),
            Listened::Unused(net),
        ),
    }
}

// Writes what `clap` says of the words, help on `out`; text that is not taken is passed over. Answers the status.
fn explain<W: Write, E: Write>(
    alloc: Global,
    error: &Error,
    out: &mut Counted<W>,
    err: &mut Counted<E>,
) -> Result<u8, NoWords>
    ensures err { OnErr result ((out.new ≡ out.old) × (err.new ≡ err.old)) }
    ensures quiet { IfOk result (λ status. status ≡ 0 → err.new ≡ err.old) }
    ensures no_words { IfErr result (λ why. (why ≡ NoWords.Memory) × ((kind_of error.now ≡ OutOfMemory) ⊎ (kind_of error.now ≡ DisplayHelp))) }
    ensures memory { kind_of error.now ≡ OutOfMemory → IsErr result }
    ensures help { kind_of error.now ≡ DisplayHelp → IfOk result (λ status. status ≡ 0) }
    ensures wrong { kind_of error.now ≢ DisplayHelp
        → IfOk result (λ status. (status ≡ 2) × (out.new ≡ out.old)) }
{
    match error.kind() {
        ClapKind::DisplayHelp => {
            let Ok(text) = format!(in alloc; "{error}") else {
                return Err(NoWords::Memory);
            };
            print(out, text.as_bytes());
            Ok(SERVED)
        }
        ClapKind::OutOfMemory => Err(NoWords::Memory),
        _ => {
            if let Ok(text) = format!(in alloc; "{error}") {
                print(err, text.as_bytes());
            }
            Ok(WRONG_WORDS)
        }
    }
}

// Writes why the words are wrong; a line that is not taken is passed over. Answers the status.
fn refuse<E: Write>(err: &mut Counted<E>, why: &str) -> u8
    ensures status { result ≡ 2 }
    ensures told { Prints E.contents err.old err.new (refused_line why.now) }
{
    print(err, b"society: ");
    print(err, why.as_bytes());
    print(err, b"\n");
    WRONG_WORDS
}

/// What an error of the program's words says: that a word is no text, or else that memory was refused.
pub fn why_no_words(error: &io::Error) -> NoWords
    ensures { result ≡ no_words_by (error_kind error.now) }
{
    match error.kind() {
        ErrorKind::InvalidData => NoWords::NoText,
        _ => NoWords::Memory,
    }
}

/// Ends the program: the status is that of what it did; where its words could not be had one line is written on `err`, and the status
/// is 2 where one is no text, 1 where memory was refused.
pub fn exit_status<E: Write>(outcome: Result<u8, NoWords>, err: &mut Counted<E>) -> u8
    ensures status { result ≡ status_after outcome }
    ensures told { TellsAtEnd E.contents err.old err.new outcome }
{
    match outcome {
        Ok(status) => status,
        Err(why) => without_words(why, err),
    }
}

/// Ends before any request where the words could not be had: writes one line on `err`. Answers the status.
fn without_words<E: Write>(why: NoWords, err: &mut Counted<E>) -> u8
    ensures status { result ≡ status_without why }
    ensures told { TellsWithout E.contents err.old err.new why }
{
    match why {
        NoWords::NoText => refuse(err, "bad words"),
        NoWords::Memory => {
            let fault = DeskFault {
                kind: FaultKind::Memory,
                requests: 0,
            };
            tell(err, Trouble::Stream(fault))
        }
    }
}
