//! The standard streams of the program.
ghost use Rattle.std.specs.Prelude.{◌≡◌, codes};
ghost use Rattle.desk_connections.specs.Connections.{Prints};

use desk_connections::print;
use http_desk::Counted;
use society_commands::BROKEN_OFF;
use std::fs::{File, OpenOptions};
use std::io::{self, Write};
use std::os::fd::AsFd;

/// What stands on the descriptors 0, 1 and 2 where the program was started without standard input, output or error.
#[derive(Drop)]
pub struct StandardStreams {
    input: Option<File>,
    output: Option<File>,
    error: Option<File>,
}

impl StandardStreams {
    /// Opens `/dev/null` in the place of each standard stream that is missing. The system gives the lowest free descriptor to what is
    /// opened next, so without this a socket or a database file would be read, and written to, as a standard stream. It has to be kept
    /// while anything is open. An error is that of opening `/dev/null`.
    pub fn complete(runtime: &HostRuntime) -> io::Result<StandardStreams> {
        Ok(StandardStreams {
            input: placeholder(runtime, &runtime.stdin())?,
            output: placeholder(runtime, &runtime.stdout())?,
            error: placeholder(runtime, &runtime.stderr())?,
        })
    }
}

/// `/dev/null`, on the lowest free descriptor, where a stream is not open.
fn placeholder<S: AsFd>(runtime: &HostRuntime, stream: &S) -> io::Result<Option<File>> {
    if stream.as_fd().try_clone_to_owned().is_ok() {
        return Ok(None);
    }
    let mut options = OpenOptions::new();
    options.read(true);
    options.write(true);
    Ok(Some(options.open(runtime, "/dev/null")?))
}

/// Writes that a standard stream is missing and nothing can stand in its place; a line that is not taken is passed over. Answers the status.
pub fn without_streams<E: Write>(err: &mut Counted<E>) -> u8
    ensures status { result ≡ 1 }
    ensures told { Prints E.contents err.old err.new (codes "society: no standard streams\n") }
{
    print(err, b"society: no standard streams\n");
    BROKEN_OFF
}
