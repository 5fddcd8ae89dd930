//! The program: `society replay --society N --territory N --name TEXT` serves standard input to standard output over a book
//! in memory; `society serve --db PATH --port N --connections N` and the same serves connections on this machine over the database
//! at a path; `society audit --db PATH` and the same tells whether that database is sound; `--help` tells of these.
#![tactic(auto)]

mod machine;
mod network;
mod streams;

use crate::machine::{OneDatabase, ThisMachine};
use crate::network::OnePort;
use crate::streams::{StandardStreams, without_streams};
use http_desk::Counted;
use society_commands::{NoWords, exit_status, start, why_no_words};
use society_host::{Host, HostFiles};
use sqlite::Wary;
use std::env;
use std::process::ExitCode;

fn main(rt: HostRuntime) -> ExitCode {
    // Before anything else is opened: what is opened first would get the number of a stream that is missing.
    let streams = match StandardStreams::complete(&rt) {
        Ok(streams) => streams,
        Err(_) => return ExitCode::from(without_streams(&mut Counted::new(rt.stderr()))),
    };
    let status = run(&rt);
    drop(streams);
    ExitCode::from(status)
}

/// Does what the program's arguments ask for, and answers the exit status.
fn run(rt: &HostRuntime) -> u8 {
    let alloc = rt.alloc();
    let args = match env::args(rt) {
        Ok(args) => args,
        Err(error) => {
            let why = why_no_words(&error);
            return exit_status(Err(why), &mut Counted::new(rt.stderr()));
        }
    };
    let Ok(words) = args.collect::<Vec<String>>(alloc) else {
        return exit_status(Err(NoWords::Memory), &mut Counted::new(rt.stderr()));
    };
    let mut reader = Counted::new(rt.stdin());
    let mut out = Counted::new(rt.stdout());
    let mut err = Counted::new(rt.stderr());
    // A torn write may leave any bytes: nothing more is supposed of the files.
    let machine = ThisMachine::new(rt);
    let (outcome, left, listened) = start(
        Host::new(machine, OnePort::new(rt)),
        HostFiles::new(machine, OneDatabase, Wary),
        alloc,
        words.as_slice(),
        &mut reader,
        &mut out,
        &mut err,
    );
    drop(left);
    drop(listened);
    exit_status(outcome, &mut err)
}
