//! What is said of a stream that broke off, and of arguments that could not be had.
use crate::checks::{holds, is_status, is_text};
use http_desk::{Counted, DeskFault, FaultKind};
use society_commands::{NoWords, Trouble, exit_status, tell, why_no_words};
use std::io::ErrorKind;
use std::test::Fail;

#[test]
fn lines_of_faults(rt: HostRuntime) -> Result<(), Fail> {
    let alloc = rt.alloc();
    let kinds = [
        FaultKind::Read,
        FaultKind::Write,
        FaultKind::Turns,
        FaultKind::Memory,
    ];
    let mut err = Counted::new(Vec::<u8>::new(alloc));
    for kind in kinds {
        let fault = DeskFault { kind, requests: 7 };
        is_status(&rt, "a fault", tell(&mut err, Trouble::Stream(fault)), 1);
    }
    let lines =
        b"society: read fault after 7 requests\nsociety: write fault after 7 requests\nsociety: turns fault after 7 requests\nsociety: memory fault after 7 requests\n";
    is_text(&rt, "a line for each fault", &err.into_inner(), lines);
    Ok(())
}

#[test]
fn words_that_cannot_be_had(rt: HostRuntime) -> Result<(), Fail> {
    let alloc = rt.alloc();
    let rows = [
        (ErrorKind::InvalidData, NoWords::NoText, 2),
        (ErrorKind::OutOfMemory, NoWords::Memory, 1),
    ];
    let mut err = Counted::new(Vec::<u8>::new(alloc));
    for (kind, why, status) in rows {
        let found = why_no_words(&kind.into());
        holds(&rt, "why there are no words", found == why);
        is_status(&rt, "no words", exit_status(Err(why), &mut err), status);
    }
    let lines = b"society: bad words\nsociety: memory fault after 0 requests\n";
    is_text(&rt, "the line of each", &err.into_inner(), lines);
    Ok(())
}
