//! Files: the faults of bodies, and what right ones tell.
use crate::body::count;
use crate::told::Told;
use cwr_files::{
    FileFault, FileReader, Group, ReadFault, Transaction, Transmission, find_fault,
    read_transmission,
};
use std::alloc::Global;
use test_sheets::first_word;
use work_ids::SenderKey;

/// Tells what a word asks of a sender's body; whether there is such a word.
pub fn tell_file(alloc: Global, told: &mut Told, word: &str, rest: &str, body: &[u8]) -> bool {
    if word == "size" {
        told.value(body.len());
        return true;
    }
    let (key, rest) = first_word(rest);
    let Ok(key) = SenderKey::from_bytes(key.as_bytes()) else {
        return false;
    };
    match word {
        "fault" => tell_fault(told, find_fault(body, &key)),
        "fronts" => told.value(fronts(body, &key)),
        "groups" | "group" | "song" => tell_whole(alloc, told, word, &key, body, rest),
        "pieces" => tell_pieces(alloc, told, &key, body, rest),
        "bytes" => tell_bytes(alloc, told, &key, body),
        "one-more" => tell_one_more(alloc, told, &key, body, rest),
        _ => return false,
    }
    true
}

/// Tells a file fault by its number and its line.
fn tell_fault(told: &mut Told, fault: Option<FileFault>) {
    match fault {
        Some(fault) => {
            told.value(fault.number);
            told.word(b"at line");
            told.value(fault.line);
        }
        None => told.word(b"none"),
    }
}

fn tell_read_fault(told: &mut Told, fault: ReadFault) {
    match fault {
        ReadFault::File(fault) => tell_fault(told, Some(fault)),
        ReadFault::Memory => told.word(b"memory"),
    }
}

/// How many fronts of a body, the body too, are files of the sender.
fn fronts(body: &[u8], key: &SenderKey) -> u32 {
    let mut whole = 0u32;
    for end in 0..body.len() {
        if find_fault(body.get(..end).unwrap_or(body), key).is_none() {
            whole = whole.saturating_add(1);
        }
    }
    whole.saturating_add(u32::from(find_fault(body, key).is_none()))
}

/// Tells the kind of a group, and how many transactions it has.
fn tell_group(told: &mut Told, group: Option<&Group<'_>>) {
    match group {
        Some(group) => {
            told.word(group.header.transaction_type.field().trim());
            told.value(group.transactions.as_slice().len());
        }
        None => told.word(b"none"),
    }
}

/// Tells a transaction: its kind, its group, its place there, how many records it has, its title, its submitter's number, its work
/// number, and its ISWC.
fn tell_song(told: &mut Told, song: Option<&Transaction<'_>>) {
    match song {
        Some(song) => {
            told.word(song.kind.code().trim());
            told.value(song.group);
            told.value(song.sequence);
            told.value(song.records.as_slice().len());
            tell_work(told, song);
        }
        None => told.word(b"none"),
    }
}

fn tell_work(told: &mut Told, song: &Transaction<'_>) {
    told.word(song.title().trimmed_end());
    told.word(song.submitter_number().trimmed_end());
    match song.work_number() {
        Some(number) => told.word(number.as_bytes()),
        None => told.word(b"none"),
    }
    match song.iswc() {
        Ok(Some(iswc)) => told.word(iswc.as_bytes()),
        Ok(None) => told.word(b"none"),
        Err(fault) => told.value(fault),
    }
}

/// Tells what a word asks of a file: how many groups it has, or the group or the transaction at a place, from 0.
fn tell_asked(told: &mut Told, word: &str, rest: &str, transmission: &Transmission<'_>) {
    let groups = transmission.groups.as_slice();
    match word {
        "group" => tell_group(told, groups.get(count(rest))),
        "song" => tell_song(told, transmission.transaction(count(rest))),
        _ => told.value(groups.len()),
    }
}

/// Tells what a word asks of a body that comes whole.
fn tell_whole(
    alloc: Global,
    told: &mut Told,
    word: &str,
    key: &SenderKey,
    body: &[u8],
    rest: &str,
) {
    match read_transmission(alloc, body, key) {
        Ok(transmission) => tell_asked(told, word, rest, &transmission),
        Err(fault) => tell_read_fault(told, fault),
    }
}

/// A reader that was fed a body in pieces of so many bytes.
fn fed(alloc: Global, key: &SenderKey, body: &[u8], count: usize) -> Result<FileReader, ReadFault> {
    let mut reader = FileReader::new(alloc, key);
    for piece in body.chunks(count.max(1)) {
        reader.feed(piece)?;
    }
    Ok(reader)
}

/// Tells how many groups a file has, its first group and its first two transactions.
fn tell_file_read(told: &mut Told, transmission: &Transmission<'_>) {
    told.value(transmission.groups.as_slice().len());
    tell_group(told, transmission.groups.as_slice().first());
    tell_song(told, transmission.transaction(0));
    tell_song(told, transmission.transaction(1));
}

/// Tells what is read of a body that comes in pieces, and whether the reader kept all of its bytes.
fn tell_pieces(alloc: Global, told: &mut Told, key: &SenderKey, body: &[u8], rest: &str) {
    match fed(alloc, key, body, count(rest)) {
        Ok(reader) => {
            told.word(if reader.body() == body {
                b"kept"
            } else {
                b"lost"
            });
            match reader.finish(alloc) {
                Ok(transmission) => tell_file_read(told, &transmission),
                Err(fault) => tell_read_fault(told, fault),
            }
        }
        Err(fault) => tell_read_fault(told, fault),
    }
}

/// How many bytes a reader takes one by one, and its fault at the next.
fn taken(reader: &mut FileReader, body: &[u8]) -> (usize, Option<FileFault>) {
    for (place, byte) in body.iter().enumerate() {
        match reader.feed(&[*byte]) {
            Ok(()) => {}
            Err(ReadFault::File(fault)) => return (place, Some(fault)),
            Err(ReadFault::Memory) => return (place, None),
        }
    }
    (body.len(), None)
}

/// Tells how many bytes a reader takes one by one, and its fault at the next; its fault at more, and in the end.
fn tell_bytes(alloc: Global, told: &mut Told, key: &SenderKey, body: &[u8]) {
    let mut reader = FileReader::new(alloc, key);
    let (place, fault) = taken(&mut reader, body);
    told.value(place);
    tell_fault(told, fault);
    if fault.is_some() {
        let kept = reader.body().len();
        tell_fed(told, reader.feed(body));
        tell_end(alloc, told, &reader);
        told.word(if reader.body().len() == kept {
            b"kept"
        } else {
            b"more"
        });
    }
}

fn tell_fed(told: &mut Told, fed: Result<(), ReadFault>) {
    match fed {
        Ok(()) => told.word(b"taken"),
        Err(fault) => tell_read_fault(told, fault),
    }
}

/// Tells whether the bytes that a reader has are a file, or their fault.
fn tell_end(alloc: Global, told: &mut Told, reader: &FileReader) {
    match reader.finish(alloc) {
        Ok(_) => told.word(b"whole"),
        Err(fault) => tell_read_fault(told, fault),
    }
}

/// Tells whether a body that comes in pieces is a file, what comes of a blank behind it, and how many bytes the reader has then.
fn tell_one_more(alloc: Global, told: &mut Told, key: &SenderKey, body: &[u8], rest: &str) {
    match fed(alloc, key, body, count(rest)) {
        Ok(mut reader) => {
            tell_end(alloc, told, &reader);
            tell_fed(told, reader.feed(b" "));
            told.value(reader.into_body().len());
        }
        Err(fault) => tell_read_fault(told, fault),
    }
}
