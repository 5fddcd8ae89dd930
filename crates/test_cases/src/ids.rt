//! Identifiers: what a text is read as, how it is printed, and the faults of other texts.
use crate::told::Told;
use work_ids::{
    Account, IdFault, IpiName, Isrc, Iswc, PartyNumber, Reporter, SenderKey, WorkNumber,
    check_digit,
};

/// Tells what a text is read as by the type that a word names; whether there is such a word.
pub fn tell_id(told: &mut Told, word: &str, text: &[u8]) -> bool {
    match word {
        "sender" => tell_sender(told, text),
        "work" => tell_work(told, text),
        "digits" => tell_check_digit(told, text),
        "ISWC" => tell_iswc(told, Iswc::from_field(text)),
        "printed-ISWC" => tell_iswc(told, Iswc::from_text(text).map(Some)),
        "ISRC" => tell_isrc(told, Isrc::from_field(text)),
        "printed-ISRC" => tell_isrc(told, Isrc::from_text(text).map(Some)),
        "IPI" => tell_ipi_name(told, text),
        "party" => tell_party(told, text),
        "reporter" => tell_reporter(told, text),
        "account" => tell_account(told, text),
        _ => return false,
    }
    true
}

fn tell_sender(told: &mut Told, text: &[u8]) {
    match SenderKey::from_bytes(text) {
        Ok(key) => {
            told.word(key.as_bytes());
            told.word(key.sender_type());
            told.word(key.sender_id());
        }
        Err(fault) => told.value(fault),
    }
}

fn tell_work(told: &mut Told, text: &[u8]) {
    match WorkNumber::from_bytes(text) {
        Ok(number) => told.word(number.as_bytes()),
        Err(fault) => told.value(fault),
    }
}

fn tell_check_digit(told: &mut Told, text: &[u8]) {
    match <&[u8; 9]>::try_from(text) {
        Ok(digits) => match check_digit(digits) {
            Some(digit) => told.word(&[digit]),
            None => told.word(b"none"),
        },
        Err(_) => told.word(b"not nine digits"),
    }
}

/// Tells an ISWC's bytes, and its text.
fn tell_iswc(told: &mut Told, read: Result<Option<Iswc>, IdFault>) {
    match read {
        Ok(Some(iswc)) => {
            told.word(iswc.as_bytes());
            told.word(iswc.to_text().as_slice());
        }
        Ok(None) => told.word(b"none"),
        Err(fault) => told.value(fault),
    }
}

/// Tells an ISRC's bytes, and its text.
fn tell_isrc(told: &mut Told, read: Result<Option<Isrc>, IdFault>) {
    match read {
        Ok(Some(isrc)) => {
            told.word(isrc.as_bytes());
            told.word(isrc.to_text().as_slice());
        }
        Ok(None) => told.word(b"none"),
        Err(fault) => told.value(fault),
    }
}

fn tell_ipi_name(told: &mut Told, text: &[u8]) {
    match IpiName::from_field(text) {
        Ok(Some(name)) => told.word(name.as_bytes()),
        Ok(None) => told.word(b"none"),
        Err(fault) => told.value(fault),
    }
}

fn tell_party(told: &mut Told, text: &[u8]) {
    match PartyNumber::from_field(text) {
        Ok(number) if number.is_blank() => told.word(b"blank"),
        Ok(number) => told.word(number.as_bytes()),
        Err(fault) => told.value(fault),
    }
}

fn tell_reporter(told: &mut Told, text: &[u8]) {
    match Reporter::from_bytes(text) {
        Ok(reporter) => told.word(reporter.as_bytes()),
        Err(fault) => told.value(fault),
    }
}

/// Tells the pieces of an account's text.
fn tell_account(told: &mut Told, text: &[u8]) {
    match Account::from_bytes(text) {
        Ok(account) => {
            let (kind, party, number) = account.pieces();
            told.word(kind);
            told.word(party);
            told.word(number);
        }
        Err(fault) => told.value(fault),
    }
}
