//! Who sends the samples, what they register, and to whom.
use share_rules::{Holder, Office};
use work_ids::{Account, SenderKey, TransmissionNumber, WorkNumber};

/// The office that the samples come to.
pub fn office() -> Result<Office, &'static str> {
    Office::new(900, 40, b"EXAMPLE SOCIETY").ok_or("an office")
}

/// Their sender.
pub fn sender() -> Result<SenderKey, &'static str> {
    SenderKey::from_bytes(b"PB000000012")
        .ok()
        .ok_or("a sender key")
}

/// The number of a transmission, by its rank: a plain one, 1 to 999999, is its own.
pub fn number(value: u32) -> Result<TransmissionNumber, &'static str> {
    TransmissionNumber::from_u32(value).ok_or("a number of a transmission")
}

/// The work of this number; the samples register W1.
pub fn work(number: &[u8]) -> Result<WorkNumber, &'static str> {
    WorkNumber::from_bytes(number).ok().ok_or("a work number")
}

/// The holders of that work with these weights: the publisher, the writer, and nobody.
pub fn holders(weights: [u64; 3]) -> Result<[Holder; 3], &'static str> {
    let publisher = Account::from_bytes(b"I00000000199")
        .ok()
        .ok_or("an account")?;
    let writer = Account::from_bytes(b"I00000000295")
        .ok()
        .ok_or("an account")?;
    Ok([
        Holder {
            account: publisher,
            weight: weights[0],
        },
        Holder {
            account: writer,
            weight: weights[1],
        },
        Holder {
            account: Account::Unclaimed,
            weight: weights[2],
        },
    ])
}
