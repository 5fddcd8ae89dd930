//! The JSON bodies of answers to questions.
ghost use Rattle.std.specs.Prelude.{◌≡◌, IfOk, false, map, string_bytes};
ghost use Rattle.serde_json.specs.Data.{string};
ghost use Rattle.serde_json.specs.View.{view};
ghost use Rattle.serde_json.specs.Written.{compact_text, has_float};
ghost use Rattle.society_core.specs.Requests.{shown_of};
ghost use Rattle.work_ids.specs.Account.{account_text};
ghost use Rattle.work_ids.specs.Blanks.{without_trailing_blanks};
ghost use Rattle.http_text.specs.Json as spec;

use crate::number_text::dated_text_of;
use percent_encoding::{AsciiSet, CONTROLS, ascii_set, percent_encode};
use serde_json::{Value, json};
use share_rules::Holder;
use society_core::{SenderStatus, Work};
use std::alloc::{AllocError, Global};
use work_ids::{Account, FIRST_YEAR, Isrc, Iswc, TransmissionNumber, WorkNumber};
use works_core::Verdict;

/// The bytes of a title that are escaped, beside those that are no ASCII.
const ESCAPED: AsciiSet = ascii_set!(CONTROLS.add(b'%'));

// The text of a value that has no float.
fn text_of(alloc: Global, value: &Value) -> Result<Vec<u8>, AllocError>
    ensures { IfOk result (λ text.
        has_float (view value.now) ≡ false → text.items ≡ compact_text (view value.now)) }
{
    Ok(value.to_string(alloc)?.into_bytes())
}

// Bytes that are text, as a value.
fn string_value(bytes: Vec<u8>) -> Result<Value, AllocError>
    ensures { IfOk result (λ value. view value ≡ string bytes.items) }
{
    match String::from_utf8(bytes) {
        Ok(text) => Ok(Value::String(text)),
        Err(_) => Err(AllocError),
    }
}

// The text of an account, as a value.
fn account_value(alloc: Global, account: &Account) -> Result<Value, AllocError>
    ensures { IfOk result (λ value. view value ≡ string (account_text account.now)) }
{
    let (kind, owner, number) = account.pieces();
    let mut text = Vec::from_slice(alloc, kind)?;
    text.extend_from_slice(owner)?;
    text.extend_from_slice(number)?;
    string_value(text)
}

// The number with a rank, as a value.
fn rank_value(alloc: Global, rank: u32) -> Result<Value, AllocError>
    ensures { IfOk result (λ value. view value ≡ spec.number_json rank) }
{
    if rank < FIRST_YEAR {
        return Ok(Value::from(rank));
    }
    string_value(Vec::from_slice(alloc, &dated_text_of(rank))?)
}

// The numbers of transmissions, as values.
fn number_values(alloc: Global, numbers: &[TransmissionNumber]) -> Result<Vec<Value>, AllocError>
    ensures { IfOk result (λ values. map view values.items ≡ map spec.number_json numbers.now) }
{
    let mut values = Vec::with_capacity(alloc, numbers.len())?;
    for number in numbers {
        values.push(rank_value(alloc, number.value())?)?;
    }
    Ok(values)
}

// How a sender stands, as a value.
fn sender_value(alloc: Global, status: &SenderStatus) -> Result<Value, AllocError>
    ensures { IfOk result (λ value.
        view value ≡ spec.sender_json status.now.front status.now.held.items) }
{
    let front = rank_value(alloc, status.front)?;
    let held = number_values(alloc, &status.held)?;
    json!(in alloc; {"front": front, "held": held})
}

/// The body that tells how a sender stands.
pub(crate) fn sender_text(alloc: Global, status: &SenderStatus) -> Result<Vec<u8>, AllocError>
    ensures { IfOk result (λ text.
        text.items ≡ spec.sender_json_text status.now.front status.now.held.items) }
{
    let value = sender_value(alloc, status)?;
    text_of(alloc, &value)
}

// A verdict, as a value.
fn verdict_value(alloc: Global, verdict: Verdict) -> Result<Value, AllocError>
    ensures { IfOk result (λ value. view value ≡ spec.verdict_json verdict) }
{
    match verdict {
        Verdict::Accepted { ordinal, revision } => {
            json!(in alloc; {"ordinal": ordinal, "revision": revision})
        }
        Verdict::Rejected(fault) => json!(in alloc; {"fault": fault}),
    }
}

// Verdicts, as values.
fn verdict_values(alloc: Global, verdicts: &[Verdict]) -> Result<Vec<Value>, AllocError>
    ensures { IfOk result (λ values. map view values.items ≡ map spec.verdict_json verdicts.now) }
{
    let mut values = Vec::with_capacity(alloc, verdicts.len())?;
    for verdict in verdicts {
        values.push(verdict_value(alloc, *verdict)?)?;
    }
    Ok(values)
}

// The list of verdicts, as a value.
fn verdicts_value(alloc: Global, verdicts: &[Verdict]) -> Result<Value, AllocError>
    ensures { IfOk result (λ value. view value ≡ spec.verdicts_json verdicts.now) }
{
    Ok(Value::from(verdict_values(alloc, verdicts)?))
}

/// The body that lists verdicts.
pub(crate) fn verdicts_text(alloc: Global, verdicts: &[Verdict]) -> Result<Vec<u8>, AllocError>
    ensures { IfOk result (λ text. text.items ≡ spec.verdicts_json_text verdicts.now) }
{
    let value = verdicts_value(alloc, verdicts)?;
    text_of(alloc, &value)
}

// A balance, as a value.
fn balance_value(alloc: Global, account: &Account, units: u64) -> Result<Value, AllocError>
    ensures { IfOk result (λ value. view value ≡ spec.balance_json account.now units) }
{
    let account = account_value(alloc, account)?;
    json!(in alloc; {"account": account, "units": units})
}

/// The body that tells what an account has come to.
pub(crate) fn balance_text(
    alloc: Global,
    account: &Account,
    units: u64,
) -> Result<Vec<u8>, AllocError>
    ensures { IfOk result (λ text. text.items ≡ spec.balance_json_text account.now units) }
{
    let value = balance_value(alloc, account, units)?;
    text_of(alloc, &value)
}

// A holder, as a value.
fn holder_value(alloc: Global, holder: &Holder) -> Result<Value, AllocError>
    ensures { IfOk result (λ value. view value ≡ spec.holder_json holder.now) }
{
    let account = account_value(alloc, &holder.account)?;
    json!(in alloc; {"account": account, "weight": holder.weight})
}

// Holders, as values.
fn holder_values(alloc: Global, holders: &[Holder]) -> Result<Vec<Value>, AllocError>
    ensures { IfOk result (λ values. map view values.items ≡ map spec.holder_json holders.now) }
{
    let mut values = Vec::with_capacity(alloc, holders.len())?;
    for holder in holders {
        values.push(holder_value(alloc, holder)?)?;
    }
    Ok(values)
}

// ISRCs, as values.
fn isrc_values(alloc: Global, isrcs: &[Isrc]) -> Result<Vec<Value>, AllocError>
    ensures { IfOk result (λ values. map view values.items ≡ map string isrcs.now) }
{
    let mut values = Vec::with_capacity(alloc, isrcs.len())?;
    for isrc in isrcs {
        let text = Vec::from_slice(alloc, isrc.as_bytes())?;
        values.push(string_value(text)?)?;
    }
    Ok(values)
}

// The printed form of an ISWC, or null.
fn iswc_value(alloc: Global, iswc: Option<Iswc>) -> Result<Value, AllocError>
    ensures { IfOk result (λ value. view value ≡ spec.iswc_json iswc) }
{
    match iswc {
        Some(iswc) => string_value(Vec::from_slice(alloc, &iswc.to_text())?),
        None => Ok(Value::Null),
    }
}

// A title in printable ASCII.
fn title_text(alloc: Global, title: &[u8]) -> Result<String, AllocError>
    ensures { IfOk result (λ text. string_bytes text ≡ spec.title_text title.now) }
{
    let mut text = String::new(alloc);
    percent_encode(title, ESCAPED).append_to(&mut text)?;
    Ok(text)
}

// The number of a work, as a value.
fn number_value(alloc: Global, number: &WorkNumber) -> Result<Value, AllocError>
    ensures { IfOk result (λ value. view value ≡ string (without_trailing_blanks number.now)) }
{
    string_value(Vec::from_slice(alloc, number.as_bytes())?)
}

// What is shown of a work, as a value. Each member is made where it is put, so that no other waits beside it.
fn work_value(alloc: Global, work: &Work) -> Result<Value, AllocError>
    ensures { IfOk result (λ value. view value ≡ spec.work_json (shown_of work.now)) }
{
    let version = work.version;
    json!(in alloc; {
        "holders": holder_values(alloc, &work.holders)?,
        "isrcs": isrc_values(alloc, &work.isrcs)?,
        "iswc": iswc_value(alloc, work.iswc)?,
        "number": number_value(alloc, &work.number)?,
        "ordinal": version.ordinal,
        "revision": version.revision,
        "title": title_text(alloc, &work.title)?,
        "transmission": rank_value(alloc, version.transmission.value())?,
    })
}

/// The body that shows a work.
pub(crate) fn work_text(alloc: Global, work: &Work) -> Result<Vec<u8>, AllocError>
    ensures { IfOk result (λ text. text.items ≡ spec.work_json_text (shown_of work.now)) }
{
    let value = work_value(alloc, work)?;
    text_of(alloc, &value)
}
