//! The acknowledgement of a transmission: header, one line for each transaction, trailer.
ghost use Rattle.std.specs.Prelude.{◌≡◌, ◌≤◌, ◌<◌, ◌+◌, ◌^◌, ◌++◌, length, drop, find, flat_map, IfOk, OnOk};
ghost use Rattle.std.specs.List.{zip};
ghost use Rattle.std.specs.Option.{option_copied};
ghost use Rattle.cwr_records.specs.Lines.{fill_field};
ghost use Rattle.cwr_files.specs.Transaction.{title_of, first_work, submitter_number};
ghost use Rattle.ack_files.specs.Acknowledgement.{acknowledgement_file, ack_body, ack_group_header, ack_group_trailer, ack_header, ack_lines, ack_record, ack_trailer, has_transactions, recipient_number, status_of};
ghost use Rattle.ack_files.specs.Lines.{header_line, group_header_line, acknowledgement_line, group_trailer_line, trailer_line};

use crate::lines::{
    append_acknowledgement, append_group_header, append_group_trailer, append_header,
    append_trailer,
};
use cwr_files::{Group, Transaction, Transmission};
use cwr_records::{
    AcknowledgementRecord, Field, Fixed, GroupHeader, GroupTrailer, TransmissionHeader,
    TransmissionTrailer,
};
use share_rules::Office;
use std::alloc::{AllocError, Global};
use work_ids::{SenderKey, last_digits};
use works_core::Verdict;

// A field that the bytes fill.
fn whole<'a, const WIDTH: usize>(bytes: &'a [u8; WIDTH]) -> Fixed<'a, WIDTH>
    ensures { result ≡ bytes.now }
{
    Fixed::new(bytes)
}

// Appends the header of an acknowledgement.
fn append_ack_header(
    office: &Office,
    original: &TransmissionHeader<'_>,
    out: &mut Vec<u8>,
) -> Result<(), AllocError>
    ensures { OnOk result (out.new.items ≡ out.old.items ++ header_line (ack_header office.now original.now)) }
{
    let sender_id = last_digits::<9>(u64::from(office.society));
    let header = TransmissionHeader {
        sender_type: whole(b"SO"),
        sender_id: whole(&sender_id),
        sender_name: whole(&office.name),
        edi_version: whole(b"01.10"),
        creation_date: original.transmission_date.again(),
        creation_time: whole(b"000000"),
        transmission_date: original.transmission_date.again(),
        character_set: Fixed::new(b""),
    };
    append_header(&header, out)
}

// Appends the header of an acknowledgement's group.
fn append_ack_group_header(original: &GroupHeader<'_>, out: &mut Vec<u8>) -> Result<(), AllocError>
    ensures { OnOk result (out.new.items ≡ out.old.items ++ group_header_line (ack_group_header original.now)) }
{
    let group_id = last_digits::<5>(1);
    let batch_request = last_digits::<10>(0);
    let header = GroupHeader {
        transaction_type: whole(b"ACK"),
        group_id: whole(&group_id),
        version: original.version.again(),
        batch_request: whole(&batch_request),
        submission_type: Fixed::new(b""),
    };
    append_group_header(&header, out)
}

// Appends the trailer of an acknowledgement's group.
fn append_ack_group_trailer(count: u64, out: &mut Vec<u8>) -> Result<(), AllocError>
    requires { count < 2 ^ 63 }
    ensures { OnOk result (out.new.items ≡ out.old.items ++ group_trailer_line (ack_group_trailer count)) }
{
    let group_id = last_digits::<5>(1);
    let transaction_count = last_digits::<8>(count);
    let record_count = last_digits::<8>(count + 2);
    let trailer = GroupTrailer {
        group_id: whole(&group_id),
        transaction_count: whole(&transaction_count),
        record_count: whole(&record_count),
    };
    append_group_trailer(&trailer, out)
}

// Appends the trailer of an acknowledgement.
fn append_ack_trailer(
    groups: u64,
    transactions: u64,
    records: u64,
    out: &mut Vec<u8>,
) -> Result<(), AllocError>
    ensures { OnOk result (out.new.items ≡ out.old.items ++ trailer_line (ack_trailer groups transactions records)) }
{
    let group_count = last_digits::<5>(groups);
    let transaction_count = last_digits::<8>(transactions);
    let record_count = last_digits::<8>(records);
    let trailer = TransmissionTrailer {
        group_count: whole(&group_count),
        transaction_count: whole(&transaction_count),
        record_count: whole(&record_count),
    };
    append_trailer(&trailer, out)
}

// The office's number of a transaction's work; blanks where the transaction is rejected.
#[tactic(auto, unfolding(cwr_records::specs::Lines::fill_field))]
fn recipient_number(sender: &SenderKey, verdict: &Verdict) -> [u8; 20]
    ensures { result ≡ recipient_number sender.now verdict.now }
{
    match verdict {
        Verdict::Accepted { ordinal, .. } => concatenate(
            sender.sender_id(),
            &last_digits::<11>(*ordinal),
        ),
        Verdict::Rejected(_) => [b' '; 20],
    }
}

// Nine bytes and eleven behind them.
fn concatenate(front: &[u8], back: &[u8; 11]) -> [u8; 20]
    requires { length front.now ≡ 9 }
    ensures { result ≡ front.now ++ back.now }
{
    let mut bytes = [b' '; 20];
    bytes[..9].copy_from_slice(front);
    bytes[9..].copy_from_slice(back);
    bytes
}

// Whether a verdict accepts or rejects, as a status.
fn status<'a>(verdict: &Verdict) -> Fixed<'a, 2>
    ensures { result ≡ status_of verdict.now }
{
    match verdict {
        Verdict::Accepted { .. } => whole(b"AS"),
        Verdict::Rejected(_) => whole(b"RJ"),
    }
}

// A transaction's title, as it came.
fn title<'a>(transaction: &Transaction<'a>) -> Fixed<'a, 60>
    ensures { result ≡ fill_field 60 (title_of transaction.now) }
{
    transaction.title().widen()
}

// A transaction's work number, as it came.
fn submitter_number<'a>(transaction: &Transaction<'a>) -> Fixed<'a, 20>
    ensures { result ≡ fill_field 20 (submitter_number (first_work transaction.now.records)) }
{
    transaction.submitter_number().widen()
}

// Appends the ACK line of the transaction with this number, from 0.
fn append_ack(
    sender: &SenderKey,
    original: &TransmissionHeader<'_>,
    number: u64,
    transaction: &Transaction<'_>,
    verdict: &Verdict,
    out: &mut Vec<u8>,
) -> Result<(), AllocError>
    ensures { OnOk result (out.new.items ≡ out.old.items ++ acknowledgement_line (ack_record sender.now original.now number transaction.now verdict.now)) }
{
    let transaction_sequence = last_digits::<8>(number);
    let record_sequence = last_digits::<8>(0);
    let original_group = last_digits::<5>(u64::from(transaction.group));
    let original_sequence = last_digits::<8>(u64::from(transaction.sequence));
    let recipient = recipient_number(sender, verdict);
    let source = AcknowledgementRecord {
        transaction_sequence: whole(&transaction_sequence),
        record_sequence: whole(&record_sequence),
        creation_date: original.creation_date.again(),
        creation_time: original.creation_time.again(),
        original_group: whole(&original_group),
        original_sequence: whole(&original_sequence),
        original_type: transaction.kind.code().to_fixed(),
        title: title(transaction),
        submitter_number: submitter_number(transaction),
        recipient_number: whole(&recipient),
        processing_date: original.transmission_date.again(),
        status: status(verdict),
    };
    append_acknowledgement(&source, out)
}

// Appends the ACK lines of some transactions, the first with this number, and tells the number after the last.
fn append_transactions(
    sender: &SenderKey,
    original: &TransmissionHeader<'_>,
    first: usize,
    transactions: &[Transaction<'_>],
    verdicts: &[Verdict],
    out: &mut Vec<u8>,
) -> Result<usize, AllocError>
    requires { first ≤ length verdicts.now }
    ensures within { IfOk result (λ after. after ≤ length verdicts.now) }
    ensures after { IfOk result (λ after. after ≡ first + length (zip transactions.now (drop first verdicts.now))) }
    ensures lines { OnOk result (out.new.items ≡ out.old.items ++ ack_lines sender.now original.now first transactions.now (drop first verdicts.now)) }
{
    let mut at = first;
    for transaction in transactions {
        if at == verdicts.len() {
            return Ok(at);
        }
        let verdict = verdicts[at];
        append_ack(sender, original, at as u64, transaction, &verdict, out)?;
        at += 1;
    }
    Ok(at)
}

// Appends the ACK lines of the transactions of all groups, and tells how many there are.
fn append_groups(
    sender: &SenderKey,
    original: &TransmissionHeader<'_>,
    groups: &[Group<'_>],
    verdicts: &[Verdict],
    out: &mut Vec<u8>,
) -> Result<usize, AllocError>
    ensures within { IfOk result (λ count. count ≤ length verdicts.now) }
    ensures count { IfOk result (λ count. count ≡ length (zip (flat_map (λ g. g.transactions) groups.now) verdicts.now)) }
    ensures lines { OnOk result (out.new.items ≡ out.old.items ++ ack_lines sender.now original.now 0 (flat_map (λ g. g.transactions) groups.now) verdicts.now) }
{
    let mut at = 0;
    for group in groups {
        at = append_transactions(
            sender,
            original,
            at,
            group.transactions.as_slice(),
            verdicts,
            out,
        )?;
    }
    Ok(at)
}

// The first group that lists a transaction.
fn opening<'t, 'a>(groups: &'t [Group<'a>]) -> Option<&'t Group<'a>>
    ensures { option_copied result ≡ find has_transactions groups.now }
{
    for group in groups {
        if !group.transactions.as_slice().is_empty() {
            return Some(group);
        }
    }
    None
}

// Appends what stands behind the header of an acknowledgement.
fn append_body(
    sender: &SenderKey,
    transmission: &Transmission<'_>,
    verdicts: &[Verdict],
    out: &mut Vec<u8>,
) -> Result<(), AllocError>
    ensures { OnOk result (out.new.items ≡ out.old.items ++ ack_body sender.now transmission.now verdicts.now (find has_transactions transmission.now.groups)) }
{
    let groups = transmission.groups.as_slice();
    match opening(groups) {
        None => append_ack_trailer(0, 0, 2, out),
        Some(first) => {
            append_ack_group_header(&first.header, out)?;
            let count = append_groups(sender, &transmission.header, groups, verdicts, out)? as u64;
            append_ack_group_trailer(count, out)?;
            append_ack_trailer(1, count, count + 4, out)
        }
    }
}

/// The acknowledgement file of a sender's transmission, with one verdict for each of its NWR and REV
/// transactions, ordinals below 10^11 (the office's profile of CISAC CWR 2.2).
#[tactic(auto, unfolding(crate::specs::Acknowledgement::acknowledgement_file))]
pub fn write_ack(
    alloc: Global,
    office: &Office,
    sender: &SenderKey,
    transmission: &Transmission<'_>,
    verdicts: &[Verdict],
) -> Result<Vec<u8>, AllocError>
    ensures { IfOk result (λ text. text.items ≡ acknowledgement_file office.now sender.now transmission.now verdicts.now) }
{
    let mut text = Vec::new(alloc);
    append_ack_header(office, &transmission.header, &mut text)?;
    append_body(sender, transmission, verdicts, &mut text)?;
    Ok(text)
}
