//! The least fault of a transaction.
ghost use Rattle.std.specs.Prelude.{◌≡◌};
ghost use Rattle.share_rules.specs.Fault.{fault_of};

use crate::excess::{collects_too_much, owns_too_much};
use crate::faults::{
    has_blank_title, has_no_work_number, has_row_without_party, has_wrong_iswc, have_no_publisher,
    have_wrong_ipi, have_wrong_isrc, have_wrong_number, have_wrong_share,
};
use crate::office::Office;
use cwr_files::Transaction;

/// Fault: the title is blank (profile).
const BLANK_TITLE: u8 = 1;

/// Fault: the work number is blank or not printable ASCII (profile).
const NO_WORK_NUMBER: u8 = 2;

/// Fault: the ISWC is neither blank nor right (profile).
const WRONG_ISWC: u8 = 3;

/// Fault: a share is neither blank nor five digits, or is over 10000 (profile).
const WRONG_SHARE: u8 = 4;

/// Fault: the ownership shares of a right add up to more than the limit (profile).
const EXCESS_OF_OWNERSHIP: u8 = 5;

/// Fault: a territory row has no party of its side with its number before it (profile).
const ROW_WITHOUT_PARTY: u8 = 6;

/// Fault: a PWR names a publisher that is not there (profile).
const NO_PUBLISHER: u8 = 7;

/// Fault: the collection shares of a right at the office add up to more than the limit (profile).
const EXCESS_OF_COLLECTION: u8 = 8;

/// Fault: an IPI name number is not all digits (profile).
const WRONG_IPI: u8 = 9;

/// Fault: an ISRC is neither blank nor right (profile).
const WRONG_ISRC: u8 = 10;

/// Fault: a number of a party is not printable ASCII (profile).
const WRONG_PARTY_NUMBER: u8 = 11;

/// The least fault of a transaction at an office, none where it is clean (profile). It takes no memory but some stack,
/// and goes through the records at most three times for each 2,048 of them, beside once for each other fault.
#[tactic(auto, unfolding(crate::specs::Fault::fault_of))]
pub fn judge(transaction: &Transaction<'_>, office: &Office) -> Option<u8>
    ensures { result ≡ fault_of office.now transaction.now }
{
    let records = transaction.records.as_slice();
    if has_blank_title(transaction) {
        return Some(BLANK_TITLE);
    }
    if has_no_work_number(transaction) {
        return Some(NO_WORK_NUMBER);
    }
    if has_wrong_iswc(transaction) {
        return Some(WRONG_ISWC);
    }
    if have_wrong_share(records) {
        return Some(WRONG_SHARE);
    }
    if owns_too_much(records) {
        return Some(EXCESS_OF_OWNERSHIP);
    }
    if has_row_without_party(records) {
        return Some(ROW_WITHOUT_PARTY);
    }
    if have_no_publisher(records) {
        return Some(NO_PUBLISHER);
    }
    if collects_too_much(records, office) {
        return Some(EXCESS_OF_COLLECTION);
    }
    if have_wrong_ipi(records) {
        return Some(WRONG_IPI);
    }
    if have_wrong_isrc(records) {
        return Some(WRONG_ISRC);
    }
    if have_wrong_number(records) {
        return Some(WRONG_PARTY_NUMBER);
    }
    None
}
