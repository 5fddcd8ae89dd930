//! Verdicts.
ghost use Rattle.std.specs.Prelude.{◌≡◌, ◌<◌, ◌^◌, List, IfSome};
ghost use Rattle.works_core.specs.Tracks.{number_in};
ghost use Rattle.works_core.specs.Verdicts.{verdict_of, works_in};
ghost use Rattle.works_core.specs.Versions.{Placed, judged_of, last_version, next_verdict};

use crate::judged::Judged;
use crate::version::WorkVersion;
use cwr_records::TransactionKind;

/// Fault of a registration whose work number is registered already (profile).
pub const REGISTERED_BEFORE: u8 = 20;

/// Fault of a revision whose work number is not registered (profile).
pub const NOT_REGISTERED: u8 = 21;

/// What a transaction is answered (profile).
#[derive(Clone, Copy, Debug, PartialEq, Eq)]
pub enum Verdict {
    /// Its work's number among the sender's accepted works, from 1, and which revision of it this is, from 0.
    Accepted { ordinal: u64, revision: u64 },
    /// The fault for which it is refused.
    Rejected(u8),
}

/// The verdict of a transaction at the end of a sender's line, by the last version of its work there and the number of works
/// that are accepted there. Takes no memory (profile).
pub fn next_verdict(judged: &Judged, last: Option<WorkVersion>, works: u64) -> Verdict
    requires counted { works < 2 ^ 63 }
    requires revised { IfSome last (λ v. v.revision < 2 ^ 63) }
    ensures value { result ≡ next_verdict judged.now last works }
    ensures verdict { (past : List Placed) → last ≡ last_version (number_in judged.now) past → works ≡ works_in (judged_of past) → result ≡ verdict_of (judged_of past) judged.now }
{
    told_by(judged, last, works)
}

// The verdict, case by case. It is a function of its own for the prover: `next_verdict` adds what follows for every line.
fn told_by(judged: &Judged, last: Option<WorkVersion>, works: u64) -> Verdict
    requires counted { works < 2 ^ 63 }
    requires revised { IfSome last (λ v. v.revision < 2 ^ 63) }
    ensures { result ≡ next_verdict judged.now last works }
{
    match (*judged, last) {
        (Judged::Faulty(fault), _) => Verdict::Rejected(fault),
        (Judged::Clean(TransactionKind::Nwr, _), None) => Verdict::Accepted {
            ordinal: works + 1,
            revision: 0,
        },
        (Judged::Clean(TransactionKind::Nwr, _), Some(_)) => Verdict::Rejected(REGISTERED_BEFORE),
        (Judged::Clean(TransactionKind::Rev, _), None) => Verdict::Rejected(NOT_REGISTERED),
        (Judged::Clean(TransactionKind::Rev, _), Some(version)) => Verdict::Accepted {
            ordinal: version.ordinal,
            revision: version.revision + 1,
        },
    }
}
