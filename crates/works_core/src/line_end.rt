//! The end of a sender's line, as far as it is known.
ghost use Rattle.std.specs.Prelude.{◌≡◌, ◌<◌, ◌^◌, Bool, false, ℕ, List, Some, IfOk, OnOk, if◌then◌else◌};
ghost use Rattle.std.specs.Str.{bytes_eq};
ghost use Rattle.works_core.specs.Ends.{EndsAt, EndsBehind, EndsBehindOne, Learns, TellsAll, TellsNext, known_version, last_after, last_in, works_after};
ghost use Rattle.works_core.specs.Verdicts.{works_in};
ghost use Rattle.works_core.specs.Versions.{Placed, judged_of, next_verdict};

use crate::judged::Judged;
use crate::verdict::{Verdict, next_verdict};
use crate::version::WorkVersion;
use crate::works::TransactionPlace;
use cwr_records::TransactionKind;
use std::alloc::{AllocError, AllocFailed, Global};
use std::collections::BTreeMap;
use thiserror::Error;
use work_ids::{TransmissionNumber, WorkNumber};

/// Why a line goes no further.
#[derive(Clone, Copy, Debug, PartialEq, Eq, Error)]
pub enum LineFault {
    /// Memory was refused.
    #[error("out of memory")]
    Memory,
    /// There are 2^63 works, or as many versions of one: more than any line has.
    #[error("too many works")]
    Overflow,
}

/// The end of a sender's line: how many works are accepted up to it, and the last version there of each work that is known.
/// It tells what the next transactions are answered, without those before it.
#[derive(Drop)]
pub struct LineEnd {
    works: u64,
    last: BTreeMap<WorkNumber, WorkVersion>,
}

impl From<AllocError> for LineFault {
    ghost use Rattle.works_core.specs.declared.line_end.LineFault.TheVariants.{Memory};

    ghost from_gives = { λ _ fault. fault ≡ Memory };

    fn from(_fault: AllocError) -> LineFault {
        LineFault::Memory
    }
}

impl<T: Drop> From<AllocFailed<T>> for LineFault {
    ghost use Rattle.works_core.specs.declared.line_end.LineFault.TheVariants.{Memory};

    ghost from_gives = { λ _ fault. fault ≡ Memory };

    fn from(_fault: AllocFailed<T>) -> LineFault {
        LineFault::Memory
    }
}

// The verdict of the next transaction, `Overflow` where a count has no room for one more.
fn verdict_within(
    judged: &Judged,
    last: Option<WorkVersion>,
    works: u64,
) -> Result<Verdict, LineFault>
    ensures value { IfOk result (λ verdict. verdict ≡ next_verdict judged.now last works) }
    ensures room { IfOk result (λ _. works < 2 ^ 63) }
{
    if let Some(version) = &last {
        if version.revision >= 1 << 63 {
            return Err(LineFault::Overflow);
        }
    }
    if works >= 1 << 63 {
        return Err(LineFault::Overflow);
    }
    Ok(next_verdict(judged, last, works))
}

impl LineEnd {
    /// The end of a line of which only the number of its works is known.
    pub fn new(alloc: Global, works: u64) -> LineEnd
        ensures { (past : List Placed) → works ≡ works_in (judged_of past) → EndsAt (λ _. false) past result }
    {
        LineEnd {
            works,
            last: BTreeMap::new(alloc),
        }
    }

    /// How many works there are.
    pub fn works(&self) -> u64
        ensures { (known : List ℕ → Bool) (past : List Placed) → EndsAt known past self.now → result ≡ works_in (judged_of past) }
    {
        self.works
    }

    /// Learns the last version of a work at this end, none where it has none.
    pub fn learn(&mut self, work: WorkNumber, last: Option<WorkVersion>) -> Result<(), AllocError>
        ensures { OnOk result (Learns self.old work last self.new) }
    {
        if let Some(version) = last {
            self.keep(work, version)?;
        }
        Ok(())
    }

    // Keeps the last version of a work.
    fn keep(&mut self, work: WorkNumber, version: WorkVersion) -> Result<(), AllocError>
        ensures works { self.new.works ≡ self.old.works }
        ensures last { OnOk result ((other : List ℕ) → last_in self.new other ≡ (if bytes_eq work other then Some version else last_in self.old other)) }
    {
        self.last.insert(work, version)?;
        Ok(())
    }

    // What is known of a transaction's work.
    fn known_version(&self, judged: &Judged) -> Option<WorkVersion>
        ensures { result ≡ known_version self.now judged.now }
    {
        match *judged {
            Judged::Clean(_, work) => self.last.get(&work).copied(),
            Judged::Faulty(_) => None,
        }
    }

    // Keeps an accepted transaction as the last version of its work.
    fn append(&mut self, judged: &Judged, version: WorkVersion) -> Result<(), AllocError>
        requires { self.old.works < 2 ^ 63 }
        ensures works { OnOk result (self.new.works ≡ works_after judged.now self.old.works) }
        ensures last { OnOk result ((other : List ℕ) → last_in self.new other ≡ last_after judged.now version (last_in self.old) other) }
    {
        let Judged::Clean(kind, work) = *judged else {
            return Ok(());
        };
        self.keep(work, version)?;
        if kind == TransactionKind::Nwr {
            self.works += 1;
        }
        Ok(())
    }

    // The verdict of the next transaction, behind which the line then ends.
    fn settle(&mut self, place: TransactionPlace, judged: &Judged) -> Result<Verdict, LineFault>
        ensures verdict { IfOk result (TellsNext self.old judged.now) }
        ensures ends { OnOk result (EndsBehindOne self.old place judged.now self.new) }
    {
        let verdict = verdict_within(judged, self.known_version(judged), self.works)?;
        match verdict {
            Verdict::Accepted { ordinal, revision } => {
                let version = place.version(ordinal, revision);
                self.append(judged, version)?;
            }
            Verdict::Rejected(_) => {}
        }
        Ok(verdict)
    }

    /// The verdicts of the next transmission's transactions, in the order of the file, behind which the line then ends;
    /// their works have to be known. After an error the line is of no further use.
    pub fn apply(
        &mut self,
        alloc: Global,
        number: TransmissionNumber,
        transactions: &[Judged],
    ) -> Result<Vec<Verdict>, LineFault>
        ensures verdicts { IfOk result (λ verdicts. TellsAll self.old transactions.now verdicts.items) }
        ensures ends { OnOk result (EndsBehind self.old number transactions.now self.new) }
    {
        let mut verdicts = Vec::with_capacity(alloc, transactions.len())?;
        for (place, judged) in transactions.iter().enumerate() {
            let here = TransactionPlace {
                transmission: number,
                place,
            };
            verdicts.push(self.settle(here, judged)?)?;
        }
        Ok(verdicts)
    }
}
