//! Laws on the cutting of bytes into requests, and on what was answered before a failure.
ghost use Rattle.http_text.specs.Reads.{IsCutOneWay};
ghost use Rattle.http_desk.specs.Serves.{AnswersStay};

use society_core::Store;

/// Bytes are cut into requests in one way, since no head begins another: two readings of the same bytes are one. A refusal
/// of memory, which bytes do not tell, stays out of it.
pub fn one_cutting()
    ensures { IsCutOneWay }
{}

/// What was answered while the store was clean is never unsaid by a later failure. Whatever came behind the first requests, there
/// is a store in between from which on the rest was answered. Where that one is clean, the first requests are a run from the opening
/// book, and their entries stay: in the later book where the store is still clean, and in each book that a crash may leave.
pub fn what_was_answered_stays<S: Store>()
    ensures { AnswersStay S.state }
{}
