//! Laws of every run of requests, whichever store is under the desk: each is the contract of a function that does nothing,
//! over the same definitions that `run` and `answer` are proved to meet. specs/Laws.antt states them.
ghost use Rattle.std.specs.Prelude.{◌≡◌, ℕ, List, true, map, sum};
ghost use Rattle.std.specs.List.Sorted.{IsStrictlySortedBy};
ghost use Rattle.std.specs.Ordering.{nat_cmp};
ghost use Rattle.pool_split.specs.Credits.{units_of};
ghost use Rattle.share_rules.specs.declared.office.Office.{Office};
ghost use Rattle.society_core.specs.Book.{Book, IsSound, ends_of, front, held, is_in_line, is_one_of, is_there, line, numbers_led_through};
ghost use Rattle.sender_segments.specs.Ways.{IsGap};
ghost use Rattle.society_core.specs.Laws.{AcceptedAlikeAnswersAlike, AcceptedAlikeIsOneBook, AnswersToTheGap, AnswersToTheGaps, BalancesAddUp, BookHoldsWhatCame, BookIsWhatWasAccepted, BroughtAlikeIsOneBook, ClosedPoolsStay, EntriesCame, EntriesStay, HeldNumbersWait, NumbersOfPlainLines, OtherBytesAreReused, OtherEndsAreReused, OtherReturnsAreReused, OwnersAreAlone, PlainLinesAreAlike, PlainLinesCountFromOne, PlainLinesEndAtGaps, ReturnsAreNamedOnce, ReturnsArePaidOnce, RunsKeepBooksSound, StatementsLeadOn, UnstatedIsOneContent};
ghost use Rattle.society_core.specs.Orders.{Order};
ghost use Rattle.society_core.specs.Pools.{credits_of};
ghost use Rattle.society_core.specs.declared.inquiry.Inquiry.TheVariants.{Acknowledgement, Balance, Credits, Verdicts, Work};

/// The book after any list of requests has the entries of the opening book and those that were accepted, whatever came.
pub fn book_is_what_was_accepted()
    ensures { BookIsWhatWasAccepted }
{}

/// Where no number came with two contents, the book after any list of requests holds exactly what came. Where nothing was stated
/// of a segment, that is asked of the numbers of transmissions and returns alone.
pub fn book_holds_what_came()
    ensures came { BookHoldsWhatCame }
    ensures unstated { UnstatedIsOneContent }
{}

/// What was accepted stays, whatever contents came: a run keeps each entry of its opening book, so the first content of a
/// number stands, and other contents of a number are answered as reused: of a transmission's, of a return's and of a segment's end.
pub fn what_is_accepted_stays()
    ensures stays { EntriesStay }
    ensures came { EntriesCame }
    ensures reused { OtherBytesAreReused }
    ensures returns { OtherReturnsAreReused }
    ensures ends { OtherEndsAreReused }
{}

/// A sender's front is where its first gap begins: its line is all numbers that its ends lead through up to there, each of them is
/// there, and behind the front of a sound book the next number is not there, and no stated end is reached. A sender that stated
/// nothing counts from 1: its line is 1 to the front.
pub fn front_is_the_first_gap()
    ensures reached { (book : Book) (sender : List ℕ) (n : ℕ) → is_in_line book sender n ≡ true → is_there book sender n ≡ true }
    ensures led { (book : Book) (sender : List ℕ) (n : ℕ) → is_in_line book sender n ≡ is_one_of (numbers_led_through book sender) n }
    ensures whole { (book : Book) (sender : List ℕ) → IsSound book → line book sender ≡ numbers_led_through book sender }
    ensures gap { (book : Book) (sender : List ℕ) → IsSound book → IsGap (is_there book sender) (ends_of book sender) (front book sender) }
    ensures line { PlainLinesCountFromOne }
    ensures numbers { NumbersOfPlainLines }
    ensures plain_gap { PlainLinesEndAtGaps }
{}

/// What a sender states of a segment lets its line go on, and changes nothing else: what was in its line is still there in the
/// same order, and the lines of others stay.
pub fn statements_lead_on()
    ensures { StatementsLeadOn }
{}

/// Two lists that were accepted with the same entries, whatever was refused, repeated, reordered or asked between, leave one
/// book, and so every later request is answered alike; likewise two lists that brought the same where no number came with
/// two contents.
pub fn order_of_arrival_is_free()
    ensures accepted { AcceptedAlikeIsOneBook }
    ensures same_book { BroughtAlikeIsOneBook }
    ensures same_answers { AcceptedAlikeAnswersAlike }
{}

/// What waits behind a sender's first gap is unapplied: two books with the same transmissions of a sender up to the
/// gap answer alike whatever is asked of its works, verdicts and acknowledgements. Where the sender stated nothing, these are the
/// transmissions of its line.
pub fn what_waits_is_unapplied()
    ensures works { AnswersToTheGap Work }
    ensures verdicts { AnswersToTheGap Verdicts }
    ensures acks { AnswersToTheGap Acknowledgement }
    ensures plain { PlainLinesAreAlike }
{}

/// A closed pool is closed for good: whatever comes after, a revision too, its credits are answered as before; what
/// counts in them are the transmissions up to the cut and the returns that it names.
pub fn closed_pools_stay()
    ensures { ClosedPoolsStay }
{}

/// The held numbers of a sender are those under which something is there that is not in its line, ascending.
pub fn held_numbers_wait()
    ensures waits { HeldNumbersWait }
    ensures ascending { (book : Book) (sender : List ℕ) → IsStrictlySortedBy nat_cmp (held book sender) }
{}

/// The units of a pool's credits add up to its amount, whatever the book holds, and each return that its order names is
/// named once.
pub fn pools_are_whole()
    ensures whole { (office : Office) (book : Book) (order : Order) → sum (map units_of (credits_of office book order)) ≡ order.amount }
    ensures once { ReturnsAreNamedOnce }
    ensures apart { ReturnsArePaidOnce }
{}

/// Some work owns a recording exactly where it is the only pair of a sender and a work of the cut whose version there names
/// the recording: what only one names is owned, and what several name, or none, is nobody's (profile).
pub fn owners_are_alone()
    ensures { OwnersAreAlone }
{}

/// The balances of all accounts add up to the amounts of all pools.
pub fn balances_add_up()
    ensures { BalancesAddUp }
{}

/// A run of requests that ask rightly, as all typed requests do, leads from a sound book to a sound book.
pub fn runs_keep_books_sound()
    ensures { RunsKeepBooksSound }
{}

/// What is held pays nothing: two books that are alike up to each sender's first gap, with the same returns and pools, give
/// the same credits and balances.
pub fn what_is_held_pays_nothing()
    ensures credits { AnswersToTheGaps Credits }
    ensures balances { AnswersToTheGaps Balance }
{}
