//! The questions that the tables answer by a key, each by one query.
ghost use Rattle.std.specs.Prelude.{◌≡◌};
ghost use Rattle.sqlite.specs.Values.{bound};
ghost use Rattle.society_rows.specs.Effects.{ErrsByMedium, OnlyFails};
ghost use Rattle.society_rows.specs.Questions.{RowsAnswer, Asks};
ghost use Rattle.society_rows.specs.QuestionTexts.{question_params, question_text};
ghost use Rattle.society_rows.specs.Reads.{Reads};
ghost use Rattle.society_rows.specs.Between.{Within, between, within};

use crate::derived_tables::{DerivedTable, first_column_of};
use crate::statement::select;
use crate::tables::shape_of;
use crate::{
    Idle, RowFault, TableName, balances, credits, fronts, mechanical_pools, pool_cuts,
    pool_returns, pools, recordings, returns, segment_ends, transmissions, verdicts, versions,
};
use sqlite::types::ToSql;
use sqlite::{Alter, Row, Transaction};
use sqlite_value::value::ValueRef;

/// What is asked of the tables, by a key.
#[derive(Clone, Copy)]
pub enum Question<'a> {
    /// The office.
    Office,
    /// The front of a sender.
    Front(&'a [u8]),
    /// The transmission of a sender under a number.
    Transmission(&'a [u8], u32),
    /// The keys of the transmissions of a sender above a number.
    NumbersAbove(&'a [u8], u32),
    /// The keys of the transmissions of a sender above one number and below another.
    NumbersBetween(&'a [u8], u32, u32),
    /// The ends of the segments of a sender.
    Ends(&'a [u8]),
    /// The return of a reporter under a number.
    Return(&'a [u8], u32),
    /// The key of the return of a reporter under a number.
    HasReturn(&'a [u8], u32),
    /// The keys of all transmissions.
    TransmissionKeys,
    /// The keys of all returns.
    ReturnKeys,
    /// The pool of a number.
    Pool(u32),
    /// The row of a pool that is of mechanical rights.
    Mechanical(u32),
    /// The cuts of a pool.
    Cuts(u32),
    /// The pool that pays the return of a reporter under a number.
    Payer(&'a [u8], u32),
    /// The returns that a pool pays.
    PaidBy(u32),
    /// The verdicts of the transmission of a sender under a number.
    Verdicts(&'a [u8], u32),
    /// The versions of a work of a sender.
    Versions(&'a [u8], &'a [u8]),
    /// The last version of a work of a sender.
    LastVersion(&'a [u8], &'a [u8]),
    /// All verdicts of a sender.
    SenderVerdicts(&'a [u8]),
    /// All versions of the works of a sender.
    SenderVersions(&'a [u8]),
    /// All recordings of the works of a sender.
    SenderRecordings(&'a [u8]),
    /// The credits of a pool.
    Credits(u32),
    /// The balance of an account.
    Balance(&'a [u8]),
    /// The first column of each row of what is derived, the sender or the pool, in any order.
    FirstColumns(DerivedTable),
}

// The query of a question.
fn query_of(question: Question<'_>) -> &'static str
    ensures { result.now ≡ question_text question.entry }
{
    match question {
        Question::Office => shape_of(TableName::Office).listing,
        Question::Front(_) => fronts::OF_SENDER,
        Question::Transmission(_, _) => transmissions::OF_KEY,
        Question::NumbersAbove(_, _) => transmissions::KEYS_ABOVE,
        Question::NumbersBetween(_, _, _) => transmissions::KEYS_BETWEEN,
        Question::Ends(_) => segment_ends::OF_SENDER,
        Question::Return(_, _) => returns::OF_KEY,
        Question::HasReturn(_, _) => returns::KEY,
        Question::TransmissionKeys => transmissions::KEYS,
        Question::ReturnKeys => returns::KEYS,
        Question::Pool(_) => pools::OF_NUMBER,
        Question::Mechanical(_) => mechanical_pools::OF_NUMBER,
        Question::Cuts(_) => pool_cuts::OF_POOL,
        Question::Payer(_, _) => pool_returns::OF_KEY,
        Question::PaidBy(_) => pool_returns::OF_POOL,
        Question::Verdicts(_, _) => verdicts::OF_TRANSMISSION,
        Question::Versions(_, _) => versions::OF_WORK,
        Question::LastVersion(_, _) => versions::LAST_OF_WORK,
        Question::SenderVerdicts(_) => verdicts::OF_SENDER,
        Question::SenderVersions(_) => versions::OF_SENDER,
        Question::SenderRecordings(_) => recordings::OF_SENDER,
        Question::Credits(_) => credits::OF_POOL,
        Question::Balance(_) => balances::OF_ACCOUNT,
        Question::FirstColumns(table) => first_column_of(table),
    }
}

// The rows that answer a question whose query has these parameters.
fn answer_by<S: Alter>(
    tx: &mut Transaction<'_, S>,
    question: Question<'_>,
    params: &[ValueRef<'_>],
) -> Result<Vec<Row>, RowFault>
    requires { bound params.now ≡ question_params question }
    ensures read { Within S.Store tx.old tx.new Reads result
        (λ db rows. RowsAnswer question.entry db rows.items) }
    ensures err { within S.Store tx.old tx.new OnlyFails result }
    ensures medium { within S.Store tx.old tx.new ErrsByMedium result }
{
    select(tx, query_of(question), params)
}

/// The rows that answer a question, each once, by the key of their table.
pub fn answer<S: Alter>(
    tx: &mut Transaction<'_, S>,
    question: Question<'_>,
) -> Result<Vec<Row>, RowFault>
    ensures read { Within S.Store tx.old tx.new Reads result
        (λ db rows. RowsAnswer question.entry db rows.items) }
    ensures err { within S.Store tx.old tx.new OnlyFails result }
    ensures medium { within S.Store tx.old tx.new ErrsByMedium result }
{
    match question {
        Question::Office
        | Question::TransmissionKeys
        | Question::ReturnKeys
        | Question::FirstColumns(_) => answer_by(tx, question, &[]),
        Question::Front(key)
        | Question::Ends(key)
        | Question::SenderVerdicts(key)
        | Question::SenderVersions(key)
        | Question::SenderRecordings(key)
        | Question::Balance(key) => answer_by(tx, question, &[ValueRef::Text(key)]),
        Question::Pool(pool)
        | Question::Mechanical(pool)
        | Question::Cuts(pool)
        | Question::PaidBy(pool)
        | Question::Credits(pool) => answer_by(tx, question, &[pool.to_sql()]),
        Question::Transmission(key, number)
        | Question::NumbersAbove(key, number)
        | Question::Return(key, number)
        | Question::HasReturn(key, number)
        | Question::Payer(key, number)
        | Question::Verdicts(key, number) => {
            answer_by(tx, question, &[ValueRef::Text(key), number.to_sql()])
        }
        Question::Versions(sender, work) | Question::LastVersion(sender, work) => {
            answer_by(
                tx,
                question,
                &[ValueRef::Text(sender), ValueRef::Text(work)],
            )
        }
        Question::NumbersBetween(sender, above, below) => answer_by(
            tx,
            question,
            &[ValueRef::Text(sender), above.to_sql(), below.to_sql()],
        ),
    }
}

/// The rows that answer a question. It is asked within a transaction that is rolled back, so nothing is committed
/// whatever the schema is.
pub fn ask<S: Alter>(conn: &mut Idle<S>, question: Question<'_>) -> Result<Vec<Row>, RowFault>
    ensures asked { between S.Store conn.old conn.new Asks result
        (λ db rows. RowsAnswer question.entry db rows.items) }
    ensures err { between S.Store conn.old conn.new OnlyFails result }
{
    conn.see_last_commit();
    let mut tx = conn.connection.transaction();
    let rows = answer(&mut tx, question);
    tx.rollback();
    rows
}
