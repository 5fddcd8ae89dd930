//! The table of a pool.
ghost use Rattle.std.specs.Prelude.{◌≡◌, map, IfOk, OnOk};
ghost use Rattle.csv.specs.Writing.{default_writer, row_text};
ghost use Rattle.work_ids.specs.Account.{account_text};
ghost use Rattle.http_text.specs.Table.{credit_columns, credit_fields, isrc_field, table_text};
ghost use Rattle.http_text.specs.Rows.{AddsRow, HasWrittenRows};

use csv::{Writer, WriterBuilder};
use itoa::Buffer;
use pool_split::Credit;
use std::alloc::{AllocError, Global};
use work_ids::{Account, Isrc};

/// Puts the text of an account into a scratch.
pub fn set_account(scratch: &mut Vec<u8>, account: &Account) -> Result<(), AllocError>
    ensures { OnOk result (scratch.new.items ≡ account_text account.now) }
{
    let (kind, owner, number) = account.pieces();
    scratch.clear();
    scratch.extend_from_slice(kind)?;
    scratch.extend_from_slice(owner)?;
    scratch.extend_from_slice(number)
}

// The twelve characters of an ISRC, or a hyphen.
fn isrc_text(isrc: &Option<Isrc>) -> &[u8]
    ensures { result.now ≡ isrc_field isrc.now }
{
    match isrc {
        Some(isrc) => isrc.as_bytes(),
        None => b"-",
    }
}

/// Writes one row.
pub fn put_row(table: &mut Writer<Vec<u8>>, fields: &[&[u8]]) -> Result<(), AllocError>
    ensures { OnOk result (AddsRow table.old table.new (map (λ field. field.now) fields.now)) }
{
    match table.write_fields(fields) {
        Ok(()) => Ok(()),
        Err(_) => Err(AllocError),
    }
}

// Writes the row of a credit.
fn put_credit(
    table: &mut Writer<Vec<u8>>,
    scratch: &mut Vec<u8>,
    credit: &Credit,
) -> Result<(), AllocError>
    ensures { OnOk result (AddsRow table.old table.new (credit_fields credit.now)) }
{
    set_account(scratch, &credit.account)?;
    let mut digits = Buffer::new();
    let units = digits.format(credit.units).as_bytes();
    put_row(table, &[isrc_text(&credit.isrc), scratch.as_slice(), units])
}

// Writes the names of the columns.
fn new_table(alloc: Global) -> Result<Writer<Vec<u8>>, AllocError>
    ensures { IfOk result (λ table. HasWrittenRows table (row_text default_writer credit_columns)) }
{
    let mut table = WriterBuilder::new().from_writer(Vec::new(alloc));
    put_row(&mut table, &[b"isrc", b"account", b"units"])?;
    Ok(table)
}

/// The body that lists the credits of a pool.
pub(crate) fn table_text(alloc: Global, credits: &[Credit]) -> Result<Vec<u8>, AllocError>
    ensures { IfOk result (λ text. text.items ≡ table_text credits.now) }
{
    let mut table = new_table(alloc)?;
    let mut scratch = Vec::new(alloc);
    for credit in credits {
        put_credit(&mut table, &mut scratch, credit)?;
    }
    match table.into_inner() {
        Ok(text) => Ok(text),
        Err(_) => Err(AllocError),
    }
}
