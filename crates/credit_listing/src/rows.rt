//! What orders would credit, as rows (RFC 4180; the columns: profile).
ghost use Rattle.std.specs.Prelude.{◌≡◌, Some, IfOk, OnOk};
ghost use Rattle.std.specs.Io.KnownBytes.{Keeps};
ghost use Rattle.csv.specs.Writing.{default_writer, row_text, text_written};
ghost use Rattle.http_text.specs.Rows.{AddsRow};
ghost use Rattle.http_text.specs.Table.{isrc_field};
ghost use Rattle.credit_listing.specs.Listed.{AddsRows};
ghost use Rattle.credit_listing.specs.Rows.{holder_row, listing_columns, share_rows, share_rows_by, shares_text, unowned_row};

use csv::{Writer, WriterBuilder};
use http_text::{put_row, set_account};
use itoa::Buffer;
use order_credits::{OwnedVersion, RecordingShare};
use share_rules::Holder;
use std::alloc::{AllocError, Global};
use work_ids::{Account, Isrc};

// What was written by a writer of rows.
fn text_of(table: Writer<Vec<u8>>) -> Result<Vec<u8>, AllocError>
    ensures { IfOk result (λ text. Keeps (text_written (λ out. Some out.items) table) (Some text.items)) }
{
    match table.into_inner() {
        Ok(text) => Ok(text),
        Err(_) => Err(AllocError),
    }
}

/// The row that names the columns.
pub(crate) fn columns_text(alloc: Global) -> Result<Vec<u8>, AllocError>
    ensures { IfOk result (λ text. text.items ≡ row_text default_writer listing_columns) }
{
    let mut table = WriterBuilder::new().from_writer(Vec::new(alloc));
    put_row(
        &mut table,
        &[
            b"order",
            b"isrc",
            b"points",
            b"units",
            b"remainder",
            b"sender",
            b"work",
            b"revision",
            b"account",
            b"weight",
            b"part",
        ],
    )?;
    text_of(table)
}

// The twelve characters of an ISRC, or a hyphen.
fn isrc_text(isrc: &Option<Isrc>) -> &[u8]
    ensures { result.now ≡ isrc_field isrc.now }
{
    match isrc {
        Some(isrc) => isrc.as_bytes(),
        None => b"-",
    }
}

// Writes the row of a share that nobody owns.
fn put_unowned(
    table: &mut Writer<Vec<u8>>,
    scratch: &mut Vec<u8>,
    number: u64,
    share: &RecordingShare,
) -> Result<(), AllocError>
    ensures { OnOk result (AddsRow table.old table.new (unowned_row number share.now)) }
{
    set_account(scratch, &Account::Unclaimed)?;
    let blank: [u8; 0] = [];
    let mut order = Buffer::new();
    let mut points = Buffer::new();
    let mut units = Buffer::new();
    let mut remainder = Buffer::new();
    let mut parts = Buffer::new();
    put_row(
        table,
        &[
            order.format(number).as_bytes(),
            isrc_text(&share.isrc),
            points.format(share.points).as_bytes(),
            units.format(share.units).as_bytes(),
            remainder.format(share.remainder).as_bytes(),
            blank.as_slice(),
            blank.as_slice(),
            blank.as_slice(),
            scratch.as_slice(),
            blank.as_slice(),
            parts.format(share.units).as_bytes(),
        ],
    )
}

// Writes the row of a holder with its part.
fn put_holder(
    table: &mut Writer<Vec<u8>>,
    scratch: &mut Vec<u8>,
    number: u64,
    share: &RecordingShare,
    owner: &OwnedVersion,
    holder: &Holder,
    part: u64,
) -> Result<(), AllocError>
    ensures { OnOk result (AddsRow table.old table.new (holder_row number share.now owner.now (holder.now, part))) }
{
    set_account(scratch, &holder.account)?;
    let mut order = Buffer::new();
    let mut points = Buffer::new();
    let mut units = Buffer::new();
    let mut remainder = Buffer::new();
    let mut revision = Buffer::new();
    let mut weight = Buffer::new();
    let mut parts = Buffer::new();
    put_row(
        table,
        &[
            order.format(number).as_bytes(),
            isrc_text(&share.isrc),
            points.format(share.points).as_bytes(),
            units.format(share.units).as_bytes(),
            remainder.format(share.remainder).as_bytes(),
            owner.sender.as_bytes(),
            owner.work.as_bytes(),
            revision.format(owner.revision).as_bytes(),
            scratch.as_slice(),
            weight.format(holder.weight).as_bytes(),
            parts.format(part).as_bytes(),
        ],
    )
}

// Writes the rows of a share that has an owner, one for each of its holders.
fn put_owned(
    table: &mut Writer<Vec<u8>>,
    scratch: &mut Vec<u8>,
    number: u64,
    share: &RecordingShare,
    owner: &OwnedVersion,
) -> Result<(), AllocError>
    ensures { OnOk result (AddsRows table.old table.new (share_rows_by number share.now (Some owner.now))) }
{
    let holders = owner.holders.as_slice();
    for (holder, part) in holders.iter().zip(share.parts.as_slice().iter()) {
        put_holder(table, scratch, number, share, owner, holder, *part)?;
    }
    Ok(())
}

// Writes the rows of a share.
fn put_share(
    table: &mut Writer<Vec<u8>>,
    scratch: &mut Vec<u8>,
    number: u64,
    share: &RecordingShare,
) -> Result<(), AllocError>
    ensures { OnOk result (AddsRows table.old table.new (share_rows number share.now)) }
{
    match &share.owner {
        Some(owner) => put_owned(table, scratch, number, share, owner),
        None => put_unowned(table, scratch, number, share),
    }
}

/// The rows of an order of this number with these shares.
pub(crate) fn rows_text(
    alloc: Global,
    number: u64,
    shares: &[RecordingShare],
) -> Result<Vec<u8>, AllocError>
    ensures { IfOk result (λ text. text.items ≡ shares_text number shares.now) }
{
    let mut table = WriterBuilder::new().from_writer(Vec::new(alloc));
    let mut scratch = Vec::new(alloc);
    for share in shares {
        put_share(&mut table, &mut scratch, number, share)?;
    }
    text_of(table)
}
