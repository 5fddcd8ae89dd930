//! Answers that were made and wait to be written together.
ghost use Rattle.std.specs.Prelude.{◌≤◌, vec_capacity};

use crate::counted::{Counted, NotWritten};
use http_text::{ContentType, Status, put, put_head};
use std::alloc::{AllocError, Global};
use std::io::Write;

/// So many bytes do not wait for more: they are written before another answer is put behind them.
const FULL: usize = 65_536;

/// Room behind that for one more answer, in bytes.
const ANSWER_ROOM: usize = 8_192;

/// Bodies up to this many bytes wait with their heads; a longer one is written from where it lies.
const SMALL_BODY: usize = 4096;

/// The texts that wait. They never grow past the room that was taken for them.
#[derive(Drop)]
pub(crate) struct Outbox {
    bytes: Vec<u8>,
    ghost roomy: { 73728 ≤ vec_capacity bytes },
}

impl Outbox {
    ghost use Rattle.std.specs.Prelude.{◌≡◌, ◌≤◌, [], IfOk, OnOk, OnErr, vec_len};
    ghost use Rattle.http_desk.specs.Counted.{failures_of};
    ghost use Rattle.http_desk.specs.Outbox.{waiting, Emits, PutsText};
    ghost use Rattle.http_text.specs.Text.{answer_text};
    ghost use Rattle.society_core.specs.State.{Rises};

    /// Nothing waits yet.
    pub(crate) fn new(alloc: Global) -> Result<Outbox, AllocError>
        ensures { IfOk result (λ outbox. waiting outbox ≡ []) }
    {
        let bytes = Vec::with_capacity(alloc, FULL + ANSWER_ROOM)?;
        Ok(Outbox { bytes })
    }

    /// Writes what waits. After an error a front of it was written.
    pub(crate) fn flush<W: Write>(&mut self, writer: &mut Counted<W>) -> Result<(), NotWritten>
        ensures wrote { Emits W.contents result writer.old writer.new (waiting self.old) }
        ensures empty { OnOk result (waiting self.new ≡ []) }
        ensures kept { OnOk result (failures_of writer.new ≡ failures_of writer.old) }
        ensures err { OnErr result (Rises (failures_of writer.old) (failures_of writer.new)) }
    {
        let Ok(()) = writer.write_all(&self.bytes) else {
            return Err(NotWritten);
        };
        self.bytes.clear();
        Ok(())
    }

    // Writes what waits, where there is no room for one more answer behind it.
    fn flush_if_full<W: Write>(&mut self, writer: &mut Counted<W>) -> Result<(), NotWritten>
        ensures gathers { PutsText W.contents result writer.old writer.new self.old self.new [] }
        ensures room { OnOk result (vec_len self.new.bytes ≤ 65536) }
        ensures kept { OnOk result (failures_of writer.new ≡ failures_of writer.old) }
        ensures err { OnErr result (Rises (failures_of writer.old) (failures_of writer.new)) }
    {
        if self.bytes.len() <= FULL {
            return Ok(());
        }
        self.flush(writer)
    }

    /// Puts an answer behind what waits; what waits is written first where there is no room left, and so is all where the
    /// body is long. After an error a front of both was written.
    pub(crate) fn put_answer<W: Write>(
        &mut self,
        writer: &mut Counted<W>,
        status: Status,
        content_type: ContentType,
        body: &[u8],
        close: bool,
    ) -> Result<(), NotWritten>
        ensures gathers { PutsText W.contents result writer.old writer.new self.old self.new
            (answer_text status content_type body.now close) }
        ensures kept { OnOk result (failures_of writer.new ≡ failures_of writer.old) }
        ensures err { OnErr result (Rises (failures_of writer.old) (failures_of writer.new)) }
    {
        let Ok(()) = self.flush_if_full(writer) else {
            return Err(NotWritten);
        };
        put_head(
            &mut self.bytes,
            status,
            content_type,
            body.len() as u64,
            close,
        );
        if body.len() <= SMALL_BODY {
            put(&mut self.bytes, body);
            return Ok(());
        }
        let Ok(()) = self.flush(writer) else {
            return Err(NotWritten);
        };
        writer.write_all(body)
    }
}
