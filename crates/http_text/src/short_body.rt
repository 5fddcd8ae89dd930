//! The bodies of answers that are made here, put into room that was taken before the first read.
ghost use Rattle.std.specs.Prelude.{◌≡◌, ◌≤◌, length, vec_capacity};
ghost use Rattle.work_ids.specs.Blanks.{without_trailing_blanks};
ghost use Rattle.http_text.specs.Text.{standing_text};

use crate::text::{put, put_number, put_rank};
use cwr_files::FileFault;
use perf_returns::ReturnFault;
use society_core::{Arrival, EndFault, OrderFault, Refusal, ReturnKey, Standing};
use std::alloc::{AllocError, Global};
use work_ids::{PoolNumber, Reporter, SenderKey, TransmissionNumber};

/// Room for the body of an answer that is made here, in bytes.
const BODY_ROOM: usize = 512;

/// The body of an answer that is made here. It never grows past the room that was taken for it.
#[derive(Drop)]
pub struct ShortBody {
    bytes: Vec<u8>,
    ghost roomy: { 512 ≤ vec_capacity bytes },
}

// The word for whether a transmission is applied or waits.
fn standing_name(standing: Standing) -> &'static str
    ensures value { result.now ≡ standing_text standing }
    ensures short { length result.now ≤ 8 }
{
    match standing {
        Standing::Applied => "applied",
        Standing::Held => "held",
    }
}

// The text of a reporter, at most 20 bytes.
fn reporter_text(reporter: &Reporter) -> &[u8]
    ensures value { result.now ≡ without_trailing_blanks reporter.now }
    ensures short { length result.now ≤ 20 }
{
    reporter.as_bytes()
}

impl ShortBody {
    ghost use Rattle.std.specs.Prelude.{◌≡◌, ◌≤◌, ◌+◌, [], ◌++◌, length, decimal, vec_len, IfOk};
    ghost use Rattle.http_text.specs.NumberTexts.{number_text};
    ghost use Rattle.http_text.specs.Text.{arrival_text, closed_text, cut_text, ended_text, paid_text, refusal_text, return_text, stored_text};

    /// With nothing in it yet.
    pub fn new(alloc: Global) -> Result<ShortBody, AllocError>
        ensures { IfOk result (λ body. body.bytes.items ≡ []) }
    {
        let bytes = Vec::with_capacity(alloc, BODY_ROOM)?;
        Ok(ShortBody { bytes })
    }

    /// What is in it.
    pub fn bytes(&self) -> &[u8]
        ensures { result.now ≡ self.now.bytes.items }
    {
        &self.bytes
    }

    // Appends bytes for which there is room.
    fn put(&mut self, bytes: &[u8])
        requires { vec_len self.old.bytes + length bytes.now ≤ 512 }
        ensures items { self.new.bytes.items ≡ self.old.bytes.items ++ bytes.now }
        ensures len { vec_len self.new.bytes ≡ vec_len self.old.bytes + length bytes.now }
    {
        put(&mut self.bytes, bytes);
    }

    // Appends a number in decimal digits, of which there are at most 40.
    fn put_number(&mut self, number: u64)
        requires { vec_len self.old.bytes + 40 ≤ 512 }
        ensures items { self.new.bytes.items ≡ self.old.bytes.items ++ decimal number }
        ensures len { vec_len self.new.bytes ≤ vec_len self.old.bytes + 40 }
    {
        put_number(&mut self.bytes, number);
    }

    // Appends the number with a rank, of which there are at most 40 bytes.
    fn put_rank(&mut self, rank: u32)
        requires { vec_len self.old.bytes + 40 ≤ 512 }
        ensures items { self.new.bytes.items ≡ self.old.bytes.items ++ number_text rank }
        ensures len { vec_len self.new.bytes ≤ vec_len self.old.bytes + 40 }
    {
        put_rank(&mut self.bytes, rank);
    }

    /// Puts the body of an accepted transmission into it.
    pub fn set_arrival(&mut self, arrival: Arrival)
        ensures { self.new.bytes.items ≡ arrival_text arrival }
    {
        self.bytes.clear();
        self.put(b"{\"front\":");
        self.put_rank(arrival.front);
        self.put(b",\"state\":\"");
        self.put(standing_name(arrival.standing).as_bytes());
        self.put(b"\"}");
    }

    /// Puts the body of an end that is taken down into it.
    pub fn set_ended(&mut self, front: u32)
        ensures { self.new.bytes.items ≡ ended_text front }
    {
        self.bytes.clear();
        self.put(b"{\"front\":");
        self.put_rank(front);
        self.put(b",\"state\":\"ended\"}");
    }

    // Puts the body that tells that a number is above the end of its segment into it.
    fn set_ended_before(&mut self, last: u32)
        ensures { self.new.bytes.items ≡ refusal_text (Refusal.Ended last) }
    {
        self.bytes.clear();
        self.put(b"{\"error\":\"ended\",\"last\":");
        self.put_number(u64::from(last));
        self.put(b"}");
    }

    // Puts the body that tells a number above an end that was stated into it.
    fn set_past(&mut self, number: TransmissionNumber)
        ensures { self.new.bytes.items ≡ refusal_text (Refusal.Segment number) }
    {
        self.bytes.clear();
        self.put(b"{\"error\":\"segment\",\"number\":");
        self.put_rank(number.value());
        self.put(b"}");
    }

    // Puts the body that tells the fault of an end into it.
    fn set_end_fault(&mut self, fault: EndFault)
        ensures { self.new.bytes.items ≡ refusal_text (Refusal.End fault) }
    {
        self.bytes.clear();
        self.put(b"{\"error\":\"segment\",\"fault\":");
        self.put_number(u64::from(fault.number()));
        self.put(b"}");
    }

    // Puts the body that tells a file fault into it.
    fn set_file_fault(&mut self, fault: FileFault)
        ensures { self.new.bytes.items ≡ refusal_text (Refusal.File fault) }
    {
        self.bytes.clear();
        self.put(b"{\"error\":\"file\",\"fault\":");
        self.put_number(u64::from(fault.number));
        self.put(b",\"line\":");
        self.put_number(fault.line as u64);
        self.put(b"}");
    }

    // Puts the body that tells a return fault into it.
    fn set_return_fault(&mut self, fault: ReturnFault)
        ensures { self.new.bytes.items ≡ refusal_text (Refusal.Csv fault) }
    {
        self.bytes.clear();
        self.put(b"{\"error\":\"csv\",\"fault\":");
        self.put_number(u64::from(fault.number));
        self.put(b",\"row\":");
        self.put_number(fault.row as u64);
        self.put(b"}");
    }

    /// Puts the body of a stored return into it.
    pub fn set_stored(&mut self)
        ensures { self.new.bytes.items ≡ stored_text }
    {
        self.set(b"{\"state\":\"stored\"}");
    }

    // Puts a fixed body into it.
    fn set(&mut self, bytes: &[u8])
        requires { length bytes.now ≤ 512 }
        ensures { self.new.bytes.items ≡ bytes.now }
    {
        self.bytes.clear();
        self.put(bytes);
    }

    /// Puts the body of a closed pool into it.
    pub fn set_closed(&mut self, pool: PoolNumber)
        ensures { self.new.bytes.items ≡ closed_text pool }
    {
        self.bytes.clear();
        self.put(b"{\"pool\":");
        self.put_number(u64::from(pool.value()));
        self.put(b",\"state\":\"closed\"}");
    }

    // Puts the body that tells an order fault into it.
    fn set_order_fault(&mut self, fault: OrderFault)
        ensures { self.new.bytes.items ≡ refusal_text (Refusal.Order fault) }
    {
        self.bytes.clear();
        self.put(b"{\"error\":\"order\",\"fault\":");
        self.put_number(u64::from(fault.number()));
        self.put(b"}");
    }

    // Puts the body that tells a cut that is not in its sender's line into it.
    fn set_cut(&mut self, sender: &SenderKey, front: u32)
        ensures { self.new.bytes.items ≡ cut_text sender.now front }
    {
        self.bytes.clear();
        self.put(b"{\"error\":\"cut\",\"front\":");
        self.put_rank(front);
        self.put(b",\"sender\":\"");
        self.put(sender.as_bytes());
        self.put(b"\"}");
    }

    // Puts the body that tells a return that is not there into it.
    fn set_unknown_return(&mut self, key: &ReturnKey)
        ensures { self.new.bytes.items ≡ return_text key.now.reporter key.now.number }
    {
        self.bytes.clear();
        self.put(b"{\"error\":\"return\",\"number\":");
        self.put_number(u64::from(key.number.value()));
        self.put(b",\"reporter\":\"");
        self.put(reporter_text(&key.reporter));
        self.put(b"\"}");
    }

    // Puts the body that tells a paid return into it.
    fn set_paid_return(&mut self, key: &ReturnKey, pool: PoolNumber)
        ensures { self.new.bytes.items ≡ paid_text key.now.reporter key.now.number pool }
    {
        self.bytes.clear();
        self.put(b"{\"error\":\"paid\",\"number\":");
        self.put_number(u64::from(key.number.value()));
        self.put(b",\"pool\":");
        self.put_number(u64::from(pool.value()));
        self.put(b",\"reporter\":\"");
        self.put(reporter_text(&key.reporter));
        self.put(b"\"}");
    }

    /// Puts the body of a refusal into it.
    pub fn set_refusal(&mut self, refusal: &Refusal)
        ensures { self.new.bytes.items ≡ refusal_text refusal.now }
    {
        match refusal {
            Refusal::Reused => self.set(b"{\"error\":\"reused\"}"),
            Refusal::File(fault) => self.set_file_fault(*fault),
            Refusal::Ended { last } => self.set_ended_before(*last),
            Refusal::Segment { number } => self.set_past(*number),
            Refusal::End(fault) => self.set_end_fault(*fault),
            Refusal::Csv(fault) => self.set_return_fault(*fault),
            Refusal::Order(fault) => self.set_order_fault(*fault),
            Refusal::Cut { sender, front } => self.set_cut(sender, *front),
            Refusal::ReturnUnknown(key) => self.set_unknown_return(key),
            Refusal::ReturnPaid { key, pool } => self.set_paid_return(key, *pool),
            Refusal::Unknown => self.set(b"{\"error\":\"unknown\"}"),
            Refusal::Unavailable => self.set(b"{\"error\":\"busy\"}"),
        }
    }
}
