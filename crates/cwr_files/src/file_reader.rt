//! A reader that takes a body in pieces, as they come.
ghost use Rattle.std.specs.Prelude.{◌≡◌, ◌≤◌, ◌+◌, [], length, IfOk};
ghost use Rattle.cwr_files.specs.declared.transmission.Transmission.{Transmission};
ghost use Rattle.cwr_files.specs.Contents.{transmission_in};
ghost use Rattle.cwr_files.specs.Fed.{Feeds, StaysSettled};
ghost use Rattle.cwr_files.specs.FileFault.{file_fault};
ghost use Rattle.cwr_files.specs.Reading.{IsTransmission, AnswersTransmission, TellsFault};
ghost use Rattle.cwr_files.specs.Sizes.{max_body};

use crate::fault::{FileFault, ReadFault};
use crate::fault_finder::last_fault;
use crate::limits::MAX_BODY;
use crate::progress::{Progress, read_on};
use crate::reader::read_judged;
use crate::transmission::Transmission;
use std::alloc::Global;
use std::marker::Model;
use work_ids::SenderKey;

/// A body of a sender that comes in pieces, kept once, and what is known of it. Its lines are judged as they end.
#[derive(Drop)]
pub struct FileReader {
    sender: SenderKey,
    body: Vec<u8>,
    at: Progress,
    fault: Option<FileFault>,
}

impl Model for FileReader {
    ghost use Rattle.cwr_files.specs.Fed.{Fed};
    ghost use Rattle.cwr_files.specs.ReadTo.{IsKnown};

    ghost Value = { Fed };

    ghost view = { λ r. record { sender = r.sender; body = r.body.items } };

    ghost invariant = { λ r. IsKnown r.sender r.body.items r.at r.fault };
}

impl FileReader {
    /// A reader of a body for a sender, before its first byte. Takes no memory.
    pub fn new(alloc: Global, sender: &SenderKey) -> FileReader
        ensures { result ≡ record { sender = sender.now; body = [] } }
    {
        FileReader {
            sender: *sender,
            body: Vec::new(alloc),
            at: Progress::new(),
            fault: None,
        }
    }

    /// Takes the next bytes of the body. A file fault is answered as soon as each body that begins with the bytes so far
    /// has it, and from then on, keeping no further byte; after want of memory the reader is as before (profile).
    pub fn feed(&mut self, piece: &[u8]) -> Result<(), ReadFault>
        ensures feeds { Feeds self.old piece.now self.new result }
        ensures stays { StaysSettled self.old self.new result }
        ensures sender { self.new.sender ≡ self.old.sender }
    {
        if let Some(fault) = self.fault {
            return Err(ReadFault::File(fault));
        }
        let searched = self.body.len() - self.at.start;
        let room = MAX_BODY + 1 - self.body.len();
        let count = piece.len().min(room);
        let Ok(()) = self.body.extend_from_slice(&piece[..count]) else {
            return Err(ReadFault::Memory);
        };
        match read_on(&self.sender, self.body.as_slice(), &self.at, searched) {
            Ok(at) => {
                self.at = at;
                Ok(())
            }
            Err(fault) => {
                self.fault = Some(fault);
                Err(ReadFault::File(fault))
            }
        }
    }

    /// What `read_transmission` answers for the bytes that were fed, as a whole body; it is lent out of the reader.
    pub fn finish<'a>(&'a self, alloc: Global) -> Result<Transmission<'a>, ReadFault>
        ensures found { IfOk result (IsTransmission self.now.body self.now.sender) }
        ensures only { (t : Transmission) → IsTransmission self.now.body self.now.sender t → AnswersTransmission t result }
        ensures reads { IfOk result (λ t. t ≡ transmission_in self.now.body) }
        ensures err { TellsFault (file_fault self.now.sender self.now.body) result }
    {
        read_judged(alloc, self.body.as_slice(), &self.sender, self.fault())
    }

    /// The file fault of the bytes that were fed, as a whole body; `None` where they are a transmission of the sender. Takes
    /// no memory.
    pub fn fault(&self) -> Option<FileFault>
        ensures { result ≡ file_fault self.now.sender self.now.body }
    {
        match self.fault {
            Some(fault) => Some(fault),
            None => last_fault(&self.sender, self.body.as_slice(), &self.at),
        }
    }

    /// The sender that the body is read for.
    pub fn sender(&self) -> &SenderKey
        ensures { result.now ≡ self.now.sender }
    {
        &self.sender
    }

    /// The bytes that are kept: all that were fed, up to a fault that is known. Takes no memory.
    pub fn body(&self) -> &[u8]
        ensures { result.now ≡ self.now.body }
    {
        self.body.as_slice()
    }

    /// The bytes that are kept, as they lie. Takes no memory.
    pub fn into_body(self) -> Vec<u8>
        ensures { result.items ≡ self.body }
    {
        self.body
    }
}
