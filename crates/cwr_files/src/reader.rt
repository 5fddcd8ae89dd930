//! The reader of whole transmissions.
ghost use Rattle.std.specs.Prelude.{◌≡◌, ℕ, List, IfOk, None};
ghost use Rattle.cwr_files.specs.declared.transmission.Transmission.{Transmission};
ghost use Rattle.cwr_files.specs.FileFault.{file_fault};
ghost use Rattle.cwr_files.specs.Contents.{transmission_in};
ghost use Rattle.cwr_files.specs.Reading.{IsTransmission, AnswersTransmission, TellsFault, IsJudged};

use crate::builder::contents;
use crate::fault::{FileFault, ReadFault};
use crate::fault_finder::find_fault;
use crate::transmission::Transmission;
use std::alloc::{AllocError, Global};
use work_ids::SenderKey;

/// The transmission of a sender that a body is, lent out of the body; else the file fault, which takes no memory to
/// find; `Memory` where it ran out while the contents of a right body were listed (CISAC CWR 2.2, in this office's
/// profile).
pub fn read_transmission<'a>(
    alloc: Global,
    body: &'a [u8],
    sender: &SenderKey,
) -> Result<Transmission<'a>, ReadFault>
    ensures found { IfOk result (IsTransmission body.now sender.now) }
    ensures only { (t : Transmission) → IsTransmission body.now sender.now t → AnswersTransmission t result }
    ensures reads { IfOk result (λ t. t ≡ transmission_in body.now) }
    ensures err { TellsFault (file_fault sender.now body.now) result }
{
    read_judged(alloc, body, sender, find_fault(body, sender))
}

/// What a body is, whose file fault is this one.
pub fn read_judged<'a>(
    alloc: Global,
    body: &'a [u8],
    sender: &SenderKey,
    fault: Option<FileFault>,
) -> Result<Transmission<'a>, ReadFault>
    requires { fault ≡ file_fault sender.now body.now }
    ensures found { IfOk result (IsTransmission body.now sender.now) }
    ensures only { (t : Transmission) → IsTransmission body.now sender.now t → AnswersTransmission t result }
    ensures reads { IfOk result (λ t. t ≡ transmission_in body.now) }
    ensures err { TellsFault (file_fault sender.now body.now) result }
{
    if let Some(fault) = fault {
        return Err(ReadFault::File(fault));
    }
    let transmission = contents(alloc, body)?;
    Ok(transmission)
}

/// The transmission that a body is of which it is known that it is one of this sender: it is not judged again. Lent out of
/// the body.
pub fn known_transmission<'a>(
    alloc: Global,
    body: &'a [u8],
    _sender: &SenderKey,
) -> Result<Transmission<'a>, AllocError>
    requires right { file_fault _sender.now body.now ≡ None }
    ensures reads { IfOk result (λ t. t ≡ transmission_in body.now) }
{
    contents(alloc, body)
}

/// A body without a file fault is exactly one transmission of the sender; a body with one is none.
pub fn one_or_the_other()
    ensures { (sender body : List ℕ) → IsJudged sender body (file_fault sender body) }
{}
