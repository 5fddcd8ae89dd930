//! Why a request is refused.
use crate::end_fault::EndFault;
use crate::order_fault::OrderFault;
use crate::return_key::ReturnKey;
use crate::store::StoreFault;
use cwr_files::FileFault;
use perf_returns::{ReturnError, ReturnFault};
use std::alloc::AllocError;
use thiserror::Error;
use work_ids::{PoolNumber, SenderKey, TransmissionNumber};

/// Why a request is refused. A refused request changes nothing.
#[derive(Clone, Copy, Debug, PartialEq, Eq, Error)]
pub enum Refusal {
    /// The number is taken by another content.
    #[error("reused")]
    Reused,
    /// The body is no transmission of this sender.
    #[error("file fault")]
    File(FileFault),
    /// The sender stated that the segment of the number ends before it, with this number.
    #[error("ended")]
    Ended { last: u32 },
    /// The sender has a transmission above the end, this one the last of them.
    #[error("numbers above the end")]
    Segment { number: TransmissionNumber },
    /// What was sent is no end of a segment.
    #[error("end fault")]
    End(EndFault),
    /// The body is no performance return.
    #[error("return fault")]
    Csv(ReturnFault),
    /// The body is no order.
    #[error("order fault")]
    Order(OrderFault),
    /// The cut of this sender is not in its line; its front is told, as a rank.
    #[error("cut above the front")]
    Cut { sender: SenderKey, front: u32 },
    /// The order names a return that is not there.
    #[error("unknown return")]
    ReturnUnknown(ReturnKey),
    /// The order names a return that this pool has paid.
    #[error("paid return")]
    ReturnPaid { key: ReturnKey, pool: PoolNumber },
    /// There is no such thing.
    #[error("unknown")]
    Unknown,
    /// Memory or the store failed; the request may be sent again.
    #[error("unavailable")]
    Unavailable,
}

impl From<StoreFault> for Refusal {
    ghost use Rattle.std.specs.Prelude.{◌≡◌};
    ghost use Rattle.society_core.specs.declared.refusal.Refusal.TheVariants.{Unavailable};

    ghost from_gives = { λ _ refusal. refusal ≡ Unavailable };

    fn from(_fault: StoreFault) -> Refusal {
        Refusal::Unavailable
    }
}

impl From<AllocError> for Refusal {
    ghost use Rattle.std.specs.Prelude.{◌≡◌};
    ghost use Rattle.society_core.specs.declared.refusal.Refusal.TheVariants.{Unavailable};

    ghost from_gives = { λ _ refusal. refusal ≡ Unavailable };

    fn from(_fault: AllocError) -> Refusal {
        Refusal::Unavailable
    }
}

impl From<ReturnError> for Refusal {
    ghost use Rattle.society_core.specs.Faults.{refusal_for_return};

    ghost from_gives = { λ fault refusal. refusal_for_return fault refusal };

    fn from(fault: ReturnError) -> Refusal {
        match fault {
            ReturnError::Csv(fault) => Refusal::Csv(fault),
            ReturnError::Memory => Refusal::Unavailable,
        }
    }
}
