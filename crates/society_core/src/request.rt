//! What is asked of the office.
use crate::end_fault::EndFault;
use crate::inquiry::Inquiry;
use crate::order::PoolOrder;
use crate::order_fault::OrderFault;
use crate::return_key::ReturnKey;
use work_ids::{PoolNumber, SegmentEnd, SenderKey, TransmissionNumber};

/// What is asked of the office.
#[derive(Drop)]
pub enum Request<'a> {
    /// Put a sender's transmission under a number.
    PutTransmission {
        sender: SenderKey,
        number: TransmissionNumber,
        body: &'a [u8],
    },
    /// Take down where a sender says that a segment of its numbers ends.
    PutEnd {
        sender: SenderKey,
        end: SegmentEnd,
    },
    /// Take down what is no end of a segment, for this fault.
    FaultyEnd {
        fault: EndFault,
    },
    /// Put a performance return.
    PutReturn {
        key: ReturnKey,
        body: &'a [u8],
    },
    /// Close a pool by an order.
    ClosePool {
        pool: PoolNumber,
        order: PoolOrder,
    },
    /// Close a pool by what is no order, for this fault.
    FaultyOrder {
        fault: OrderFault,
    },
    /// Show something.
    Show(Inquiry),
    /// Something that the office does not have.
    Elsewhere,
}
