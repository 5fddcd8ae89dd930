//! What is wrong with an order.
ghost use Rattle.std.specs.Prelude.{◌≡◌};
ghost use Rattle.society_core.specs.Orders.{order_fault_number};

use thiserror::Error;

/// Why what was sent makes no order (profile). Of several faults the one with the least number is told.
#[derive(Clone, Copy, Debug, PartialEq, Eq, Error)]
pub enum OrderFault {
    /// 1 It has another shape than an order.
    #[error("no order")]
    Shape,
    /// 2 A number is out of its range.
    #[error("out of range")]
    OutOfRange,
    /// 3 It has more than 200 senders or 1,000 returns.
    #[error("too long")]
    TooLong,
    /// 4 A sender or a return is named twice.
    #[error("named twice")]
    NamedTwice,
}

impl OrderFault {
    /// The fault's number, 1 to 4.
    pub fn number(self) -> u8
        ensures { result ≡ order_fault_number self }
    {
        match self {
            OrderFault::Shape => 1,
            OrderFault::OutOfRange => 2,
            OrderFault::TooLong => 3,
            OrderFault::NamedTwice => 4,
        }
    }
}
