//! How a connection ends.
/// How a connection ends.
#[derive(Clone, Copy, Debug, PartialEq, Eq)]
pub enum End {
    /// With no byte of a further request.
    Quiet,
    /// After a request that ends it.
    Closed,
    /// By bytes that are no request.
    Bad,
    /// By a body above the greatest.
    TooLarge,
    /// Because memory was refused while a request was read.
    Busy,
}
