//! How long a body is.
/// How the body after a head is delimited.
#[derive(Clone, Copy, Debug, PartialEq, Eq)]
pub enum BodyLength {
    /// A body of so many bytes.
    Sized(u32),
    /// The method or the fields are at fault.
    Faulty,
    /// A body above the greatest.
    Large,
}
