//! What is left of the network.

/// What is left of what listens once its use has ended. Only who began the use lets it go, so nobody else comes in.
#[derive(Drop)]
pub enum Listened<N, D> {
    /// What listens, as it was given: it was not used.
    Unused(N),
    /// Nothing could listen.
    Refused,
    /// The door by which connections came in, as it was left.
    Door(D),
}
