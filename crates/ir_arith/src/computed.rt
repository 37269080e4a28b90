//! What operations come to.

/// What a binary operation on two numbers comes to.
#[derive(Clone, Copy, Debug, PartialEq, Eq)]
pub enum Computed {
    /// The number.
    Number(u64),
    /// Poison, since a flag's promise isn't kept.
    Poison,
    /// A division that has no meaning.
    Fault,
}
