//! Indices.

/// An index of a `getelementptr`.
#[derive(Clone, Copy, Debug)]
pub struct Index {
    /// How many bits its type has.
    pub width: u8,
    /// Its number, if it is a constant one.
    pub number: Option<i128>,
}
