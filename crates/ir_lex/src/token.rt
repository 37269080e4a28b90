//! A token and its kind.

/// What a token is, by its spelling.
#[derive(Clone, Copy, Debug, PartialEq, Eq)]
pub enum Kind {
    /// A name after `%`.
    Local,
    /// A name after `@`.
    Global,
    /// A string directly after `c`: bytes of a constant.
    CStr,
    /// A name directly before `:`.
    Label,
    /// A string in quotes.
    Str,
    /// A number with a point, or a hexadecimal one after `0x`.
    Float,
    /// A whole number that fits 128 bits with a sign.
    Int,
    /// A word of the language.
    Word,
    /// `!` and what belongs to it.
    Meta,
    /// `#` and a name.
    Hash,
    /// One of `=`, `,`, `*`, `|` and the brackets.
    Punct,
}

/// A token of a text, by its place.
#[derive(Clone, Copy, Debug, PartialEq, Eq)]
pub struct Token {
    /// What it is.
    pub kind: Kind,
    /// The offset of its first byte.
    pub start: usize,
    /// The offset after its last byte.
    pub end: usize,
    /// Whether it is the first token on its line.
    pub first: bool,
}
