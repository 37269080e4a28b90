//! Classes of bytes.

ghost use Rattle.std.specs.Prelude.{◌≡◌};
ghost use Rattle.ir_lex.specs.Bytes.{is_name_byte, is_word_start, is_meta_byte, is_punct, is_sign, is_exponent_mark, is_blank};

/// Tells whether the byte may stand in a name without quotes: a letter, a digit, `$`, `.`, `_` or `-`.
#[tactic(auto, unfolding(crate::specs::Bytes::is_name_byte))]
pub fn is_name_byte(b: u8) -> bool
    ensures { result ≡ is_name_byte b }
{
    b.is_ascii_alphabetic()
        || b.is_ascii_digit()
        || b == b'$'
        || b == b'.'
        || b == b'_'
        || b == b'-'
}

/// Tells whether the byte may begin a word: a letter, `$`, `.` or `_`.
#[tactic(auto, unfolding(crate::specs::Bytes::is_word_start))]
pub fn is_word_start(b: u8) -> bool
    ensures { result ≡ is_word_start b }
{
    b.is_ascii_alphabetic() || b == b'$' || b == b'.' || b == b'_'
}

/// Tells whether the byte may follow `!` in a token.
#[tactic(auto, unfolding(crate::specs::Bytes::is_meta_byte))]
pub fn is_meta_byte(b: u8) -> bool
    ensures { result ≡ is_meta_byte b }
{
    is_name_byte(b) || b == b'\\'
}

/// Tells whether the byte is `=`, `,`, `*`, `|` or a bracket.
#[tactic(auto, unfolding(crate::specs::Bytes::is_punct))]
pub fn is_punct(b: u8) -> bool
    ensures { result ≡ is_punct b }
{
    b == b'='
        || b == b','
        || b == b'('
        || b == b')'
        || b == b'['
        || b == b']'
        || b == b'{'
        || b == b'}'
        || b == b'<'
        || b == b'>'
        || b == b'*'
        || b == b'|'
}

/// Tells whether the byte is `+` or `-`.
#[tactic(auto, unfolding(crate::specs::Bytes::is_sign))]
pub fn is_sign(b: u8) -> bool
    ensures { result ≡ is_sign b }
{
    b == b'+' || b == b'-'
}

/// Tells whether the byte is `e` or `E`.
#[tactic(auto, unfolding(crate::specs::Bytes::is_exponent_mark))]
pub fn is_exponent_mark(b: u8) -> bool
    ensures { result ≡ is_exponent_mark b }
{
    b == b'e' || b == b'E'
}

/// Tells whether the byte is a space, a tab, a carriage return or a line feed.
#[tactic(auto, unfolding(crate::specs::Bytes::is_blank))]
pub fn is_blank(b: u8) -> bool
    ensures { result ≡ is_blank b }
{
    b == b' ' || b == b'\t' || b == b'\r' || b == b'\n'
}
