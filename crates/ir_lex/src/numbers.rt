//! Integers: digits whose number fits.

ghost use Rattle.std.specs.Prelude.{◌≡◌, ℕ, ◌+◌, ◌-◌, ◌^◌, ◌<◌, ◌≤◌, nat_lt, length, IfSome};
ghost use Rattle.std.specs.Str.Parse.{digits_value};
ghost use Rattle.ir_lex.specs.Bytes.{is_digit, is_name_byte};
ghost use Rattle.ir_lex.specs.Spelling.{Passes};
ghost use Rattle.ir_lex.specs.Lengths.{begins_by, number_len, integer_len};

use crate::bytes::is_name_byte;
use ir_words::digits::{digit_count, value};

/// The number from which on an integer without a sign doesn't fit 128 bits with a sign.
const PAST_MOST: u128 = 1 << 127;

/// Tells whether the number of these digits is below the limit.
pub fn is_below(digits: &[u8], limit: u128) -> bool
    requires digits { Passes is_digit digits.now }
    requires small { limit < 2 ^ 128 - 1 }
    ensures { result ≡ nat_lt (digits_value 10 digits.now) limit }
{
    value(digits) < limit
}

/// Tells whether the text begins with a byte of a name.
fn begins_with_name_byte(text: &[u8]) -> bool
    ensures { result ≡ begins_by is_name_byte text.now }
{
    match text {
        [first, ..] => is_name_byte(*first),
        [] => false,
    }
}

/// Measures digits of a number below the limit, which no byte of a name follows, at the start of the
/// text.
fn number(text: &[u8], limit: u128) -> Option<usize>
    requires { limit < 2 ^ 128 - 1 }
    ensures value { result ≡ number_len limit text.now }
    ensures within { IfSome result (λ n. n ≤ length text.now) }
{
    let count = digit_count(text);
    if count == 0 {
        return None;
    }
    if begins_with_name_byte(&text[count..]) {
        return None;
    }
    if is_below(&text[..count], limit) {
        Some(count)
    } else {
        None
    }
}

/// Measures an integer that fits 128 bits with a sign, and that no byte of a name follows, at the start
/// of the text.
pub fn integer(text: &[u8]) -> Option<usize>
    ensures value { result ≡ integer_len text.now }
    ensures within { IfSome result (λ n. n ≤ length text.now) }
{
    match text {
        [b'-', digits @ ..] => number(digits, PAST_MOST + 1).map(|count| count + 1),
        _ => number(text, PAST_MOST),
    }
}
