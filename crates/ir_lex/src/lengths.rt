//! How long the token of each kind is that a text begins with.

ghost use Rattle.std.specs.Prelude.{◌≡◌, ℕ, ◌+◌, ◌^◌, ◌<◌, ◌≤◌, ◌==◌, length, Some, IfSome};
ghost use Rattle.std.specs.List.{prefix_len};
ghost use Rattle.ir_lex.specs.Bytes.{is_digit, is_name_byte, is_meta_byte, is_not_quote, is_not_line_feed};
ghost use Rattle.ir_lex.specs.Lengths.{begins_by, after_byte, after_sign, run_len, string_len, name_len, label_len, word_len, punct_len, float_len, integer_len, exponent_len, decimals_len, fraction_len, hexadecimal_len, signed_digits_len, longer, number_len, gap_len, NoLabels};

use crate::bytes::{
    is_blank, is_exponent_mark, is_meta_byte, is_name_byte, is_punct, is_sign, is_word_start,
};
use ir_words::digits::{digit_count, is_digit};

/// Returns how many bytes of a name the text begins with.
fn name_byte_count(text: &[u8]) -> usize
    ensures count { result ≡ prefix_len is_name_byte text.now }
    ensures within { result ≤ length text.now }
{
    text.iter().take_while(|b| is_name_byte(**b)).count()
}

/// Returns how many bytes that may follow `!` the text begins with.
fn meta_byte_count(text: &[u8]) -> usize
    ensures count { result ≡ prefix_len is_meta_byte text.now }
    ensures within { result ≤ length text.now }
{
    text.iter().take_while(|b| is_meta_byte(**b)).count()
}

/// Returns how many bytes but quotes the text begins with.
#[tactic(auto, unfolding(crate::specs::Bytes::is_not_quote))]
fn unquoted_count(text: &[u8]) -> usize
    ensures count { result ≡ prefix_len is_not_quote text.now }
    ensures within { result ≤ length text.now }
{
    text.iter().take_while(|b| **b != b'"').count()
}

/// Returns how many bytes but line feeds the text begins with.
#[tactic(auto, unfolding(crate::specs::Bytes::is_not_line_feed))]
fn line_count(text: &[u8]) -> usize
    ensures count { result ≡ prefix_len is_not_line_feed text.now }
    ensures within { result ≤ length text.now }
{
    text.iter().take_while(|b| **b != b'\n').count()
}

/// Tells whether the text begins with this byte.
pub fn begins_with(text: &[u8], b: u8) -> bool
    ensures { result ≡ begins_by (λ x. x == b) text.now }
{
    match text {
        [first, ..] => *first == b,
        [] => false,
    }
}

/// Measures one or more bytes of a name at the start of the text.
fn name_run(text: &[u8]) -> Option<usize>
    ensures value { result ≡ run_len is_name_byte text.now }
    ensures within { IfSome result (λ n. n ≤ length text.now) }
{
    let count = name_byte_count(text);
    if count == 0 { None } else { Some(count) }
}

/// Measures one or more digits at the start of the text.
fn digit_run(text: &[u8]) -> Option<usize>
    ensures value { result ≡ run_len is_digit text.now }
    ensures within { IfSome result (λ n. n ≤ length text.now) }
{
    let count = digit_count(text);
    if count == 0 { None } else { Some(count) }
}

/// Measures a string in quotes at the start of the text.
pub fn string(text: &[u8]) -> Option<usize>
    ensures value { result ≡ string_len text.now }
    ensures within { IfSome result (λ n. n ≤ length text.now) }
{
    let [b'"', inner @ ..] = text else {
        return None;
    };
    let count = unquoted_count(inner);
    if count == inner.len() {
        return None;
    }
    Some(count + 2)
}

/// Measures a name: bytes of names, or a string, at the start of the text.
fn name(text: &[u8]) -> Option<usize>
    ensures value { result ≡ name_len text.now }
    ensures within { IfSome result (λ n. n ≤ length text.now) }
{
    if begins_with(text, b'"') {
        string(text)
    } else {
        name_run(text)
    }
}

/// Measures a name after `%` at the start of the text.
pub fn local(text: &[u8]) -> Option<usize>
    ensures value { result ≡ after_byte 37 name_len text.now }
    ensures within { IfSome result (λ n. n ≤ length text.now) }
{
    let [b'%', inner @ ..] = text else {
        return None;
    };
    name(inner).map(|count| count + 1)
}

/// Measures a name after `@` at the start of the text.
pub fn global(text: &[u8]) -> Option<usize>
    ensures value { result ≡ after_byte 64 name_len text.now }
    ensures within { IfSome result (λ n. n ≤ length text.now) }
{
    let [b'@', inner @ ..] = text else {
        return None;
    };
    name(inner).map(|count| count + 1)
}

/// Measures a string directly after `c` at the start of the text.
pub fn c_string(text: &[u8]) -> Option<usize>
    ensures value { result ≡ after_byte 99 string_len text.now }
    ensures within { IfSome result (λ n. n ≤ length text.now) }
{
    let [b'c', inner @ ..] = text else {
        return None;
    };
    string(inner).map(|count| count + 1)
}

/// Measures `#` and a name without quotes at the start of the text.
pub fn hash(text: &[u8]) -> Option<usize>
    ensures value { result ≡ after_byte 35 (run_len is_name_byte) text.now }
    ensures within { IfSome result (λ n. n ≤ length text.now) }
{
    let [b'#', inner @ ..] = text else {
        return None;
    };
    name_run(inner).map(|count| count + 1)
}

/// Measures `!` and the bytes that belong to it at the start of the text.
pub fn meta(text: &[u8]) -> Option<usize>
    ensures value { result ≡ after_byte 33 (λ rest. Some (prefix_len is_meta_byte rest)) text.now }
    ensures within { IfSome result (λ n. n ≤ length text.now) }
{
    let [b'!', inner @ ..] = text else {
        return None;
    };
    Some(meta_byte_count(inner) + 1)
}

/// Measures a word at the start of the text.
pub fn word(text: &[u8]) -> Option<usize>
    ensures value { result ≡ word_len text.now }
    ensures within { IfSome result (λ n. n ≤ length text.now) }
{
    match text {
        [first, rest @ ..] if is_word_start(*first) => Some(name_byte_count(rest) + 1),
        _ => None,
    }
}

/// Measures a byte of punctuation at the start of the text.
pub fn punct(text: &[u8]) -> Option<usize>
    ensures value { result ≡ punct_len text.now }
    ensures within { IfSome result (λ n. n ≤ length text.now) }
{
    match text {
        [first, ..] if is_punct(*first) => Some(1),
        _ => None,
    }
}

/// Measures a blank, or a comment up to its line's end, at the start of the text.
pub fn gap(text: &[u8]) -> Option<usize>
    ensures value { result ≡ gap_len text.now }
    ensures within { IfSome result (λ n. n ≤ length text.now) }
    ensures some { IfSome result (λ n. 0 < n) }
{
    match text {
        [first, ..] if is_blank(*first) => Some(1),
        [b';', rest @ ..] => Some(line_count(rest) + 1),
        _ => None,
    }
}

/// Returns how many bytes at its start begin no label, where it is known already of `known` bytes.
///
/// Bytes of names that no colon follows are looked through once, however many tokens they are.
pub fn unlabelled_count(text: &[u8], known: usize) -> usize
    requires { NoLabels known text.now }
    ensures { NoLabels result text.now }
{
    if known > 0 {
        return known;
    }
    let count = name_byte_count(text);
    if begins_with(&text[count..], b':') {
        0
    } else {
        count
    }
}

/// Measures a name and a colon, where no label begins at the first `unlabelled` bytes, at the start of
/// the text.
pub fn label(text: &[u8], unlabelled: usize) -> Option<usize>
    requires { NoLabels unlabelled text.now }
    ensures value { result ≡ label_len text.now }
    ensures within { IfSome result (λ n. n ≤ length text.now) }
{
    if unlabelled > 0 {
        return None;
    }
    let count = name(text)?;
    if begins_with(&text[count..], b':') {
        Some(count + 1)
    } else {
        None
    }
}

/// Measures a sign or none, and digits, at the start of the text.
fn signed_digits(text: &[u8]) -> Option<usize>
    ensures value { result ≡ signed_digits_len text.now }
    ensures within { IfSome result (λ n. n ≤ length text.now) }
{
    match text {
        [first, rest @ ..] if is_sign(*first) => digit_run(rest).map(|count| count + 1),
        _ => digit_run(text),
    }
}

/// Measures the exponent of a float, or nothing, at the start of the text.
fn exponent(text: &[u8]) -> usize
    ensures value { result ≡ exponent_len text.now }
    ensures within { result ≤ length text.now }
{
    match text {
        [first, rest @ ..] if is_exponent_mark(*first) => match signed_digits(rest) {
            Some(count) => count + 1,
            None => 0,
        },
        _ => 0,
    }
}

/// Measures what follows the point of a float: digits or none, and an exponent or none, at the start of
/// the text.
fn decimals(text: &[u8]) -> usize
    ensures value { result ≡ decimals_len text.now }
    ensures within { result ≤ length text.now }
{
    let count = digit_count(text);
    count + exponent(&text[count..])
}

/// Measures digits, a point, and what follows it, at the start of the text.
fn fraction(text: &[u8]) -> Option<usize>
    ensures value { result ≡ fraction_len text.now }
    ensures within { IfSome result (λ n. n ≤ length text.now) }
{
    let count = digit_count(text);
    if count == 0 {
        return None;
    }
    match &text[count..] {
        [b'.', rest @ ..] => Some(count + (decimals(rest) + 1)),
        _ => None,
    }
}

/// Measures a float in decimal, with a sign or without, at the start of the text.
fn decimal(text: &[u8]) -> Option<usize>
    ensures value { result ≡ after_sign fraction_len text.now }
    ensures within { IfSome result (λ n. n ≤ length text.now) }
{
    match text {
        [first, rest @ ..] if is_sign(*first) => fraction(rest).map(|count| count + 1),
        _ => fraction(text),
    }
}

/// Measures a float in hexadecimal at the start of the text.
fn hexadecimal(text: &[u8]) -> Option<usize>
    ensures value { result ≡ hexadecimal_len text.now }
    ensures within { IfSome result (λ n. n ≤ length text.now) }
{
    let [b'0', b'x', digits @ ..] = text else {
        return None;
    };
    name_run(digits).map(|count| count + 1 + 1)
}

/// Measures a float at the start of the text.
pub fn float(text: &[u8]) -> Option<usize>
    ensures value { result ≡ float_len text.now }
    ensures within { IfSome result (λ n. n ≤ length text.now) }
{
    match (hexadecimal(text), decimal(text)) {
        (None, decimal) => decimal,
        (Some(hexadecimal), None) => Some(hexadecimal),
        (Some(hexadecimal), Some(decimal)) => {
            if hexadecimal < decimal {
                Some(decimal)
            } else {
                Some(hexadecimal)
            }
        }
    }
}
