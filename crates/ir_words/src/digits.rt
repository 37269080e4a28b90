//! Decimal digits and the numbers that they spell.

ghost use Rattle.std.specs.Prelude.{◌≡◌, ◌-◌, ◌^◌, ◌≤◌, min, length};
ghost use Rattle.std.specs.List.{prefix_len};
ghost use Rattle.std.specs.Str.Parse.{digits_value};
ghost use Rattle.ir_words.specs.Digits.{Passes, is_digit, is_number};

/// Tells whether the byte is a decimal digit.
#[tactic(auto, unfolding(crate::specs::Digits::is_digit))]
pub fn is_digit(b: u8) -> bool
    ensures { result ≡ is_digit b }
{
    b.is_ascii_digit()
}

/// Returns how many digits the text begins with.
pub fn digit_count(text: &[u8]) -> usize
    ensures count { result ≡ prefix_len is_digit text.now }
    ensures within { result ≤ length text.now }
{
    text.iter().take_while(|b| is_digit(**b)).count()
}

/// Returns the number that the digits spell, or 2^128 - 1 where it is no less.
pub fn value(digits: &[u8]) -> u128
    requires { Passes is_digit digits.now }
    ensures { result ≡ min (digits_value 10 digits.now) (2 ^ 128 - 1) }
{
    let mut value = 0u128;
    for digit in digits {
        value = value
            .saturating_mul(10)
            .saturating_add(u128::from(*digit - b'0'));
    }
    value
}

/// Tells whether these are digits, at least one.
pub fn is_number(text: &[u8]) -> bool
    ensures { result ≡ is_number text.now }
{
    let count = digit_count(text);
    count > 0 && count == text.len()
}
