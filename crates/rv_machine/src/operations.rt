//! The operations on words of 64 bits, and the tables of the instructions that compute, branch, load and store.

ghost use Rattle.std.specs.Prelude.{◌≡◌, ◌%◌, ◌^◌, ◌<◌, ◌≤◌, ◌*ℤ◌};
ghost use Rattle.std.specs.Int.{int_shr};
ghost use Rattle.rv_inst.specs.declared.table.Group.TheVariants.{Loads};
ghost use Rattle.rv_inst.specs.Groups.{group_of};
ghost use Rattle.rv_model.specs.Operations.{extended, is_taken, operation, width, bits64, high_signed, high_mixed, high_unsigned, even_part, less_signed, plus32, minus32, shifted_left, shifted_left32, shifted_right, shifted_right32, shifted_signed, shifted_signed32, times32, quotient, quotient_unsigned, remainder, remainder_unsigned, quotient32, quotient_unsigned32, remainder32, remainder_unsigned32, truth, word32};

use crate::values::{bits64, sign_extended};
use rv_inst::Kind;

/// Returns what an instruction that computes makes of two words, and 0 of another instruction.
pub fn operation(kind: Kind, a: u64, b: u64) -> u64
    ensures { result ≡ operation kind a b }
{
    match kind {
        Kind::OpAdd | Kind::OpAddi => a.wrapping_add(b),
        Kind::OpSub => a.wrapping_sub(b),
        Kind::OpSlt | Kind::OpSlti => truth(less_signed(a, b)),
        Kind::OpSltu | Kind::OpSltiu => truth(a < b),
        Kind::OpXor | Kind::OpXori => a ^ b,
        Kind::OpOr | Kind::OpOri => a | b,
        Kind::OpAnd | Kind::OpAndi => a & b,
        Kind::OpSll | Kind::OpSlli => shifted_left(a, b),
        Kind::OpSrl | Kind::OpSrli => shifted_right(a, b),
        Kind::OpSra | Kind::OpSrai => shifted_signed(a, b),
        Kind::OpAddw | Kind::OpAddiw => plus32(a, b),
        Kind::OpSubw => minus32(a, b),
        Kind::OpSllw | Kind::OpSlliw => shifted_left32(a, b),
        Kind::OpSrlw | Kind::OpSrliw => shifted_right32(a, b),
        Kind::OpSraw | Kind::OpSraiw => shifted_signed32(a, b),
        Kind::OpMul => a.wrapping_mul(b),
        Kind::OpMulh => high_signed(a, b),
        Kind::OpMulhsu => high_mixed(a, b),
        Kind::OpMulhu => high_unsigned(a, b),
        Kind::OpDiv => quotient(a, b),
        Kind::OpDivu => quotient_unsigned(a, b),
        Kind::OpRem => remainder(a, b),
        Kind::OpRemu => remainder_unsigned(a, b),
        Kind::OpMulw => times32(a, b),
        Kind::OpDivw => quotient32(a, b),
        Kind::OpDivuw => quotient_unsigned32(a, b),
        Kind::OpRemw => remainder32(a, b),
        Kind::OpRemuw => remainder_unsigned32(a, b),
        _ => 0,
    }
}

/// Returns whether a branch is taken, by the two words that it compares; no other instruction is.
pub fn is_taken(kind: Kind, a: u64, b: u64) -> bool
    ensures { result ≡ is_taken kind a b }
{
    match kind {
        Kind::OpBeq => a == b,
        Kind::OpBne => a != b,
        Kind::OpBlt => less_signed(a, b),
        Kind::OpBge => !less_signed(a, b),
        Kind::OpBltu => a < b,
        Kind::OpBgeu => a >= b,
        _ => false,
    }
}

/// Returns how many bytes a load or a store moves, and 0 of another instruction.
pub fn width(kind: Kind) -> u8
    ensures value { result ≡ width kind }
    ensures most { result ≤ 8 }
    ensures least { group_of kind ≡ Loads → 1 ≤ result }
{
    match kind {
        Kind::OpLb | Kind::OpLbu | Kind::OpSb => 1,
        Kind::OpLh | Kind::OpLhu | Kind::OpSh => 2,
        Kind::OpLw | Kind::OpLwu | Kind::OpSw => 4,
        Kind::OpLd | Kind::OpSd => 8,
        _ => 0,
    }
}

/// Returns the 64 bits that a load makes of the number of its bytes.
pub fn extended(kind: Kind, number: u64) -> u64
    requires { number < 256 ^ width kind }
    ensures { result ≡ extended kind number }
{
    match kind {
        Kind::OpLb => sign_extended(1 << 7, number),
        Kind::OpLh => sign_extended(1 << 15, number),
        Kind::OpLw => sign_extended(1 << 31, number),
        _ => number,
    }
}

/// Returns whether the first word is less than the second as a signed number.
pub fn less_signed(a: u64, b: u64) -> bool
    ensures { result ≡ less_signed a b }
{
    a.cast_signed() < b.cast_signed()
}

/// Returns 1 where a test holds, and else 0.
pub fn truth(test: bool) -> u64
    ensures { result ≡ truth test }
{
    u64::from(test)
}

/// Returns the word without bit 0.
pub fn even_part(a: u64) -> u64
    ensures { result ≡ even_part a }
{
    a - a % 2
}

/// Returns the shift to the left, by the low six bits of the amount.
pub fn shifted_left(a: u64, amount: u64) -> u64
    ensures { result ≡ shifted_left a amount }
{
    a << (amount % 64)
}

/// Returns the shift to the right that brings zeros in, by the low six bits of the amount.
pub fn shifted_right(a: u64, amount: u64) -> u64
    ensures { result ≡ shifted_right a amount }
{
    a >> (amount % 64)
}

/// Returns the shift to the right that brings the sign in, by the low six bits of the amount.
pub fn shifted_signed(a: u64, amount: u64) -> u64
    ensures { result ≡ shifted_signed a amount }
{
    (a.cast_signed() >> (amount % 64)).cast_unsigned()
}

/// Returns the low 32 bits of a word.
fn low_half(a: u64) -> u32
    ensures { result ≡ a % 2 ^ 32 }
{
    (a % (1 << 32)) as u32
}

/// Returns the low 32 bits of a word, extended by their sign.
pub fn word32(a: u64) -> u64
    ensures { result ≡ word32 a }
{
    sign_extended(1 << 31, a % (1 << 32))
}

/// Returns the sum of the low 32 bits, extended by its sign.
pub fn plus32(a: u64, b: u64) -> u64
    ensures { result ≡ plus32 a b }
{
    word32(a.wrapping_add(b))
}

/// Returns the difference of the low 32 bits, extended by its sign.
pub fn minus32(a: u64, b: u64) -> u64
    ensures { result ≡ minus32 a b }
{
    word32(a.wrapping_sub(b))
}

/// Returns the low 32 bits shifted to the left by the low five bits of the amount, extended by their sign.
pub fn shifted_left32(a: u64, amount: u64) -> u64
    ensures { result ≡ shifted_left32 a amount }
{
    word32(shifted_left(a, amount % 32))
}

/// Returns the low 32 bits shifted to the right by the low five bits of the amount, with zeros brought in,
/// and extended by their sign.
pub fn shifted_right32(a: u64, amount: u64) -> u64
    ensures { result ≡ shifted_right32 a amount }
{
    word32(u64::from(low_half(a)) >> (amount % 32))
}

/// Returns the low 32 bits shifted to the right by the low five bits of the amount, with their sign brought in.
pub fn shifted_signed32(a: u64, amount: u64) -> u64
    ensures { result ≡ shifted_signed32 a amount }
{
    bits64(low_half(a).cast_signed() >> (amount % 32))
}

/// Returns the lowest 32 bits of the product, extended by their sign.
pub fn times32(a: u64, b: u64) -> u64
    ensures { result ≡ times32 a b }
{
    word32(a.wrapping_mul(b))
}

/// Returns the signed quotient, rounded toward zero; all bits are set where the divisor is zero.
pub fn quotient(a: u64, b: u64) -> u64
    ensures { result ≡ quotient a b }
{
    if b == 0 {
        u64::MAX
    } else {
        let quotient = a.cast_signed().wrapping_div(b.cast_signed());
        quotient.cast_unsigned()
    }
}

/// Returns the unsigned quotient; all bits are set where the divisor is zero.
pub fn quotient_unsigned(a: u64, b: u64) -> u64
    ensures { result ≡ quotient_unsigned a b }
{
    if b == 0 { u64::MAX } else { a / b }
}

/// Returns the signed remainder, with the dividend's sign; the dividend where the divisor is zero.
pub fn remainder(a: u64, b: u64) -> u64
    ensures { result ≡ remainder a b }
{
    if b == 0 {
        a
    } else {
        let remainder = a.cast_signed().wrapping_rem(b.cast_signed());
        remainder.cast_unsigned()
    }
}

/// Returns the unsigned remainder; the dividend where the divisor is zero.
pub fn remainder_unsigned(a: u64, b: u64) -> u64
    ensures { result ≡ remainder_unsigned a b }
{
    if b == 0 { a } else { a % b }
}

/// Returns the signed quotient of the low 32 bits, extended by its sign.
pub fn quotient32(a: u64, b: u64) -> u64
    ensures { result ≡ quotient32 a b }
{
    let divisor = low_half(b);
    if divisor == 0 {
        u64::MAX
    } else {
        let quotient = low_half(a)
            .cast_signed()
            .wrapping_div(divisor.cast_signed());
        sign_extended(1 << 31, u64::from(quotient.cast_unsigned()))
    }
}

/// Returns the unsigned quotient of the low 32 bits, extended by its sign.
pub fn quotient_unsigned32(a: u64, b: u64) -> u64
    ensures { result ≡ quotient_unsigned32 a b }
{
    let divisor = b % (1 << 32);
    if divisor == 0 {
        u64::MAX
    } else {
        word32(a % (1 << 32) / divisor)
    }
}

/// Returns the signed remainder of the low 32 bits, extended by its sign.
pub fn remainder32(a: u64, b: u64) -> u64
    ensures { result ≡ remainder32 a b }
{
    let divisor = low_half(b);
    if divisor == 0 {
        word32(a)
    } else {
        let remainder = low_half(a)
            .cast_signed()
            .wrapping_rem(divisor.cast_signed());
        sign_extended(1 << 31, u64::from(remainder.cast_unsigned()))
    }
}

/// Returns the unsigned remainder of the low 32 bits, extended by its sign.
pub fn remainder_unsigned32(a: u64, b: u64) -> u64
    ensures { result ≡ remainder_unsigned32 a b }
{
    let divisor = b % (1 << 32);
    if divisor == 0 {
        word32(a)
    } else {
        word32(a % (1 << 32) % divisor)
    }
}

/// Returns the upper 64 bits of the product of two numbers.
fn high_of_numbers(a: i64, b: i64) -> u64
    ensures { result ≡ bits64 (int_shr (a *ℤ b) 64) }
{
    let product = a as i128 * b as i128;
    ((product >> 64) as i64).cast_unsigned()
}

/// Returns the upper 64 bits of the product of two signed numbers.
pub fn high_signed(a: u64, b: u64) -> u64
    ensures { result ≡ high_signed a b }
{
    high_of_numbers(a.cast_signed(), b.cast_signed())
}

/// Returns the upper 64 bits of the product of a signed and an unsigned number.
pub fn high_mixed(a: u64, b: u64) -> u64
    ensures { result ≡ high_mixed a b }
{
    let product = a.cast_signed() as i128 * b as i128;
    ((product >> 64) as i64).cast_unsigned()
}

/// Returns the upper 64 bits of the product of two unsigned numbers.
pub fn high_unsigned(a: u64, b: u64) -> u64
    ensures { result ≡ high_unsigned a b }
{
    let product = a as u128 * b as u128;
    (product >> 64) as u64
}
