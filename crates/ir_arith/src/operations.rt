//! Binary operations.

ghost use Rattle.std.specs.Prelude.{◌≡◌, ◌≢◌, int_rem};
ghost use Rattle.ir_tree.specs.declared.module.Bin.TheVariants.{Add, Sub, Mul, Shl, Udiv, Sdiv, Lshr, Ashr, Urem, Srem};
ghost use Rattle.ir_model.specs.Values.{Integer, Gives};
ghost use Rattle.ir_model.specs.Integers.{binary, computed, divided, has_no_quotient, result_of, signed};
ghost use Rattle.ir_arith.specs.Widths.{AreNumbers};
ghost use Rattle.ir_arith.specs.Computed.{answer_shape};

use crate::computed::Computed;
use crate::lost::{
    is_difference_lost, is_left_shift_lost, is_product_lost, is_right_shift_lost, is_sum_lost,
};
use crate::widths::{bits_of, cut, ones, signed};
use ir_tree::module::{Bin, Flags};

/// Computes a binary operation on two numbers of a width.
pub fn binary(operation: Bin, flags: Flags, width: u8, a: u64, b: u64) -> Computed
    requires { AreNumbers width a b }
    ensures { answer_shape width result ≡
        binary operation flags width (Integer width a) (Integer width b) }
{
    match operation {
        Bin::Add => sum(flags, width, a, b),
        Bin::Sub => difference(flags, width, a, b),
        Bin::Mul => product(flags, width, a, b),
        Bin::Shl => left_shift(flags, width, a, b),
        Bin::Udiv => quotient(flags, width, a, b),
        Bin::Sdiv => signed_quotient(flags, width, a, b),
        Bin::Lshr => right_shift(flags, width, a, b),
        Bin::Ashr => signed_right_shift(flags, width, a, b),
        Bin::Urem => remainder(flags, width, a, b),
        Bin::Srem => signed_remainder(flags, width, a, b),
        Bin::And => Computed::Number(a & b),
        Bin::Or => Computed::Number(a | b),
        Bin::Xor => Computed::Number(a ^ b),
    }
}

/// Adds two numbers.
fn sum(flags: Flags, width: u8, a: u64, b: u64) -> Computed
    requires { AreNumbers width a b }
    ensures { answer_shape width result ≡ Gives (computed Add flags width a b) }
{
    if is_sum_lost(flags, width, a, b) {
        return Computed::Poison;
    }
    Computed::Number(cut(width, a.wrapping_add(b)))
}

/// Subtracts a number from another one.
fn difference(flags: Flags, width: u8, a: u64, b: u64) -> Computed
    requires { AreNumbers width a b }
    ensures { answer_shape width result ≡ Gives (computed Sub flags width a b) }
{
    if is_difference_lost(flags, width, a, b) {
        return Computed::Poison;
    }
    Computed::Number(cut(width, a.wrapping_sub(b)))
}

/// Multiplies two numbers.
fn product(flags: Flags, width: u8, a: u64, b: u64) -> Computed
    requires { AreNumbers width a b }
    ensures { answer_shape width result ≡ Gives (computed Mul flags width a b) }
{
    if is_product_lost(flags, width, a, b) {
        return Computed::Poison;
    }
    Computed::Number(cut(width, a.wrapping_mul(b)))
}

/// Shifts to the left.
fn left_shift(flags: Flags, width: u8, a: u64, b: u64) -> Computed
    requires { AreNumbers width a b }
    ensures { answer_shape width result ≡ Gives (computed Shl flags width a b) }
{
    if is_left_shift_lost(flags, width, a, b) {
        return Computed::Poison;
    }
    Computed::Number(cut(width, a << b))
}

/// Shifts to the right and brings zeros in.
fn right_shift(flags: Flags, width: u8, a: u64, b: u64) -> Computed
    requires { AreNumbers width a b }
    ensures { answer_shape width result ≡ Gives (computed Lshr flags width a b) }
{
    if is_right_shift_lost(flags, width, a, b) {
        return Computed::Poison;
    }
    Computed::Number(a >> b)
}

/// Shifts to the right and brings the sign in.
fn signed_right_shift(flags: Flags, width: u8, a: u64, b: u64) -> Computed
    requires { AreNumbers width a b }
    ensures { answer_shape width result ≡ Gives (computed Ashr flags width a b) }
{
    if is_right_shift_lost(flags, width, a, b) {
        return Computed::Poison;
    }
    Computed::Number(bits_of(width, signed(width, a) >> b))
}

/// Divides numbers without signs.
fn quotient(flags: Flags, width: u8, a: u64, b: u64) -> Computed
    requires { AreNumbers width a b }
    ensures { answer_shape width result ≡
        divided Udiv flags width (Integer width a) (Integer width b) }
{
    if b == 0 {
        Computed::Fault
    } else if flags.exact && a % b != 0 {
        Computed::Poison
    } else {
        Computed::Number(a / b)
    }
}

/// Returns what a division of numbers without signs leaves.
fn remainder(flags: Flags, width: u8, a: u64, b: u64) -> Computed
    requires { AreNumbers width a b }
    ensures { answer_shape width result ≡
        divided Urem flags width (Integer width a) (Integer width b) }
{
    if b == 0 {
        Computed::Fault
    } else {
        Computed::Number(a % b)
    }
}

/// Tells whether a quotient of signed numbers has no number: that of the least one by -1.
fn has_no_quotient(width: u8, a: u64, b: u64) -> bool
    requires { AreNumbers width a b }
    ensures quotient { result ≡ has_no_quotient Sdiv width a b }
    ensures remainder { result ≡ has_no_quotient Srem width a b }
{
    a == 1 << (width - 1) && b == ones(width)
}

/// Divides signed numbers.
fn signed_quotient(flags: Flags, width: u8, a: u64, b: u64) -> Computed
    requires { AreNumbers width a b }
    ensures { answer_shape width result ≡
        divided Sdiv flags width (Integer width a) (Integer width b) }
{
    if b == 0 || has_no_quotient(width, a, b) {
        Computed::Fault
    } else if flags.exact && signed_rest(width, a, b) != 0 {
        Computed::Poison
    } else {
        Computed::Number(signed_quotient_bits(width, a, b))
    }
}

/// Returns what a division of signed numbers leaves.
fn signed_remainder(flags: Flags, width: u8, a: u64, b: u64) -> Computed
    requires { AreNumbers width a b }
    ensures { answer_shape width result ≡
        divided Srem flags width (Integer width a) (Integer width b) }
{
    if b == 0 || has_no_quotient(width, a, b) {
        Computed::Fault
    } else {
        Computed::Number(bits_of(width, signed_rest(width, a, b)))
    }
}

/// Returns the bits of a quotient of signed numbers. That of the least number by -1 is that number again.
fn signed_quotient_bits(width: u8, a: u64, b: u64) -> u64
    requires numbers { AreNumbers width a b }
    requires some { b ≢ 0 }
    ensures { result ≡ result_of Sdiv width a b }
{
    bits_of(width, signed(width, a).wrapping_div(signed(width, b)))
}

/// Returns the rest of a quotient of signed numbers.
fn signed_rest(width: u8, a: u64, b: u64) -> i64
    requires numbers { AreNumbers width a b }
    requires some { b ≢ 0 }
    ensures { result ≡ int_rem (signed width a) (signed width b) }
{
    signed(width, a).wrapping_rem(signed(width, b))
}
