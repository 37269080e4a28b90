//! Whether the exact result of an operation is lost, as its flags say.

ghost use Rattle.std.specs.Prelude.{◌≡◌, ◌<◌, ◌≤◌, ◌^◌, pos, ◌+ℤ◌, ◌-ℤ◌, ◌*ℤ◌};
ghost use Rattle.ir_tree.specs.declared.module.Bin.TheVariants.{Add, Sub, Mul, Shl, Udiv, Sdiv, Lshr, Ashr};
ghost use Rattle.ir_model.specs.Integers.{fits, fits_signed, is_lost, signed};
ghost use Rattle.ir_arith.specs.Widths.{IsWidth, AreNumbers};

use crate::widths::wide_signed;
use ir_tree::module::Flags;

/// Tells whether a number fits a width without a sign.
fn fits(width: u8, n: u128) -> bool
    requires { IsWidth width }
    ensures { result ≡ fits width (pos n) }
{
    n < 1 << width
}

/// Tells whether a number fits a width with a sign.
fn fits_signed(width: u8, z: i128) -> bool
    requires { IsWidth width }
    ensures { result ≡ fits_signed width z }
{
    let half = 1i128 << (width - 1);
    -half <= z && z < half
}

/// Tells whether the difference of two numbers fits a width without a sign.
fn does_difference_fit(width: u8, a: u64, b: u64) -> bool
    requires { AreNumbers width a b }
    ensures { result ≡ fits width (pos a -ℤ pos b) }
{
    b <= a
}

/// Tells whether the sum of two signed numbers fits.
fn does_signed_sum_fit(width: u8, a: u64, b: u64) -> bool
    requires { AreNumbers width a b }
    ensures { result ≡ fits_signed width (signed width a +ℤ signed width b) }
{
    fits_signed(width, wide_signed(width, a) + wide_signed(width, b))
}

/// Tells whether the difference of two signed numbers fits.
fn does_signed_difference_fit(width: u8, a: u64, b: u64) -> bool
    requires { AreNumbers width a b }
    ensures { result ≡ fits_signed width (signed width a -ℤ signed width b) }
{
    fits_signed(width, wide_signed(width, a) - wide_signed(width, b))
}

/// Tells whether the product of two signed numbers fits.
fn does_signed_product_fit(width: u8, a: u64, b: u64) -> bool
    requires { AreNumbers width a b }
    ensures { result ≡ fits_signed width (signed width a *ℤ signed width b) }
{
    fits_signed(width, wide_signed(width, a) * wide_signed(width, b))
}

/// Tells whether a sum is lost.
pub fn is_sum_lost(flags: Flags, width: u8, a: u64, b: u64) -> bool
    requires { AreNumbers width a b }
    ensures { result ≡ is_lost Add flags width a b }
{
    (flags.nuw && !fits(width, u128::from(a) + u128::from(b)))
        || (flags.nsw && !does_signed_sum_fit(width, a, b))
}

/// Tells whether a difference is lost.
pub fn is_difference_lost(flags: Flags, width: u8, a: u64, b: u64) -> bool
    requires { AreNumbers width a b }
    ensures { result ≡ is_lost Sub flags width a b }
{
    (flags.nuw && !does_difference_fit(width, a, b))
        || (flags.nsw && !does_signed_difference_fit(width, a, b))
}

/// Tells whether a product is lost.
pub fn is_product_lost(flags: Flags, width: u8, a: u64, b: u64) -> bool
    requires { AreNumbers width a b }
    ensures { result ≡ is_lost Mul flags width a b }
{
    (flags.nuw && !fits(width, u128::from(a) * u128::from(b)))
        || (flags.nsw && !does_signed_product_fit(width, a, b))
}

/// Tells whether a shift to the left is lost.
pub fn is_left_shift_lost(flags: Flags, width: u8, a: u64, b: u64) -> bool
    requires { AreNumbers width a b }
    ensures { result ≡ is_lost Shl flags width a b }
{
    b >= u64::from(width)
        || (flags.nuw && !does_shift_fit(width, a, b))
        || (flags.nsw && !does_signed_shift_fit(width, a, b))
}

/// Tells whether a number times a power of two fits without a sign.
fn does_shift_fit(width: u8, a: u64, b: u64) -> bool
    requires numbers { AreNumbers width a b }
    requires near { b < width }
    ensures { result ≡ fits width (pos a *ℤ pos (2 ^ b)) }
{
    fits(width, u128::from(a) << b)
}

/// Returns a power of two.
fn power(exponent: u64) -> i128
    requires { exponent < 64 }
    ensures value { result ≡ pos (2 ^ exponent) }
    ensures small { 2 ^ exponent ≤ 2 ^ 63 }
{
    1 << exponent
}

/// Tells whether a signed number times a power of two fits.
fn does_signed_shift_fit(width: u8, a: u64, b: u64) -> bool
    requires numbers { AreNumbers width a b }
    requires near { b < width }
    ensures { result ≡ fits_signed width (signed width a *ℤ pos (2 ^ b)) }
{
    fits_signed(width, wide_signed(width, a) * power(b))
}

/// Tells whether a shift to the right, of either kind, is lost.
pub fn is_right_shift_lost(flags: Flags, width: u8, a: u64, b: u64) -> bool
    requires { AreNumbers width a b }
    ensures plain { result ≡ is_lost Lshr flags width a b }
    ensures signed { result ≡ is_lost Ashr flags width a b }
{
    b >= u64::from(width) || (flags.exact && a % (1 << b) != 0)
}
