//! Conversions from one width to another.

ghost use Rattle.std.specs.Prelude.{◌≡◌};
ghost use Rattle.ir_model.specs.Integers.{converted};
ghost use Rattle.ir_model.specs.Pointers.{extended};
ghost use Rattle.ir_arith.specs.Widths.{IsWidth, IsNumber};

use crate::widths::{bits_of, cut, signed};
use ir_tree::module::Conv;

/// Returns a number of one width as one of another.
pub fn converted(conversion: Conv, from: u8, to: u8, n: u64) -> u64
    requires number { IsNumber from n }
    requires width { IsWidth to }
    ensures { result ≡ converted conversion from to n }
{
    match conversion {
        Conv::Zext => n,
        Conv::Sext => bits_of(to, signed(from, n)),
        Conv::Trunc => cut(to, n),
    }
}

/// Returns a number as 64 bits, extended by its sign.
pub fn extended(width: u8, n: u64) -> u64
    requires { IsNumber width n }
    ensures { result ≡ extended width n }
{
    bits_of(64, signed(width, n))
}
