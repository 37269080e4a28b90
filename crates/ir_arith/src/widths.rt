//! Numbers of a width: bits, and the signed numbers that they mean.

ghost use Rattle.std.specs.Prelude.{◌≡◌, ◌<◌, ◌≤◌, ◌%◌, ◌^◌, ◌-◌, FitsSigned};
ghost use Rattle.std.specs.Int.{w64};
ghost use Rattle.ir_model.specs.Integers.{signed, bits_of};
ghost use Rattle.ir_arith.specs.Widths.{IsWidth, IsNumber};

/// Returns the number of a width of which all bits are set.
pub fn ones(width: u8) -> u64
    requires { IsWidth width }
    ensures { result ≡ 2 ^ width - 1 }
{
    u64::MAX >> (64 - width)
}

/// Returns the low bits of a number, so many.
pub fn cut(width: u8, n: u64) -> u64
    requires { IsWidth width }
    ensures { result ≡ n % 2 ^ width }
{
    n & ones(width)
}

/// Returns the signed number that bits mean, in two's complement.
pub fn signed(width: u8, n: u64) -> i64
    requires { IsNumber width n }
    ensures { result ≡ signed width n }
{
    if n < 1 << (width - 1) {
        n as i64
    } else {
        (n as i128 - (1i128 << width)) as i64
    }
}

/// Returns the same in a type that has room for sums and products.
pub fn wide_signed(width: u8, n: u64) -> i128
    requires { IsNumber width n }
    ensures value { result ≡ signed width n }
    ensures word { FitsSigned w64 result }
{
    i128::from(signed(width, n))
}

/// Returns the bits of a signed number.
pub fn bits_of(width: u8, z: i64) -> u64
    requires { IsWidth width }
    ensures { result ≡ bits_of width z }
{
    cut(width, z.cast_unsigned())
}
