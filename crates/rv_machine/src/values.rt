//! The 64 bits that immediates stand for.

ghost use Rattle.std.specs.Prelude.{◌≡◌, ◌*◌, ◌^◌, ◌<◌, ◌≤◌, length};
ghost use Rattle.byteorder.specs.Endian.{little_number};
ghost use Rattle.rv_inst.specs.Word.{IsBelow};
ghost use Rattle.rv_model.specs.Operations.{bits64, sign_extended, upper_value};

use byteorder::{ByteOrder, LittleEndian};

/// Returns the two's complement of a signed number in 64 bits.
pub fn bits64(number: i32) -> u64
    ensures { result ≡ bits64 number }
{
    i64::from(number).cast_unsigned()
}

/// Returns a number of twice `half` values extended to 64 bits by its sign.
pub fn sign_extended(half: u64, number: u64) -> u64
    requires half { half ≤ 2 ^ 32 }
    requires number { number < 2 * half }
    ensures { result ≡ sign_extended half number }
{
    if number < half {
        number
    } else {
        number + (u64::MAX - (2 * half - 1))
    }
}

/// Returns the value of LUI: its 20 bits above 12 zeros, extended by their sign.
pub fn upper_value(field: i32) -> u64
    requires { IsBelow (2 ^ 20) field }
    ensures { result ≡ upper_value field }
{
    sign_extended(1 << 31, (field as u64) << 12)
}

/// Returns the number that up to eight bytes make, the lowest first.
pub fn number(bytes: &[u8]) -> u64
    requires low { 1 ≤ length bytes.now }
    requires high { length bytes.now ≤ 8 }
    ensures value { result ≡ little_number (length bytes.now) bytes.now }
    ensures bound { result < 256 ^ length bytes.now }
{
    LittleEndian::read_uint(bytes, bytes.len())
}
