// The fields of a word and the operands of an instruction, by its format.

ghost use Rattle.std.specs.Prelude.{◌≡◌, ◌+◌, ◌*◌, ◌^◌, ◌<◌, ◌≤◌, ◌↔◌, IsTrue};
ghost use Rattle.rv_inst.specs.declared.table.Format.TheVariants.{Upper, Jump, Immediate, Branch, Store};
ghost use Rattle.rv_inst.specs.Format.{number, fields_at, fields_of, operands_in, bits_of, signed_at, unsigned, IsRow, IsCut};
ghost use Rattle.rv_inst.specs.Word.{FitsFormat, IsBelow, IsSigned, IsEven};

use crate::forms::{with_none, with_rd, with_rd_rs1, with_registers, with_sources};
use crate::table::{Fields, Format, Operands, Row};

// Returns the fields of a word.
pub fn cut(word: u32) -> Fields
    ensures { result ≡ fields_at word }
{
    Fields {
        opcode: (word % 0x80) as u8,
        rd: (word / 0x80 % 0x20) as u8,
        funct3: (word / 0x1000 % 8) as u8,
        rs1: (word / 0x8000 % 0x20) as u8,
        rs2: (word / 0x10_0000 % 0x20) as u8,
        bit25: (word / 0x200_0000 % 2) as u8,
        top6: (word / 0x400_0000) as u8,
    }
}

// Returns the word of these fields.
pub fn join(f: Fields) -> u32
    requires { IsCut f }
    ensures { result ≡ number f }
{
    u32::from(f.opcode)
        + 0x80 * u32::from(f.rd)
        + 0x1000 * u32::from(f.funct3)
        + 0x8000 * u32::from(f.rs1)
        + 0x10_0000 * u32::from(f.rs2)
        + 0x200_0000 * u32::from(f.bit25)
        + 0x400_0000 * u32::from(f.top6)
}

// Returns the two's complement of a number of `2 * half` values.
fn bits(half: u32, value: i32) -> u32
    requires small { half ≤ 2 ^ 20 }
    requires fits { IsSigned half value }
    ensures { result ≡ bits_of half value }
{
    let value = i64::from(value);
    let count = 2 * i64::from(half);
    if value < 0 {
        (count + value) as u32
    } else {
        value as u32
    }
}

// Returns the number that these bits mean.
fn signed(half: u32, bits: u32) -> i32
    requires small { half ≤ 2 ^ 20 }
    requires fits { bits < 2 * half }
    ensures { result ≡ signed_at half bits }
{
    if bits < half {
        bits as i32
    } else {
        bits as i32 - 2 * half as i32
    }
}

// Returns the fields of an instruction.
pub fn fields_for(row: Row, o: Operands) -> Fields
    requires row { IsRow row }
    requires operands { FitsFormat row.format o }
    ensures value { result ≡ fields_of row.format row o }
    ensures cut { IsCut result }
{
    match row.format {
        Format::Upper => upper_fields(row, o),
        Format::Jump => jump_fields(row, o),
        Format::Immediate => immediate_fields(row, o),
        Format::Branch => branch_fields(row, o),
        Format::Store => store_fields(row, o),
        Format::Register => register_fields(row, o),
        Format::Shift => shift_fields(row, o),
        Format::ShiftWord => shift_word_fields(row, o),
        Format::System => Fields {
            opcode: row.opcode,
            rd: 0,
            funct3: row.funct3,
            rs1: 0,
            rs2: 0,
            bit25: row.bit25,
            top6: row.top6,
        },
    }
}

fn upper_fields(row: Row, o: Operands) -> Fields
    requires { FitsFormat Format.Upper o }
    ensures { result ≡ fields_of Format.Upper row o }
{
    let n = o.imm as u32;
    Fields {
        opcode: row.opcode,
        rd: o.rd,
        funct3: (n % 8) as u8,
        rs1: (n / 8 % 0x20) as u8,
        rs2: (n / 0x100 % 0x20) as u8,
        bit25: (n / 0x2000 % 2) as u8,
        top6: (n / 0x4000) as u8,
    }
}

fn jump_fields(row: Row, o: Operands) -> Fields
    requires { FitsFormat Format.Jump o }
    ensures { result ≡ fields_of Format.Jump row o }
{
    let n = bits(0x10_0000, o.imm);
    Fields {
        opcode: row.opcode,
        rd: o.rd,
        funct3: (n / 0x1000 % 8) as u8,
        rs1: (n / 0x8000 % 0x20) as u8,
        rs2: (n / 0x800 % 2 + 2 * (n / 2 % 0x10)) as u8,
        bit25: (n / 0x20 % 2) as u8,
        top6: (n / 0x40 % 0x20 + 0x20 * (n / 0x10_0000)) as u8,
    }
}

fn immediate_fields(row: Row, o: Operands) -> Fields
    requires { FitsFormat Format.Immediate o }
    ensures { result ≡ fields_of Format.Immediate row o }
{
    let n = bits(0x800, o.imm);
    Fields {
        opcode: row.opcode,
        rd: o.rd,
        funct3: row.funct3,
        rs1: o.rs1,
        rs2: (n % 0x20) as u8,
        bit25: (n / 0x20 % 2) as u8,
        top6: (n / 0x40) as u8,
    }
}

fn branch_fields(row: Row, o: Operands) -> Fields
    requires { FitsFormat Format.Branch o }
    ensures { result ≡ fields_of Format.Branch row o }
{
    let n = bits(0x1000, o.imm);
    Fields {
        opcode: row.opcode,
        rd: (n / 0x800 % 2 + 2 * (n / 2 % 0x10)) as u8,
        funct3: row.funct3,
        rs1: o.rs1,
        rs2: o.rs2,
        bit25: (n / 0x20 % 2) as u8,
        top6: (n / 0x40 % 0x20 + 0x20 * (n / 0x1000)) as u8,
    }
}

fn store_fields(row: Row, o: Operands) -> Fields
    requires { FitsFormat Format.Store o }
    ensures { result ≡ fields_of Format.Store row o }
{
    let n = bits(0x800, o.imm);
    Fields {
        opcode: row.opcode,
        rd: (n % 0x20) as u8,
        funct3: row.funct3,
        rs1: o.rs1,
        rs2: o.rs2,
        bit25: (n / 0x20 % 2) as u8,
        top6: (n / 0x40) as u8,
    }
}

fn register_fields(row: Row, o: Operands) -> Fields
    ensures { result ≡ fields_of Format.Register row o }
{
    Fields {
        opcode: row.opcode,
        rd: o.rd,
        funct3: row.funct3,
        rs1: o.rs1,
        rs2: o.rs2,
        bit25: row.bit25,
        top6: row.top6,
    }
}

fn shift_fields(row: Row, o: Operands) -> Fields
    requires { FitsFormat Format.Shift o }
    ensures { result ≡ fields_of Format.Shift row o }
{
    let n = o.imm as u32;
    Fields {
        opcode: row.opcode,
        rd: o.rd,
        funct3: row.funct3,
        rs1: o.rs1,
        rs2: (n % 0x20) as u8,
        bit25: (n / 0x20) as u8,
        top6: row.top6,
    }
}

fn shift_word_fields(row: Row, o: Operands) -> Fields
    requires { FitsFormat Format.ShiftWord o }
    ensures { result ≡ fields_of Format.ShiftWord row o }
{
    Fields {
        opcode: row.opcode,
        rd: o.rd,
        funct3: row.funct3,
        rs1: o.rs1,
        rs2: o.imm as u8,
        bit25: row.bit25,
        top6: row.top6,
    }
}

// Returns the operands of an instruction of this format with these fields.
pub fn operands_from(format: Format, f: Fields) -> Operands
    requires { IsCut f }
    ensures { result ≡ operands_in format f }
{
    match format {
        Format::Upper => with_rd(f.rd, upper_immediate(f)),
        Format::Jump => with_rd(f.rd, jump_immediate(f)),
        Format::Immediate => with_rd_rs1(f.rd, f.rs1, signed(0x800, high_bits(f.rs2, f))),
        Format::Branch => with_sources(f.rs1, f.rs2, branch_immediate(f)),
        Format::Store => with_sources(f.rs1, f.rs2, signed(0x800, high_bits(f.rd, f))),
        Format::Register => with_registers(f.rd, f.rs1, f.rs2),
        Format::Shift => with_rd_rs1(f.rd, f.rs1, i32::from(f.rs2) + 0x20 * i32::from(f.bit25)),
        Format::ShiftWord => with_rd_rs1(f.rd, f.rs1, i32::from(f.rs2)),
        Format::System => with_none(),
    }
}

fn upper_immediate(f: Fields) -> i32
    requires { IsCut f }
    ensures { result ≡ (operands_in Format.Upper f).imm }
{
    i32::from(f.funct3)
        + 8 * i32::from(f.rs1)
        + 0x100 * i32::from(f.rs2)
        + 0x2000 * i32::from(f.bit25)
        + 0x4000 * i32::from(f.top6)
}

fn jump_immediate(f: Fields) -> i32
    requires { IsCut f }
    ensures { result ≡ (operands_in Format.Jump f).imm }
{
    let rs2 = u32::from(f.rs2);
    let top6 = u32::from(f.top6);
    let n = 2 * (rs2 / 2)
        + 0x20 * u32::from(f.bit25)
        + 0x40 * (top6 % 0x20)
        + 0x800 * (rs2 % 2)
        + 0x1000 * u32::from(f.funct3)
        + 0x8000 * u32::from(f.rs1)
        + 0x10_0000 * (top6 / 0x20);
    signed(0x10_0000, n)
}

fn branch_immediate(f: Fields) -> i32
    requires { IsCut f }
    ensures { result ≡ (operands_in Format.Branch f).imm }
{
    let rd = u32::from(f.rd);
    let top6 = u32::from(f.top6);
    let n = 2 * (rd / 2)
        + 0x20 * u32::from(f.bit25)
        + 0x40 * (top6 % 0x20)
        + 0x800 * (rd % 2)
        + 0x1000 * (top6 / 0x20);
    signed(0x1000, n)
}

// Returns the 12 bits of an immediate whose lowest five are given.
fn high_bits(low: u8, f: Fields) -> u32
    requires low { low < 32 }
    requires cut { IsCut f }
    ensures value { result ≡ low + 2 ^ 5 * f.bit25 + 2 ^ 6 * f.top6 }
    ensures fits { result < 2 ^ 12 }
{
    u32::from(low) + 0x20 * u32::from(f.bit25) + 0x40 * u32::from(f.top6)
}

// Returns whether the registers and the immediate are in the format's ranges.
pub fn operands_fit(format: Format, o: Operands) -> bool
    ensures { IsTrue result ↔ FitsFormat format o }
{
    match format {
        Format::Upper => o.rd < 32 && is_below(0x10_0000, o.imm),
        Format::Jump => o.rd < 32 && is_signed(0x10_0000, o.imm) && is_even(o.imm),
        Format::Immediate => o.rd < 32 && o.rs1 < 32 && is_signed(0x800, o.imm),
        Format::Branch => { o.rs1 < 32 && o.rs2 < 32 && is_signed(0x1000, o.imm) && is_even(o.imm) }
        Format::Store => o.rs1 < 32 && o.rs2 < 32 && is_signed(0x800, o.imm),
        Format::Register => o.rd < 32 && o.rs1 < 32 && o.rs2 < 32,
        Format::Shift => o.rd < 32 && o.rs1 < 32 && is_below(64, o.imm),
        Format::ShiftWord => o.rd < 32 && o.rs1 < 32 && is_below(32, o.imm),
        Format::System => true,
    }
}

fn is_below(limit: u32, value: i32) -> bool
    ensures { IsTrue result ↔ IsBelow limit value }
{
    value >= 0 && i64::from(value) < i64::from(limit)
}

fn is_signed(half: u32, value: i32) -> bool
    ensures { IsTrue result ↔ IsSigned half value }
{
    let half = i64::from(half);
    let value = i64::from(value);
    -half <= value && value < half
}

fn is_even(value: i32) -> bool
    ensures { IsTrue result ↔ IsEven value }
{
    value % 2 == 0
}
