// The table looked up by opcode, then by funct3 or funct7.

ghost use Rattle.std.specs.Prelude.{◌≡◌, [], ◌∷◌, Some};
ghost use Rattle.rv_inst.specs.Opcodes.{chosen, branches, loads, stores, left_shifts, right_shifts, immediates, plain, negated, multiplying, left_word_shifts, right_word_shifts, word_immediates, plain_words, negated_words, multiplying_words, by_bit25, system, kind_by_opcode};

use crate::table::{Fields, Kind};

// Returns the instruction of these fields, None where the table has none.
pub fn kind_of_fields(f: Fields) -> Option<Kind>
    ensures { result ≡ kind_by_opcode f }
{
    match f.opcode {
        0b0000011 => load(f.funct3),
        0b0010011 => immediate(f.funct3, f.top6),
        0b0010111 => Some(Kind::OpAuipc),
        0b0011011 => word_immediate(f.funct3, f.bit25, f.top6),
        0b0100011 => store(f.funct3),
        0b0110011 => registers(f),
        0b0110111 => Some(Kind::OpLui),
        0b0111011 => word_registers(f),
        0b1100011 => branch(f.funct3),
        0b1100111 => jump_to_register(f.funct3),
        0b1101111 => Some(Kind::OpJal),
        0b1110011 => system_call(f),
        _ => None,
    }
}

// Returns the load of a funct3.
fn load(funct3: u8) -> Option<Kind>
    ensures { result ≡ chosen funct3 loads }
{
    match funct3 {
        0 => Some(Kind::OpLb),
        1 => Some(Kind::OpLh),
        2 => Some(Kind::OpLw),
        3 => Some(Kind::OpLd),
        4 => Some(Kind::OpLbu),
        5 => Some(Kind::OpLhu),
        6 => Some(Kind::OpLwu),
        _ => None,
    }
}

// Returns the store of a funct3.
fn store(funct3: u8) -> Option<Kind>
    ensures { result ≡ chosen funct3 stores }
{
    match funct3 {
        0 => Some(Kind::OpSb),
        1 => Some(Kind::OpSh),
        2 => Some(Kind::OpSw),
        3 => Some(Kind::OpSd),
        _ => None,
    }
}

// Returns the conditional branch of a funct3.
fn branch(funct3: u8) -> Option<Kind>
    ensures { result ≡ chosen funct3 branches }
{
    match funct3 {
        0 => Some(Kind::OpBeq),
        1 => Some(Kind::OpBne),
        4 => Some(Kind::OpBlt),
        5 => Some(Kind::OpBge),
        6 => Some(Kind::OpBltu),
        7 => Some(Kind::OpBgeu),
        _ => None,
    }
}

// Returns the jump to a register.
fn jump_to_register(funct3: u8) -> Option<Kind>
    ensures { result ≡ chosen funct3 ((0, Some Kind.OpJalr) ∷ []) }
{
    match funct3 {
        0 => Some(Kind::OpJalr),
        _ => None,
    }
}

// Returns the operation with an immediate.
fn immediate(funct3: u8, top6: u8) -> Option<Kind>
    ensures { result ≡ chosen funct3 (immediates top6) }
{
    match funct3 {
        0 => Some(Kind::OpAddi),
        1 => left_shift(top6),
        2 => Some(Kind::OpSlti),
        3 => Some(Kind::OpSltiu),
        4 => Some(Kind::OpXori),
        5 => right_shift(top6),
        6 => Some(Kind::OpOri),
        7 => Some(Kind::OpAndi),
        _ => None,
    }
}

// Returns the left shift by a constant.
fn left_shift(top6: u8) -> Option<Kind>
    ensures { result ≡ chosen top6 left_shifts }
{
    match top6 {
        0 => Some(Kind::OpSlli),
        _ => None,
    }
}

// Returns the right shift by a constant.
fn right_shift(top6: u8) -> Option<Kind>
    ensures { result ≡ chosen top6 right_shifts }
{
    match top6 {
        0 => Some(Kind::OpSrli),
        16 => Some(Kind::OpSrai),
        _ => None,
    }
}

// Returns the operation on words with an immediate.
fn word_immediate(funct3: u8, bit25: u8, top6: u8) -> Option<Kind>
    ensures { result ≡ chosen funct3 (word_immediates bit25 top6) }
{
    match funct3 {
        0 => Some(Kind::OpAddiw),
        1 => left_word_shift(bit25, top6),
        5 => right_word_shift(bit25, top6),
        _ => None,
    }
}

// Returns the left shift of a word by a constant, whose amount has five bits.
fn left_word_shift(bit25: u8, top6: u8) -> Option<Kind>
    ensures { result ≡ chosen bit25 ((0, chosen top6 left_word_shifts) ∷ []) }
{
    match bit25 {
        0 => match top6 {
            0 => Some(Kind::OpSlliw),
            _ => None,
        },
        _ => None,
    }
}

// Returns the right shift of a word by a constant, whose amount has five bits.
fn right_word_shift(bit25: u8, top6: u8) -> Option<Kind>
    ensures { result ≡ chosen bit25 ((0, chosen top6 right_word_shifts) ∷ []) }
{
    match bit25 {
        0 => match top6 {
            0 => Some(Kind::OpSrliw),
            16 => Some(Kind::OpSraiw),
            _ => None,
        },
        _ => None,
    }
}

// Returns the operation of two registers.
fn registers(f: Fields) -> Option<Kind>
    ensures { result ≡ chosen f.bit25 (by_bit25 plain negated multiplying f) }
{
    match f.bit25 {
        0 => match f.top6 {
            0 => plain_operation(f.funct3),
            16 => negated_operation(f.funct3),
            _ => None,
        },
        1 => match f.top6 {
            0 => multiplying_operation(f.funct3),
            _ => None,
        },
        _ => None,
    }
}

// Returns the operation of two registers on words.
fn word_registers(f: Fields) -> Option<Kind>
    ensures { result ≡ chosen f.bit25 (by_bit25 plain_words negated_words multiplying_words f) }
{
    match f.bit25 {
        0 => match f.top6 {
            0 => plain_word_operation(f.funct3),
            16 => negated_word_operation(f.funct3),
            _ => None,
        },
        1 => match f.top6 {
            0 => multiplying_word_operation(f.funct3),
            _ => None,
        },
        _ => None,
    }
}

// Returns the one with funct7 0.
fn plain_operation(funct3: u8) -> Option<Kind>
    ensures { result ≡ chosen funct3 plain }
{
    match funct3 {
        0 => Some(Kind::OpAdd),
        1 => Some(Kind::OpSll),
        2 => Some(Kind::OpSlt),
        3 => Some(Kind::OpSltu),
        4 => Some(Kind::OpXor),
        5 => Some(Kind::OpSrl),
        6 => Some(Kind::OpOr),
        7 => Some(Kind::OpAnd),
        _ => None,
    }
}

// Returns the one with funct7 0100000.
fn negated_operation(funct3: u8) -> Option<Kind>
    ensures { result ≡ chosen funct3 negated }
{
    match funct3 {
        0 => Some(Kind::OpSub),
        5 => Some(Kind::OpSra),
        _ => None,
    }
}

// Returns the one of the M extension.
fn multiplying_operation(funct3: u8) -> Option<Kind>
    ensures { result ≡ chosen funct3 multiplying }
{
    match funct3 {
        0 => Some(Kind::OpMul),
        1 => Some(Kind::OpMulh),
        2 => Some(Kind::OpMulhsu),
        3 => Some(Kind::OpMulhu),
        4 => Some(Kind::OpDiv),
        5 => Some(Kind::OpDivu),
        6 => Some(Kind::OpRem),
        7 => Some(Kind::OpRemu),
        _ => None,
    }
}

// Returns the one on words with funct7 0.
fn plain_word_operation(funct3: u8) -> Option<Kind>
    ensures { result ≡ chosen funct3 plain_words }
{
    match funct3 {
        0 => Some(Kind::OpAddw),
        1 => Some(Kind::OpSllw),
        5 => Some(Kind::OpSrlw),
        _ => None,
    }
}

// Returns the one on words with funct7 0100000.
fn negated_word_operation(funct3: u8) -> Option<Kind>
    ensures { result ≡ chosen funct3 negated_words }
{
    match funct3 {
        0 => Some(Kind::OpSubw),
        5 => Some(Kind::OpSraw),
        _ => None,
    }
}

// Returns the one on words of the M extension.
fn multiplying_word_operation(funct3: u8) -> Option<Kind>
    ensures { result ≡ chosen funct3 multiplying_words }
{
    match funct3 {
        0 => Some(Kind::OpMulw),
        4 => Some(Kind::OpDivw),
        5 => Some(Kind::OpDivuw),
        6 => Some(Kind::OpRemw),
        7 => Some(Kind::OpRemuw),
        _ => None,
    }
}

// Returns the one system instruction: every field but the opcode is 0.
fn system_call(f: Fields) -> Option<Kind>
    ensures { result ≡ system f }
{
    if f.funct3 == 0 && f.rd == 0 && f.rs1 == 0 && f.rs2 == 0 && f.bit25 == 0 && f.top6 == 0 {
        Some(Kind::OpEcall)
    } else {
        None
    }
}
