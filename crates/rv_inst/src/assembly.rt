// The assembly text of instructions.

ghost use Rattle.std.specs.Prelude.{◌≡◌, IfOk, string_bytes};
ghost use Rattle.rv_inst.specs.Assembly.{name_of, is_addressed, immediate_by, text_by, text_of};

use crate::forms::{kind_of, operands_of};
use crate::instruction::Rv;
use crate::table::{Format, Group, Kind, Operands, group_of, row_of};
use std::alloc::{AllocError, Global};

/// Returns the name of an instruction, in lower case.
fn name_of(kind: Kind) -> &'static str
    ensures { result.now ≡ name_of kind }
{
    match kind {
        Kind::OpLui => "lui",
        Kind::OpAuipc => "auipc",
        Kind::OpJal => "jal",
        Kind::OpJalr => "jalr",
        Kind::OpBeq => "beq",
        Kind::OpBne => "bne",
        Kind::OpBlt => "blt",
        Kind::OpBge => "bge",
        Kind::OpBltu => "bltu",
        Kind::OpBgeu => "bgeu",
        Kind::OpLb => "lb",
        Kind::OpLh => "lh",
        Kind::OpLw => "lw",
        Kind::OpLd => "ld",
        Kind::OpLbu => "lbu",
        Kind::OpLhu => "lhu",
        Kind::OpLwu => "lwu",
        Kind::OpSb => "sb",
        Kind::OpSh => "sh",
        Kind::OpSw => "sw",
        Kind::OpSd => "sd",
        Kind::OpAddi => "addi",
        Kind::OpSlti => "slti",
        Kind::OpSltiu => "sltiu",
        Kind::OpXori => "xori",
        Kind::OpOri => "ori",
        Kind::OpAndi => "andi",
        Kind::OpSlli => "slli",
        Kind::OpSrli => "srli",
        Kind::OpSrai => "srai",
        Kind::OpAdd => "add",
        Kind::OpSll => "sll",
        Kind::OpSlt => "slt",
        Kind::OpSltu => "sltu",
        Kind::OpXor => "xor",
        Kind::OpSrl => "srl",
        Kind::OpOr => "or",
        Kind::OpAnd => "and",
        Kind::OpSub => "sub",
        Kind::OpSra => "sra",
        Kind::OpMul => "mul",
        Kind::OpMulh => "mulh",
        Kind::OpMulhsu => "mulhsu",
        Kind::OpMulhu => "mulhu",
        Kind::OpDiv => "div",
        Kind::OpDivu => "divu",
        Kind::OpRem => "rem",
        Kind::OpRemu => "remu",
        Kind::OpAddiw => "addiw",
        Kind::OpSlliw => "slliw",
        Kind::OpSrliw => "srliw",
        Kind::OpSraiw => "sraiw",
        Kind::OpAddw => "addw",
        Kind::OpSllw => "sllw",
        Kind::OpSrlw => "srlw",
        Kind::OpSubw => "subw",
        Kind::OpSraw => "sraw",
        Kind::OpMulw => "mulw",
        Kind::OpDivw => "divw",
        Kind::OpDivuw => "divuw",
        Kind::OpRemw => "remw",
        Kind::OpRemuw => "remuw",
        Kind::OpEcall => "ecall",
    }
}

/// Returns whether an instruction with an immediate writes it as an address: loads and `JALR` do.
fn is_addressed(group: Group) -> bool
    ensures { result ≡ is_addressed group }
{
    matches!(group, Group::Loads | Group::RegisterJumps)
}

/// Returns the text of an instruction with an immediate.
fn immediate_text(
    alloc: Global,
    addressed: bool,
    name: &str,
    operands: Operands,
) -> Result<String, AllocError>
    ensures { IfOk result (λ text. string_bytes text ≡ immediate_by addressed name.now operands) }
{
    let Operands { rd, rs1, imm, .. } = operands;
    if addressed {
        format!(in alloc; "{name} x{rd},{imm}(x{rs1})")
    } else {
        format!(in alloc; "{name} x{rd},x{rs1},{imm}")
    }
}

/// Returns the text of a name and its operands, by their format.
fn text_by(
    alloc: Global,
    format: Format,
    group: Group,
    name: &str,
    operands: Operands,
) -> Result<String, AllocError>
    ensures { IfOk result (λ text. string_bytes text ≡ text_by format group name.now operands) }
{
    let Operands { rd, rs1, rs2, imm } = operands;
    match format {
        Format::Upper => format!(in alloc; "{name} x{rd},{imm}"),
        Format::Jump => format!(in alloc; "{name} x{rd},{imm}"),
        Format::Immediate => immediate_text(alloc, is_addressed(group), name, operands),
        Format::Branch => format!(in alloc; "{name} x{rs1},x{rs2},{imm}"),
        Format::Store => format!(in alloc; "{name} x{rs2},{imm}(x{rs1})"),
        Format::Register => format!(in alloc; "{name} x{rd},x{rs1},x{rs2}"),
        Format::Shift => format!(in alloc; "{name} x{rd},x{rs1},{imm}"),
        Format::ShiftWord => format!(in alloc; "{name} x{rd},x{rs1},{imm}"),
        Format::System => String::from_str(alloc, name),
    }
}

/// Returns the assembly text of an instruction, as `addi x1,x2,-5`, `ld x1,8(x2)` or `beq x1,x2,8`: registers by
/// their numbers, offsets in bytes, and the 20-bit field of `lui` and `auipc` unsigned.
///
/// # Errors
///
/// Only where memory runs out.
pub fn text(alloc: Global, i: &Rv) -> Result<Vec<u8>, AllocError>
    ensures { IfOk result (λ text. text.items ≡ text_of i.now) }
{
    let form = i.form();
    let kind = kind_of(form);
    let text = text_by(
        alloc,
        row_of(kind).format,
        group_of(kind),
        name_of(kind),
        operands_of(form),
    )?;
    Ok(text.into_bytes())
}
