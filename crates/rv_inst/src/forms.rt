// An instruction as its kind and its operands, and back.

ghost use Rattle.std.specs.Prelude.{◌≡◌};
ghost use Rattle.rv_inst.specs.Forms.{kind_of, operands_of, form_of, of_rd, of_rd_rs1, of_sources, of_registers, of_none};

use crate::instruction::Form;
use crate::table::{Kind, Operands};

/// Returns the instruction of a form, without its operands.
pub fn kind_of(form: Form) -> Kind
    ensures { result ≡ kind_of form }
{
    match form {
        Form::LUI(..) => Kind::OpLui,
        Form::AUIPC(..) => Kind::OpAuipc,
        Form::JAL(..) => Kind::OpJal,
        Form::JALR(..) => Kind::OpJalr,
        Form::BEQ(..) => Kind::OpBeq,
        Form::BNE(..) => Kind::OpBne,
        Form::BLT(..) => Kind::OpBlt,
        Form::BGE(..) => Kind::OpBge,
        Form::BLTU(..) => Kind::OpBltu,
        Form::BGEU(..) => Kind::OpBgeu,
        Form::LB(..) => Kind::OpLb,
        Form::LH(..) => Kind::OpLh,
        Form::LW(..) => Kind::OpLw,
        Form::LD(..) => Kind::OpLd,
        Form::LBU(..) => Kind::OpLbu,
        Form::LHU(..) => Kind::OpLhu,
        Form::LWU(..) => Kind::OpLwu,
        Form::SB(..) => Kind::OpSb,
        Form::SH(..) => Kind::OpSh,
        Form::SW(..) => Kind::OpSw,
        Form::SD(..) => Kind::OpSd,
        Form::ADDI(..) => Kind::OpAddi,
        Form::SLTI(..) => Kind::OpSlti,
        Form::SLTIU(..) => Kind::OpSltiu,
        Form::XORI(..) => Kind::OpXori,
        Form::ORI(..) => Kind::OpOri,
        Form::ANDI(..) => Kind::OpAndi,
        Form::SLLI(..) => Kind::OpSlli,
        Form::SRLI(..) => Kind::OpSrli,
        Form::SRAI(..) => Kind::OpSrai,
        Form::ADD(..) => Kind::OpAdd,
        Form::SLL(..) => Kind::OpSll,
        Form::SLT(..) => Kind::OpSlt,
        Form::SLTU(..) => Kind::OpSltu,
        Form::XOR(..) => Kind::OpXor,
        Form::SRL(..) => Kind::OpSrl,
        Form::OR(..) => Kind::OpOr,
        Form::AND(..) => Kind::OpAnd,
        Form::SUB(..) => Kind::OpSub,
        Form::SRA(..) => Kind::OpSra,
        Form::MUL(..) => Kind::OpMul,
        Form::MULH(..) => Kind::OpMulh,
        Form::MULHSU(..) => Kind::OpMulhsu,
        Form::MULHU(..) => Kind::OpMulhu,
        Form::DIV(..) => Kind::OpDiv,
        Form::DIVU(..) => Kind::OpDivu,
        Form::REM(..) => Kind::OpRem,
        Form::REMU(..) => Kind::OpRemu,
        Form::ADDIW(..) => Kind::OpAddiw,
        Form::SLLIW(..) => Kind::OpSlliw,
        Form::SRLIW(..) => Kind::OpSrliw,
        Form::SRAIW(..) => Kind::OpSraiw,
        Form::ADDW(..) => Kind::OpAddw,
        Form::SLLW(..) => Kind::OpSllw,
        Form::SRLW(..) => Kind::OpSrlw,
        Form::SUBW(..) => Kind::OpSubw,
        Form::SRAW(..) => Kind::OpSraw,
        Form::MULW(..) => Kind::OpMulw,
        Form::DIVW(..) => Kind::OpDivw,
        Form::DIVUW(..) => Kind::OpDivuw,
        Form::REMW(..) => Kind::OpRemw,
        Form::REMUW(..) => Kind::OpRemuw,
        Form::ECALL => Kind::OpEcall,
    }
}

/// Returns the operands of a form, 0 where it has none.
pub fn operands_of(form: Form) -> Operands
    ensures { result ≡ operands_of form }
{
    match form {
        Form::LUI(rd, imm) => with_rd(rd, imm),
        Form::AUIPC(rd, imm) => with_rd(rd, imm),
        Form::JAL(rd, imm) => with_rd(rd, imm),
        Form::JALR(rd, rs1, imm) => with_rd_rs1(rd, rs1, imm),
        Form::BEQ(rs1, rs2, imm) => with_sources(rs1, rs2, imm),
        Form::BNE(rs1, rs2, imm) => with_sources(rs1, rs2, imm),
        Form::BLT(rs1, rs2, imm) => with_sources(rs1, rs2, imm),
        Form::BGE(rs1, rs2, imm) => with_sources(rs1, rs2, imm),
        Form::BLTU(rs1, rs2, imm) => with_sources(rs1, rs2, imm),
        Form::BGEU(rs1, rs2, imm) => with_sources(rs1, rs2, imm),
        Form::LB(rd, rs1, imm) => with_rd_rs1(rd, rs1, imm),
        Form::LH(rd, rs1, imm) => with_rd_rs1(rd, rs1, imm),
        Form::LW(rd, rs1, imm) => with_rd_rs1(rd, rs1, imm),
        Form::LD(rd, rs1, imm) => with_rd_rs1(rd, rs1, imm),
        Form::LBU(rd, rs1, imm) => with_rd_rs1(rd, rs1, imm),
        Form::LHU(rd, rs1, imm) => with_rd_rs1(rd, rs1, imm),
        Form::LWU(rd, rs1, imm) => with_rd_rs1(rd, rs1, imm),
        Form::SB(rs1, rs2, imm) => with_sources(rs1, rs2, imm),
        Form::SH(rs1, rs2, imm) => with_sources(rs1, rs2, imm),
        Form::SW(rs1, rs2, imm) => with_sources(rs1, rs2, imm),
        Form::SD(rs1, rs2, imm) => with_sources(rs1, rs2, imm),
        Form::ADDI(rd, rs1, imm) => with_rd_rs1(rd, rs1, imm),
        Form::SLTI(rd, rs1, imm) => with_rd_rs1(rd, rs1, imm),
        Form::SLTIU(rd, rs1, imm) => with_rd_rs1(rd, rs1, imm),
        Form::XORI(rd, rs1, imm) => with_rd_rs1(rd, rs1, imm),
        Form::ORI(rd, rs1, imm) => with_rd_rs1(rd, rs1, imm),
        Form::ANDI(rd, rs1, imm) => with_rd_rs1(rd, rs1, imm),
        Form::SLLI(rd, rs1, imm) => with_rd_rs1(rd, rs1, imm),
        Form::SRLI(rd, rs1, imm) => with_rd_rs1(rd, rs1, imm),
        Form::SRAI(rd, rs1, imm) => with_rd_rs1(rd, rs1, imm),
        Form::ADD(rd, rs1, rs2) => with_registers(rd, rs1, rs2),
        Form::SLL(rd, rs1, rs2) => with_registers(rd, rs1, rs2),
        Form::SLT(rd, rs1, rs2) => with_registers(rd, rs1, rs2),
        Form::SLTU(rd, rs1, rs2) => with_registers(rd, rs1, rs2),
        Form::XOR(rd, rs1, rs2) => with_registers(rd, rs1, rs2),
        Form::SRL(rd, rs1, rs2) => with_registers(rd, rs1, rs2),
        Form::OR(rd, rs1, rs2) => with_registers(rd, rs1, rs2),
        Form::AND(rd, rs1, rs2) => with_registers(rd, rs1, rs2),
        Form::SUB(rd, rs1, rs2) => with_registers(rd, rs1, rs2),
        Form::SRA(rd, rs1, rs2) => with_registers(rd, rs1, rs2),
        Form::MUL(rd, rs1, rs2) => with_registers(rd, rs1, rs2),
        Form::MULH(rd, rs1, rs2) => with_registers(rd, rs1, rs2),
        Form::MULHSU(rd, rs1, rs2) => with_registers(rd, rs1, rs2),
        Form::MULHU(rd, rs1, rs2) => with_registers(rd, rs1, rs2),
        Form::DIV(rd, rs1, rs2) => with_registers(rd, rs1, rs2),
        Form::DIVU(rd, rs1, rs2) => with_registers(rd, rs1, rs2),
        Form::REM(rd, rs1, rs2) => with_registers(rd, rs1, rs2),
        Form::REMU(rd, rs1, rs2) => with_registers(rd, rs1, rs2),
        Form::ADDIW(rd, rs1, imm) => with_rd_rs1(rd, rs1, imm),
        Form::SLLIW(rd, rs1, imm) => with_rd_rs1(rd, rs1, imm),
        Form::SRLIW(rd, rs1, imm) => with_rd_rs1(rd, rs1, imm),
        Form::SRAIW(rd, rs1, imm) => with_rd_rs1(rd, rs1, imm),
        Form::ADDW(rd, rs1, rs2) => with_registers(rd, rs1, rs2),
        Form::SLLW(rd, rs1, rs2) => with_registers(rd, rs1, rs2),
        Form::SRLW(rd, rs1, rs2) => with_registers(rd, rs1, rs2),
        Form::SUBW(rd, rs1, rs2) => with_registers(rd, rs1, rs2),
        Form::SRAW(rd, rs1, rs2) => with_registers(rd, rs1, rs2),
        Form::MULW(rd, rs1, rs2) => with_registers(rd, rs1, rs2),
        Form::DIVW(rd, rs1, rs2) => with_registers(rd, rs1, rs2),
        Form::DIVUW(rd, rs1, rs2) => with_registers(rd, rs1, rs2),
        Form::REMW(rd, rs1, rs2) => with_registers(rd, rs1, rs2),
        Form::REMUW(rd, rs1, rs2) => with_registers(rd, rs1, rs2),
        Form::ECALL => with_none(),
    }
}

// Returns the form of an instruction with these operands.
pub fn form_of(kind: Kind, operands: Operands) -> Form
    ensures { result ≡ form_of kind operands }
{
    let Operands { rd, rs1, rs2, imm } = operands;
    match kind {
        Kind::OpLui => Form::LUI(rd, imm),
        Kind::OpAuipc => Form::AUIPC(rd, imm),
        Kind::OpJal => Form::JAL(rd, imm),
        Kind::OpJalr => Form::JALR(rd, rs1, imm),
        Kind::OpBeq => Form::BEQ(rs1, rs2, imm),
        Kind::OpBne => Form::BNE(rs1, rs2, imm),
        Kind::OpBlt => Form::BLT(rs1, rs2, imm),
        Kind::OpBge => Form::BGE(rs1, rs2, imm),
        Kind::OpBltu => Form::BLTU(rs1, rs2, imm),
        Kind::OpBgeu => Form::BGEU(rs1, rs2, imm),
        Kind::OpLb => Form::LB(rd, rs1, imm),
        Kind::OpLh => Form::LH(rd, rs1, imm),
        Kind::OpLw => Form::LW(rd, rs1, imm),
        Kind::OpLd => Form::LD(rd, rs1, imm),
        Kind::OpLbu => Form::LBU(rd, rs1, imm),
        Kind::OpLhu => Form::LHU(rd, rs1, imm),
        Kind::OpLwu => Form::LWU(rd, rs1, imm),
        Kind::OpSb => Form::SB(rs1, rs2, imm),
        Kind::OpSh => Form::SH(rs1, rs2, imm),
        Kind::OpSw => Form::SW(rs1, rs2, imm),
        Kind::OpSd => Form::SD(rs1, rs2, imm),
        Kind::OpAddi => Form::ADDI(rd, rs1, imm),
        Kind::OpSlti => Form::SLTI(rd, rs1, imm),
        Kind::OpSltiu => Form::SLTIU(rd, rs1, imm),
        Kind::OpXori => Form::XORI(rd, rs1, imm),
        Kind::OpOri => Form::ORI(rd, rs1, imm),
        Kind::OpAndi => Form::ANDI(rd, rs1, imm),
        Kind::OpSlli => Form::SLLI(rd, rs1, imm),
        Kind::OpSrli => Form::SRLI(rd, rs1, imm),
        Kind::OpSrai => Form::SRAI(rd, rs1, imm),
        Kind::OpAdd => Form::ADD(rd, rs1, rs2),
        Kind::OpSll => Form::SLL(rd, rs1, rs2),
        Kind::OpSlt => Form::SLT(rd, rs1, rs2),
        Kind::OpSltu => Form::SLTU(rd, rs1, rs2),
        Kind::OpXor => Form::XOR(rd, rs1, rs2),
        Kind::OpSrl => Form::SRL(rd, rs1, rs2),
        Kind::OpOr => Form::OR(rd, rs1, rs2),
        Kind::OpAnd => Form::AND(rd, rs1, rs2),
        Kind::OpSub => Form::SUB(rd, rs1, rs2),
        Kind::OpSra => Form::SRA(rd, rs1, rs2),
        Kind::OpMul => Form::MUL(rd, rs1, rs2),
        Kind::OpMulh => Form::MULH(rd, rs1, rs2),
        Kind::OpMulhsu => Form::MULHSU(rd, rs1, rs2),
        Kind::OpMulhu => Form::MULHU(rd, rs1, rs2),
        Kind::OpDiv => Form::DIV(rd, rs1, rs2),
        Kind::OpDivu => Form::DIVU(rd, rs1, rs2),
        Kind::OpRem => Form::REM(rd, rs1, rs2),
        Kind::OpRemu => Form::REMU(rd, rs1, rs2),
        Kind::OpAddiw => Form::ADDIW(rd, rs1, imm),
        Kind::OpSlliw => Form::SLLIW(rd, rs1, imm),
        Kind::OpSrliw => Form::SRLIW(rd, rs1, imm),
        Kind::OpSraiw => Form::SRAIW(rd, rs1, imm),
        Kind::OpAddw => Form::ADDW(rd, rs1, rs2),
        Kind::OpSllw => Form::SLLW(rd, rs1, rs2),
        Kind::OpSrlw => Form::SRLW(rd, rs1, rs2),
        Kind::OpSubw => Form::SUBW(rd, rs1, rs2),
        Kind::OpSraw => Form::SRAW(rd, rs1, rs2),
        Kind::OpMulw => Form::MULW(rd, rs1, rs2),
        Kind::OpDivw => Form::DIVW(rd, rs1, rs2),
        Kind::OpDivuw => Form::DIVUW(rd, rs1, rs2),
        Kind::OpRemw => Form::REMW(rd, rs1, rs2),
        Kind::OpRemuw => Form::REMUW(rd, rs1, rs2),
        Kind::OpEcall => Form::ECALL,
    }
}

pub fn with_rd(rd: u8, imm: i32) -> Operands
    ensures { result ≡ of_rd rd imm }
{
    Operands {
        rd,
        rs1: 0,
        rs2: 0,
        imm,
    }
}

pub fn with_rd_rs1(rd: u8, rs1: u8, imm: i32) -> Operands
    ensures { result ≡ of_rd_rs1 rd rs1 imm }
{
    Operands {
        rd,
        rs1,
        rs2: 0,
        imm,
    }
}

pub fn with_sources(rs1: u8, rs2: u8, imm: i32) -> Operands
    ensures { result ≡ of_sources rs1 rs2 imm }
{
    Operands {
        rd: 0,
        rs1,
        rs2,
        imm,
    }
}

pub fn with_registers(rd: u8, rs1: u8, rs2: u8) -> Operands
    ensures { result ≡ of_registers rd rs1 rs2 }
{
    Operands {
        rd,
        rs1,
        rs2,
        imm: 0,
    }
}

pub fn with_none() -> Operands
    ensures { result ≡ of_none }
{
    Operands {
        rd: 0,
        rs1: 0,
        rs2: 0,
        imm: 0,
    }
}
