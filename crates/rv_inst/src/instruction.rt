// An instruction of RV64I or the M extension, in its parts.

ghost use Rattle.std.specs.Prelude.{◌≡◌, ◌↔◌, ◌^◌, IsSome, IfSome};
ghost use Rattle.rv_inst.specs.declared.table.Group.TheVariants.{Addresses, Constants};
ghost use Rattle.rv_inst.specs.Forms.{kind_of, operands_of};
ghost use Rattle.rv_inst.specs.Groups.{HasRegisters, group_of};
ghost use Rattle.rv_inst.specs.Word.{Fits, IsBelow};

use crate::fields::operands_fit;
use crate::forms::{kind_of, operands_of};
use crate::table::{Operands, row_of};
use std::marker::Model;

/// An instruction of RV64I or the M extension (RISC-V Unprivileged ISA), by its name there. Its fields
/// are, as far as it has them and in this order, the registers rd, rs1 and rs2, each 0 to 31, and the
/// immediate: for `LUI` and `AUIPC` the field of 20 bits, unsigned; for a branch and `JAL` the offset
/// in bytes, even; for a shift the amount. So `SD(2, 3, 8)` is `sd x3,8(x2)`.
#[derive(Clone, Copy, PartialEq, Eq, Debug)]
pub enum Form {
    LUI(u8, i32),
    AUIPC(u8, i32),
    JAL(u8, i32),
    JALR(u8, u8, i32),
    BEQ(u8, u8, i32),
    BNE(u8, u8, i32),
    BLT(u8, u8, i32),
    BGE(u8, u8, i32),
    BLTU(u8, u8, i32),
    BGEU(u8, u8, i32),
    LB(u8, u8, i32),
    LH(u8, u8, i32),
    LW(u8, u8, i32),
    LD(u8, u8, i32),
    LBU(u8, u8, i32),
    LHU(u8, u8, i32),
    LWU(u8, u8, i32),
    SB(u8, u8, i32),
    SH(u8, u8, i32),
    SW(u8, u8, i32),
    SD(u8, u8, i32),
    ADDI(u8, u8, i32),
    SLTI(u8, u8, i32),
    SLTIU(u8, u8, i32),
    XORI(u8, u8, i32),
    ORI(u8, u8, i32),
    ANDI(u8, u8, i32),
    SLLI(u8, u8, i32),
    SRLI(u8, u8, i32),
    SRAI(u8, u8, i32),
    ADD(u8, u8, u8),
    SLL(u8, u8, u8),
    SLT(u8, u8, u8),
    SLTU(u8, u8, u8),
    XOR(u8, u8, u8),
    SRL(u8, u8, u8),
    OR(u8, u8, u8),
    AND(u8, u8, u8),
    SUB(u8, u8, u8),
    SRA(u8, u8, u8),
    MUL(u8, u8, u8),
    MULH(u8, u8, u8),
    MULHSU(u8, u8, u8),
    MULHU(u8, u8, u8),
    DIV(u8, u8, u8),
    DIVU(u8, u8, u8),
    REM(u8, u8, u8),
    REMU(u8, u8, u8),
    ADDIW(u8, u8, i32),
    SLLIW(u8, u8, i32),
    SRLIW(u8, u8, i32),
    SRAIW(u8, u8, i32),
    ADDW(u8, u8, u8),
    SLLW(u8, u8, u8),
    SRLW(u8, u8, u8),
    SUBW(u8, u8, u8),
    SRAW(u8, u8, u8),
    MULW(u8, u8, u8),
    DIVW(u8, u8, u8),
    DIVUW(u8, u8, u8),
    REMW(u8, u8, u8),
    REMUW(u8, u8, u8),
    ECALL,
}

/// An instruction whose registers and immediate are in their ranges, so that it has a word. A contract
/// sees its form.
#[derive(Clone, Copy, Debug)]
pub struct Rv {
    form: Form,
}

impl Model for Rv {
    ghost use Rattle.rv_inst.specs.declared.instruction.Form.{Form};
    ghost use Rattle.rv_inst.specs.Word.{Fits};

    ghost Value = { Form };

    ghost view = { λ a. a.form };

    ghost invariant = { λ a. Fits a.form };

    ghost inverse = { λ form. record { form = form } };
}

impl Rv {
    /// Returns the instruction of this form, where its registers and its immediate are in their ranges.
    pub fn new(form: Form) -> Option<Rv>
        ensures fits { IsSome result ↔ Fits form }
        ensures same { IfSome result (λ i. i ≡ form) }
    {
        if operands_fit(row_of(kind_of(form)).format, operands_of(form)) {
            Some(Rv { form })
        } else {
            None
        }
    }

    /// Returns the instruction of a form that is in its ranges.
    pub fn from_form(form: Form) -> Rv
        requires { Fits form }
        ensures { result ≡ form }
    {
        Rv { form }
    }

    /// Returns the form of this instruction.
    pub fn form(&self) -> Form
        ensures same { result ≡ self.now }
        ensures fits { Fits result }
    {
        self.form
    }

    /// Returns the operands of this instruction, 0 where it has none.
    #[tactic(auto, using(crate::proofs::GroupLemmas::registers_fit, crate::proofs::GroupLemmas::constant_fits, crate::proofs::GroupLemmas::address_fits))]
    pub fn operands(&self) -> Operands
        ensures same { result ≡ operands_of self.now }
        ensures registers { HasRegisters result }
        ensures constant { group_of (kind_of self.now) ≡ Constants → IsBelow (2 ^ 20) result.imm }
        ensures address { group_of (kind_of self.now) ≡ Addresses → IsBelow (2 ^ 20) result.imm }
    {
        operands_of(self.form)
    }
}
