//! What an instruction does with the value in a register, as far as a window looks at it.

ghost use Rattle.std.specs.Prelude.{◌≡◌};
ghost use Rattle.rv_inst.specs.Window.{is_load, is_store, is_branch, is_register_jump, is_ecall, is_number, compares, checks, is_source, begins, copies, may_use, passes, is_operand_register, has_window};
ghost use Rattle.point_list.specs.Walk.{uses};

use rv_inst::{Form, Group, Rv, group_of, kind_of, reads, writes};

/// Returns whether the instruction loads.
fn is_load(form: Form) -> bool
    ensures { result ≡ is_load form }
{
    matches!(group_of(kind_of(form)), Group::Loads)
}

/// Returns whether the instruction stores.
fn is_store(form: Form) -> bool
    ensures { result ≡ is_store form }
{
    matches!(group_of(kind_of(form)), Group::Stores)
}

/// Returns whether the instruction branches.
fn is_branch(form: Form) -> bool
    ensures { result ≡ is_branch form }
{
    matches!(group_of(kind_of(form)), Group::Branches)
}

/// Returns whether the instruction jumps to where a register points.
fn is_register_jump(form: Form) -> bool
    ensures { result ≡ is_register_jump form }
{
    matches!(group_of(kind_of(form)), Group::RegisterJumps)
}

/// Returns whether the instruction calls the environment.
fn is_ecall(form: Form) -> bool
    ensures { result ≡ is_ecall form }
{
    matches!(group_of(kind_of(form)), Group::Calls)
}

/// Returns whether the value is this number.
fn is_number(number: u8, value: i32) -> bool
    ensures { result ≡ is_number number value }
{
    value == i32::from(number)
}

/// Returns whether `reg` is compared with another register that isn't x0.
fn compares(reg: u8, a: u8, b: u8) -> bool
    ensures { result ≡ compares reg a b }
{
    a == reg && (0 < b && b != reg) || b == reg && (0 < a && a != reg)
}

/// Returns whether the instruction is a check of `reg`.
fn checks(reg: u8, form: Form) -> bool
    ensures { result ≡ checks reg form }
{
    match form {
        Form::BEQ(rs1, rs2, offset) => compares(reg, rs1, rs2) && !is_number(4, offset),
        Form::BNE(rs1, rs2, offset) => compares(reg, rs1, rs2) && !is_number(4, offset),
        _ => false,
    }
}

/// Returns whether what it writes comes from memory, from constants or from outside.
fn is_source(form: Form) -> bool
    ensures { result ≡ is_source form }
{
    match form {
        Form::LUI(..) => true,
        Form::JAL(..) => true,
        Form::ADDI(_, rs1, _) => rs1 == 0,
        Form::ECALL => true,
        _ => is_load(form),
    }
}

/// Returns whether the instruction brings a value into `reg`, or checks the one there.
pub fn begins(reg: u8, instruction: &Rv) -> bool
    ensures { result ≡ begins reg instruction.now }
{
    let form = instruction.form();
    is_source(form) && writes(instruction, reg) || checks(reg, form)
}

/// Returns whether the instruction copies `reg`.
fn copies(reg: u8, form: Form) -> bool
    ensures { result ≡ copies reg form }
{
    match form {
        Form::ADDI(_, rs1, imm) => rs1 == reg && is_number(0, imm),
        _ => false,
    }
}

/// Returns whether the instruction may use what `reg` holds, brought there by `first`.
fn may_use(reg: u8, first: Form, form: Form) -> bool
    ensures { result ≡ may_use reg first form }
{
    is_load(form)
        || is_store(form)
        || is_register_jump(form)
        || is_ecall(form)
        || is_branch(form) && !checks(reg, form)
        || copies(reg, form) && is_load(first)
}

/// Returns whether a word lets the value in `reg` pass, brought there by `first`.
pub fn passes(reg: u8, first: Form, instruction: Option<Rv>) -> bool
    ensures { result ≡ passes reg first instruction }
{
    match instruction {
        None => true,
        Some(rv) => {
            let form = rv.form();
            !writes(&rv, reg)
                && !is_register_jump(form)
                && (!reads(&rv, reg) || may_use(reg, first, form))
        }
    }
}

/// Returns whether `reg` holds operands between their check and their use.
fn is_operand_register(reg: u8) -> bool
    ensures { result ≡ is_operand_register reg }
{
    matches!(reg, 1 | 2 | 5 | 6 | 7 | 28 | 29 | 30 | 31)
}

/// Returns whether `reg` can have a window between these two instructions.
fn has_window(reg: u8, first: Form, last: Form) -> bool
    ensures { result ≡ has_window reg first last }
{
    is_operand_register(reg)
        || reg == 10 && (is_ecall(first) || is_ecall(last))
        || matches!(reg, 11 | 12 | 17) && is_ecall(last)
}

/// Returns whether a word uses the value in `reg`, brought there by `first`, so that it ends a window.
pub fn uses(reg: u8, first: Form, instruction: Option<Rv>) -> bool
    ensures { result ≡ uses reg first instruction }
{
    match instruction {
        None => false,
        Some(rv) => {
            let form = rv.form();
            reads(&rv, reg) && may_use(reg, first, form) && has_window(reg, first, form)
        }
    }
}
