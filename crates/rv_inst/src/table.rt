// The table of RV64I and the M extension: what is fixed in each instruction's word.

ghost use Rattle.std.specs.Prelude.{◌≡◌};
ghost use Rattle.rv_inst.specs.Table.{row};
ghost use Rattle.rv_inst.specs.Format.{IsRow};
ghost use Rattle.rv_inst.specs.Groups.{group_at, group_of};

/// An instruction of the table, without its operands.
#[derive(Clone, Copy, Debug)]
pub enum Kind {
    OpLui,
    OpAuipc,
    OpJal,
    OpJalr,
    OpBeq,
    OpBne,
    OpBlt,
    OpBge,
    OpBltu,
    OpBgeu,
    OpLb,
    OpLh,
    OpLw,
    OpLd,
    OpLbu,
    OpLhu,
    OpLwu,
    OpSb,
    OpSh,
    OpSw,
    OpSd,
    OpAddi,
    OpSlti,
    OpSltiu,
    OpXori,
    OpOri,
    OpAndi,
    OpSlli,
    OpSrli,
    OpSrai,
    OpAdd,
    OpSll,
    OpSlt,
    OpSltu,
    OpXor,
    OpSrl,
    OpOr,
    OpAnd,
    OpSub,
    OpSra,
    OpMul,
    OpMulh,
    OpMulhsu,
    OpMulhu,
    OpDiv,
    OpDivu,
    OpRem,
    OpRemu,
    OpAddiw,
    OpSlliw,
    OpSrliw,
    OpSraiw,
    OpAddw,
    OpSllw,
    OpSrlw,
    OpSubw,
    OpSraw,
    OpMulw,
    OpDivw,
    OpDivuw,
    OpRemw,
    OpRemuw,
    OpEcall,
}

/// A format of the manual: which operands an instruction has, and where its word keeps them.
#[derive(Clone, Copy, Debug)]
pub enum Format {
    /// U: rd and the upper 20 bits.
    Upper,
    /// J: rd and an even offset of 21 bits.
    Jump,
    /// I: rd, rs1 and 12 bits.
    Immediate,
    /// B: rs1, rs2 and an even offset of 13 bits.
    Branch,
    /// S: rs1, rs2 and 12 bits.
    Store,
    /// R: rd, rs1 and rs2.
    Register,
    /// I with a shift amount of six bits.
    Shift,
    /// I with a shift amount of five bits.
    ShiftWord,
    /// A word without operands.
    System,
}

/// A group of instructions that act alike.
#[derive(Clone, Copy, Debug)]
pub enum Group {
    /// `LUI`, which makes a constant.
    Constants,
    /// `AUIPC`, which makes an address from the pc.
    Addresses,
    /// `JAL`, which jumps to an offset.
    Jumps,
    /// `JALR`, which jumps to where a register points.
    RegisterJumps,
    /// A branch on a test of two registers.
    Branches,
    /// A load.
    Loads,
    /// A store.
    Stores,
    /// An operation on a register and an immediate.
    Immediates,
    /// An operation on two registers.
    Registers,
    /// `ECALL`, which calls the environment.
    Calls,
}

/// What is fixed in an instruction's word. The seven bits of funct7 are kept as the lowest (bit 25 of
/// the word) and the six above, since a shift by six bits fixes the six alone.
#[derive(Clone, Copy, Debug)]
pub struct Row {
    pub format: Format,
    pub opcode: u8,
    pub funct3: u8,
    pub bit25: u8,
    pub top6: u8,
}

/// The operands of an instruction, 0 where it has none.
#[derive(Clone, Copy, Debug)]
pub struct Operands {
    pub rd: u8,
    pub rs1: u8,
    pub rs2: u8,
    pub imm: i32,
}

/// A word cut at the places where the register format has its fields.
#[derive(Clone, Copy, Debug)]
pub struct Fields {
    pub opcode: u8,
    pub rd: u8,
    pub funct3: u8,
    pub rs1: u8,
    pub rs2: u8,
    pub bit25: u8,
    pub top6: u8,
}

/// Returns the group of an instruction.
pub fn group_of(kind: Kind) -> Group
    ensures { result ≡ group_of kind }
{
    group_at(row_of(kind).opcode)
}

// Returns the group of a major opcode.
fn group_at(opcode: u8) -> Group
    ensures { result ≡ group_at opcode }
{
    match opcode {
        0b0110111 => Group::Constants,
        0b0010111 => Group::Addresses,
        0b1101111 => Group::Jumps,
        0b1100111 => Group::RegisterJumps,
        0b1100011 => Group::Branches,
        0b0000011 => Group::Loads,
        0b0100011 => Group::Stores,
        0b0010011 | 0b0011011 => Group::Immediates,
        0b0110011 | 0b0111011 => Group::Registers,
        _ => Group::Calls,
    }
}

/// Returns the row of an instruction.
pub fn row_of(kind: Kind) -> Row
    ensures value { result ≡ row kind }
    ensures in_range { IsRow result }
{
    match kind {
        Kind::OpLui => fixed(Format::Upper, 0b0110111, 0b000, 0, 0b000000),
        Kind::OpAuipc => fixed(Format::Upper, 0b0010111, 0b000, 0, 0b000000),
        Kind::OpJal => fixed(Format::Jump, 0b1101111, 0b000, 0, 0b000000),
        Kind::OpJalr => fixed(Format::Immediate, 0b1100111, 0b000, 0, 0b000000),
        Kind::OpBeq => fixed(Format::Branch, 0b1100011, 0b000, 0, 0b000000),
        Kind::OpBne => fixed(Format::Branch, 0b1100011, 0b001, 0, 0b000000),
        Kind::OpBlt => fixed(Format::Branch, 0b1100011, 0b100, 0, 0b000000),
        Kind::OpBge => fixed(Format::Branch, 0b1100011, 0b101, 0, 0b000000),
        Kind::OpBltu => fixed(Format::Branch, 0b1100011, 0b110, 0, 0b000000),
        Kind::OpBgeu => fixed(Format::Branch, 0b1100011, 0b111, 0, 0b000000),
        Kind::OpLb => fixed(Format::Immediate, 0b0000011, 0b000, 0, 0b000000),
        Kind::OpLh => fixed(Format::Immediate, 0b0000011, 0b001, 0, 0b000000),
        Kind::OpLw => fixed(Format::Immediate, 0b0000011, 0b010, 0, 0b000000),
        Kind::OpLd => fixed(Format::Immediate, 0b0000011, 0b011, 0, 0b000000),
        Kind::OpLbu => fixed(Format::Immediate, 0b0000011, 0b100, 0, 0b000000),
        Kind::OpLhu => fixed(Format::Immediate, 0b0000011, 0b101, 0, 0b000000),
        Kind::OpLwu => fixed(Format::Immediate, 0b0000011, 0b110, 0, 0b000000),
        Kind::OpSb => fixed(Format::Store, 0b0100011, 0b000, 0, 0b000000),
        Kind::OpSh => fixed(Format::Store, 0b0100011, 0b001, 0, 0b000000),
        Kind::OpSw => fixed(Format::Store, 0b0100011, 0b010, 0, 0b000000),
        Kind::OpSd => fixed(Format::Store, 0b0100011, 0b011, 0, 0b000000),
        Kind::OpAddi => fixed(Format::Immediate, 0b0010011, 0b000, 0, 0b000000),
        Kind::OpSlti => fixed(Format::Immediate, 0b0010011, 0b010, 0, 0b000000),
        Kind::OpSltiu => fixed(Format::Immediate, 0b0010011, 0b011, 0, 0b000000),
        Kind::OpXori => fixed(Format::Immediate, 0b0010011, 0b100, 0, 0b000000),
        Kind::OpOri => fixed(Format::Immediate, 0b0010011, 0b110, 0, 0b000000),
        Kind::OpAndi => fixed(Format::Immediate, 0b0010011, 0b111, 0, 0b000000),
        Kind::OpSlli => fixed(Format::Shift, 0b0010011, 0b001, 0, 0b000000),
        Kind::OpSrli => fixed(Format::Shift, 0b0010011, 0b101, 0, 0b000000),
        Kind::OpSrai => fixed(Format::Shift, 0b0010011, 0b101, 0, 0b010000),
        Kind::OpAdd => fixed(Format::Register, 0b0110011, 0b000, 0, 0b000000),
        Kind::OpSll => fixed(Format::Register, 0b0110011, 0b001, 0, 0b000000),
        Kind::OpSlt => fixed(Format::Register, 0b0110011, 0b010, 0, 0b000000),
        Kind::OpSltu => fixed(Format::Register, 0b0110011, 0b011, 0, 0b000000),
        Kind::OpXor => fixed(Format::Register, 0b0110011, 0b100, 0, 0b000000),
        Kind::OpSrl => fixed(Format::Register, 0b0110011, 0b101, 0, 0b000000),
        Kind::OpOr => fixed(Format::Register, 0b0110011, 0b110, 0, 0b000000),
        Kind::OpAnd => fixed(Format::Register, 0b0110011, 0b111, 0, 0b000000),
        Kind::OpSub => fixed(Format::Register, 0b0110011, 0b000, 0, 0b010000),
        Kind::OpSra => fixed(Format::Register, 0b0110011, 0b101, 0, 0b010000),
        Kind::OpMul => fixed(Format::Register, 0b0110011, 0b000, 1, 0b000000),
        Kind::OpMulh => fixed(Format::Register, 0b0110011, 0b001, 1, 0b000000),
        Kind::OpMulhsu => fixed(Format::Register, 0b0110011, 0b010, 1, 0b000000),
        Kind::OpMulhu => fixed(Format::Register, 0b0110011, 0b011, 1, 0b000000),
        Kind::OpDiv => fixed(Format::Register, 0b0110011, 0b100, 1, 0b000000),
        Kind::OpDivu => fixed(Format::Register, 0b0110011, 0b101, 1, 0b000000),
        Kind::OpRem => fixed(Format::Register, 0b0110011, 0b110, 1, 0b000000),
        Kind::OpRemu => fixed(Format::Register, 0b0110011, 0b111, 1, 0b000000),
        Kind::OpAddiw => fixed(Format::Immediate, 0b0011011, 0b000, 0, 0b000000),
        Kind::OpSlliw => fixed(Format::ShiftWord, 0b0011011, 0b001, 0, 0b000000),
        Kind::OpSrliw => fixed(Format::ShiftWord, 0b0011011, 0b101, 0, 0b000000),
        Kind::OpSraiw => fixed(Format::ShiftWord, 0b0011011, 0b101, 0, 0b010000),
        Kind::OpAddw => fixed(Format::Register, 0b0111011, 0b000, 0, 0b000000),
        Kind::OpSllw => fixed(Format::Register, 0b0111011, 0b001, 0, 0b000000),
        Kind::OpSrlw => fixed(Format::Register, 0b0111011, 0b101, 0, 0b000000),
        Kind::OpSubw => fixed(Format::Register, 0b0111011, 0b000, 0, 0b010000),
        Kind::OpSraw => fixed(Format::Register, 0b0111011, 0b101, 0, 0b010000),
        Kind::OpMulw => fixed(Format::Register, 0b0111011, 0b000, 1, 0b000000),
        Kind::OpDivw => fixed(Format::Register, 0b0111011, 0b100, 1, 0b000000),
        Kind::OpDivuw => fixed(Format::Register, 0b0111011, 0b101, 1, 0b000000),
        Kind::OpRemw => fixed(Format::Register, 0b0111011, 0b110, 1, 0b000000),
        Kind::OpRemuw => fixed(Format::Register, 0b0111011, 0b111, 1, 0b000000),
        Kind::OpEcall => fixed(Format::System, 0b1110011, 0b000, 0, 0b000000),
    }
}

// Returns a row of these parts.
fn fixed(format: Format, opcode: u8, funct3: u8, bit25: u8, top6: u8) -> Row
    ensures { result ≡
        record { format = format; opcode = opcode; funct3 = funct3; bit25 = bit25; top6 = top6 } }
{
    Row {
        format,
        opcode,
        funct3,
        bit25,
        top6,
    }
}
