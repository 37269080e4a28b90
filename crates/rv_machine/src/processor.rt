//! The machine, and one step of it.

ghost use Rattle.std.specs.Prelude.{◌≡◌, ◌<◌, ◌≤◌, Some, None, map, IfNone, IfOk, IfSome, OnErr};
ghost use Rattle.byteorder.specs.Endian.{little_bytes};
ghost use Rattle.rv_inst.specs.declared.table.Group.TheVariants.{Loads};
ghost use Rattle.rv_inst.specs.Groups.{group_of};
ghost use Rattle.rv_machine.specs.Numbers.{HasNumber};
ghost use Rattle.rv_machine.specs.Ticks.{IsTick, PutsOut};
ghost use Rattle.rv_model.specs.Memory.{bytes_at, read, stored, word_at};
ghost use Rattle.rv_model.specs.Run.{flipped};
ghost use Rattle.rv_model.specs.Start.{loaded_segment, started};
ghost use Rattle.rv_model.specs.State.{next, register, set_register};
ghost use Rattle.rv_model.specs.Step.{act, address, called, fetched, kept, linked, loads, reads_input, writes_output, Continues, branched, put, step};

use crate::memory::{EXECUTED, MemorySegment, READ, bytes_at, bytes_for, keep, store};
use crate::operations::{even_part, extended, is_taken, operation, width};
use crate::streams::{Input, Output};
use crate::values::{bits64, number, upper_value};
use byteorder::{ByteOrder, LittleEndian};
use elf_file::{Image, Segment};
use rv_inst::{Group, Kind, Operands, Rv, decode, group_of, kind_of};
use rv_model::Cause;
use std::alloc::{AllocError, Global};
use std::marker::Model;

/// The number of the call that reads, in x17.
const READS: u64 = 63;

/// The number of the call that writes, in x17.
const WRITES: u64 = 64;

/// The number of the call that ends the program, in x17.
const EXIT: u64 = 93;

/// What one step did.
#[derive(Clone, Copy, PartialEq, Eq, Debug)]
pub enum Tick {
    /// An instruction was executed, and the machine goes on.
    Went,
    /// The program ended with this status.
    Ended(u8),
    /// The instruction at this pc could not be executed.
    Trapped(u64, Cause),
}

/// A machine that runs a program: its registers, memory, input and output.
///
/// A contract sees it as a state of the machine's definition.
#[derive(Drop)]
pub struct Machine {
    registers: [u64; 32],
    pc: u64,
    segments: Vec<MemorySegment>,
    input: Input,
    out: Output,
}

impl Model for Machine {
    ghost use Rattle.rv_model.specs.State.{MachineState};

    ghost Value = { MachineState };

    ghost view = { λ m. record { regs = m.registers; pc = m.pc; segments = m.segments.items; input = m.input; out = m.out } };
}

/// Returns the segments of memory, each with its bytes of the file and then zeros.
fn load_segments(alloc: Global, segments: &[Segment]) -> Result<Vec<MemorySegment>, AllocError>
    ensures { IfOk result (λ loaded. loaded.items ≡ map loaded_segment segments.now) }
{
    let mut loaded = Vec::with_capacity(alloc, segments.len())?;
    for segment in segments {
        loaded.push(MemorySegment::load(alloc, segment)?)?;
    }
    Ok(loaded)
}

impl Machine {
    /// Makes a machine at the start of an image's program, with this input.
    #[tactic(auto, unfolding(rv_model::specs::Start::started))]
    pub fn load(alloc: Global, image: &Image, input: &[u8]) -> Result<Machine, AllocError>
        ensures { IfOk result (λ machine. machine ≡ started image.now input.now) }
    {
        Ok(Machine {
            registers: [0; 32],
            pc: image.begin,
            segments: load_segments(alloc, image.segments.as_slice())?,
            input: Input::new(alloc, input)?,
            out: Output::new(alloc),
        })
    }

    /// Returns the address of the next instruction.
    pub fn pc(&self) -> u64
        ensures { result ≡ self.now.pc }
    {
        self.pc
    }

    /// Returns the output so far.
    pub fn out(&self) -> &[u8]
        ensures { result.now ≡ self.now.out }
    {
        self.out.as_slice()
    }

    /// Returns the output so far, of a machine that is done with.
    pub fn into_out(self) -> Output
        ensures { result ≡ self.out }
    {
        self.out
    }

    /// Turns one bit of one register. All else stays.
    pub fn flip(&mut self, reg: u8, bit: u8)
        requires above { 0 < reg }
        requires reg { reg < 32 }
        requires bit { bit < 64 }
        ensures { self.new ≡ flipped reg bit self.old }
    {
        let value = self.register(reg);
        self.set_register(reg, value ^ (1 << bit));
    }

    /// Runs one instruction. Where the program ends or the instruction traps, the machine stays as it was.
    ///
    /// # Errors
    ///
    /// Memory may run out for output, and for nothing else; the machine then stays as it was.
    pub fn step(&mut self) -> Result<Tick, AllocError>
        ensures ok { IfOk result (λ tick. IsTick tick (step self.old) self.old self.new) }
        ensures err { OnErr result (self.new ≡ self.old) }
        ensures wants { OnErr result (PutsOut (step self.old) self.old) }
    {
        let Some(word) = self.word_here() else {
            return Ok(Tick::Trapped(self.pc(), Cause::Fetch));
        };
        self.execute(word)
    }

    /// Returns the word at the pc, where one can be executed there.
    #[tactic(auto, unfolding(rv_model::specs::Memory::word_at))]
    fn word_here(&self) -> Option<u32>
        ensures { result ≡ word_at self.now.pc self.now.segments }
    {
        if self.pc % 4 != 0 {
            return None;
        }
        let bytes = bytes_at(self.segments.as_slice(), EXECUTED, self.pc, 4)?;
        Some(LittleEndian::read_u32(bytes))
    }

    /// Executes the instruction of a word that was fetched.
    fn execute(&mut self, word: u32) -> Result<Tick, AllocError>
        ensures ok { IfOk result (λ tick. IsTick tick (fetched (Some word) self.old) self.old self.new) }
        ensures err { OnErr result (self.new ≡ self.old) }
        ensures wants { OnErr result (PutsOut (fetched (Some word) self.old) self.old) }
    {
        match decode(word) {
            Some(instruction) => self.act(&instruction),
            None => Ok(Tick::Trapped(self.pc(), Cause::Illegal)),
        }
    }

    /// Executes an instruction.
    #[tactic(auto, unfolding(rv_model::specs::Step::act))]
    fn act(&mut self, instruction: &Rv) -> Result<Tick, AllocError>
        ensures ok { IfOk result (λ tick. IsTick tick (act instruction.now self.old) self.old self.new) }
        ensures err { OnErr result (self.new ≡ self.old) }
        ensures wants { OnErr result (PutsOut (act instruction.now self.old) self.old) }
    {
        let kind = kind_of(instruction.form());
        let Operands { rd, rs1, rs2, imm } = instruction.operands();
        match group_of(kind) {
            Group::Constants => Ok(self.put(rd, upper_value(imm))),
            Group::Addresses => Ok(self.put(rd, self.pc().wrapping_add(upper_value(imm)))),
            Group::Jumps => Ok(self.link(rd, self.pc().wrapping_add(bits64(imm)))),
            Group::RegisterJumps => {
                let target = even_part(self.register(rs1).wrapping_add(bits64(imm)));
                Ok(self.link(rd, target))
            }
            Group::Branches => {
                let test = is_taken(kind, self.register(rs1), self.register(rs2));
                Ok(self.branch(test, imm))
            }
            Group::Loads => Ok(self.load_register(kind, rd, self.address(rs1, imm))),
            Group::Stores => {
                let count = usize::from(width(kind));
                Ok(self.store(self.address(rs1, imm), self.register(rs2), count))
            }
            Group::Immediates => {
                Ok(self.put(rd, operation(kind, self.register(rs1), bits64(imm))))
            }
            Group::Registers => {
                let value = operation(kind, self.register(rs1), self.register(rs2));
                Ok(self.put(rd, value))
            }
            Group::Calls => self.call(),
        }
    }

    /// Returns the address of a load or a store.
    fn address(&self, rs1: u8, offset: i32) -> u64
        requires { rs1 < 32 }
        ensures { result ≡ address rs1 offset self.now }
    {
        self.register(rs1).wrapping_add(bits64(offset))
    }

    /// Returns the number that the bytes at the address make, where they can be read.
    fn number_at(&self, address: u64, count: u64) -> Option<u64>
        requires low { 1 ≤ count }
        requires high { count ≤ 8 }
        ensures none { IfNone result (bytes_at read address count self.now.segments ≡ None) }
        ensures some { IfSome result (λ number. HasNumber number count (bytes_at read address count self.now.segments)) }
    {
        let bytes = bytes_at(self.segments.as_slice(), READ, address, count)?;
        Some(number(bytes))
    }

    /// Puts the number at the address into a register, extended to 64 bits.
    fn load_register(&mut self, kind: Kind, rd: u8, address: u64) -> Tick
        requires loads { group_of kind ≡ Loads }
        requires rd { rd < 32 }
        ensures { IsTick result (loads kind rd address self.old) self.old self.new }
    {
        match self.number_at(address, u64::from(width(kind))) {
            Some(number) => self.put(rd, extended(kind, number)),
            None => Tick::Trapped(self.pc(), Cause::Load),
        }
    }

    /// Writes the lowest bytes of a value to memory.
    fn store(&mut self, address: u64, value: u64, count: usize) -> Tick
        requires { count ≤ 8 }
        ensures { IsTick result (kept (stored address (little_bytes count value) self.old.segments) self.old) self.old self.new }
    {
        let mut bytes = [0; 8];
        LittleEndian::write_u64(&mut bytes, value);
        if store(self.segments.as_mut_slice(), address, &bytes[..count]) {
            self.go_on();
            Tick::Went
        } else {
            Tick::Trapped(self.pc(), Cause::Store)
        }
    }

    /// Puts the address of the next word into a register, and goes on at the target.
    fn link(&mut self, rd: u8, target: u64) -> Tick
        requires { rd < 32 }
        ensures { IsTick result (linked rd target self.old) self.old self.new }
    {
        let next = self.pc().wrapping_add(4);
        self.set_register(rd, next);
        self.pc = target;
        Tick::Went
    }

    /// Puts a value into a register, and goes on at the next word.
    fn put(&mut self, rd: u8, value: u64) -> Tick
        requires { rd < 32 }
        ensures { IsTick result (put rd value self.old) self.old self.new }
    {
        self.set_register(rd, value);
        self.go_on();
        Tick::Went
    }

    /// Goes on at an offset in bytes where the test holds, and else at the next word.
    fn branch(&mut self, test: bool, offset: i32) -> Tick
        ensures { IsTick result (Continues (branched test offset self.old)) self.old self.new }
    {
        let bytes = if test { bits64(offset) } else { 4 };
        self.pc = self.pc.wrapping_add(bytes);
        Tick::Went
    }

    /// Makes the environment's call that x17 numbers.
    fn call(&mut self) -> Result<Tick, AllocError>
        ensures ok { IfOk result (λ tick. IsTick tick (called self.old) self.old self.new) }
        ensures err { OnErr result (self.new ≡ self.old) }
        ensures wants { OnErr result (PutsOut (called self.old) self.old) }
    {
        let number = self.register(17);
        let first = self.register(10);
        if number == EXIT {
            Ok(Tick::Ended((first % 256) as u8))
        } else if number == READS && first == 0 {
            Ok(self.read_input())
        } else if number == WRITES && first == 1 {
            self.write_output()
        } else {
            Ok(Tick::Trapped(self.pc(), Cause::Call))
        }
    }

    /// Reads: the next bytes of the input, at most x12 of them, come to the address in x11.
    fn read_input(&mut self) -> Tick
        ensures { IsTick result (reads_input self.old) self.old self.new }
    {
        let address = self.register(11);
        let asked = self.register(12);
        let rest = self.input.rest();
        let count = (asked as usize).min(rest.len());
        if !keep(self.segments.as_mut_slice(), address, &rest[..count]) {
            return Tick::Trapped(self.pc(), Cause::Store);
        }
        self.input.skip(count);
        self.put(10, count as u64)
    }

    /// Writes: the x12 bytes at the address in x11 are put out.
    fn write_output(&mut self) -> Result<Tick, AllocError>
        ensures ok { IfOk result (λ tick. IsTick tick (writes_output self.old) self.old self.new) }
        ensures err { OnErr result (self.new ≡ self.old) }
        ensures wants { OnErr result (PutsOut (writes_output self.old) self.old) }
    {
        let address = self.register(11);
        let count = self.register(12);
        let Some(bytes) = bytes_for(self.segments.as_slice(), address, count) else {
            return Ok(Tick::Trapped(self.pc(), Cause::Load));
        };
        self.out.append(bytes)?;
        Ok(self.put(10, count))
    }

    /// Returns what a register holds.
    fn register(&self, r: u8) -> u64
        requires { r < 32 }
        ensures { result ≡ register self.now r }
    {
        self.registers[r as usize]
    }

    /// Writes a register; x0 stays 0.
    #[tactic(auto, unfolding(rv_model::specs::State::set_register))]
    fn set_register(&mut self, r: u8, value: u64)
        requires { r < 32 }
        ensures { self.new ≡ set_register self.old r value }
    {
        if r != 0 {
            self.registers[r as usize] = value;
        }
    }

    /// Goes on at the next word.
    fn go_on(&mut self)
        ensures { self.new ≡ next self.old }
    {
        self.pc = self.pc.wrapping_add(4);
    }
}
