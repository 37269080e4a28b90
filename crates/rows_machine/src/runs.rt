//! Steps and runs of the machine.

ghost use Rattle.std.specs.Option.{ForSome};
ghost use Rattle.std.specs.Prelude.{◌<◌, ◌≤◌, length, IfOk};
ghost use Rattle.elf_file.specs.Image.{IsSegment};
ghost use Rattle.rv_model.specs.Run.{FlipFits};

use crate::parse::{bytes, decimal, hexadecimal, instruction_word, numbers, program, shown};
use anyhow::{Result, bail, ensure};
use elf_file::{Bytes, Image, Segment, Segments, read, write};
use rv_machine::{Machine, Outcome, Tick, run};
use rv_model::Flip;
use std::alloc::Global;

/// Writes x10 as the output, lowest byte first, and ends the program: lui x5,65536; sd x10,0(x5);
/// addi x10,x0,1; lui x11,65536; addi x12,x0,8; addi x17,x0,64; ecall; addi x17,x0,93; ecall
const PUT_X10: [u32; 9] = [
    0x1000_02b7,
    0x00a2_b023,
    0x0010_0513,
    0x1000_05b7,
    0x0080_0613,
    0x0400_0893,
    0x0000_0073,
    0x05d0_0893,
    0x0000_0073,
];

/// Returns the image of a program whose data are 81 92 a3 b4 and five zeros.
fn image_of(alloc: Global, words: &[u32]) -> Result<Image>
    requires { length words.now ≤ 1000 }
{
    let file = write(alloc, words, &[0x81, 0x92, 0xa3, 0xb4], 5)?;
    Ok(read(alloc, &file)?)
}

/// Returns the flip `AT,REGISTER,BIT`; `-` stands for none.
fn flip_of(alloc: Global, text: &str) -> Result<Option<Flip>>
    ensures { IfOk result (λ flip. ForSome flip FlipFits) }
{
    match numbers(alloc, text)?.as_slice() {
        [] => Ok(None),
        [at, reg, bit] if 0 < *reg && *reg < 32 && *bit < 64 => Ok(Some(Flip {
            at: *at,
            reg: *reg as u8,
            bit: *bit as u8,
        })),
        _ => bail!("{text} is no flip"),
    }
}

/// Answers `NAME STEPS INPUT FLIP WORD..`: what the run of the program comes to, and its output.
pub fn answer_run(alloc: Global, case: &[&str]) -> Result<String> {
    let [_, steps, input, flip, words @ ..] = case else {
        bail!("a case is a name, steps, input, a flip and words");
    };
    let image = image_of(alloc, &program(alloc, words)?)?;
    let input = bytes(alloc, input)?;
    let flip = flip_of(alloc, flip)?;
    let (end, out) = match run(alloc, &image, &input, decimal(steps)?, flip)? {
        Outcome::Ended { out, status, steps } => {
            (
                format!(in alloc; "ended status={status} steps={steps}")?,
                out,
            )
        }
        Outcome::Trap { pc, cause, out } => {
            (format!(in alloc; "trap pc={pc:08x} cause={cause:?}")?, out)
        }
        Outcome::StepsOver { out } => (String::from_str(alloc, "steps over")?, out),
    };
    let out = shown(alloc, out.as_slice())?;
    Ok(format!(in alloc; "{end} out={out}")?)
}

/// Flips the bits of a register that are set in a word.
fn turn(machine: &mut Machine, reg: u8, bits: u64)
    requires above { 0 < reg }
    requires reg { reg < 32 }
{
    for bit in 0..64_u8 {
        if bits >> bit & 1 == 1 {
            machine.flip(reg, bit);
        }
    }
}

/// Answers `NAME WORD X5 X6`: the pc after the word at 0x10000, and x10 where that is the next one.
pub fn answer_step(alloc: Global, case: &[&str]) -> Result<String> {
    let [_, word, x5, x6] = case else {
        bail!("a case is a name, a word, x5 and x6");
    };
    let mut words = Vec::from_slice(alloc, &[instruction_word(word)?])?;
    words.extend_from_slice(&PUT_X10)?;
    let image = image_of(alloc, &words)?;
    let mut machine = Machine::load(alloc, &image, &[])?;
    turn(&mut machine, 5, hexadecimal(x5)?);
    turn(&mut machine, 6, hexadecimal(x6)?);
    let tick = machine.step()?;
    let pc = machine.pc();
    let mut answer = format!(in alloc; "{tick:?} pc={pc:08x}")?;
    if pc == 0x1_0004 {
        for _ in PUT_X10 {
            machine.step()?;
        }
        answer.push_str(" x10=")?;
        for byte in machine.out().iter().rev() {
            write!(answer, "{byte:02x}")?;
        }
    }
    Ok(answer)
}

/// Returns the segment `BASE:SIZE:FLAGS:BYTES`.
fn segment_of(alloc: Global, text: &str) -> Result<Segment> {
    let parts: Vec<&str> = text.split(':').collect(alloc)?;
    let [base, size, flags, init] = parts.as_slice() else {
        bail!("{text} is no segment");
    };
    let base = hexadecimal(base)?;
    let size = decimal(size)?;
    let init = bytes(alloc, init)?;
    ensure!(init.len() as u64 <= size, "{text} has too many bytes");
    ensure!(size <= u64::MAX - base, "{text} has no room");
    Ok(Segment {
        base,
        size,
        flags: u32::try_from(decimal(flags)?)?,
        init: Bytes::new(init),
    })
}

/// Answers `NAME BEGIN STEPS SEGMENT..`: what the last step did, or why there is no image.
pub fn answer_image(alloc: Global, case: &[&str]) -> Result<String> {
    let [_, begin, steps, texts @ ..] = case else {
        bail!("a case is a name, a pc, steps and segments");
    };
    let mut segments = Vec::new(alloc);
    for text in texts {
        segments.push(segment_of(alloc, text)?)?;
    }
    let image = match Image::new(alloc, hexadecimal(begin)?, Segments::new(segments)) {
        Ok(image) => image,
        Err(error) => return Ok(format!(in alloc; "{error:?}")?),
    };
    let mut machine = Machine::load(alloc, &image, &[])?;
    let mut last = Tick::Went;
    for _ in 0..decimal(steps)? {
        last = machine.step()?;
    }
    Ok(format!(in alloc; "{last:?} pc={:08x}", machine.pc())?)
}
