//! Files that are written, and executables that are read.

ghost use Rattle.std.specs.Prelude.{◌≤◌, length};

use crate::parse::{MOST, bytes, decimal, program, shown};
use anyhow::{Result, bail, ensure};
use elf_file::{read, write};
use std::alloc::Global;

/// The text of the file that the cases change: addi x10,x0,7; addi x17,x0,93; ecall
const SEVEN: [u32; 3] = [0x0070_0513, 0x05d0_0893, 0x0000_0073];

/// Returns what a file's image is, or why it has none.
fn read_answer(alloc: Global, file: &[u8]) -> Result<String> {
    let image = match read(alloc, file) {
        Ok(image) => image,
        Err(error) => return Ok(format!(in alloc; "{error:?}")?),
    };
    let mut answer = format!(in alloc; "begin={:x}", image.begin)?;
    for segment in image.segments.as_slice() {
        let init = shown(alloc, segment.init.as_slice())?;
        write!(
            answer,
            " {:x}:{}:{}:{init}",
            segment.base, segment.size, segment.flags
        )?;
    }
    Ok(answer)
}

/// Answers `NAME DATA ZEROS FROM COUNT WORD..`: the file's size, these of its bytes, and its image.
pub fn answer_file(alloc: Global, case: &[&str]) -> Result<String> {
    let [_, init, extra, from, count, words @ ..] = case else {
        bail!("a case is a name, data, zeros, a range of bytes and words");
    };
    let extra = decimal(extra)?;
    ensure!(extra <= MOST as u64, "there are too many zeros");
    let file = write(alloc, &program(alloc, words)?, &bytes(alloc, init)?, extra)?;
    let from = usize::try_from(decimal(from)?)?;
    let count = usize::try_from(decimal(count)?)?;
    ensure!(
        from <= file.len() && count <= file.len() - from,
        "there are too few bytes"
    );
    let part = shown(alloc, &file[from..from + count])?;
    let image = read_answer(alloc, &file)?;
    Ok(format!(in alloc; "size={} {part} {image}", file.len())?)
}

/// Answers `NAME SIZE AT BYTES`: the image of a file that is cut to this size and has these bytes.
pub fn answer_executable(alloc: Global, case: &[&str]) -> Result<String> {
    let [_, size, at, changes] = case else {
        bail!("a case is a name, a size, a place and bytes");
    };
    let mut file = write(alloc, &SEVEN, &[0xaa], 15)?;
    file.truncate(usize::try_from(decimal(size)?)?);
    let at = usize::try_from(decimal(at)?)?;
    let changes = bytes(alloc, changes)?;
    for (place, byte) in file.iter_mut().skip(at).zip(changes.iter()) {
        *place = *byte;
    }
    read_answer(alloc, &file)
}
