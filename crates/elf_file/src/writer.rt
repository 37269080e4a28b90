//! The executable of a text and its data.

ghost use Rattle.std.specs.Prelude.{◌≡◌, ◌+◌, ◌^◌, ◌<◌, ◌≤◌, ◌++◌, length, IfOk, OnOk};
ghost use Rattle.elf_file.specs.Layout.{file_bytes, header_of_data, header_of_executable, header_of_text, text_bytes};

use crate::header::{FileHeader, ProgramHeader, put_u32};
use std::alloc::{AllocError, Global};

/// The size of a page: the text and the data each begin at a multiple of it in the file.
const PAGE: usize = 4096;

/// Where the text lies in memory, and where the program starts.
const TEXT_ADDRESS: u64 = 0x1_0000;

/// Where the data lies in memory.
const DATA_ADDRESS: u64 = 0x1000_0000;

fn file_header() -> FileHeader
    ensures { result ≡ header_of_executable }
{
    FileHeader {
        e_type: 2,
        e_machine: 243,
        e_version: 1,
        e_entry: TEXT_ADDRESS,
        e_phoff: 64,
        e_shoff: 0,
        e_flags: 0,
        e_ehsize: 64,
        e_phentsize: 56,
        e_phnum: 2,
        e_shentsize: 0,
        e_shnum: 0,
        e_shstrndx: 0,
    }
}

fn text_header(size: u64) -> ProgramHeader
    ensures { result ≡ header_of_text size }
{
    ProgramHeader {
        p_type: 1,
        p_flags: 5,
        p_offset: 4096,
        p_vaddr: TEXT_ADDRESS,
        p_paddr: TEXT_ADDRESS,
        p_filesz: size,
        p_memsz: size,
        p_align: 4096,
    }
}

fn data_header(offset: u64, size: u64, extra: u64) -> ProgramHeader
    requires { size + extra < 2 ^ 64 }
    ensures { result ≡ header_of_data offset size extra }
{
    ProgramHeader {
        p_type: 1,
        p_flags: 6,
        p_offset: offset,
        p_vaddr: DATA_ADDRESS,
        p_paddr: DATA_ADDRESS,
        p_filesz: size,
        p_memsz: size + extra,
        p_align: 4096,
    }
}

/// Appends the words, each with its lowest byte first.
fn put_words(file: &mut Vec<u8>, words: &[u32]) -> Result<(), AllocError>
    ensures { OnOk result (file.new.items ≡ file.old.items ++ text_bytes words.now) }
{
    for word in words {
        put_u32(file, *word)?;
    }
    Ok(())
}

/// Returns the bytes of an executable whose text is `words` and whose data is `init` and then `extra` zeros.
///
/// The text lies at 0x10000, where the program starts, to be read and executed; the data lies at
/// 0x10000000, to be read and written. The layout is that of the ELF-64 Object File Format.
pub fn write(alloc: Global, words: &[u32], init: &[u8], extra: u64) -> Result<Vec<u8>, AllocError>
    requires text_fits { length words.now ≤ 2 ^ 24 }
    requires data_fits { length init.now + extra ≤ 134217728 }
    ensures { IfOk result (λ file. file.items ≡ file_bytes words.now init.now extra) }
{
    let text_size = 4 * words.len();
    let data_offset = (PAGE + text_size).next_multiple_of(PAGE);
    let mut file = Vec::with_capacity(alloc, data_offset + init.len())?;
    file_header().put(&mut file)?;
    text_header(text_size as u64).put(&mut file)?;
    data_header(data_offset as u64, init.len() as u64, extra).put(&mut file)?;
    file.resize(PAGE, 0)?;
    put_words(&mut file, words)?;
    file.resize(data_offset, 0)?;
    file.extend_from_slice(init)?;
    Ok(file)
}
