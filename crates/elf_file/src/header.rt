//! The two kinds of header, with the fields and names of the ELF-64 Object File Format.

ghost use Rattle.std.specs.Prelude.{◌≡◌, ◌+◌, ◌≤◌, ◌++◌, length, OnOk};
ghost use Rattle.byteorder.specs.Endian.{little_bytes};
ghost use Rattle.elf_file.specs.Layout.{file_header_bytes, program_header_bytes};
ghost use Rattle.elf_file.specs.Reading.{file_header, number_at, program_header};

use byteorder::{ByteOrder, LittleEndian};
use std::alloc::AllocError;

/// What stands before the fields of the file header: the magic number, the class of 64 bits, the
/// order of lowest byte first, the version 1, and padding.
const IDENT: [u8; 16] = [0x7f, b'E', b'L', b'F', 2, 1, 1, 0, 0, 0, 0, 0, 0, 0, 0, 0];

/// The file header after its identification (`Elf64_Ehdr`).
#[derive(Drop)]
pub struct FileHeader {
    pub e_type: u16,
    pub e_machine: u16,
    pub e_version: u32,
    pub e_entry: u64,
    pub e_phoff: u64,
    pub e_shoff: u64,
    pub e_flags: u32,
    pub e_ehsize: u16,
    pub e_phentsize: u16,
    pub e_phnum: u16,
    pub e_shentsize: u16,
    pub e_shnum: u16,
    pub e_shstrndx: u16,
}

/// A program header (`Elf64_Phdr`).
#[derive(Drop)]
pub struct ProgramHeader {
    pub p_type: u32,
    pub p_flags: u32,
    pub p_offset: u64,
    pub p_vaddr: u64,
    pub p_paddr: u64,
    pub p_filesz: u64,
    pub p_memsz: u64,
    pub p_align: u64,
}

/// Returns the number of 16 bits at an offset, lowest byte first.
#[tactic(auto, unfolding(crate::specs::Reading::number_at))]
fn u16_at(bytes: &[u8], offset: usize) -> u16
    requires { offset + 2 ≤ length bytes.now }
    ensures { result ≡ number_at offset 2 bytes.now }
{
    LittleEndian::read_u16(&bytes[offset..])
}

/// Returns the number of 32 bits at an offset, lowest byte first.
#[tactic(auto, unfolding(crate::specs::Reading::number_at))]
fn u32_at(bytes: &[u8], offset: usize) -> u32
    requires { offset + 4 ≤ length bytes.now }
    ensures { result ≡ number_at offset 4 bytes.now }
{
    LittleEndian::read_u32(&bytes[offset..])
}

/// Returns the number of 64 bits at an offset, lowest byte first.
#[tactic(auto, unfolding(crate::specs::Reading::number_at))]
fn u64_at(bytes: &[u8], offset: usize) -> u64
    requires { offset + 8 ≤ length bytes.now }
    ensures { result ≡ number_at offset 8 bytes.now }
{
    LittleEndian::read_u64(&bytes[offset..])
}

fn put_u16(file: &mut Vec<u8>, number: u16) -> Result<(), AllocError>
    ensures { OnOk result (file.new.items ≡ file.old.items ++ little_bytes 2 number) }
{
    let mut bytes = [0; 2];
    LittleEndian::write_u16(&mut bytes, number);
    file.extend_from_slice(&bytes)
}

pub fn put_u32(file: &mut Vec<u8>, number: u32) -> Result<(), AllocError>
    ensures { OnOk result (file.new.items ≡ file.old.items ++ little_bytes 4 number) }
{
    let mut bytes = [0; 4];
    LittleEndian::write_u32(&mut bytes, number);
    file.extend_from_slice(&bytes)
}

fn put_u64(file: &mut Vec<u8>, number: u64) -> Result<(), AllocError>
    ensures { OnOk result (file.new.items ≡ file.old.items ++ little_bytes 8 number) }
{
    let mut bytes = [0; 8];
    LittleEndian::write_u64(&mut bytes, number);
    file.extend_from_slice(&bytes)
}

impl FileHeader {
    /// How many bytes a file header has.
    pub const SIZE: usize = 64;

    /// Reads the header at the beginning of the bytes.
    pub fn read(bytes: &[u8]) -> FileHeader
        requires { 64 ≤ length bytes.now }
        ensures { result ≡ file_header bytes.now }
    {
        FileHeader {
            e_type: u16_at(bytes, 16),
            e_machine: u16_at(bytes, 18),
            e_version: u32_at(bytes, 20),
            e_entry: u64_at(bytes, 24),
            e_phoff: u64_at(bytes, 32),
            e_shoff: u64_at(bytes, 40),
            e_flags: u32_at(bytes, 48),
            e_ehsize: u16_at(bytes, 52),
            e_phentsize: u16_at(bytes, 54),
            e_phnum: u16_at(bytes, 56),
            e_shentsize: u16_at(bytes, 58),
            e_shnum: u16_at(bytes, 60),
            e_shstrndx: u16_at(bytes, 62),
        }
    }

    /// Appends the header's 64 bytes.
    pub fn put(&self, file: &mut Vec<u8>) -> Result<(), AllocError>
        ensures { OnOk result (file.new.items ≡ file.old.items ++ file_header_bytes self.now) }
    {
        file.extend_from_slice(&IDENT)?;
        put_u16(file, self.e_type)?;
        put_u16(file, self.e_machine)?;
        put_u32(file, self.e_version)?;
        put_u64(file, self.e_entry)?;
        put_u64(file, self.e_phoff)?;
        put_u64(file, self.e_shoff)?;
        put_u32(file, self.e_flags)?;
        put_u16(file, self.e_ehsize)?;
        put_u16(file, self.e_phentsize)?;
        put_u16(file, self.e_phnum)?;
        put_u16(file, self.e_shentsize)?;
        put_u16(file, self.e_shnum)?;
        put_u16(file, self.e_shstrndx)?;
        Ok(())
    }
}

impl ProgramHeader {
    /// How many bytes a program header has.
    pub const SIZE: usize = 56;

    /// Reads the header at the beginning of the bytes.
    pub fn read(bytes: &[u8]) -> ProgramHeader
        requires { 56 ≤ length bytes.now }
        ensures { result ≡ program_header bytes.now }
    {
        ProgramHeader {
            p_type: u32_at(bytes, 0),
            p_flags: u32_at(bytes, 4),
            p_offset: u64_at(bytes, 8),
            p_vaddr: u64_at(bytes, 16),
            p_paddr: u64_at(bytes, 24),
            p_filesz: u64_at(bytes, 32),
            p_memsz: u64_at(bytes, 40),
            p_align: u64_at(bytes, 48),
        }
    }

    /// Appends the header's 56 bytes.
    pub fn put(&self, file: &mut Vec<u8>) -> Result<(), AllocError>
        ensures { OnOk result (file.new.items ≡ file.old.items ++ program_header_bytes self.now) }
    {
        put_u32(file, self.p_type)?;
        put_u32(file, self.p_flags)?;
        put_u64(file, self.p_offset)?;
        put_u64(file, self.p_vaddr)?;
        put_u64(file, self.p_paddr)?;
        put_u64(file, self.p_filesz)?;
        put_u64(file, self.p_memsz)?;
        put_u64(file, self.p_align)?;
        Ok(())
    }
}
