//! The image of a file.

ghost use Rattle.std.specs.Prelude.{◌≡◌, ◌+◌, ◌*◌, ◌^◌, ◌≤◌, nat_le, true, length, drop, filter, map, IfOk};
ghost use Rattle.std.specs.List.{list_all};
ghost use Rattle.elf_file.specs.Extents.{extent_of};
ghost use Rattle.elf_file.specs.Reading.{IsAnswer, file_header, has_good_headers, is_elf, is_good_header, is_load, is_right_kind, lie_in_file, program_headers, reading_of, segment_of};

use crate::error::ElfError;
use crate::extents::{Extent, refusal};
use crate::header::{FileHeader, ProgramHeader};
use crate::segments::{Bytes, Image, Segment, Segments};
use std::alloc::{AllocError, Global};

/// The four bytes that a file of ELF begins with.
const MAGIC: [u8; 4] = [0x7f, b'E', b'L', b'F'];

/// The type of a program header that places a segment in memory.
const PT_LOAD: u32 = 1;

/// Tells whether the bytes begin with a whole file header of ELF.
fn is_elf_file(bytes: &[u8]) -> bool
    ensures { result ≡ is_elf bytes.now }
{
    FileHeader::SIZE <= bytes.len() && bytes.starts_with(&MAGIC)
}

/// Tells whether the file is an ELF64 executable for RISC-V, lowest byte first.
fn has_right_kind(bytes: &[u8], header: &FileHeader) -> bool
    requires whole { 64 ≤ length bytes.now }
    requires header { header.now ≡ file_header bytes.now }
    ensures { result ≡ is_right_kind bytes.now }
{
    bytes[4] == 2
        && bytes[5] == 1
        && bytes[6] == 1
        && header.e_type == 2
        && header.e_machine == 243
        && header.e_version == 1
        && (header.e_phnum == 0 || header.e_phentsize == 56)
}

/// Tells whether this many bytes from an offset lie in a file of this size. No bytes lie in every file.
fn lies_in_file(size: u64, offset: u64, count: u64) -> bool
    ensures { result ≡ lie_in_file size offset count }
{
    count == 0 || (offset <= size && count <= size - offset)
}

/// Tells whether this many bytes of memory from an address end at 2^64 at the latest.
fn ends_in_memory(base: u64, size: u64) -> bool
    ensures { result ≡ nat_le (base + size) (2 ^ 64) }
{
    size == 0 || base <= u64::MAX - (size - 1)
}

/// Tells whether the segment's bytes lie in a file of this size and fit its memory.
fn places_well(size: u64, header: &ProgramHeader) -> bool
    ensures { result ≡ is_good_header size header.now }
{
    lies_in_file(size, header.p_offset, header.p_filesz)
        && header.p_filesz <= header.p_memsz
        && ends_in_memory(header.p_vaddr, header.p_memsz)
}

/// Returns the bytes from the program headers on.
fn header_table<'a>(bytes: &'a [u8], header: &FileHeader) -> &'a [u8]
    requires { lie_in_file (length bytes.now) header.now.e_phoff (56 * header.now.e_phnum) ≡ true }
    ensures whole { 56 * header.now.e_phnum ≤ length result.now }
    ensures same { program_headers header.now.e_phnum result.now ≡ program_headers header.now.e_phnum (drop header.now.e_phoff bytes.now) }
{
    if header.e_phnum == 0 {
        &bytes[..0]
    } else {
        &bytes[header.e_phoff as usize..]
    }
}

/// Tells whether each header of the table that places a segment places it well in a file of this size.
fn all_place_well(size: u64, table: &[u8], count: u16) -> bool
    requires { 56 * count ≤ length table.now }
    ensures { result ≡ list_all (is_good_header size) (filter is_load (program_headers count table.now)) }
{
    let mut rest = table;
    for _ in 0..count {
        let header = ProgramHeader::read(rest);
        if header.p_type == PT_LOAD && !places_well(size, &header) {
            return false;
        }
        rest = &rest[ProgramHeader::SIZE..];
    }
    true
}

/// Tells whether the program headers lie in the file, and so does what they place.
fn headers_are_good(bytes: &[u8], header: &FileHeader) -> bool
    requires { header.now ≡ file_header bytes.now }
    ensures { result ≡ has_good_headers bytes.now }
{
    let size = bytes.len() as u64;
    lies_in_file(size, header.e_phoff, 56 * u64::from(header.e_phnum))
        && all_place_well(size, header_table(bytes, header), header.e_phnum)
}

/// Returns the headers of the table that place segments.
fn headers_to_load(
    alloc: Global,
    table: &[u8],
    count: u16,
) -> Result<Vec<ProgramHeader>, AllocError>
    requires { 56 * count ≤ length table.now }
    ensures { IfOk result (λ headers. headers.items ≡ filter is_load (program_headers count table.now)) }
{
    let mut headers = Vec::new(alloc);
    let mut rest = table;
    for _ in 0..count {
        let header = ProgramHeader::read(rest);
        if header.p_type == PT_LOAD {
            headers.push(header)?;
        }
        rest = &rest[ProgramHeader::SIZE..];
    }
    Ok(headers)
}

/// Returns the addresses that the headers' segments take.
fn extents_of(alloc: Global, headers: &[ProgramHeader]) -> Result<Vec<Extent>, AllocError>
    ensures { IfOk result (λ extents. extents.items ≡ map extent_of headers.now) }
{
    headers
        .iter()
        .map(|header| Extent {
            base: header.p_vaddr,
            size: header.p_memsz,
        })
        .collect(alloc)
}

/// Returns the segment that the header places.
fn load_segment(alloc: Global, bytes: &[u8], header: &ProgramHeader) -> Result<Segment, AllocError>
    requires { is_good_header (length bytes.now) header.now ≡ true }
    ensures { IfOk result (λ segment. segment ≡ segment_of bytes.now header.now) }
{
    let init = if header.p_filesz == 0 {
        Vec::new(alloc)
    } else {
        let from = header.p_offset as usize;
        let size = header.p_filesz as usize;
        Vec::from_slice(alloc, &bytes[from..from + size])?
    };
    Ok(Segment {
        base: header.p_vaddr,
        size: header.p_memsz,
        flags: header.p_flags,
        init: Bytes::new(init),
    })
}

/// Returns the segments that the headers place, in their order.
fn load_segments(
    alloc: Global,
    bytes: &[u8],
    headers: &[ProgramHeader],
) -> Result<Segments, AllocError>
    requires { list_all (is_good_header (length bytes.now)) headers.now ≡ true }
    ensures { IfOk result (λ segments. segments ≡ map (segment_of bytes.now) headers.now) }
{
    let mut segments = Vec::with_capacity(alloc, headers.len())?;
    for header in headers {
        segments.push(load_segment(alloc, bytes, header)?)?;
    }
    Ok(Segments::new(segments))
}

/// Reads the image of a file, by the ELF-64 Object File Format.
///
/// # Errors
///
/// The first of `NotElf`, `WrongKind`, `BadSegment`, `Overlap` and `TooLarge` that holds of the file;
/// `OutOfMemory` where memory runs out.
pub fn read(alloc: Global, bytes: &[u8]) -> Result<Image, ElfError>
    ensures { IsAnswer result (reading_of bytes.now) }
{
    if !is_elf_file(bytes) {
        return Err(ElfError::NotElf);
    }
    let header = FileHeader::read(bytes);
    if !has_right_kind(bytes, &header) {
        return Err(ElfError::WrongKind);
    }
    if !headers_are_good(bytes, &header) {
        return Err(ElfError::BadSegment);
    }
    let headers = headers_to_load(alloc, header_table(bytes, &header), header.e_phnum)?;
    if let Some(error) = refusal(extents_of(alloc, headers.as_slice())?) {
        return Err(error);
    }
    let segments = load_segments(alloc, bytes, headers.as_slice())?;
    Ok(Image {
        begin: header.e_entry,
        segments,
    })
}
