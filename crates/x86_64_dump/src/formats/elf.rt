//! Headers of ELF core files.
ghost use Rattle.std.specs.Prelude.{◌≡◌, ◌+◌, ◌*◌, ◌/◌, ◌≤◌, ◌<◌, ◌^◌, ◌++◌, length, false, true, IfOk, IfErr, IfNone, OnOk, Ok};
ghost use Rattle.x86_64_dump.specs.Numbers.{u32_at};
ghost use Rattle.x86_64_dump.specs.Dump.{segment_at, segments_at};
ghost use Rattle.x86_64_dump.specs.Formats.Elf.{header_of, header_fault, table_fault, count_of, elf_segments, has_memory, with_memory};
ghost use Rattle.x86_64_dump.specs.Opening.{OpensAs, GivesAtOnce};

use crate::error::{DumpError, Fault};
use crate::header::Header;
use crate::numbers::{read_u16, read_u32, read_u64};
use crate::segment::Segment;
use crate::source::{ByteSource, ends_after};
use std::alloc::{AllocError, Global};
use std::io;

/// The value `ELFCLASS64` of `EI_CLASS`.
const CLASS_64_BITS: u8 = 2;

/// The value `ELFDATA2LSB` of `EI_DATA`.
const LITTLE_ENDIAN: u8 = 1;

/// The value `ET_CORE` of `e_type`.
const CORE_FILE: u16 = 4;

/// The value `EM_X86_64` of `e_machine`.
const X86_64: u16 = 62;

/// The size of an ELF header, and of a section header.
const HEADER_SIZE: u64 = 64;

/// The size of a program header.
const ENTRY_SIZE: u64 = 56;

/// The greatest number of program headers that are read at once.
const PIECE: u32 = 73;

/// The count, `PN_XNUM`, that refers to section header 0 for the number of program headers.
const COUNT_ELSEWHERE: u16 = 65535;

/// Reads the segments of an ELF file.
pub fn read_elf<S: ByteSource>(alloc: Global, source: &S) -> Result<Vec<Segment>, DumpError>
    ensures { S.IsKnown → OpensAs S.may_fail (λ v. v.items) result
        (elf_segments (S.bytes source.now) (header_of (S.bytes source.now))) }
{
    let header = read_header(source)?;
    read_by(alloc, source, &header)
}

/// Reads the segments of an ELF file with this header.
fn read_by<S: ByteSource>(
    alloc: Global,
    source: &S,
    header: &Header,
) -> Result<Vec<Segment>, DumpError>
    ensures { S.IsKnown → OpensAs S.may_fail (λ v. v.items) result
        (elf_segments (S.bytes source.now) header.now) }
{
    let length = source.len();
    if let Some(fault) = fault_of_header(header, length) {
        return Err(DumpError::Fault(fault));
    }
    let count = read_count(source, header)?;
    if let Some(fault) = fault_of_table(header, length, count) {
        return Err(DumpError::Fault(fault));
    }
    with_memory(read_table(alloc, source, header.headers, count)?)
}

/// Returns the segments if one of them is memory.
fn with_memory(segments: Vec<Segment>) -> Result<Vec<Segment>, DumpError>
    ensures { GivesAtOnce false (λ v. v.items) result (with_memory segments.items) }
{
    if has_memory(&segments) {
        Ok(segments)
    } else {
        Err(DumpError::Fault(Fault::NoMemory))
    }
}

/// Returns true if one of the segments is memory.
fn has_memory(segments: &[Segment]) -> bool
    ensures { result ≡ has_memory segments.now }
{
    segments.iter().any(|segment| segment.is_memory())
}

/// Returns why an ELF file isn't a core file of x86-64, or `None` if it is.
#[tactic(auto, unfolding(crate::specs::Formats::Elf::header_fault))]
fn fault_of_header(header: &Header, length: u64) -> Option<Fault>
    ensures fault { result ≡ header_fault length header.now }
    ensures section { IfNone result (header.now.count ≡ 65535 → header.now.sections + 64 ≤ length) }
{
    if length < HEADER_SIZE {
        Some(Fault::HeaderCut { length })
    } else if header.class != CLASS_64_BITS {
        Some(Fault::WrongClass {
            class: header.class,
        })
    } else if header.order != LITTLE_ENDIAN {
        Some(Fault::WrongByteOrder {
            order: header.order,
        })
    } else if header.file_type != CORE_FILE {
        Some(Fault::WrongType {
            file_type: header.file_type,
        })
    } else if header.machine != X86_64 {
        Some(Fault::WrongMachine {
            machine: header.machine,
        })
    } else if u64::from(header.entry_size) != ENTRY_SIZE {
        Some(Fault::WrongEntrySize {
            size: header.entry_size,
        })
    } else if header.count == COUNT_ELSEWHERE && ends_after(header.sections, HEADER_SIZE, length) {
        Some(Fault::SectionOutside {
            offset: header.sections,
            length,
        })
    } else {
        None
    }
}

/// Returns why the program headers can't be read, or `None` if they can.
#[tactic(auto, unfolding(crate::specs::Formats::Elf::table_fault))]
fn fault_of_table(header: &Header, length: u64, count: u32) -> Option<Fault>
    ensures fault { result ≡ table_fault length count header.now }
    ensures table { IfNone result (header.now.headers + 56 * count ≤ length) }
{
    if ends_after(header.headers, ENTRY_SIZE * u64::from(count), length) {
        Some(Fault::HeadersOutside {
            offset: header.headers,
            count,
            length,
        })
    } else {
        None
    }
}

/// Reads the start of a file as an ELF header, with bytes 0 after the end of the file.
fn read_header<S: ByteSource>(source: &S) -> io::Result<Header>
    ensures value { S.IsKnown → IfOk result (λ header. header ≡ header_of (S.bytes source.now)) }
    ensures failed { IfErr result (λ _. S.may_fail ≡ true) }
{
    let mut front = [0; 64];
    let present = source.len().min(HEADER_SIZE) as usize;
    source.read_exact_at(&mut front[..present], 0)?;
    Ok(header_in(&front))
}

/// Returns the fields of an ELF header.
#[tactic(auto, unfolding(crate::specs::Formats::Elf::header_of))]
fn header_in(front: &[u8]) -> Header
    requires { length front.now ≡ 64 }
    ensures { result ≡ header_of front.now }
{
    Header {
        class: front[4],
        order: front[5],
        file_type: read_u16(front, 16),
        machine: read_u16(front, 18),
        headers: read_u64(front, 32),
        sections: read_u64(front, 40),
        entry_size: read_u16(front, 54),
        count: read_u16(front, 56),
    }
}

/// Reads the number of program headers.
fn read_count<S: ByteSource>(source: &S, header: &Header) -> io::Result<u32>
    requires { header.now.count ≡ 65535 → header.now.sections + 64 < 2 ^ 64 }
    ensures value { S.IsKnown → IfOk result (λ count. count ≡ count_of (S.bytes source.now) header.now) }
    ensures failed { (header.now.count ≡ 65535 → header.now.sections + 64 ≤ S.size source.now) →
        IfErr result (λ _. S.may_fail ≡ true) }
{
    if header.count != COUNT_ELSEWHERE {
        return Ok(u32::from(header.count));
    }
    let mut section = [0; 64];
    source.read_exact_at(&mut section, header.sections)?;
    Ok(read_u32(&section, 44))
}

/// Reads the segments of the program headers, piece by piece.
fn read_table<S: ByteSource>(
    alloc: Global,
    source: &S,
    offset: u64,
    count: u32,
) -> Result<Vec<Segment>, DumpError>
    requires { offset + 56 * count < 2 ^ 64 }
    ensures { S.IsKnown → offset + 56 * count ≤ length (S.bytes source.now) →
        OpensAs S.may_fail (λ v. v.items) result (Ok (segments_at (S.bytes source.now) offset count)) }
{
    let mut segments = Vec::new(alloc);
    let mut done = 0;
    while done < count {
        let more = (count - done).min(PIECE);
        add_piece(
            source,
            offset + ENTRY_SIZE * u64::from(done),
            more,
            &mut segments,
        )?;
        done += more;
    }
    Ok(segments)
}

/// Adds the segments of a few program headers, which are read at once.
fn add_piece<S: ByteSource>(
    source: &S,
    offset: u64,
    count: u32,
    segments: &mut Vec<Segment>,
) -> Result<(), DumpError>
    requires few { count ≤ 73 }
    requires fits { offset + 56 * count < 2 ^ 64 }
    ensures { S.IsKnown → offset + 56 * count ≤ length (S.bytes source.now) →
        OpensAs S.may_fail (λ _. segments.new.items) result
        (Ok (segments.old.items ++ segments_at (S.bytes source.now) offset count)) }
{
    let mut bytes = [0; 4088];
    let size = (ENTRY_SIZE * u64::from(count)) as usize;
    let entries = &mut bytes[..size];
    source.read_exact_at(entries, offset)?;
    push_segments(entries, segments)?;
    Ok(())
}

/// Adds the segments of program headers.
fn push_segments(entries: &[u8], segments: &mut Vec<Segment>) -> Result<(), AllocError>
    ensures { OnOk result (segments.new.items ≡
        segments.old.items ++ segments_at entries.now 0 (length entries.now / 56)) }
{
    for i in 0..entries.len() / 56 {
        segments.push(segment_in(entries, 56 * i))?;
    }
    Ok(())
}

/// Returns the segment of the program header at an offset.
#[tactic(auto, unfolding(crate::specs::Dump::segment_at))]
fn segment_in(entries: &[u8], offset: usize) -> Segment
    requires { offset + 56 ≤ length entries.now }
    ensures { result ≡ segment_at entries.now offset }
{
    Segment {
        kind: read_u32(entries, offset),
        offset: read_u64(entries, offset + 8),
        address: read_u64(entries, offset + 24),
        size: read_u64(entries, offset + 32),
    }
}
