//! Whole core files.
use crate::dump_files::headers::{push_elf, push_segment};
use crate::dump_files::notes::{Processor, push_processor};
use std::alloc::AllocError;
use x86_64_dump::Segment;

/// A part of physical memory.
#[derive(Clone, Copy, Debug)]
pub struct Memory<'a> {
    /// The physical address of the first byte.
    pub address: u64,
    /// The bytes in it.
    pub bytes: &'a [u8],
}

/// The size of QEMU's note of a processor.
const NOTE_SIZE: u64 = 460;

/// Adds a core file as QEMU writes it: the headers, with that of the notes first, then the notes of the processors, and then
/// the parts of memory, each as a segment.
pub fn push_core_file(
    bytes: &mut Vec<u8>,
    processors: &[Processor],
    memory: &[Memory<'_>],
) -> Result<(), AllocError> {
    let count = memory.len() as u64;
    let notes = Segment {
        kind: Segment::NOTE,
        offset: count.saturating_mul(56).saturating_add(120),
        address: 0,
        size: (processors.len() as u64).saturating_mul(NOTE_SIZE),
    };
    push_elf(bytes, count.saturating_add(1).min(65534) as u16)?;
    push_segment(bytes, notes)?;
    push_segments(bytes, notes.offset.saturating_add(notes.size), memory)?;
    for processor in processors {
        push_processor(bytes, *processor)?;
    }
    for part in memory {
        bytes.extend_from_slice(part.bytes)?;
    }
    Ok(())
}

/// Adds the program headers of parts of memory whose bytes are in the file one after the other, from an offset on.
fn push_segments(bytes: &mut Vec<u8>, first: u64, memory: &[Memory<'_>]) -> Result<(), AllocError> {
    let mut offset = first;
    for part in memory {
        let segment = Segment {
            kind: Segment::LOAD,
            offset,
            address: part.address,
            size: part.bytes.len() as u64,
        };
        push_segment(bytes, segment)?;
        offset = offset.saturating_add(segment.size);
    }
    Ok(())
}
