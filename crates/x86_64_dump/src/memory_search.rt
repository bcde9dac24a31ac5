//! The search for VMCOREINFO in memory.
ghost use Rattle.std.specs.Prelude.{◌≡◌, ◌+◌, ◌-◌, ◌*◌, ◌≤◌, ◌<◌, ◌^◌, ◌++◌, length, drop, IfErr, IfOk, Ok};
ghost use Rattle.x86_64_dump.specs.KernelTexts as specs;
ghost use Rattle.x86_64_dump.specs.Opening.{OpensAs};
ghost use Rattle.x86_64_dump.specs.declared.error.DumpError.TheVariants as errors;

use crate::error::DumpError;
use crate::kernel_text::{KernelText, PAGE_SIZE, push_texts};
use crate::segment::Segment;
use crate::source::ByteSource;
use crate::tables::Progress;
use std::alloc::Global;

/// The size of a page, as an offset.
const PAGE: u64 = PAGE_SIZE as u64;

/// The greatest number of pages that are read at once.
const MOST_PAGES: u64 = 256;

/// Finds the texts of VMCOREINFO in the pages of segments.
pub fn read_texts<S: ByteSource, G: Progress>(
    alloc: Global,
    source: &S,
    segments: &[Segment],
    progress: &G,
) -> Result<Vec<KernelText>, DumpError>
    ensures { S.IsKnown → OpensAs S.may_fail (λ v. v.items) result
        (Ok (specs.texts_within (length (S.bytes source.now)) (S.bytes source.now) segments.now)) }
{
    let mut buffer = new_buffer(alloc)?;
    let mut texts = Vec::new(alloc);
    add_segments(source, segments, &mut buffer, &mut texts, progress)?;
    Ok(texts)
}

/// Creates a buffer for the pages that are read at once.
fn new_buffer(alloc: Global) -> Result<Vec<u8>, DumpError>
    ensures length { IfOk result (λ buffer. buffer.len ≡ 1048576) }
    ensures memory { IfErr result (λ error. error ≡ errors.OutOfMemory) }
{
    Ok(vec![in alloc; 0; PAGE_SIZE * MOST_PAGES as usize]?)
}

/// Adds the texts in the pages of segments. If the segments overlap so much that they have more bytes of memory than the file has
/// bytes, the segments beyond that are left out.
fn add_segments<S: ByteSource, G: Progress>(
    source: &S,
    segments: &[Segment],
    buffer: &mut [u8],
    texts: &mut Vec<KernelText>,
    progress: &G,
) -> Result<(), DumpError>
    requires { length buffer.old ≡ 1048576 }
    ensures { S.IsKnown → OpensAs S.may_fail (λ _. texts.new.items) result (Ok (texts.old.items
        ++ specs.texts_within (length (S.bytes source.now)) (S.bytes source.now) segments.now)) }
{
    let length = source.len();
    let mut room = length;
    for segment in segments {
        let size = memory_size(segment, length);
        let Some(rest) = room.checked_sub(size) else {
            return Ok(());
        };
        add_segment(source, segment, size, buffer, texts, progress)?;
        room = rest;
    }
    Ok(())
}

/// Returns the number of bytes of memory that a segment has in a file of this length.
fn memory_size(segment: &Segment, length: u64) -> u64
    ensures size { result ≡ specs.memory_size length segment.now }
    ensures inside { 0 < result → segment.now.offset + result ≤ length }
{
    if segment.is_memory() {
        segment.size.min(length.saturating_sub(segment.offset))
    } else {
        0
    }
}

/// Adds the texts in the pages of a segment, which has so many bytes in the file.
#[tactic(auto, unfolding(crate::specs::KernelTexts::segment_texts))]
fn add_segment<S: ByteSource, G: Progress>(
    source: &S,
    segment: &Segment,
    size: u64,
    buffer: &mut [u8],
    texts: &mut Vec<KernelText>,
    progress: &G,
) -> Result<(), DumpError>
    requires size { size ≡ specs.memory_size (S.size source.now) segment.now }
    requires inside { 0 < size → segment.now.offset + size ≤ S.size source.now }
    requires buffer { length buffer.old ≡ 1048576 }
    ensures length { length buffer.new ≡ 1048576 }
    ensures texts { S.IsKnown → OpensAs S.may_fail (λ _. texts.new.items) result
        (Ok (texts.old.items ++ specs.segment_texts (S.bytes source.now) segment.now)) }
{
    // Its contract says that offsets in the file are below 2^64.
    let _length = source.len();
    let gap = (PAGE - segment.address % PAGE) % PAGE;
    let pages = size.saturating_sub(gap) / PAGE;
    if pages == 0 {
        return Ok(());
    }
    add_pages(source, segment.offset + gap, pages, buffer, texts, progress)
}

/// Adds the texts in pages, which are those from an offset of the file on.
fn add_pages<S: ByteSource, G: Progress>(
    source: &S,
    offset: u64,
    pages: u64,
    buffer: &mut [u8],
    texts: &mut Vec<KernelText>,
    progress: &G,
) -> Result<(), DumpError>
    requires inside { offset + 4096 * pages ≤ S.size source.now }
    requires fits { offset + 4096 * pages < 2 ^ 64 }
    requires buffer { length buffer.old ≡ 1048576 }
    ensures length { length buffer.new ≡ 1048576 }
    ensures texts { S.IsKnown → OpensAs S.may_fail (λ _. texts.new.items) result
        (Ok (texts.old.items ++ specs.texts_in pages offset (drop offset (S.bytes source.now)))) }
{
    let mut done = 0;
    while done < pages {
        let more = (pages - done).min(MOST_PAGES);
        add_chunk(source, offset + PAGE * done, more, buffer, texts)?;
        done += more;
        progress.searched(offset + PAGE * done);
    }
    Ok(())
}

/// Adds the texts in a few pages, which are read at once.
fn add_chunk<S: ByteSource>(
    source: &S,
    offset: u64,
    pages: u64,
    buffer: &mut [u8],
    texts: &mut Vec<KernelText>,
) -> Result<(), DumpError>
    requires inside { offset + 4096 * pages ≤ S.size source.now }
    requires fits { offset + 4096 * pages < 2 ^ 64 }
    requires few { 4096 * pages ≤ length buffer.old }
    ensures length { length buffer.new ≡ length buffer.old }
    ensures texts { S.IsKnown → OpensAs S.may_fail (λ _. texts.new.items) result
        (Ok (texts.old.items ++ specs.texts_in pages offset (drop offset (S.bytes source.now)))) }
{
    let chunk = &mut buffer[..(PAGE * pages) as usize];
    source.read_exact_at(chunk, offset)?;
    push_texts(chunk, offset, texts)?;
    Ok(())
}
