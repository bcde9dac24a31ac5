//! LiME files.
ghost use Rattle.std.specs.Prelude.{◌≡◌, ◌+◌, ◌<◌, ◌^◌, false, length, IfOk};
ghost use Rattle.x86_64_dump.specs.Formats.Lime.{cut_header, lime_segments, range_at, range_behind, range_header_at};
ghost use Rattle.x86_64_dump.specs.Opening.{OpensAs, GivesAtOnce};

use crate::error::{DumpError, Fault};
use crate::numbers::{read_u32, read_u64};
use crate::segment::Segment;
use crate::source::{ByteSource, ends_after};
use std::alloc::Global;

/// The first four bytes of each header, `LIME_MAGIC`.
const LIME_MAGIC: u32 = 0x4c69_4d45;

/// The version whose ranges are as they were in memory.
const VERSION: u32 = 1;

/// The size of a header.
const HEADER_SIZE: u64 = 32;

/// The header of a range of memory, without its last eight bytes, which are reserved. LiME, `lime_mem_range_header`.
#[derive(Clone, Copy)]
pub struct RangeHeader {
    /// The first four bytes, `magic`.
    pub magic: u32,
    /// The version of the format.
    pub version: u32,
    /// The physical address of the first byte, `s_addr`.
    pub first: u64,
    /// The physical address of the last byte, `e_addr`.
    pub last: u64,
}

/// Reads the ranges of a LiME file, as segments of memory. If the file is cut off, the last segment ends after it: it is the memory
/// of a range, or a header.
pub fn read_lime<S: ByteSource>(alloc: Global, source: &S) -> Result<Vec<Segment>, DumpError>
    ensures { S.IsKnown → OpensAs S.may_fail (λ v. v.items) result (lime_segments (S.bytes source.now)) }
{
    let length = source.len();
    let mut segments = Vec::new(alloc);
    let mut at = 0;
    while at < length {
        let range = read_range(source, at)?;
        segments.push(range)?;
        let Some(end) = range.offset.checked_add(range.size) else {
            return Ok(segments);
        };
        at = end;
    }
    Ok(segments)
}

/// Reads the range whose header is at an offset.
fn read_range<S: ByteSource>(source: &S, at: u64) -> Result<Segment, DumpError>
    ensures range { S.IsKnown → GivesAtOnce S.may_fail (λ range. range) result
        (range_at (S.bytes source.now) at) }
    ensures after { IfOk result (λ range. at < range.offset + range.size) }
{
    let length = source.len();
    if ends_after(at, HEADER_SIZE, length) {
        return cut_header(at, length);
    }
    let mut bytes = [0; 32];
    source.read_exact_at(&mut bytes, at)?;
    match range_behind(&header_in(&bytes), at) {
        Ok(range) => Ok(range),
        Err(fault) => Err(DumpError::Fault(fault)),
    }
}

/// Returns the header at an offset as a segment of no kind if it isn't the first one, where a file of this length ends within it.
fn cut_header(at: u64, length: u64) -> Result<Segment, DumpError>
    ensures header { GivesAtOnce false (λ range. range) result (cut_header length at) }
    ensures after { IfOk result (λ range. at < range.offset + range.size) }
{
    if at == 0 {
        Err(DumpError::Fault(Fault::RangeHeaderCut { length }))
    } else {
        Ok(Segment {
            kind: Segment::OTHER,
            offset: at,
            address: 0,
            size: HEADER_SIZE,
        })
    }
}

/// Returns the fields of a header.
#[tactic(auto, unfolding(crate::specs::Formats::Lime::range_header_at))]
fn header_in(bytes: &[u8]) -> RangeHeader
    requires { length bytes.now ≡ 32 }
    ensures { result ≡ range_header_at bytes.now 0 }
{
    RangeHeader {
        magic: read_u32(bytes, 0),
        version: read_u32(bytes, 4),
        first: read_u64(bytes, 8),
        last: read_u64(bytes, 16),
    }
}

/// Returns the range behind the header at an offset.
#[tactic(auto, unfolding(crate::specs::Formats::Lime::range_behind))]
fn range_behind(header: &RangeHeader, at: u64) -> Result<Segment, Fault>
    requires { at + 32 < 2 ^ 64 }
    ensures range { result ≡ range_behind at header.now }
    ensures after { IfOk result (λ range. at < range.offset + range.size) }
{
    let &RangeHeader { first, last, .. } = header;
    if header.magic != LIME_MAGIC {
        Err(Fault::NoRangeHeader { offset: at })
    } else if header.version != VERSION {
        Err(Fault::WrongLimeVersion {
            offset: at,
            version: header.version,
        })
    } else if last < first {
        Err(Fault::RangeReversed {
            offset: at,
            first,
            last,
        })
    } else {
        Ok(Segment {
            kind: Segment::LOAD,
            offset: at + HEADER_SIZE,
            address: first,
            size: (last - first).saturating_add(1),
        })
    }
}
