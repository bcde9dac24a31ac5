//! The search for the segment that has a frame.
ghost use Rattle.std.specs.Prelude.{◌≡◌, ◌<◌, ◌≤◌, ◌^◌, ℕ, ◌&&◌, ◌∷◌, [], false, nat_le, nat_lt, IfOk, IfSome, IfNone};
ghost use Rattle.x86_64_dump.specs.Dump.{has_frame, frame_offset};
ghost use Rattle.x86_64_dump.specs.private.Search.{AreInOrder, AreSorted, FindFirst, place_at, offset_at};

mod merging;

use crate::segment::Segment;
use merging::merge;
use std::alloc::{AllocError, Global};

/// The size of a frame.
const FRAME_SIZE: u64 = 4096;

/// Where a segment begins, in physical memory and in the file.
#[derive(Clone, Copy)]
pub struct Place {
    /// The physical address of its first byte.
    pub address: u64,
    /// The offset of its first byte in the file.
    pub offset: u64,
}

/// The frames from an address on, up to the next stretch, with the segment that has them.
#[derive(Clone, Copy)]
pub struct Stretch {
    /// The address.
    pub from: u64,
    /// Where the segment begins, or `None` if no segment has these frames.
    pub place: Option<Place>,
}

/// Returns stretches, in order of their addresses, by which the offset of a frame is that in the first of the segments that has it,
/// in a file of this length.
#[tactic(auto, using(crate::proofs::Stretches::not_falling, crate::proofs::Stretches::offsets_found))]
pub fn sorted_stretches(
    alloc: Global,
    segments: &[Segment],
    length: u64,
) -> Result<Vec<Stretch>, AllocError>
    ensures order { IfOk result (λ stretches. AreSorted stretches.items) }
    ensures offsets { IfOk result (λ stretches. (frame : ℕ) → frame < 2 ^ 52 →
        offset_at stretches.items frame ≡ frame_offset length segments.now frame) }
{
    let stretches = stretches_of(alloc, segments, length)?;
    Ok(stretches)
}

/// Returns stretches, in order of their addresses, that say which is the first of the segments that has a frame, in a file of this
/// length.
///
/// The segments are halved, and the stretches of both halves are merged. So there are at most two stretches for each segment, and
/// the time is that of a sort, however the segments overlap.
fn stretches_of(
    alloc: Global,
    segments: &[Segment],
    length: u64,
) -> Result<Vec<Stretch>, AllocError>
    ensures order { IfOk result (λ stretches. AreInOrder stretches.items) }
    ensures first { IfOk result (λ stretches. FindFirst length segments.now stretches.items) }
{
    if segments.len() < 2 {
        return match segments.first() {
            Some(segment) => stretches_of_one(alloc, segment, length),
            None => Ok(Vec::new(alloc)),
        };
    }
    let (front, back) = segments.split_at(segments.len() / 2);
    let front = stretches_of(alloc, front, length)?;
    let back = stretches_of(alloc, back, length)?;
    merge(alloc, &front, &back)
}

/// Returns the stretches of one segment.
fn stretches_of_one(
    alloc: Global,
    segment: &Segment,
    length: u64,
) -> Result<Vec<Stretch>, AllocError>
    ensures order { IfOk result (λ stretches. AreInOrder stretches.items) }
    ensures first { IfOk result (λ stretches. FindFirst length (segment.now ∷ []) stretches.items) }
{
    let mut stretches = Vec::new(alloc);
    if let Some(end) = end_of_frames(segment, length) {
        let place = Place {
            address: segment.address,
            offset: segment.offset,
        };
        stretches.push(Stretch {
            from: segment.address,
            place: Some(place),
        })?;
        stretches.push(Stretch {
            from: end,
            place: None,
        })?;
    }
    Ok(stretches)
}

/// Returns the address behind the last whole frame that a segment and a file of this length have, or `None` if they have none.
fn end_of_frames(segment: &Segment, length: u64) -> Option<u64>
    ensures order { IfSome result (λ end. segment.now.address ≤ end) }
    ensures some { IfSome result (λ end. (frame : ℕ) → frame < 2 ^ 52 →
        has_frame length frame segment.now ≡ (nat_le segment.now.address frame && nat_lt frame end)) }
    ensures none { IfNone result ((frame : ℕ) → has_frame length frame segment.now ≡ false) }
{
    if !segment.is_memory() {
        return None;
    }
    let in_file = length.checked_sub(segment.offset)?;
    let last = segment.size.min(in_file).checked_sub(FRAME_SIZE)?;
    Some(segment.address.saturating_add(last).saturating_add(1))
}

/// Returns the offset in the file of the frame at an address, or `None` if no segment has it.
pub fn offset_at(stretches: &[Stretch], address: u64) -> Option<u64>
    requires order { AreSorted stretches.now }
    requires fits { IfSome (offset_at stretches.now address) (λ offset. offset < 2 ^ 64) }
    ensures { result ≡ offset_at stretches.now address }
{
    let place = place_at(stretches, address)?;
    Some(place.offset + address.saturating_sub(place.address))
}

/// Returns where the segment begins that has the frame at an address, or `None` if none has it.
fn place_at(stretches: &[Stretch], address: u64) -> Option<Place>
    requires { AreSorted stretches.now }
    ensures { result ≡ place_at stretches.now address }
{
    let count = stretches.partition_point(|stretch| stretch.from <= address);
    if count == 0 {
        return None;
    }
    stretches[count - 1].place
}
