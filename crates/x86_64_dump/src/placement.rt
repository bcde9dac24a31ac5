//! Where the bytes of raw files lie in physical memory.
ghost use Rattle.std.specs.Prelude.{◌≡◌, false, Ok, IfOk, map};
ghost use Rattle.x86_64_dump.specs.Placement.{first_fault, range_fault, range_segment, raw_segments, refuse_stated, whole_file};
ghost use Rattle.x86_64_dump.specs.Opening.{OpensAs, GivesAtOnce};

use crate::error::{DumpError, Fault};
use crate::segment::Segment;
use crate::source::ends_after;
use std::alloc::{AllocError, Global};

/// Where the bytes of a raw file lie in physical memory.
#[derive(Debug, Drop)]
pub enum Placement {
    /// It isn't said. All bytes of a raw file lie one after the other from address 0 on, and the headers of other files say where
    /// memory lies.
    Unstated,
    /// All bytes lie one after the other from this physical address on.
    Base(u64),
    /// The bytes of these ranges are memory, and no others. Ranges may overlap: the first one that has all 4096 bytes of a frame
    /// counts.
    Ranges(Vec<RawRange>),
}

/// A range of bytes of a raw file, and where they lie in physical memory.
#[derive(Clone, Copy, Debug, PartialEq, Eq)]
pub struct RawRange {
    /// The offset of the first byte in the file.
    pub offset: u64,
    /// The physical address of the first byte.
    pub address: u64,
    /// The number of bytes.
    pub size: u64,
}

impl RawRange {
    /// Returns why the range can't be one of a file of this length, or `None` if it can.
    #[tactic(auto, unfolding(crate::specs::Placement::range_fault))]
    fn fault_in(&self, length: u64) -> Option<Fault>
        ensures { result ≡ range_fault length self.now }
    {
        let &RawRange {
            offset,
            address,
            size,
        } = self;
        if size == 0 {
            Some(Fault::RangeEmpty { offset, address })
        } else if ends_after(offset, size, length) {
            Some(Fault::RangeOutside {
                offset,
                size,
                length,
            })
        } else if size - 1 > u64::MAX - address {
            Some(Fault::RangeTooHigh { address, size })
        } else {
            None
        }
    }

    /// Returns the range as a segment of memory.
    fn segment(&self) -> Segment
        ensures { result ≡ range_segment self.now }
    {
        Segment {
            kind: Segment::LOAD,
            offset: self.offset,
            address: self.address,
            size: self.size,
        }
    }
}

/// Refuses a placement that is stated, for a file whose own headers say where memory lies.
pub fn refuse_stated(placement: &Placement) -> Result<(), DumpError>
    ensures { GivesAtOnce false (λ done. done) result (refuse_stated placement.now) }
{
    match placement {
        Placement::Unstated => Ok(()),
        _ => Err(DumpError::Fault(Fault::PlacementGiven)),
    }
}

/// Returns the segments of a raw file of this length.
pub fn raw_segments(
    alloc: Global,
    length: u64,
    placement: &Placement,
) -> Result<Vec<Segment>, DumpError>
    ensures { OpensAs false (λ v. v.items) result (raw_segments length placement.now) }
{
    match placement {
        Placement::Unstated => whole_file(alloc, length, 0),
        Placement::Base(base) => whole_file(alloc, length, *base),
        Placement::Ranges(ranges) => match first_fault(length, ranges) {
            Some(fault) => Err(DumpError::Fault(fault)),
            None => Ok(segments_of(alloc, ranges)?),
        },
    }
}

/// Returns the segments of ranges, in their order.
fn segments_of(alloc: Global, ranges: &[RawRange]) -> Result<Vec<Segment>, AllocError>
    ensures { IfOk result (λ segments. segments.items ≡ map range_segment ranges.now) }
{
    ranges.iter().map(|range| range.segment()).collect(alloc)
}

/// Returns all bytes of a raw file of this length, from an address on, as a segment.
fn whole_file(alloc: Global, length: u64, address: u64) -> Result<Vec<Segment>, DumpError>
    ensures { OpensAs false (λ v. v.items) result (Ok (whole_file length address)) }
{
    let whole = Segment {
        kind: Segment::LOAD,
        offset: 0,
        address,
        size: length,
    };
    Ok(vec![in alloc; whole]?)
}

/// Returns why the first of the ranges that can't be one of a file of this length can't, or `None` if all can.
fn first_fault(length: u64, ranges: &[RawRange]) -> Option<Fault>
    ensures { result ≡ first_fault length ranges.now }
{
    for range in ranges {
        let fault = range.fault_in(length);
        if fault.is_some() {
            return fault;
        }
    }
    None
}
