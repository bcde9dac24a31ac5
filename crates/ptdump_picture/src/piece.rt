//! Regions that are drawn as one box.
ghost use Rattle.std.specs.Prelude.{◌≤◌, ◌<◌, vec_len, IfOk, IfSome};

use crate::rights::{KIND_COUNT, Kind};
use crate::size::ShortSize;
use std::alloc::{AllocError, Global};
use std::fmt::{Display, Formatter, Result as FmtResult, Write};
use x86_64_addr::level_count::LevelCount;
use x86_64_mappings::RegionIn;

/// The greatest number of boxes in a bar.
const MOST_PIECES: usize = 40;

/// Regions that are drawn as one box: a single region, or neighbours if there are too many for a box each.
#[derive(Clone, Copy)]
pub(crate) struct Piece {
    /// The first address.
    pub first: u64,
    /// The last address.
    pub last: u64,
    /// The number of regions.
    pub region_count: u64,
    /// The mapped bytes.
    pub shares: Shares,
}

impl Piece {
    /// Creates the piece of a single region.
    fn of<L: LevelCount>(region: &RegionIn<L>) -> Piece {
        let mut shares = Shares {
            bytes: [0; KIND_COUNT],
        };
        shares.add(region);
        Piece {
            first: region.first.as_u64(),
            last: region.last.as_u64(),
            region_count: 1,
            shares,
        }
    }

    /// Adds the next region.
    fn take_in<L: LevelCount>(&mut self, region: &RegionIn<L>) {
        self.shares.add(region);
        self.last = region.last.as_u64();
        self.region_count = self.region_count.saturating_add(1);
    }

    /// Returns true if the next region is near: its size or that of the piece, whichever is smaller, and the gap between them
    /// add up to at most `reach`.
    fn is_near<L: LevelCount>(&self, region: &RegionIn<L>, reach: u64) -> bool {
        let distance = region.first.as_u64().saturating_sub(self.last);
        let smaller = region.size().min(self.size());
        smaller.saturating_add(distance.saturating_sub(1)) <= reach
    }

    /// Returns the number of bytes from the first address to the last one.
    pub fn size(&self) -> u64 {
        self.last.saturating_sub(self.first).saturating_add(1)
    }
}

/// The number of mapped bytes for each kind of rights.
#[derive(Clone, Copy)]
pub(crate) struct Shares {
    /// The numbers of bytes, indexed by the number of the kind.
    pub bytes: [u64; KIND_COUNT],
}

impl Shares {
    /// Adds a region.
    fn add<L: LevelCount>(&mut self, region: &RegionIn<L>) {
        let kind = Kind::of(region).number();
        self.bytes[kind] = self.bytes[kind].saturating_add(region.size());
    }

    /// Returns the total number of bytes.
    pub fn sum(&self) -> u64 {
        self.bytes
            .iter()
            .fold(0, |sum: u64, bytes| sum.saturating_add(*bytes))
    }

    /// Returns the number of the kind with the most bytes.
    pub fn largest(&self) -> usize {
        let mut most = 0;
        let mut largest = 0;
        for (number, bytes) in self.bytes.iter().enumerate() {
            if *bytes > most {
                most = *bytes;
                largest = number;
            }
        }
        largest
    }

    /// Returns the number of kinds that have bytes.
    pub fn kind_count(&self) -> usize {
        self.bytes.iter().filter(|bytes| **bytes > 0).count()
    }
}

impl Display for Shares {
    fn fmt<W: Write>(&self, f: &mut Formatter<W>) -> FmtResult {
        let mut separator = "";
        for number in 0..KIND_COUNT {
            let bytes = self.bytes[number];
            if bytes > 0 {
                let kind = Kind::with_number(number);
                let size = ShortSize(bytes);
                write!(f, "{separator}{kind} {size}")?;
                separator = ", ";
            }
        }
        Ok(())
    }
}

/// Returns the pieces for the regions between two addresses, in order. If there are too many regions, small ones are combined
/// with a neighbour.
pub(crate) fn pieces_between<L: LevelCount>(
    alloc: Global,
    regions: &[RegionIn<L>],
    first: u64,
    last: u64,
) -> Result<Vec<Piece>, AllocError>
    ensures { IfOk result (λ pieces. vec_len pieces ≤ MOST_PIECES) }
{
    let mut reach: u64 = 0;
    for _ in 0..u64::BITS {
        if let Some(pieces) = pieces_by(alloc, regions, first, last, reach)? {
            return Ok(pieces);
        }
        reach = reach.saturating_mul(2).max(4096);
    }
    Ok(Vec::new(alloc))
}

/// Returns the pieces if each region within `reach` of the piece before it is added to that piece, or `None` if there are too
/// many pieces.
fn pieces_by<L: LevelCount>(
    alloc: Global,
    regions: &[RegionIn<L>],
    first: u64,
    last: u64,
    reach: u64,
) -> Result<Option<Vec<Piece>>, AllocError>
    ensures { IfOk result (λ drawn. IfSome drawn (λ pieces. vec_len pieces ≤ MOST_PIECES)) }
{
    let mut pieces: Vec<Piece> = Vec::new(alloc);
    for region in regions {
        let start = region.first.as_u64();
        if start < first || last < start {
            continue;
        }
        if let Some(piece) = pieces.last_mut()
            && piece.is_near(region, reach)
        {
            piece.take_in(region);
        } else if pieces.len() == MOST_PIECES {
            return Ok(None);
        } else {
            pieces.push(Piece::of(region))?;
        }
    }
    Ok(Some(pieces))
}
