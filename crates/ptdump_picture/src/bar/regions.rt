//! The boxes of regions.
ghost use Rattle.std.specs.Prelude.{◌≤◌, ◌<◌};

use super::{BAR_WIDTH, beside};
use crate::area::{Area, LINE_HEIGHT};
use crate::piece::{Piece, Shares};
use crate::rights::{KIND_COUNT, Kind};
use crate::size::{Count, ExactSize, ShortSize};
use std::fmt::{Formatter, Result as FmtResult, Write};

/// The height that each doubling of the size adds to a box.
const DOUBLING_HEIGHT: u64 = 2;

/// The least width of the strip for a kind of rights, in a box with several kinds.
const STRIP_WIDTH: u64 = 6;

/// The greatest number of kinds of rights that are listed beside a box.
const MOST_NAMED_KINDS: usize = 3;

/// Returns the height of the box of regions. It grows with their size, and is at least that of the text.
pub(super) fn region_height(piece: &Piece) -> u64
    ensures low { LINE_HEIGHT ≤ result }
    ensures high { result ≤ 200 }
{
    let doublings = u64::from(piece.size().max(4096).ilog2()).saturating_sub(12);
    let lines = if piece.region_count > 1 { 2 } else { 1 };
    (LINE_HEIGHT + DOUBLING_HEIGHT * doublings).max(LINE_HEIGHT * lines)
}

/// Writes regions that are drawn as one box.
pub(super) fn write_regions<W: Write>(
    f: &mut Formatter<W>,
    area: Area,
    piece: &Piece,
) -> FmtResult {
    f.write_str("<g>")?;
    write_tooltip(f, piece)?;
    write_colours(f, area, &piece.shares)?;
    area.write_styled(f, "box")?;
    write_label(f, area, piece)?;
    f.write_str("</g>\n")
}

/// Writes the text that is shown while the pointer rests on regions.
fn write_tooltip<W: Write>(f: &mut Formatter<W>, piece: &Piece) -> FmtResult {
    let Piece {
        first,
        last,
        shares,
        ..
    } = *piece;
    let size = ExactSize(piece.size());
    let regions = Count::regions(piece.region_count);
    write!(
        f,
        "<title>0x{first:x}-0x{last:x} {size}, {regions}: {shares}</title>\n"
    )
}

/// Fills a box with the colours of rights: the colour of the most bytes, and strips of the other colours at the right.
fn write_colours<W: Write>(f: &mut Formatter<W>, area: Area, shares: &Shares) -> FmtResult {
    let largest = shares.largest();
    Kind::with_number(largest).write_filled(f, area)?;
    let mut right = area.right();
    for number in 0..KIND_COUNT {
        let bytes = shares.bytes[number];
        if number != largest && bytes > 0 {
            let width = strip_width(bytes, shares.sum());
            right = right.saturating_sub(width);
            let strip = Area {
                left: right,
                width,
                ..area
            };
            Kind::with_number(number).write_filled(f, strip)?;
        }
    }
    Ok(())
}

/// Returns the width of the strip for some of the mapped bytes.
fn strip_width(bytes: u64, mapped: u64) -> u64
    ensures low { STRIP_WIDTH ≤ result }
    ensures high { result ≤ BAR_WIDTH }
{
    let room = BAR_WIDTH - STRIP_WIDTH * KIND_COUNT as u64;
    STRIP_WIDTH + bytes.min(mapped) / (mapped / room + 1)
}

/// Writes addresses, size and rights beside the box of regions.
fn write_label<W: Write>(f: &mut Formatter<W>, area: Area, piece: &Piece) -> FmtResult {
    let Piece {
        first,
        last,
        shares,
        ..
    } = *piece;
    let size = ShortSize(piece.size());
    let mut place = beside(area);
    if piece.region_count > 1 {
        place.y = place.y.saturating_sub(7);
        write_shares(f, area, piece)?;
    }
    if shares.kind_count() > 1 {
        place.write_text(
            f,
            "code",
            format_args!("0x{first:x}-0x{last:x} {size} mixed"),
        )
    } else {
        let kind = Kind::with_number(shares.largest());
        place.write_text(
            f,
            "code",
            format_args!("0x{first:x}-0x{last:x} {size} {kind}"),
        )
    }
}

/// Writes which regions a box consists of.
fn write_shares<W: Write>(f: &mut Formatter<W>, area: Area, piece: &Piece) -> FmtResult {
    let place = beside(area).below(7);
    let shares = piece.shares;
    let regions = Count::regions(piece.region_count);
    let kind_count = shares.kind_count();
    if kind_count > MOST_NAMED_KINDS {
        place.write_text(
            f,
            "note",
            format_args!("{regions}, rights of {kind_count} kinds"),
        )
    } else {
        place.write_text(f, "note", format_args!("{regions}: {shares}"))
    }
}
