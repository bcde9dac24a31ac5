//! Mappings and regions in columns of fixed widths.
ghost use Rattle.std.specs.Fmt.{WritesOnOk};
ghost use Rattle.ptdump_json.specs.Columns as columns;

use crate::columns::{NumberColumn, SizeColumn};
use crate::names::write_names;
use bitflags::Flags;
use std::fmt::{Formatter, Result as FmtResult, Write};
use text::write_hexadecimal;
use x86_64_addr::level_count::LevelCount;
use x86_64_mappings::{MappingIn, RegionIn};
use x86_64_tables::page_table::Rights;

/// Writes a mapping in columns: its start, its size, the start of its frame, its rights, and its flags.
pub fn write_aligned<L: LevelCount, W: Write>(
    f: &mut Formatter<W>,
    mapping: &MappingIn<L>,
) -> FmtResult
    ensures { WritesOnOk W.write_str_gives f.old result (columns.aligned_mapping L.LEVELS mapping.now) f.new }
{
    write_place(f, mapping)?;
    f.write_str(" ")?;
    write_hexadecimal(f, mapping.flags.bits())
}

/// Writes a mapping in columns, with the names of its flags.
pub fn write_aligned_named<L: LevelCount, W: Write>(
    f: &mut Formatter<W>,
    mapping: &MappingIn<L>,
) -> FmtResult
    ensures { WritesOnOk W.write_str_gives f.old result (columns.aligned_named L.LEVELS mapping.now) f.new }
{
    let flags = NumberColumn {
        number: mapping.flags.bits(),
        digits: 16,
    };
    write_place(f, mapping)?;
    write!(f, " {flags} ")?;
    write_names(f, mapping.size(), mapping.flags.bits())
}

/// Writes the start of a mapping, its size, the start of its frame, and its rights, in columns.
fn write_place<L: LevelCount, W: Write>(f: &mut Formatter<W>, mapping: &MappingIn<L>) -> FmtResult
    ensures { WritesOnOk W.write_str_gives f.old result (columns.aligned_place L.LEVELS mapping.now) f.new }
{
    write_place_columns(
        f,
        mapping.start.as_u64(),
        mapping.size(),
        mapping.frame.start_address().as_u64(),
        mapping.rights,
    )
}

/// Writes these parts of a mapping in columns.
#[tactic(auto, unfolding(crate::specs::Columns::place_columns))]
fn write_place_columns<W: Write>(
    f: &mut Formatter<W>,
    start: u64,
    size: u64,
    frame: u64,
    rights: Rights,
) -> FmtResult
    ensures { WritesOnOk W.write_str_gives f.old result
        (columns.place_columns start size frame rights) f.new }
{
    let start = NumberColumn {
        number: start,
        digits: 16,
    };
    let size = SizeColumn {
        bytes: size,
        digits: 1,
    };
    let frame = NumberColumn {
        number: frame,
        digits: 13,
    };
    write!(f, "{start} {size} {frame} {rights}")
}

/// Writes a region in columns: its first and its last address, its size, and its rights.
#[tactic(auto, unfolding(crate::specs::Columns::aligned_region))]
pub fn write_aligned_region<L: LevelCount, W: Write>(
    f: &mut Formatter<W>,
    region: &RegionIn<L>,
) -> FmtResult
    ensures { WritesOnOk W.write_str_gives f.old result (columns.aligned_region L.LEVELS region.now) f.new }
{
    let first = NumberColumn {
        number: region.first.as_u64(),
        digits: 16,
    };
    let last = NumberColumn {
        number: region.last.as_u64(),
        digits: 16,
    };
    let size = SizeColumn {
        bytes: region.size(),
        digits: 14,
    };
    let rights = region.rights;
    write!(f, "{first} - {last} {size} {rights}")
}
