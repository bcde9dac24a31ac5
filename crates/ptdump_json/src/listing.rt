//! Lists of mappings and regions.
ghost use Rattle.std.specs.Prelude.{◌≡◌, Some};
ghost use Rattle.std.specs.Fmt.{WritesOnOk};
ghost use Rattle.ptdump_json.specs.ListedAreas as areas;

use crate::aligned::{write_aligned, write_aligned_named, write_aligned_region};
use crate::names::write_named;
use crate::options::Columns;
use linux_areas::{Area, Layout};
use std::fmt::{Display, Formatter, Result as FmtResult, Write};
use x86_64_addr::addr::VirtAddrIn;
use x86_64_addr::level_count::LevelCount;
use x86_64_mappings::{MappingIn, RegionIn};

/// How mappings and regions are listed. As JSON all are listed alike, but for their areas.
#[derive(Clone, Copy)]
pub struct Listing {
    /// The columns.
    pub columns: Columns,
    /// Whether the names of a mapping's flags are listed too.
    pub has_names: bool,
    /// Where the areas of the address space lie, if lines name the one in which a mapping or a region lies.
    pub layout: Option<Layout>,
}

impl Listing {
    /// Returns the area in which a region lies, if it is areas.
    pub fn area_of_region<L: LevelCount>(&self, region: &RegionIn<L>) -> Option<Area>
        ensures { result ≡ areas.area_of_region self.now.layout L.LEVELS region.now }
    {
        let layout = self.layout?;
        layout.area_at(region.first.as_u64(), region.last.as_u64())
    }

    /// Returns the area in which a mapping lies, if it is areas.
    pub fn area_of_mapping<L: LevelCount>(&self, mapping: &MappingIn<L>) -> Option<Area>
        ensures { result ≡ areas.area_of_mapping self.now.layout L.LEVELS mapping.now }
    {
        let layout = self.layout?;
        layout.area_at(mapping.start.as_u64(), last_of(mapping).as_u64())
    }
}

/// Returns the last address of a mapping, within the address space.
fn last_of<L: LevelCount>(mapping: &MappingIn<L>) -> VirtAddrIn<L>
    ensures { result ≡ areas.last_position_of L.LEVELS mapping.now }
{
    VirtAddrIn::new_truncate(mapping.start.position() + (mapping.size() - 1))
}

/// A mapping in a list.
#[derive(Clone, Copy)]
pub struct ListedMapping<L: LevelCount> {
    /// The mapping.
    pub mapping: MappingIn<L>,
    /// How it is listed.
    pub listing: Listing,
    /// The area in which it lies, if that is areas.
    pub area: Option<Area>,
}

/// A region in a list.
#[derive(Clone, Copy)]
pub struct ListedRegion<L: LevelCount> {
    /// The region.
    pub region: RegionIn<L>,
    /// How it is listed.
    pub listing: Listing,
    /// The area in which it lies, if that is areas.
    pub area: Option<Area>,
}

impl<L: LevelCount> Display for ListedMapping<L> {
    ghost use Rattle.ptdump_json.specs.Columns.{mapping_in};
    ghost use Rattle.std.specs.Prelude.{◌++◌};
    ghost use Rattle.ptdump_json.specs.ListedAreas.{area_text};

    ghost output = { λ listed.
        Some (mapping_in listed.listing.columns listed.listing.has_names L.LEVELS listed.mapping
        ++ area_text listed.area) };

    fn fmt<W: Write>(&self, f: &mut Formatter<W>) -> FmtResult {
        let mapping = self.mapping;
        match (self.listing.columns, self.listing.has_names) {
            (Columns::Plain, false) => write!(f, "{mapping}")?,
            (Columns::Plain, true) => write_named(f, &mapping)?,
            (Columns::Aligned, false) => write_aligned(f, &mapping)?,
            (Columns::Aligned, true) => write_aligned_named(f, &mapping)?,
        }
        write_area(f, self.area)
    }
}

impl<L: LevelCount> Display for ListedRegion<L> {
    ghost use Rattle.ptdump_json.specs.Columns.{region_in};
    ghost use Rattle.std.specs.Prelude.{◌++◌};
    ghost use Rattle.ptdump_json.specs.ListedAreas.{area_text};

    ghost output = { λ listed.
        Some (region_in listed.listing.columns L.LEVELS listed.region ++ area_text listed.area) };

    fn fmt<W: Write>(&self, f: &mut Formatter<W>) -> FmtResult {
        let region = self.region;
        match self.listing.columns {
            Columns::Plain => write!(f, "{region}")?,
            Columns::Aligned => write_aligned_region(f, &region)?,
        }
        write_area(f, self.area)
    }
}

/// Writes the last column of a line: the area, if it is known.
fn write_area<W: Write>(f: &mut Formatter<W>, area: Option<Area>) -> FmtResult
    ensures { WritesOnOk W.write_str_gives f.old result (areas.area_text area) f.new }
{
    match area {
        Some(area) => write!(f, "  {area}"),
        None => Ok(()),
    }
}
