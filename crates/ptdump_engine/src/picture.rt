//! The report that is a picture.
ghost use Rattle.std.specs.Prelude.{⊤};

use crate::destination::Destination;
use crate::output::{Output, OutputError};
use crate::totals::Totals;
use ptdump_check::Loaded;
use ptdump_picture::{MOST_DRAWN_TABLES, Mapped, Picture, TableLink, table_links};
use std::alloc::{AllocError, Global};
use x86_64_addr::level_count::LevelCount;
use x86_64_mappings::{RegionIn, Visitor, visit_regions};
use x86_64_tables::phys_memory::IdentityMapping;

/// A visitor that collects the regions.
#[derive(Drop)]
struct Collector<L: LevelCount> {
    regions: Vec<RegionIn<L>>,
}

impl<L: LevelCount> Visitor<RegionIn<L>> for Collector<L> {
    type Error = AllocError;

    ghost Visits = { λ _ _ _. ⊤ };

    fn visit(&mut self, region: RegionIn<L>) -> Result<(), AllocError> {
        self.regions.push(region)?;
        Ok(())
    }

    ghost none = { λ _. tt };

    ghost both = { λ _ _ _ _ _ _ _. tt };
}

/// Writes a picture of the regions and the tables.
///
/// # Errors
///
/// `OutputError::OutOfMemory` if memory allocation fails, `OutputError::Write` if a write fails.
pub fn write_picture<L: LevelCount, W: Destination>(
    alloc: Global,
    loaded: &Loaded<'_, L>,
    output: &mut Output<'_, W>,
) -> Result<(), OutputError<W>> {
    let mut collector = Collector::<L> {
        regions: Vec::new(alloc),
    };
    visit_regions::<L, _, _, _>(loaded.summaries, loaded.root, &mut collector)?;
    let links = links_of(alloc, loaded)?;
    let totals = Totals::of(loaded);
    let picture = Picture::new(
        alloc,
        &Mapped {
            root: loaded.root,
            regions: &collector.regions,
            mapping_count: totals.mappings,
            mapped: totals.bytes,
            table_count: totals.tables as u64,
            tables: loaded.tables.frames(),
            links: &links,
        },
    )?;
    write!(output, "{picture}")
}

/// Returns the links between tables, or no links if there are too many tables to be drawn.
fn links_of<L: LevelCount>(
    alloc: Global,
    loaded: &Loaded<'_, L>,
) -> Result<Vec<TableLink>, AllocError> {
    let tables = loaded.tables;
    if tables.len() > MOST_DRAWN_TABLES {
        return Ok(Vec::new(alloc));
    }
    table_links(alloc, tables.memory(), &IdentityMapping, tables.frames())
}
