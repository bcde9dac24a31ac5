//! The totals of what was read, and what it maps.
ghost use Rattle.std.specs.Prelude.{◌≡◌, Some, length, sum_by};
ghost use Rattle.std.specs.FinMap as finite;
ghost use Rattle.x86_64_model.specs.Mappings.{mappings_of};
ghost use Rattle.ptdump_check.specs.Loaded.{IsLoadedDump, words_loaded};
ghost use Rattle.ptdump_engine.specs.Totals.{IsMappedMemory};

use ptdump_check::Loaded;
use ptdump_picture::ShortSize;
use std::fmt::{Display, Formatter, Result as FmtResult, Write};
use x86_64_addr::addr::VirtAddrIn;
use x86_64_addr::level_count::LevelCount;
use x86_64_mappings::mappings_from;
use x86_64_tables::phys_memory::IdentityMapping;

/// The number of tables that were read, and how much they map. The text has the number of bytes as a short one, rounded down.
#[derive(Clone, Copy)]
pub struct Totals {
    /// The number of tables.
    pub tables: usize,
    /// The number of mappings.
    pub mappings: u64,
    /// The number of mapped bytes.
    pub bytes: u64,
}

impl Totals {
    /// Returns the totals of the tables below a root. A missing root maps nothing.
    pub fn of<L: LevelCount>(loaded: &Loaded<'_, L>) -> Totals
        ensures tables { result.tables ≡ finite.len loaded.now.tables.now.memory }
        ensures mapped { IsLoadedDump loaded.now →
            IsMappedMemory (mappings_of L.LEVELS (words_loaded loaded.now) loaded.now.root) result }
    {
        let (mappings, bytes) = match loaded.summaries.of(L::LEVELS, loaded.root) {
            Some(summary) => (summary.count, summary.bytes),
            None => count_mappings(loaded),
        };
        Totals {
            tables: loaded.tables.len(),
            mappings,
            bytes,
        }
    }
}

/// Counts the mappings below a root, and the bytes that they map, one by one.
fn count_mappings<L: LevelCount>(loaded: &Loaded<'_, L>) -> (u64, u64)
    ensures count { result.0 ≡ length (mappings_of L.LEVELS (words_loaded loaded.now) loaded.now.root) }
    ensures bytes { result.1
        ≡ sum_by (λ m. m.size) (mappings_of L.LEVELS (words_loaded loaded.now) loaded.now.root) }
{
    let memory = loaded.tables.memory();
    let mut count = 0;
    let mut bytes = 0;
    for mapping in mappings_from(
        memory,
        &IdentityMapping,
        loaded.root,
        VirtAddrIn::<L>::zero(),
    ) {
        count += 1;
        bytes += mapping.size();
    }
    (count, bytes)
}

impl Display for Totals {
    ghost use Rattle.ptdump_engine.specs.Totals.{totals_text};

    ghost output = { λ totals. Some (totals_text totals) };

    fn fmt<W: Write>(&self, f: &mut Formatter<W>) -> FmtResult {
        let tables = self.tables;
        let mappings = self.mappings;
        let mapped = ShortSize(self.bytes);
        write!(f, "tables {tables}, mappings {mappings}, mapped {mapped}")
    }
}
