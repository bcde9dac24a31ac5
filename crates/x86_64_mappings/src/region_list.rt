//! The regions below a root, one after the other.
ghost use Rattle.std.specs.Prelude.{◌≡◌};
ghost use Rattle.std.specs.Iterator.{YieldsFirst, item_count};
ghost use Rattle.x86_64_model.specs.Memory.{words_of};
ghost use Rattle.x86_64_model.specs.Regions as model;

use crate::joiner::Joiner;
use crate::listing::{MappingsIn, all_mappings};
use crate::region::RegionIn;
use std::marker::Model;
use x86_64_addr::level_count::{FiveLevels, FourLevels, LevelCount};
use x86_64_page::frame::PhysFrame;
use x86_64_page::page::Size4KiB;
use x86_64_tables::phys_memory::{PageTableFrameMapping, TableMemory};

/// An iterator over the regions below a root, each once, in order of their addresses. After the last it always returns
/// `None`. Contracts see it as the list of the regions that are still to come.
///
/// It allocates no memory. It iterates over the mappings, and reads one mapping ahead.
#[derive(Drop)]
pub struct RegionsIn<'a, L: LevelCount, T: TableMemory, P: PageTableFrameMapping> {
    joiner: Joiner<L>,
    mappings: MappingsIn<'a, L, T, P>,
}

/// The iterator over the regions below a root with four levels of page tables.
pub type Regions<'a, T, P> = RegionsIn<'a, FourLevels, T, P>;

/// The iterator over the regions below a root with five levels of page tables.
pub type Regions57<'a, T, P> = RegionsIn<'a, FiveLevels, T, P>;

impl<'a, L: LevelCount, T: TableMemory, P: PageTableFrameMapping> Model for RegionsIn<'a, L, T, P> {
    ghost use Rattle.std.specs.Prelude.{List};
    ghost use Rattle.x86_64_model.specs.Regions.{Region};
    ghost use Rattle.x86_64_mappings.specs.private.Joined.{AllFit, regions_from};

    ghost Value = { List Region };

    ghost view = { λ s. regions_from L.LEVELS s.joiner s.mappings };

    ghost invariant = { λ s. AllFit L.LEVELS s.mappings };
}

impl<'a, L: LevelCount, T: TableMemory, P: PageTableFrameMapping> Iterator
    for RegionsIn<'a, L, T, P> {
    type Item = RegionIn<L>;

    ghost next_gives = { YieldsFirst (λ s. s) };

    ghost remaining = { item_count (λ s. s) };

    fn next(&mut self) -> Option<RegionIn<L>> {
        while let Some(mapping) = self.mappings.next() {
            if let Some(region) = self.joiner.join(RegionIn::of(&mapping)) {
                return Some(region);
            }
        }
        self.joiner.finish()
    }
}

/// Returns an iterator over the regions below a root with four levels of page tables, in order of their addresses. It
/// allocates no memory. The tables may contain any words.
///
/// The regions are formed by the mappings that `mappings` lists.
pub fn regions<'a, T: TableMemory, P: PageTableFrameMapping>(
    memory: &'a T,
    mapping: &'a P,
    root: PhysFrame<Size4KiB>,
) -> Regions<'a, T, P>
    ensures { result ≡ model.regions_of 4 (words_of (T.tables memory.now) (P.places mapping.now)) root }
{
    all_regions(memory, mapping, root)
}

/// Returns an iterator over the regions below a root with five levels of page tables, in order of their addresses. It
/// allocates no memory. The tables may contain any words.
///
/// The regions are formed by the mappings that `mappings_57` lists.
pub fn regions_57<'a, T: TableMemory, P: PageTableFrameMapping>(
    memory: &'a T,
    mapping: &'a P,
    root: PhysFrame<Size4KiB>,
) -> Regions57<'a, T, P>
    ensures { result ≡ model.regions_of 5 (words_of (T.tables memory.now) (P.places mapping.now)) root }
{
    all_regions(memory, mapping, root)
}

/// Returns an iterator over the regions below a root with `L::LEVELS` levels of page tables.
#[tactic(auto, using(x86_64_model::proofs::Lemmas::Mappings::Placed::mappings_fit, crate::proofs::Joined::regions_joined))]
fn all_regions<'a, L: LevelCount, T: TableMemory, P: PageTableFrameMapping>(
    memory: &'a T,
    mapping: &'a P,
    root: PhysFrame<Size4KiB>,
) -> RegionsIn<'a, L, T, P>
    ensures { result
        ≡ model.regions_of L.LEVELS (words_of (T.tables memory.now) (P.places mapping.now)) root }
{
    RegionsIn {
        joiner: Joiner::new(),
        mappings: all_mappings(memory, mapping, root),
    }
}
