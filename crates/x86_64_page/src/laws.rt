//! Laws of pages and frames: their order agrees with equality and with hashes, and steps through pages are counted. The blocks of
//! ranges are those of the definition, and are taken one by one. The bodies are empty; the contracts are the laws.
ghost use Rattle.std.specs.Prelude.{◌≡◌, ◌==◌, Some};
ghost use Rattle.std.specs.Ordering.{nat_cmp};
ghost use Rattle.std.specs.Hash as fed;
ghost use Rattle.x86_64_addr.specs.Position.{raw};
ghost use Rattle.x86_64_page.specs.PageSteps.{ArePageSteps};
ghost use Rattle.x86_64_page.specs.Ranges.{BlocksAreTheRange, InclusiveBlocksAreTheRange};
ghost use Rattle.x86_64_page.specs.TakenInTurn.{AreTakenInTurn};
ghost use Rattle.x86_64_page.specs.TakenInTurnInclusive.{AreTakenInTurnInclusive};

use crate::frame::PhysFrame;
use crate::page::{PageIn, PageSize};
use crate::range::Block;
use std::hash::Hash;
use x86_64_addr::level_count::LevelCount;

/// Pages are equal and ordered by position (the number of an address counted without the gap in the middle of the address space),
/// and hashed by raw start address.
pub fn pages_are_ordered_by_position<S: PageSize, L: LevelCount>(
    left: PageIn<S, L>,
    right: PageIn<S, L>,
)
    ensures equality { ⟦<PageIn<S, L> as PartialEq>⟧.eq left right ≡ (left == right) }
    ensures order { ⟦<PageIn<S, L> as Ord>⟧.cmp left right ≡ nat_cmp left right }
    ensures partial_order { ⟦<PageIn<S, L> as PartialOrd>⟧.partial_cmp left right
        ≡ Some (nat_cmp left right) }
    ensures hash { ⟦<PageIn<S, L> as Hash>⟧.hash_input left ≡ fed.u64 (raw L.LEVELS left) }
{}

/// Frames are equal, ordered and hashed by their start addresses.
pub fn frames_are_ordered_by_address<S: PageSize + Hash>(left: PhysFrame<S>, right: PhysFrame<S>)
    ensures equality { ⟦<PhysFrame<S> as PartialEq>⟧.eq left right ≡ (left == right) }
    ensures order { ⟦<PhysFrame<S> as Ord>⟧.cmp left right ≡ nat_cmp left right }
    ensures partial_order { ⟦<PhysFrame<S> as PartialOrd>⟧.partial_cmp left right
        ≡ Some (nat_cmp left right) }
    ensures hash { ⟦<PhysFrame<S> as Hash>⟧.hash_input left ≡ fed.u64 left }
{}

/// Steps of m pages and then of n pages are steps of m + n pages, steps back undo steps forward and the other way round, and
/// `steps_between` counts the steps forward.
pub fn page_steps_are_counted<S: PageSize, L: LevelCount>()
    ensures { ArePageSteps L.LEVELS S.SIZE }
{}

/// The blocks of a range, in terms of which its contracts are stated, are those of its definition.
#[tactic(auto, using(crate::proofs::RangesListed::blocks_are_the_range, crate::proofs::RangesListed::inclusive_blocks_are_the_range))]
pub fn blocks_are_the_range()
    ensures exclusive { BlocksAreTheRange }
    ensures inclusive { InclusiveBlocksAreTheRange }
{}

/// Taking n + 1 blocks from a range equals taking n and then one more, from the front and from the back.
pub fn blocks_are_taken_in_turn<B: Block>()
    ensures exclusive { AreTakenInTurn B.SIZE }
    ensures inclusive { AreTakenInTurnInclusive B.SIZE B.LIMIT }
{}
