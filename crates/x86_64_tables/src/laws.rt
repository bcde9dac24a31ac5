//! Laws of flags: order, equality and hashes agree. The functions do nothing; their contracts are the laws.
ghost use Rattle.std.specs.Prelude.{◌≡◌, ◌==◌, Some};
ghost use Rattle.std.specs.Ordering.{nat_cmp};
ghost use Rattle.std.specs.Hash as fed;
ghost use Rattle.x86_64_tables.specs.PageTableFlags.{bits_of};

use crate::page_table::PageTableFlags;
use std::hash::Hash;

/// States that flags are compared, ordered and hashed by their bits.
pub fn flags_are_ordered_by_bits(left: PageTableFlags, right: PageTableFlags)
    ensures equality { ⟦<PageTableFlags as PartialEq>⟧.eq left right ≡ (bits_of left == bits_of right) }
    ensures order { ⟦<PageTableFlags as Ord>⟧.cmp left right ≡ nat_cmp (bits_of left) (bits_of right) }
    ensures partial_order { ⟦<PageTableFlags as PartialOrd>⟧.partial_cmp left right
        ≡ Some (nat_cmp (bits_of left) (bits_of right)) }
    ensures hash { ⟦<PageTableFlags as Hash>⟧.hash_input left ≡ fed.u64 (bits_of left) }
{}
