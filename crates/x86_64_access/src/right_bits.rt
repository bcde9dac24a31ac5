//! Rights as bits, which a walk narrows by one operation for each entry.
ghost use Rattle.std.specs.Prelude.{◌≡◌, ◌==◌, bit_and};
ghost use Rattle.x86_64_model.specs.Mappings.{granted};
ghost use Rattle.x86_64_access.specs.private.Walking.{rights_by};

use crate::entry_bits::{NO_EXECUTE, USER_ACCESSIBLE, WRITABLE};
use crate::masks::Masks;
use x86_64_tables::page_table::{PageTableEntry, Rights};

/// What entries allow together, as bits: `WRITABLE`, `USER_ACCESSIBLE`, and, at the place of `NO_EXECUTE`, the right to execute.
#[derive(Clone, Copy)]
pub(crate) struct RightBits(u64);

impl RightBits {
    /// What is allowed before the first entry: everything.
    pub const ALL: RightBits = RightBits(u64::MAX);

    /// Returns what is still allowed below an entry.
    #[tactic(auto, using(crate::proofs::Deciding::rights_more))]
    pub fn below(self, entry: &PageTableEntry) -> RightBits
        ensures { rights_by result.0 ≡ granted (rights_by self.0) entry.now }
    {
        RightBits(self.0 & (entry.word() ^ NO_EXECUTE))
    }

    /// Returns true if these rights allow the access of masks.
    pub fn suffice(self, masks: Masks) -> bool
        ensures { result ≡ (bit_and self.0 masks.asked == masks.needed) }
    {
        self.0 & masks.asked == masks.needed
    }

    /// Returns the rights.
    #[tactic(auto, unfolding(x86_64_model::specs::Entry::has))]
    pub fn rights(self) -> Rights
        ensures { result ≡ rights_by self.0 }
    {
        Rights {
            write: self.0 & WRITABLE == WRITABLE,
            user: self.0 & USER_ACCESSIBLE == USER_ACCESSIBLE,
            execute: self.0 & NO_EXECUTE == NO_EXECUTE,
        }
    }
}
