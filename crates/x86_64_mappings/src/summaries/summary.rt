//! Summaries of mappings.
ghost use Rattle.std.specs.Prelude.{◌≡◌, ◌≤◌, ◌+◌, IfSome};
ghost use Rattle.x86_64_mappings.specs.private.Merged as merged;

use x86_64_page::page::{PageSize, Size4KiB};
use x86_64_tables::page_table::{PageTableEntry, Rights};

/// A summary of mappings.
#[derive(Clone, Copy)]
pub struct Summary {
    /// The number of mappings.
    pub count: u64,
    /// The number of bytes that they map.
    pub bytes: u64,
    /// The rights that at least one mapping has.
    pub some: Rights,
    /// The rights that all mappings have. These are all rights if there is no mapping.
    pub all: Rights,
}

impl Summary {
    /// The summary of no mappings.
    pub(crate) const NONE: Summary = Summary {
        count: 0,
        bytes: 0,
        some: Rights::NONE,
        all: Rights::ALL,
    };

    /// Returns the summary of one mapping, by its size and what it allows.
    pub(crate) fn of_one(bytes: u64, rights: Rights) -> Summary
        ensures { result ≡ record { count = 1; bytes = bytes; some = rights; all = rights } }
    {
        Summary {
            count: 1,
            bytes,
            some: rights,
            all: rights,
        }
    }

    /// Returns the summary of pages by entries of level one: their number, the bits that at least one of the entries has, and
    /// the bits that all have. `NO_EXECUTE` denies a right, the other flags grant one.
    pub(crate) fn of_small_pages(count: u64, some_bits: u64, all_bits: u64) -> Summary
        requires { count ≤ 512 }
        ensures { result ≡ merged.of_bits count some_bits all_bits }
    {
        let most = Rights::ALL.below(&PageTableEntry::from_word(some_bits));
        let least = Rights::ALL.below(&PageTableEntry::from_word(all_bits));
        Summary {
            count,
            bytes: count * Size4KiB::SIZE,
            some: Rights {
                execute: least.execute,
                ..most
            },
            all: Rights {
                execute: most.execute,
                ..least
            },
        }
    }

    /// Returns the summary of these mappings and others together, or `None` if the numbers don't fit.
    pub(crate) fn with(self, others: Summary) -> Option<Summary>
        ensures { IfSome result (λ both. both ≡ merged.joined self others) }
    {
        Some(Summary {
            count: self.count.checked_add(others.count)?,
            bytes: self.bytes.checked_add(others.bytes)?,
            some: self.some.or(others.some),
            all: self.all.and(others.all),
        })
    }

    /// Returns the summary of the mappings below entries that allow `above`.
    pub(crate) fn below(self, above: Rights) -> Summary
        ensures { result ≡ merged.lessened above self }
    {
        if self.count == 0 {
            return self;
        }
        Summary {
            some: above.and(self.some),
            all: above.and(self.all),
            ..self
        }
    }
}
