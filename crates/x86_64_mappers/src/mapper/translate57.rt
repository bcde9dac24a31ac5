//! Translates 57-bit virtual addresses.
ghost use Rattle.std.specs.Prelude.{◌≡◌, Some, option_map};
ghost use Rattle.x86_64_model.specs.Hierarchy.{Valid, walk, translation};
ghost use Rattle.x86_64_model.specs.Translation.{address_of};

use crate::calls::{self, TableAccess};
use x86_64_addr::addr::{PhysAddr, VirtAddr57};
use x86_64_tables::page_tables::PageTables57;
use x86_64_tables::translation::TranslateResult;

/// Translates 57-bit virtual addresses.
pub trait Translate57: TableAccess + PageTables57 {
    ghost use Rattle.x86_64_tables.specs.Translations.{translation_of, reaches};

    /// Returns what an address is mapped to.
    ///
    /// The address is `NotMapped` if an entry of level five, four, three or two on its path lacks `PRESENT`. With
    /// `HUGE_PAGE`, an entry of level three maps a page of 1GiB, and an entry of level two a page of 2MiB. An entry of
    /// level one maps a page of 4KiB unless it is unused, even without `PRESENT`. The page walk succeeds if and only if
    /// the flags in the result have `PRESENT`, and arrives at the address of the result.
    ///
    /// Intel SDM vol. 3A, "Linear-Address Translation with 4-Level Paging and 5-Level Paging".
    ///
    /// Requires that the hierarchy is valid.
    final fn translate(&self, addr: VirtAddr57) -> TranslateResult
        requires { Valid (Self.hierarchy self.now) }
        ensures answer { translation_of result ≡ Some (translation (Self.hierarchy self.now) addr) }
        ensures walk { reaches result
            ≡ option_map (λ walked. walked.address) (walk (Self.hierarchy self.now) addr) }
    {
        calls::translate(self, addr)
    }

    /// Returns the physical address that an address is mapped to, `PRESENT` or not: the frame's start plus the
    /// offset. Returns `None` if [`translate`](Self::translate) finds no mapping.
    ///
    /// Requires that the hierarchy is valid.
    final fn translate_addr(&self, addr: VirtAddr57) -> Option<PhysAddr>
        requires { Valid (Self.hierarchy self.now) }
        ensures { result ≡ address_of (translation (Self.hierarchy self.now) addr) }
    {
        calls::translate_addr(self, addr)
    }
}

impl<M: TableAccess + PageTables57> Translate57 for M {}
