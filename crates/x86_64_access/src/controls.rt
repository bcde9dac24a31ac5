//! What a processor is set to.
ghost use Rattle.std.specs.Prelude.{◌≡◌, ◌≤◌};
ghost use Rattle.x86_64_model.specs.Access as model;
ghost use Rattle.x86_64_access.specs.Accesses.{access_of, controls_of, access_kind};
ghost use Rattle.x86_64_access.specs.private.Walking.{reads_on};

use crate::code::PageFaultCode;
use crate::request::{Access, AccessKind};
use bitflags::Flags;
use x86_64_tables::page_table::{PageTableEntry, PageTableFlags, Rights};
use x86_64_tables::phys_memory::has_flag;

/// What a processor is set to, and has, as far as that decides accesses.
#[derive(Clone, Copy, Debug, PartialEq, Eq)]
pub struct Controls {
    /// CR0.WP: a supervisor can't write to pages without `WRITABLE`.
    pub write_protect: bool,
    /// EFER.NXE: `NO_EXECUTE` forbids fetches. Otherwise that bit is reserved.
    pub no_execute: bool,
    /// CR4.SMEP: a supervisor can't fetch instructions from users' pages.
    pub smep: bool,
    /// CR4.SMAP: a supervisor can't read or write users' pages, unless `ac` is set.
    pub smap: bool,
    /// EFLAGS.AC: while it is set, SMAP keeps no supervisor out.
    pub ac: bool,
    /// MAXPHYADDR: the number of bits of physical addresses, from 32 to 52. Higher address bits of entries are reserved.
    pub physical_bits: u8,
    /// The processor has no pages of 1GiB (bit 26 of EDX of CPUID 8000_0001H is clear): at level three, too, `HUGE_PAGE` is reserved.
    ///
    /// Intel SDM vol. 3A, "Linear-Address Translation with 4-Level Paging and 5-Level Paging"; AMD APM vol. 2, "1-Gbyte Paging
    /// Support".
    pub no_1gib_pages: bool,
    /// `GLOBAL` is reserved at levels four and five, as on AMD's processors. At levels two and three, entries that name tables may
    /// have it.
    ///
    /// AMD APM vol. 2, "Page-Translation-Table Entry Fields", figures of PML4E and PML5E.
    pub global_reserved: bool,
}

impl Controls {
    /// Returns true if an entry of a level, present or not, has a bit that is reserved.
    ///
    /// Reserved are: address bits that the processor lacks; `HUGE_PAGE` above level three, and at level three without pages of 1GiB;
    /// bits 13 to 29 of a 1GiB page, and bits 13 to 20 of a 2MiB page; `NO_EXECUTE` while it is off; and `GLOBAL` above level three
    /// if the processor reserves it there.
    ///
    /// Requires at most 52 bits of physical addresses.
    #[tactic(auto, unfolding(x86_64_model::specs::Access::reserved))]
    pub fn is_reserved(&self, level: u64, entry: &PageTableEntry) -> bool
        requires { self.now.physical_bits ≤ 52 }
        ensures { result ≡ model.reserved (controls_of self.now) level entry.now }
    {
        let is_beyond = 1 << self.physical_bits <= entry.addr().as_u64();
        let is_misplaced = has_flag(entry, PageTableFlags::HUGE_PAGE)
            && (4 <= level || entry.word() & low_bits(level) != 0);
        let is_off = has_flag(entry, PageTableFlags::NO_EXECUTE) && !self.no_execute;
        self.is_reserved_by_some(level, entry) || is_beyond || is_misplaced || is_off
    }

    /// Returns true if an entry of a level has a bit that only some processors reserve.
    fn is_reserved_by_some(&self, level: u64, entry: &PageTableEntry) -> bool
        ensures { result ≡ model.reserved_by_some (controls_of self.now) level entry.now }
    {
        let is_unknown = self.no_1gib_pages && level == 3;
        let is_above = self.global_reserved && 4 <= level;
        (is_unknown && has_flag(entry, PageTableFlags::HUGE_PAGE))
            || (is_above && has_flag(entry, PageTableFlags::GLOBAL))
    }

    /// Returns true if the processor reads on in the table that an entry of a level names: the entry is present, has no reserved bit,
    /// and maps no page.
    ///
    /// Requires at most 52 bits of physical addresses.
    pub(crate) fn reads_on(&self, level: u64, entry: &PageTableEntry) -> bool
        requires { self.now.physical_bits ≤ 52 }
        ensures { result ≡ reads_on (controls_of self.now) level entry.now }
    {
        !entry.maps_page(level)
            && has_flag(entry, PageTableFlags::PRESENT)
            && !self.is_reserved(level, entry)
    }

    /// Returns true if the rights of a page, which all entries on its path grant together, suffice for an access.
    ///
    /// Intel SDM vol. 3A, "Access Rights".
    pub fn allows(&self, access: Access, rights: Rights) -> bool
        ensures { result ≡ model.access_allowed (controls_of self.now) (access_of access) rights }
    {
        let kind_allowed = match access.kind {
            AccessKind::Read => true,
            AccessKind::Write => rights.write || (!access.user && !self.write_protect),
            AccessKind::Fetch => rights.execute || !self.no_execute,
        };
        let page_allowed = if access.user {
            rights.user
        } else {
            !(rights.user && self.keeps_out(access.kind))
        };
        kind_allowed && page_allowed
    }

    /// Returns true if a supervisor is kept from users' pages for this kind of access.
    pub(crate) fn keeps_out(&self, kind: AccessKind) -> bool
        ensures { result ≡ model.kept_out (controls_of self.now) (access_kind kind) }
    {
        match kind {
            AccessKind::Fetch => self.smep,
            AccessKind::Read | AccessKind::Write => self.smap && !self.ac,
        }
    }

    /// Returns the error code of an access that ends in a page fault, by whether the entry at which it faults is present, and
    /// whether that entry has a reserved bit.
    ///
    /// Intel SDM vol. 3A, "Page-Fault Exceptions".
    pub fn code(&self, access: Access, present: bool, reserved: bool) -> PageFaultCode
        ensures { result.0 ≡ model.code (controls_of self.now) (access_of access) present reserved }
    {
        let tells_fetches = self.no_execute || self.smep;
        let write = access.kind == AccessKind::Write;
        let fetch = access.kind == AccessKind::Fetch && tells_fetches;
        PageFaultCode::from_bits_retain(
            u64::from(present)
                + 2 * u64::from(write)
                + 4 * u64::from(access.user)
                + 8 * u64::from(reserved)
                + 16 * u64::from(fetch),
        )
    }
}

/// Returns the address bits of a large page's entry that must be 0.
pub(crate) fn low_bits(level: u64) -> u64
    ensures { result ≡ model.low_bits level }
{
    match level {
        3 => 0x3fff_e000,
        2 => 0x001f_e000,
        _ => 0,
    }
}
