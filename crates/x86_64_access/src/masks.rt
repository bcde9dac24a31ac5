//! Masks, which say of an access what goes through by one comparison of an entry's bits.
ghost use Rattle.std.specs.Prelude.{◌≡◌, ◌≤◌, ◌==◌, ◌&&◌, ◌||◌, not, bit_and};
ghost use Rattle.x86_64_model.specs.Access.{kept_out, low_bits};
ghost use Rattle.x86_64_model.specs.Mappings.{maps_page};
ghost use Rattle.x86_64_access.specs.Accesses.{access_of, controls_of};
ghost use Rattle.x86_64_access.specs.private.Masks.{Decides, global_bits, high_bits, kept_bits, kind_bits, off_bits, user_bits};

use crate::controls::{Controls, low_bits};
use crate::entry_bits::{
    ADDRESS, GLOBAL, HUGE_PAGE, NO_EXECUTE, PRESENT, USER_ACCESSIBLE, WRITABLE,
};
use crate::request::{Access, AccessKind};
use x86_64_tables::page_table::PageTableEntry;

/// The masks of an access.
#[derive(Clone, Copy)]
pub(crate) struct Masks {
    /// The processor reads on in the table that an entry names at any level, provided that the entry maps no page, if of these bits
    /// the entry has `PRESENT` alone.
    pub table: u64,
    /// The processor accepts an entry of level one if of these bits the entry has `PRESENT` alone, and that of a larger page if it has
    /// no low address bits, either, unless there are no pages of its size.
    pub page: u64,
    /// There are no pages of 1GiB.
    pub no_1gib_pages: bool,
    /// The bits of the rights that decide whether the access is allowed ([`RightBits`](crate::right_bits::RightBits)).
    pub asked: u64,
    /// Those of them that must be there. The others must not.
    pub needed: u64,
}

impl Masks {
    /// Returns the masks of an access.
    ///
    /// Requires at most 52 bits of physical addresses.
    pub fn of(access: Access, controls: &Controls) -> Masks
        requires { controls.now.physical_bits ≤ 52 }
        ensures { Decides (controls_of controls.now) (access_of access) result }
    {
        let reserved = high_bits(controls) | off_bits(controls);
        let kind = kind_bits(access, controls);
        let user = user_bits(access);
        Masks {
            table: HUGE_PAGE | reserved | global_bits(controls) | PRESENT,
            page: reserved | PRESENT,
            no_1gib_pages: controls.no_1gib_pages,
            asked: kind | (user | kept_bits(access, controls)),
            needed: kind | user,
        }
    }

    /// Returns true if an entry of a level maps a page, and has none of the bits that keep the processor from accepting it.
    #[inline]
    pub fn accept(self, level: u64, entry: &PageTableEntry) -> bool
        ensures { result ≡ ((bit_and entry.now self.page == 1)
            && ((level == 1) || ((maps_page level entry.now && (bit_and entry.now (low_bits level) == 0))
            && not ((level == 3) && self.no_1gib_pages)))) }
    {
        entry.word() & self.page == PRESENT
            && (level == 1
                || (entry.maps_page(level)
                    && entry.word() & low_bits(level) == 0
                    && !(level == 3 && self.no_1gib_pages)))
    }
}

/// Returns the address bits that the processor lacks.
fn high_bits(controls: &Controls) -> u64
    requires { controls.now.physical_bits ≤ 52 }
    ensures { result ≡ high_bits (controls_of controls.now) }
{
    ADDRESS & (u64::MAX << controls.physical_bits)
}

/// Returns `GLOBAL` if some levels reserve it.
fn global_bits(controls: &Controls) -> u64
    ensures { result ≡ global_bits (controls_of controls.now) }
{
    if controls.global_reserved { GLOBAL } else { 0 }
}

/// Returns `NO_EXECUTE` if it is off.
fn off_bits(controls: &Controls) -> u64
    ensures { result ≡ off_bits (controls_of controls.now) }
{
    if controls.no_execute { 0 } else { NO_EXECUTE }
}

/// Returns the right that the kind of an access needs.
fn kind_bits(access: Access, controls: &Controls) -> u64
    ensures { result ≡ kind_bits (controls_of controls.now) (access_of access) (access_of access).kind }
{
    match access.kind {
        AccessKind::Read => 0,
        AccessKind::Write if access.user || controls.write_protect => WRITABLE,
        AccessKind::Fetch if controls.no_execute => NO_EXECUTE,
        AccessKind::Write | AccessKind::Fetch => 0,
    }
}

/// Returns the right of users, if a user asks.
fn user_bits(access: Access) -> u64
    ensures { result ≡ user_bits access.user }
{
    if access.user { USER_ACCESSIBLE } else { 0 }
}

/// Returns the right of users, if it keeps a supervisor out.
fn kept_bits(access: Access, controls: &Controls) -> u64
    ensures { result
        ≡ kept_bits access.user (kept_out (controls_of controls.now) (access_of access).kind) }
{
    if !access.user && controls.keeps_out(access.kind) {
        USER_ACCESSIBLE
    } else {
        0
    }
}
