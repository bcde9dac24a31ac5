//! Calls of a mapper as values, and the replies to them.
ghost use Rattle.std.specs.Prelude.{◌≡◌, ◌↔◌, ℕ, ⊤, IsSome, IfSome, IfNone};
ghost use Rattle.x86_64.specs.Calls.{identity_page};
ghost use Rattle.x86_64_tables.specs.PageTableFlags.{bits_of};

use bitflags::Flags;
use std::alloc::AllocError;
use std::convert::Infallible;
use x86_64_addr::addr::{PhysAddr, VirtAddrIn};
use x86_64_addr::index::PageTableIndex;
use x86_64_addr::level_count::{FiveLevels, FourLevels, LevelCount};
use x86_64_page::frame::PhysFrame;
use x86_64_page::page::{PageIn, PageSize, Size1GiB, Size2MiB, Size4KiB};
use x86_64_page::range::BlockRangeInclusive;
use x86_64_tables::errors::{FlagUpdateError, MapToError, TranslateError, UnmapError};
use x86_64_tables::page_table::PageTableFlags;
use x86_64_tables::translation::TranslateResult;

/// The flags of an entry of level five in a call. With four levels there is no such entry, and so there are no such
/// flags.
pub trait LevelFiveFlags<L: LevelCount>: Copy {
    // the bits of the flags
    ghost bits: { Self → ℕ };

    /// Returns the flags, or no flags for `None`.
    fn page_table_flags(flags: Option<Self>) -> PageTableFlags
        ensures some { IfSome flags (λ given. bits_of result ≡ Self.bits given) }
        ensures none { IfNone flags (bits_of result ≡ 0) };

    /// Creates the type's flags from page table flags, or returns `None` if there is no level five.
    fn from_page_table_flags(flags: PageTableFlags) -> Option<Self>
        ensures some { IsSome result ↔ (L.LEVELS ≡ 5) }
        ensures bits { IfSome result (λ given. Self.bits given ≡ bits_of flags) };

    // a value of the type exists only with five levels
    ghost five: { (flags : Self) → L.LEVELS ≡ 5 };
}

/// The flags of an entry of level five if there are only four levels: this type has no values.
pub type NoLevelFive = Infallible;

impl LevelFiveFlags<FourLevels> for Infallible {
    ghost use Rattle.x86_64.specs.Calls.{no_bits};
    ghost use Rattle.x86_64.specs.private.Served.{no_flags};

    ghost bits = { no_bits };

    /// Returns no flags: with four levels there are none of level five.
    fn page_table_flags(_flags: Option<Infallible>) -> PageTableFlags
        ensures some { IfSome _flags (λ given. bits_of result ≡ no_bits given) }
        ensures none { IfNone _flags (bits_of result ≡ 0) }
    {
        PageTableFlags::empty()
    }

    fn from_page_table_flags(_flags: PageTableFlags) -> Option<Infallible> {
        None
    }

    ghost five = { no_flags };
}

impl LevelFiveFlags<FiveLevels> for PageTableFlags {
    ghost use Rattle.std.proofs.Common.{refl};

    ghost bits = { λ flags. bits_of flags };

    /// Returns the flags, or no flags for `None`.
    fn page_table_flags(flags: Option<PageTableFlags>) -> PageTableFlags
        ensures some { IfSome flags (λ given. bits_of result ≡ bits_of given) }
        ensures none { IfNone flags (bits_of result ≡ 0) }
    {
        flags.unwrap_or(PageTableFlags::empty())
    }

    fn from_page_table_flags(flags: PageTableFlags) -> Option<PageTableFlags> {
        Some(flags)
    }

    ghost five = { λ flags. refl };
}

/// A call on a page of one size, for any number of levels. Its aliases are [`SizeCall`] and [`SizeCall57`].
#[derive(Copy, Debug, PartialEq)]
pub enum SizeCallIn<S: PageSize, L: LevelCount, P5: Copy> {
    /// Maps the page to the frame, as [`map_to`](crate::structures::paging::Mapper::map_to) does.
    MapTo {
        /// The page to map.
        page: PageIn<S, L>,
        /// The frame to map the page to.
        frame: PhysFrame<S>,
        /// The flags of the page's entry.
        flags: PageTableFlags,
    },
    /// Maps the page to the frame, as
    /// [`map_to_with_table_flags`](crate::structures::paging::Mapper::map_to_with_table_flags) does.
    MapToWithTableFlags {
        /// The page to map.
        page: PageIn<S, L>,
        /// The frame to map the page to.
        frame: PhysFrame<S>,
        /// The flags of the page's entry.
        flags: PageTableFlags,
        /// The flags that the entries above it get.
        parent_flags: PageTableFlags,
    },
    /// Maps the page at the frame's own address to the frame, as
    /// [`identity_map`](crate::structures::paging::Mapper::identity_map) does.
    IdentityMap {
        /// The frame.
        frame: PhysFrame<S>,
        /// The flags of the page's entry.
        flags: PageTableFlags,
    },
    /// Unmaps the page, as [`unmap`](crate::structures::paging::Mapper::unmap) does.
    Unmap {
        /// The page to unmap.
        page: PageIn<S, L>,
    },
    /// Sets the flags of the page's entry, as [`update_flags`](crate::structures::paging::Mapper::update_flags) does.
    UpdateFlags {
        /// The page.
        page: PageIn<S, L>,
        /// The new flags of its entry.
        flags: PageTableFlags,
    },
    /// Sets the flags of the entry of level five on the page's path, as
    /// [`set_flags_p5_entry`](crate::structures::paging::Mapper57::set_flags_p5_entry) does. With four levels there
    /// is no such call.
    SetFlagsP5 {
        /// The page.
        page: PageIn<S, L>,
        /// The new flags of the entry.
        flags: P5,
    },
    /// Sets the flags of the entry of level four on the page's path, as
    /// [`set_flags_p4_entry`](crate::structures::paging::Mapper::set_flags_p4_entry) does.
    SetFlagsP4 {
        /// The page.
        page: PageIn<S, L>,
        /// The new flags of the entry.
        flags: PageTableFlags,
    },
    /// Sets the flags of the entry of level three on the page's path, as
    /// [`set_flags_p3_entry`](crate::structures::paging::Mapper::set_flags_p3_entry) does.
    SetFlagsP3 {
        /// The page.
        page: PageIn<S, L>,
        /// The new flags of the entry.
        flags: PageTableFlags,
    },
    /// Sets the flags of the entry of level two on the page's path, as
    /// [`set_flags_p2_entry`](crate::structures::paging::Mapper::set_flags_p2_entry) does.
    SetFlagsP2 {
        /// The page.
        page: PageIn<S, L>,
        /// The new flags of the entry.
        flags: PageTableFlags,
    },
    /// Returns the page's frame, as [`translate_page`](crate::structures::paging::Mapper::translate_page) does.
    TranslatePage {
        /// The page.
        page: PageIn<S, L>,
    },
}

/// A call on a page of one size.
pub type SizeCall<S> = SizeCallIn<S, FourLevels, NoLevelFive>;

/// A call on a page of one size in the 57-bit address space.
pub type SizeCall57<S> = SizeCallIn<S, FiveLevels, PageTableFlags>;

impl<S: PageSize, L: LevelCount, P5: Copy> Clone for SizeCallIn<S, L, P5> {
    ghost is_clone = { λ s r. r ≡ s };

    ghost is_infallible = { λ _. ⊤ };

    fn clone(&self) -> Result<Self, AllocError> {
        Ok(*self)
    }
}

impl<S: PageSize, L: LevelCount, P5: LevelFiveFlags<L>> SizeCallIn<S, L, P5> {
    ghost use Rattle.x86_64.specs.Calls.{names_by, page_call, page_of_call};

    /// Returns the call's page, or `None` for an identity map if there is no page at the frame's address.
    fn page(&self) -> Option<PageIn<S, L>>
        ensures { result ≡ page_of_call L.LEVELS (page_call S.LEVEL P5.bits self.now) }
    {
        match self {
            SizeCallIn::MapTo { page, .. }
            | SizeCallIn::MapToWithTableFlags { page, .. }
            | SizeCallIn::Unmap { page }
            | SizeCallIn::UpdateFlags { page, .. }
            | SizeCallIn::SetFlagsP5 { page, .. }
            | SizeCallIn::SetFlagsP4 { page, .. }
            | SizeCallIn::SetFlagsP3 { page, .. }
            | SizeCallIn::SetFlagsP2 { page, .. }
            | SizeCallIn::TranslatePage { page } => Some(*page),
            SizeCallIn::IdentityMap { frame, .. } => identity_page::<S, L>(*frame),
        }
    }

    /// Returns true if the call's page has this index of the highest level. The page of an identity map counts if
    /// there is one.
    fn names(&self, index: PageTableIndex) -> bool
        ensures { result ≡ names_by L.LEVELS (page_call S.LEVEL P5.bits self.now) index }
    {
        match self.page() {
            Some(page) => page.table_index(L::LEVELS) == index,
            None => false,
        }
    }

    /// Returns the start address of the call's page, if it has one.
    fn page_start(&self) -> Option<VirtAddrIn<L>>
        ensures { result ≡ page_of_call L.LEVELS (page_call S.LEVEL P5.bits self.now) }
    {
        match self.page() {
            Some(page) => Some(page.start_address()),
            None => None,
        }
    }
}

/// Returns the page at a frame's own address, or `None` if that isn't in the lower half of the address space.
pub(crate) fn identity_page<S: PageSize, L: LevelCount>(frame: PhysFrame<S>) -> Option<PageIn<S, L>>
    ensures { result ≡ identity_page L.LEVELS frame }
{
    let start = frame.start_address().as_u64();
    if start < L::POSITION_COUNT / 2 {
        Some(PageIn::containing_address(VirtAddrIn::new(start)))
    } else {
        None
    }
}

/// A call of a mapper, for any number of levels. Its aliases are [`Call`] and [`Call57`].
#[derive(Clone, Copy, Debug, PartialEq)]
pub enum CallIn<L: LevelCount, P5: Copy> {
    /// A call on a 4KiB page.
    Of4KiB(SizeCallIn<Size4KiB, L, P5>),
    /// A call on a 2MiB page.
    Of2MiB(SizeCallIn<Size2MiB, L, P5>),
    /// A call on a 1GiB page.
    Of1GiB(SizeCallIn<Size1GiB, L, P5>),
    /// Returns what the address is mapped to, as [`translate`](crate::structures::paging::Translate::translate) does.
    Translate(VirtAddrIn<L>),
    /// Returns the physical address that the address is mapped to, as
    /// [`translate_addr`](crate::structures::paging::Translate::translate_addr) does.
    TranslateAddr(VirtAddrIn<L>),
    /// Removes all empty tables, as [`clean_up`](crate::structures::paging::mapper::CleanUp::clean_up) does.
    CleanUp,
    /// Removes the empty tables of a range of pages, as
    /// [`clean_up_addr_range`](crate::structures::paging::mapper::CleanUp::clean_up_addr_range) does.
    CleanUpRange(BlockRangeInclusive<PageIn<Size4KiB, L>>),
}

/// A call of a mapper.
pub type Call = CallIn<FourLevels, NoLevelFive>;

/// A call of a mapper with five levels.
pub type Call57 = CallIn<FiveLevels, PageTableFlags>;

impl<L: LevelCount, P5: LevelFiveFlags<L>> CallIn<L, P5> {
    ghost use Rattle.x86_64.specs.Calls.{to_call, names, page_of_call};

    /// Returns true if the call's page or address has this index of the highest level, which is level four, or level
    /// five if there are five levels. The page of an identity map counts if there is one, that is if the frame starts
    /// in the lower half of the address space. A clean up names no index, since it never goes through a recursive
    /// one.
    pub fn names(&self, index: PageTableIndex) -> bool
        ensures { result ≡ names L.LEVELS P5.bits self.now index }
    {
        match self {
            CallIn::Of4KiB(call) => call.names(index),
            CallIn::Of2MiB(call) => call.names(index),
            CallIn::Of1GiB(call) => call.names(index),
            CallIn::Translate(addr) | CallIn::TranslateAddr(addr) => addr.table_index(L::LEVELS)
                == index,
            CallIn::CleanUp | CallIn::CleanUpRange(_) => false,
        }
    }

    /// Returns the start address of the call's page, or `None` if the call has none: a translation of an address, a clean
    /// up, an identity map of a frame that doesn't start in the lower half of the address space.
    pub fn page_start(&self) -> Option<VirtAddrIn<L>>
        ensures { result ≡ page_of_call L.LEVELS (to_call L.LEVELS P5.bits self.now) }
    {
        match self {
            CallIn::Of4KiB(call) => call.page_start(),
            CallIn::Of2MiB(call) => call.page_start(),
            CallIn::Of1GiB(call) => call.page_start(),
            CallIn::Translate(_)
            | CallIn::TranslateAddr(_)
            | CallIn::CleanUp
            | CallIn::CleanUpRange(_) => None,
        }
    }
}

/// The reply to a call on a page of one size. The pages in it are those that the mapper's tokens name.
#[derive(Clone, Copy, Debug, PartialEq)]
pub enum PageReply<P, S: PageSize> {
    /// The page that was mapped, or the error.
    Map(Result<P, MapToError<S>>),
    /// The frame that the page was mapped to and the page, or the error.
    Unmap(Result<(PhysFrame<S>, P), UnmapError>),
    /// The page whose flags were changed, or the error.
    Update(Result<P, FlagUpdateError>),
    /// Success if the flags of a table entry were changed, or the error.
    TableFlags(Result<(), FlagUpdateError>),
    /// The page's frame, or the error.
    Frame(Result<PhysFrame<S>, TranslateError>),
}

/// The reply to a call on a page of one size, for any number of levels.
pub type SizeReplyIn<S, L> = PageReply<PageIn<S, L>, S>;

/// The reply to a call on a page of one size.
pub type SizeReply<S> = SizeReplyIn<S, FourLevels>;

/// The reply to a call on a page of one size in the 57-bit address space.
pub type SizeReply57<S> = SizeReplyIn<S, FiveLevels>;

/// The reply to a call of a mapper. `Small`, `Large` and `Giant` are the replies to calls on pages of 4KiB, 2MiB and
/// 1GiB.
#[derive(Clone, Copy, Debug, PartialEq)]
pub enum MapperReply<Small, Large, Giant> {
    /// The reply to a call on a 4KiB page.
    Of4KiB(Small),
    /// The reply to a call on a 2MiB page.
    Of2MiB(Large),
    /// The reply to a call on a 1GiB page.
    Of1GiB(Giant),
    /// What the address is mapped to.
    Translate(TranslateResult),
    /// The physical address that the address is mapped to, if any.
    Address(Option<PhysAddr>),
    /// The empty tables were removed, and their frames returned.
    Cleaned,
    /// The condition of the call did not hold. Nothing changed.
    NotAllowed,
}

/// The reply to a call of a mapper, for any number of levels.
pub type ReplyIn<L> = MapperReply<
    SizeReplyIn<Size4KiB, L>,
    SizeReplyIn<Size2MiB, L>,
    SizeReplyIn<Size1GiB, L>,
>;

/// The reply to a call of a mapper.
pub type Reply = ReplyIn<FourLevels>;

/// The reply to a call of a mapper with five levels.
pub type Reply57 = ReplyIn<FiveLevels>;
