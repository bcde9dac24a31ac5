//! Calls on pages, as lines write them.
ghost use Rattle.std.specs.Prelude.{◌≡◌, [], ◌∷◌, option_map};
ghost use Rattle.x86_64_model.specs.Position.{span};
ghost use Rattle.x86_64.specs.Calls.{page_call, to_call};
ghost use Rattle.pagetab_engine.specs.Starts.{frame_in, page_in};
ghost use Rattle.pagetab_engine.specs.PageCalls.{call_in, level_of};

use crate::fields::{Name, Size};
use bitflags::Flags;
use x86_64::structures::paging::{PageIn, PageSize, PageTableFlags, PhysFrame};
use x86_64::{CallIn, LevelCount, LevelFiveFlags, PhysAddr, SizeCallIn, VirtAddrIn};

/// Parses a call on a page of a size. A page and a frame are written as their start addresses.
///
/// Returns `None` if and only if the name isn't that of such a call, or the numbers don't suit it.
pub fn parse_call<L: LevelCount, P5: LevelFiveFlags<L>>(
    name: Name,
    size: Size,
    numbers: &[u64],
) -> Option<CallIn<L, P5>>
    ensures { option_map (to_call L.LEVELS P5.bits) result
        ≡ call_in L.LEVELS (level_of size) name numbers.now }
{
    Some(match size {
        Size::Size4KiB => CallIn::Of4KiB(parse_size_call(name, numbers)?),
        Size::Size2MiB => CallIn::Of2MiB(parse_size_call(name, numbers)?),
        Size::Size1GiB => CallIn::Of1GiB(parse_size_call(name, numbers)?),
    })
}

/// The implementation of [`parse_call`] for one size.
fn parse_size_call<S: PageSize, L: LevelCount, P5: LevelFiveFlags<L>>(
    name: Name,
    numbers: &[u64],
) -> Option<SizeCallIn<S, L, P5>>
    ensures { option_map (page_call S.LEVEL P5.bits) result
        ≡ call_in L.LEVELS S.LEVEL name numbers.now }
{
    match (name, numbers) {
        (_, [start, flags]) => parse_flags_call(name, *start, *flags),
        (Name::Map, [page, frame, flags]) => Some(SizeCallIn::MapTo {
            page: page_at(*page)?,
            frame: frame_at(*frame)?,
            flags: PageTableFlags::from_bits_retain(*flags),
        }),
        (Name::MapWith, [page, frame, flags, parent_flags]) => {
            Some(SizeCallIn::MapToWithTableFlags {
                page: page_at(*page)?,
                frame: frame_at(*frame)?,
                flags: PageTableFlags::from_bits_retain(*flags),
                parent_flags: PageTableFlags::from_bits_retain(*parent_flags),
            })
        }
        (Name::Unmap, [page]) => Some(SizeCallIn::Unmap {
            page: page_at(*page)?,
        }),
        (Name::TranslatePage, [page]) => Some(SizeCallIn::TranslatePage {
            page: page_at(*page)?,
        }),
        _ => None,
    }
}

/// The part of [`parse_size_call`] for a start address, of a page or of a frame, and flags.
fn parse_flags_call<S: PageSize, L: LevelCount, P5: LevelFiveFlags<L>>(
    name: Name,
    start: u64,
    flags: u64,
) -> Option<SizeCallIn<S, L, P5>>
    ensures { option_map (page_call S.LEVEL P5.bits) result
        ≡ call_in L.LEVELS S.LEVEL name (start ∷ flags ∷ []) }
{
    let flags = PageTableFlags::from_bits_retain(flags);
    Some(match name {
        Name::Identity => SizeCallIn::IdentityMap {
            frame: frame_at(start)?,
            flags,
        },
        Name::Update => SizeCallIn::UpdateFlags {
            page: page_at(start)?,
            flags,
        },
        Name::P5 => SizeCallIn::SetFlagsP5 {
            flags: P5::from_page_table_flags(flags)?,
            page: page_at(start)?,
        },
        Name::P4 => SizeCallIn::SetFlagsP4 {
            page: page_at(start)?,
            flags,
        },
        Name::P3 => SizeCallIn::SetFlagsP3 {
            page: page_at(start)?,
            flags,
        },
        Name::P2 => SizeCallIn::SetFlagsP2 {
            page: page_at(start)?,
            flags,
        },
        _ => return None,
    })
}

/// Returns the page that starts at an address, or `None` if the address isn't canonical or isn't a multiple of the
/// size.
pub fn page_at<S: PageSize, L: LevelCount>(start: u64) -> Option<PageIn<S, L>>
    ensures { result ≡ page_in L.LEVELS (span S.LEVEL) start }
{
    let address = VirtAddrIn::checked_new(start)?;
    PageIn::from_start_address(address).ok()
}

/// Returns the frame that starts at an address, or `None` if the address isn't below 2^52 or isn't a multiple of the
/// size.
fn frame_at<S: PageSize>(start: u64) -> Option<PhysFrame<S>>
    ensures { result ≡ frame_in (span S.LEVEL) start }
{
    match PhysAddr::try_new(start) {
        Ok(address) => PhysFrame::from_start_address(address).ok(),
        Err(_) => None,
    }
}
