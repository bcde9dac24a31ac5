//! Mappings: what the leaves of page tables map.
ghost use Rattle.std.specs.Prelude.{◌≡◌, ◌<◌, ◌≤◌, ◌++◌, true, Some, drop};
ghost use Rattle.std.specs.Str.{IsAscii};
ghost use Rattle.x86_64_model.specs.Mappings.{maps_page};
ghost use Rattle.x86_64_model.specs.Position.{position_count};
ghost use Rattle.x86_64_model.specs.private.Found.{page_at};
ghost use Rattle.x86_64_mappings.specs.Texts as texts;
ghost use Rattle.x86_64_mappings.specs.Texts.{mapping_text};

use crate::letters::put_rights;
use bitflags::Flags;
use std::fmt::{Display, Formatter, Result as FmtResult, Write};
use std::marker::Model;
use text::pieces::{CAPACITY, put, put_hexadecimal, put_size, text_from};
use x86_64_addr::addr::VirtAddrIn;
use x86_64_addr::level_count::{FiveLevels, FourLevels, LevelCount};
use x86_64_page::frame::PhysFrame;
use x86_64_tables::page_table::{PageTableEntry, PageTableFlags, Rights};
use x86_64_tables::translation::MappedFrame;

/// What a leaf maps, with `L::LEVELS` levels of page tables: the addresses from `start` on, for as many bytes as the frame
/// has, are mapped to the frame.
///
/// A leaf is an entry at which page walks arrive: it and all entries above it have `PRESENT`, and it is of level one, or has
/// `HUGE_PAGE` at level two or three. Intel SDM vol. 3A, "4-Level Paging and 5-Level Paging"; AMD APM vol. 2, "Long-Mode
/// Page Translation".
///
/// Its text is `START SIZE FRAME RIGHTS FLAGS`: the addresses where it and its frame start and its flags in hexadecimal behind
/// `0x`, its size in KiB, MiB or GiB, and its rights by four letters such as `rw-u`.
#[derive(Clone, Copy)]
#[derive_where(Debug, PartialEq)]
pub struct MappingIn<L: LevelCount> {
    /// The first address.
    pub start: VirtAddrIn<L>,
    /// The frame that the addresses lead to.
    pub frame: MappedFrame,
    /// The flags of the leaf's entry.
    pub flags: PageTableFlags,
    /// What the leaf and all entries above it allow.
    pub rights: Rights,
}

/// A mapping with four levels of page tables.
pub type Mapping = MappingIn<FourLevels>;

/// A mapping with five levels of page tables.
pub type Mapping57 = MappingIn<FiveLevels>;

impl<L: LevelCount> Model for MappingIn<L> {
    ghost use Rattle.x86_64_model.specs.Mappings.{Mapping};
    ghost use Rattle.x86_64_mappings.specs.Views.{mapping_to, frame_at, frame_at_frame};
    ghost use Rattle.std.proofs.Common.{ap};

    ghost Value = { Mapping };

    ghost view = { λ m. mapping_to m.start m.frame m.flags m.rights };

    ghost inverse = { λ m. record {
      start = m.start;
      frame = frame_at m.size m.frame;
      flags = record { 0 = m.flags };
      rights = m.rights;
    } };

    ghost inverse_ok = { λ m _. ap (λ frame. record m { frame = frame }) (frame_at_frame m.frame) };
}

impl<L: LevelCount> MappingIn<L> {
    /// Creates the mapping by an entry of a level that maps a page, below entries that allow `above`. The position (the number
    /// of an address counted without the gap) lies in the page.
    ///
    /// Requires that the level is at least one, that `maps_page` is true for the entry, and that the position is within the
    /// address space.
    pub fn of_page(level: u64, position: u64, entry: &PageTableEntry, above: Rights) -> MappingIn<L>
        requires low { 1 ≤ level }
        requires page { maps_page level entry.now ≡ true }
        requires inside { position < position_count L.LEVELS }
        ensures { result ≡ page_at position level above entry.now }
    {
        let frame = match level {
            1 => MappedFrame::Size4KiB(PhysFrame::containing_address(entry.addr())),
            2 => MappedFrame::Size2MiB(PhysFrame::containing_address(entry.addr())),
            _ => MappedFrame::Size1GiB(PhysFrame::containing_address(entry.addr())),
        };
        MappingIn {
            start: VirtAddrIn::new_truncate(position / frame.size() * frame.size()),
            frame,
            flags: entry.flags(),
            rights: above.below(entry),
        }
    }

    /// Returns the size in bytes: 4KiB, 2MiB or 1GiB.
    pub fn size(&self) -> u64
        ensures { result ≡ self.now.size }
    {
        self.frame.size()
    }

    /// Returns the mapping's text in a buffer, which is overwritten: its start, its size, the start of its frame, its rights, and
    /// its flags, with a space between them.
    #[inline(always)]
    pub fn text_in<'a>(&self, buffer: &'a mut [u8; CAPACITY]) -> &'a str
        ensures { result.now ≡ mapping_text L.LEVELS self.now }
    {
        let start = self.start.as_u64();
        let frame = self.frame.start_address().as_u64();
        let flags = self.flags.bits();
        line_in(buffer, start, self.frame.size(), frame, self.rights, flags)
    }
}

impl<L: LevelCount> Display for MappingIn<L> {
    ghost output = { λ mapping. Some (mapping_text L.LEVELS mapping) };

    fn fmt<W: Write>(&self, f: &mut Formatter<W>) -> FmtResult {
        f.write_str(self.text_in(&mut [0; CAPACITY]))
    }
}

/// Returns a mapping as text in a buffer: its start, its size, the start of its frame, its rights, and its flags.
#[inline(always)]
fn line_in(
    buffer: &mut [u8; CAPACITY],
    start: u64,
    size: u64,
    frame: u64,
    rights: Rights,
    flags: u64,
) -> &str
    ensures { result.now ≡ texts.line_text start size frame rights flags }
{
    *buffer = [0; CAPACITY];
    let first = put_hexadecimal(buffer, CAPACITY, flags);
    let first = put(buffer, first, b' ');
    let first = put_rights(buffer, first, rights);
    let first = put(buffer, first, b' ');
    let first = put_place(buffer, first, start, size, frame);
    text_from(buffer, first)
}

/// Writes where a mapping starts, its size, and where its frame starts, so that they end at `end`. Returns where they start
/// in the line.
#[inline(always)]
#[tactic(auto, unfolding(crate::specs::Texts::place_text))]
fn put_place(line: &mut [u8; CAPACITY], end: usize, start: u64, size: u64, frame: u64) -> usize
    requires room { 61 ≤ end }
    requires inside { end ≤ 96 }
    ensures text { drop result line.new ≡ texts.place_text start size frame ++ drop end line.old }
    ensures start { result ≤ end }
    ensures ascii { IsAscii (drop end line.old) → IsAscii (drop result line.new) }
{
    let first = put_hexadecimal(line, end, frame);
    let first = put(line, first, b' ');
    let first = put_size(line, first, size);
    let first = put(line, first, b' ');
    put_hexadecimal(line, first, start)
}
