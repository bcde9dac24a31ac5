//! Regions: consecutive mappings with equal rights.
ghost use Rattle.std.specs.Prelude.{◌≡◌, ◌+◌, ◌-◌, ◌≤◌, Some};
ghost use Rattle.x86_64_mappings.specs.Texts.{region_text};
ghost use Rattle.x86_64_model.specs.Position.{position_count};
ghost use Rattle.x86_64_model.specs.Regions as model;

use crate::letters::put_rights;
use crate::mapping::MappingIn;
use std::fmt::{Display, Formatter, Result as FmtResult, Write};
use std::marker::Model;
use text::pieces::{CAPACITY, put, put_hexadecimal, put_size, text_from};
use x86_64_addr::addr::VirtAddrIn;
use x86_64_addr::level_count::{FiveLevels, FourLevels, LevelCount};
use x86_64_tables::page_table::Rights;

/// A region, with `L::LEVELS` levels of page tables: a run of mappings as long as possible, in which each starts where the
/// one before ended, in one half of the address space, with equal rights.
///
/// Its text is `FIRST-LAST SIZE RIGHTS`: its first and its last address in hexadecimal behind `0x`, its size in the largest of
/// KiB, MiB, GiB and TiB that divides it, and its rights by four letters such as `rw-u`.
#[derive(Clone, Copy)]
#[derive_where(Debug, PartialEq)]
pub struct RegionIn<L: LevelCount> {
    /// The first address.
    pub first: VirtAddrIn<L>,
    /// The last address.
    pub last: VirtAddrIn<L>,
    /// What all entries that lead to a page of the region allow.
    pub rights: Rights,
}

/// A region with four levels of page tables.
pub type Region = RegionIn<FourLevels>;

/// A region with five levels of page tables.
pub type Region57 = RegionIn<FiveLevels>;

impl<L: LevelCount> Model for RegionIn<L> {
    ghost use Rattle.x86_64_model.specs.Regions.{Region};
    ghost use Rattle.std.proofs.Common.{refl};

    ghost Value = { Region };

    ghost view = { λ r. record {
      first = r.first;
      last = r.last;
      rights = r.rights;
    } };

    ghost inverse = { λ r. record {
      first = r.first;
      last = r.last;
      rights = r.rights;
    } };

    ghost inverse_ok = { λ r _. refl };
}

impl<L: LevelCount> RegionIn<L> {
    /// Creates the region of one mapping.
    ///
    /// Requires that the mapping ends within the address space.
    pub fn of(mapping: &MappingIn<L>) -> RegionIn<L>
        requires { mapping.now.start + mapping.now.size ≤ position_count L.LEVELS }
        ensures { result ≡ model.region_of mapping.now }
    {
        let start = mapping.start.position();
        RegionIn {
            first: mapping.start,
            last: VirtAddrIn::new_truncate(start + (mapping.size() - 1)),
            rights: mapping.rights,
        }
    }

    /// Returns true if a region follows this one: it starts at the next address, not in the other half, with equal rights.
    pub fn is_followed_by(&self, next: &RegionIn<L>) -> bool
        ensures { result ≡ model.follows L.LEVELS self.now next.now }
    {
        let first = next.first.position();
        let consecutive = first == self.last.position() + 1 && first != L::POSITION_COUNT / 2;
        consecutive && self.rights == next.rights
    }

    /// Returns this region, extended to the last address of another. It keeps its first address and its rights.
    pub fn grown_to(self, next: &RegionIn<L>) -> RegionIn<L>
        ensures { result ≡ model.grown_to self next.now }
    {
        RegionIn {
            last: next.last,
            ..self
        }
    }

    /// Returns the number of bytes from the first address to the last, both included.
    pub fn size(&self) -> u64
        ensures { result ≡ self.now.last + 1 - self.now.first }
    {
        (self.last.position() + 1).saturating_sub(self.first.position())
    }

    /// Returns the region's text in a buffer, which is overwritten: its first and its last address, its size, and its rights.
    #[inline(always)]
    pub fn text_in<'a>(&self, buffer: &'a mut [u8; CAPACITY]) -> &'a str
        ensures { result.now ≡ region_text L.LEVELS self.now }
    {
        *buffer = [0; CAPACITY];
        let start = put_rights(buffer, CAPACITY, self.rights);
        let start = put(buffer, start, b' ');
        let start = put_size(buffer, start, self.size());
        let start = put(buffer, start, b' ');
        let start = put_hexadecimal(buffer, start, self.last.as_u64());
        let start = put(buffer, start, b'-');
        let start = put_hexadecimal(buffer, start, self.first.as_u64());
        text_from(buffer, start)
    }
}

impl<L: LevelCount> Display for RegionIn<L> {
    ghost output = { λ region. Some (region_text L.LEVELS region) };

    fn fmt<W: Write>(&self, f: &mut Formatter<W>) -> FmtResult {
        f.write_str(self.text_in(&mut [0; CAPACITY]))
    }
}
