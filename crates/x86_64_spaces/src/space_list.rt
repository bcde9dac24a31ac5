//! Lists of address spaces, as a test goes through them.
ghost use Rattle.std.specs.Prelude.{◌≡◌, ◌<◌, ◌↔◌, All, true, cond, map, List, Some, None, IsSome, IfSome, length};
ghost use Rattle.x86_64_model.specs.Entry.{is_frame};
ghost use Rattle.x86_64_spaces.specs.SpaceGroups.{all_sharing, grouped};
ghost use Rattle.x86_64_spaces.specs.SpaceLayouts.{indices_of, spaces_at};
ghost use Rattle.x86_64_spaces.specs.private.SpaceTables.{grouped_at, owner, owns};

use crate::space::{GroupedSpace, SharedIndices, Space};
use x86_64_addr::addr::PhysAddr;
use x86_64_page::frame::PhysFrame;
use x86_64_tables::page_table::PageTableEntry;

/// A list of address spaces, whose roots are in groups at indices of the highest level.
pub(super) trait SpaceList {
    ghost use Rattle.x86_64_spaces.specs.SpaceGroups.{Grouped};

    ghost spaces: { Self → List Grouped };

    /// Returns the number of spaces.
    fn count(&self) -> usize
        ensures { result ≡ length (spaces self.now) };

    /// Returns the `n`-th space, counted from 0.
    ///
    /// Requires that there are more than `n` spaces.
    fn space_at(&self, n: usize) -> Space
        requires { n < length (spaces self.now) }
        ensures { result ≡ (grouped_at (spaces self.now) n).space };

    /// Returns the group in which the `n`-th root is at an index, if it is in one there.
    ///
    /// Requires that there are more than `n` spaces.
    fn group_at(&self, n: usize, index: usize) -> Option<u64>
        requires { n < length (spaces self.now) }
        ensures { result ≡ (grouped_at (spaces self.now) n).group index };
}

/// Returns the first space that shares an index with the `n`-th, which may be this one.
///
/// Requires that there are more than `n` spaces.
pub(super) fn owner<S: SpaceList>(spaces: &S, n: usize, index: usize) -> Space
    requires { n < length (S.spaces spaces.now) }
    ensures { let list = S.spaces spaces.now in result ≡ (owner list (grouped_at list n) index).space }
{
    if let Some(group) = spaces.group_at(n, index) {
        for k in 0..n {
            if spaces.group_at(k, index) == Some(group) {
                return spaces.space_at(k);
            }
        }
    }
    spaces.space_at(n)
}

/// Returns true if no space before the `n`-th shares an index with it.
///
/// Requires that there are more than `n` spaces.
pub(super) fn owns<S: SpaceList>(spaces: &S, n: usize, index: usize) -> bool
    requires { n < length (S.spaces spaces.now) }
    ensures { let list = S.spaces spaces.now in result ≡ owns list (grouped_at list n) index }
{
    owner(spaces, n, index).root == spaces.space_at(n).root
}

/// Address spaces whose roots are in the groups that their ranges of indices say.
#[derive(Drop)]
pub(super) struct Groups<'a> {
    pub(super) spaces: &'a [GroupedSpace<'a>],
}

impl<'a> SpaceList for Groups<'a> {
    ghost spaces = { λ list. map grouped list.spaces.now };

    fn count(&self) -> usize {
        self.spaces.len()
    }

    fn space_at(&self, n: usize) -> Space {
        self.spaces[n].space
    }

    fn group_at(&self, n: usize, index: usize) -> Option<u64> {
        self.spaces[n].group(index)
    }
}

/// Address spaces that all share the same indices.
#[derive(Drop)]
pub(super) struct Sharing<'a> {
    pub(super) spaces: &'a [Space],
    pub(super) shared: SharedIndices,
}

impl<'a> SpaceList for Sharing<'a> {
    ghost spaces = { λ list. all_sharing (indices_of list.shared) list.spaces.now };

    fn count(&self) -> usize {
        self.spaces.len()
    }

    fn space_at(&self, n: usize) -> Space {
        self.spaces[n]
    }

    fn group_at(&self, _: usize, index: usize) -> Option<u64> {
        group_of_all(self.shared, index)
    }
}

/// Address spaces without a recursive index that all share the same indices, by the addresses of their roots.
#[derive(Drop)]
pub(super) struct Roots<'a> {
    addresses: &'a [u64],
    shared: SharedIndices,
    ghost are_frames: { All (λ address. is_frame address ≡ true) addresses.now },
}

impl<'a> Roots<'a> {
    /// Returns the spaces whose roots have some addresses, or `None` if one of these isn't that of a frame.
    pub(super) fn of(addresses: &'a [u64], shared: SharedIndices) -> Option<Roots<'a>>
        ensures roots { IfSome result (λ roots. roots.addresses.now ≡ addresses.now × roots.shared ≡ shared) }
        ensures frames { IsSome result ↔ All (λ address. is_frame address ≡ true) addresses.now }
    {
        if addresses.iter().all(|address| is_frame(*address)) {
            Some(Roots { addresses, shared })
        } else {
            None
        }
    }
}

impl<'a> SpaceList for Roots<'a> {
    ghost spaces = { λ roots. all_sharing (indices_of roots.shared) (spaces_at roots.addresses.now) };

    fn count(&self) -> usize {
        self.addresses.len()
    }

    fn space_at(&self, n: usize) -> Space {
        let address = PhysAddr::new(self.addresses[n]);
        Space {
            root: PhysFrame::from_start_address_unchecked(address),
            recursive: None,
        }
    }

    fn group_at(&self, _: usize, index: usize) -> Option<u64> {
        group_of_all(self.shared, index)
    }
}

/// Returns the one group of roots that all share the same indices, if an index is one of these.
fn group_of_all(shared: SharedIndices, index: usize) -> Option<u64>
    ensures { result ≡ cond (indices_of shared index) (Some 0) None }
{
    if shared.contains(index) {
        Some(0)
    } else {
        None
    }
}

/// Returns true if an address is that of a frame.
fn is_frame(address: u64) -> bool
    ensures { result ≡ is_frame address }
{
    PageTableEntry::from_word(address).addr().as_u64() == address
}
