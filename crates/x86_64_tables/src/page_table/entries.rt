//! Iterators over the entries of a page table.
ghost use Rattle.std.specs.Prelude.{◌≡◌, IfSome, Some, length};
ghost use Rattle.std.specs.Iterator.{YieldsFirstRef, YieldsFirstMut, UpTo, at_most, item_count};
ghost use Rattle.std.specs.Iterator.SizeHint.{IsWithinCount};

use super::PageTableEntry;
use std::marker::Model;
use std::mem;

/// An iterator over the entries of a page table, each once, in order of index. After the last it always returns `None`.
///
/// Contracts see it as the list of the words that are still to come.
#[derive(Drop)]
pub struct Entries<'a> {
    rest: &'a [PageTableEntry],
}

impl<'a> Model for Entries<'a> {
    ghost use Rattle.std.specs.Prelude.{List, ℕ};

    ghost Value = { List ℕ };

    ghost view = { λ entries. entries.rest.now };
}

impl<'a> Entries<'a> {
    /// Creates an iterator over the given entries.
    pub(super) fn new(rest: &'a [PageTableEntry]) -> Entries<'a>
        ensures { result ≡ rest.now }
    {
        Entries { rest }
    }
}

impl<'a> Iterator for Entries<'a> {
    type Item = &'a PageTableEntry;

    ghost next_gives = { YieldsFirstRef (λ entries. entries) };

    ghost remaining = { item_count (λ entries. entries) };

    fn next(&mut self) -> Option<&'a PageTableEntry> {
        let (first, others) = self.rest.split_first()?;
        self.rest = others;
        Some(first)
    }

    fn size_hint(&self) -> (usize, Option<usize>)
        ensures lower { IsWithinCount result.0 (at_most (length self.now)) }
        ensures ends { IfSome result.1 (UpTo (at_most (length self.now))) }
        ensures exact { result.0 ≡ length self.now }
        ensures upper { result.1 ≡ Some (length self.now) }
    {
        let len = self.rest.len();
        (len, Some(len))
    }
}

/// An iterator that lends the entries of a page table mutably, each once, in order of index. After the last it always
/// returns `None`.
///
/// Contracts see it as the list of the words that are still to come.
#[derive(Drop)]
pub struct EntriesMut<'a> {
    rest: &'a mut [PageTableEntry],
}

impl<'a> Model for EntriesMut<'a> {
    ghost use Rattle.std.specs.Prelude.{List, ℕ};

    ghost Value = { List ℕ };

    ghost view = { λ entries. entries.rest.now };
}

impl<'a> EntriesMut<'a> {
    /// Creates an iterator over the given entries.
    pub(super) fn new(rest: &'a mut [PageTableEntry]) -> EntriesMut<'a>
        ensures { result ≡ rest.old }
    {
        EntriesMut { rest }
    }
}

impl<'a> Iterator for EntriesMut<'a> {
    type Item = &'a mut PageTableEntry;

    ghost next_gives = { YieldsFirstMut (λ entries. entries) };

    ghost remaining = { item_count (λ entries. entries) };

    fn next(&mut self) -> Option<&'a mut PageTableEntry> {
        let rest = mem::take(&mut self.rest);
        let (first, others) = rest.split_first_mut()?;
        self.rest = others;
        Some(first)
    }

    fn size_hint(&self) -> (usize, Option<usize>)
        ensures lower { IsWithinCount result.0 (at_most (length self.now)) }
        ensures ends { IfSome result.1 (UpTo (at_most (length self.now))) }
        ensures exact { result.0 ≡ length self.now }
        ensures upper { result.1 ≡ Some (length self.now) }
    {
        let left = self.rest.len();
        (left, Some(left))
    }
}
