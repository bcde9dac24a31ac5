//! Clean up: which empty tables are freed, and in which order.
//!
//! Positions are the numbers of addresses counted without the gap in the middle of the address space.
ghost use Rattle.std.specs.Prelude.{◌≡◌, ◌≤◌, ◌+◌, ◌*◌, ◌++◌, ◌∷◌, [], OnOk, IfOk, fold, not, filter};
ghost use Rattle.std.specs.List.{list_all};
ghost use Rattle.std.specs.FinMap.{keys, retain_keys};
ghost use Rattle.x86_64_model.specs.Path.{parents, paths_below, is_below as is_below_of, span_start as span_start_of};
ghost use Rattle.test_reference.specs.PathEntries.{pairs};
ghost use Rattle.test_reference.specs.Cleaning.{FitsOrNone, in_range_if_below, frames, stays, plain_clean_up};
ghost use Rattle.x86_64_model.specs.CleanUp.{meets as meets_of, in_range as in_range_of, is_removed as is_removed_of, clean_up as clean_up_of};

use crate::entries::{PathEntries, PathEntry};
use crate::positions::span_size;
use crate::words::{address, is_huge, is_present};
use std::alloc::{AllocError, Global};

/// Returns the number with the digits so far followed by the indices of a path as digits in base 512, if it is below 2^64.
#[tactic(auto, using(crate::proofs::CleanUps::number_past_product, crate::proofs::CleanUps::number_past_sum))]
fn number(so_far: u64, path: &[u64]) -> Option<u64>
    ensures { FitsOrNone result (fold (λ n i. n * 512 + i) so_far path.now) }
{
    match path {
        [] => Some(so_far),
        [index, rest @ ..] => number(so_far.checked_mul(512)?.checked_add(*index)?, rest),
    }
}

/// Returns the first position of a path's span, if it is below 2^64.
fn span_start(levels: usize, path: &[u64]) -> Option<u64>
    requires { levels ≤ 5 }
    ensures { FitsOrNone result (span_start_of levels path.now) }
{
    number(0, path)?.checked_mul(span_size(levels, path))
}

/// Returns true if a path is longer than another and begins with it.
fn is_below(above: &[u64], path: &[u64]) -> bool
    ensures { result ≡ is_below_of above.now path.now }
{
    match above {
        [] => !path.is_empty(),
        [first, above @ ..] => match path {
            [] => false,
            [index, path @ ..] => *first == *index && is_below(above, path),
        },
    }
}

/// Returns a path with one more index.
fn extended(alloc: Global, path: &[u64], index: u64) -> Result<Vec<u64>, AllocError>
    ensures { IfOk result (λ below. below.items ≡ path.now ++ index ∷ []) }
{
    let mut below = Vec::from_slice(alloc, path)?;
    below.push(index)?;
    Ok(below)
}

/// The positions from low to high, in a hierarchy with a number of levels.
#[derive(Clone, Copy)]
pub struct CleanUpRange {
    pub levels: usize,
    pub low: u64,
    pub high: u64,
    ghost few: { levels ≤ 5 },
}

impl CleanUpRange {
    /// Returns true if a path's span overlaps the range.
    fn meets(self, path: &[u64]) -> bool
        ensures { result ≡ meets_of self.levels self.low self.high path.now }
    {
        let Some(start) = span_start(self.levels, path) else {
            return false;
        };
        let is_met = self.low < start || self.low - start < span_size(self.levels, path);
        self.low <= self.high && start <= self.high && is_met
    }

    /// Returns true if a path has a present table entry whose span overlaps the range.
    fn has_table(self, paths: &PathEntries, path: &[u64]) -> bool
        ensures { result ≡ in_range_of self.levels paths.now self.low self.high path.now }
    {
        let word = paths.entry(path);
        path.len() < self.levels && is_present(word) && !is_huge(word) && self.meets(path)
    }

    /// Returns true if all parents of a path are present table entries whose spans overlap the range.
    fn has_parents(self, paths: &PathEntries, path: &[u64]) -> bool
        ensures { let holds = in_range_of self.levels paths.now self.low self.high in
            result ≡ list_all holds (parents path.now) }
    {
        for length in 1..path.len() {
            if !self.has_table(paths, &path[..length]) {
                return false;
            }
        }
        true
    }

    /// Returns true if each item below a path is a present table entry whose span overlaps the range.
    fn has_items(self, paths: &PathEntries, path: &[u64], items: &[PathEntry]) -> bool
        ensures { let holds = in_range_if_below self.levels paths.now self.low self.high path.now in
            result ≡ list_all (λ item. holds item.path.items) items.now }
    {
        items.iter().all(|item| !is_below(path, &item.path) | self.has_table(paths, &item.path))
    }

    /// Returns true if each used entry below a path is a present table entry whose span overlaps the range.
    fn has_all_below(self, paths: &PathEntries, path: &[u64]) -> bool
        ensures { let holds = in_range_if_below self.levels paths.now self.low self.high path.now in
            result ≡ list_all holds (keys paths.now) }
    {
        self.has_items(paths, path, &paths.items)
    }

    /// Returns true if the entry at a path, all its parents and every used entry below it are present table entries whose
    /// spans overlap the range.
    #[tactic(auto, unfolding(x86_64_model::specs::CleanUp::is_removed))]
    fn removes(self, paths: &PathEntries, path: &[u64]) -> bool
        ensures { result ≡ is_removed_of self.levels paths.now self.low self.high path.now }
    {
        self.has_table(paths, path)
            && self.has_parents(paths, path)
            && self.has_all_below(paths, path)
    }

    /// Adds the frame of the table at a path, if the path is removed.
    fn add_frame(
        self,
        paths: &PathEntries,
        path: &[u64],
        back: &mut Vec<u64>,
    ) -> Result<(), AllocError>
        ensures { let added = frames self.levels paths.now self.low self.high (path.now ∷ []) in
            OnOk result (back.new.items ≡ back.old.items ++ added) }
    {
        if self.removes(paths, path) {
            back.push(address(paths.entry(path)))?;
        }
        Ok(())
    }

    /// Adds the frames of the removed tables below a path, of at most `depth` more indices. Nothing is removed below a path
    /// that isn't in the range.
    fn add_frames(
        self,
        paths: &PathEntries,
        depth: usize,
        path: &[u64],
        back: &mut Vec<u64>,
    ) -> Result<(), AllocError>
        ensures { let added = frames self.levels paths.now self.low self.high (paths_below depth path.now) in
            OnOk result (back.new.items ≡ back.old.items ++ added) }
    {
        if depth == 0 {
            return Ok(());
        }
        let alloc = *back.allocator();
        for index in 0..512 {
            let below = extended(alloc, path, index)?;
            if self.has_table(paths, &below) {
                self.add_frames(paths, depth - 1, &below, back)?;
                self.add_frame(paths, &below, back)?;
            }
        }
        Ok(())
    }

    /// Adds an item to those that stay, if its path isn't removed.
    fn add_left(
        self,
        paths: &PathEntries,
        item: &PathEntry,
        left: &mut Vec<PathEntry>,
    ) -> Result<(), AllocError>
        ensures { let added = filter (stays self.levels paths.now self.low self.high) (item.now ∷ []) in
            OnOk result (pairs left.new.items ≡ pairs left.old.items ++ pairs added) }
    {
        if !self.removes(paths, &item.path) {
            let path = Vec::from_slice(*left.allocator(), &item.path)?;
            let word = item.word;
            left.push(PathEntry { path, word })?;
        }
        Ok(())
    }

    /// Returns the entries at paths that aren't removed.
    fn left_entries(self, paths: &PathEntries) -> Result<PathEntries, AllocError>
        ensures { let removed = is_removed_of self.levels paths.now self.low self.high in
            IfOk result (λ left. left ≡ retain_keys paths.now (λ q. not (removed q))) }
    {
        let mut left = Vec::new(*paths.items.allocator());
        for item in &paths.items {
            self.add_left(paths, item, &mut left)?;
        }
        Ok(PathEntries { items: left })
    }

    /// Removes the entries at the removed paths, and returns the frames of their tables, each after those below it,
    /// otherwise in ascending order of indices.
    ///
    /// # Errors
    ///
    /// `AllocError` if memory allocation fails. The entries are then unspecified.
    #[tactic(auto, unfolding(x86_64_model::specs::CleanUp::clean_up))]
    pub fn clean_up(self, paths: &mut PathEntries) -> Result<Vec<u64>, AllocError>
        ensures { let after = clean_up_of self.levels paths.old self.low self.high in
            IfOk result (λ back. plain_clean_up paths.new back.items ≡ after) }
    {
        let mut back = Vec::new(*paths.items.allocator());
        self.add_frames(paths, self.levels.saturating_sub(1), &[], &mut back)?;
        *paths = self.left_entries(paths)?;
        Ok(back)
    }
}
