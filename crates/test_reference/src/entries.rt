//! Path maps as lists of paths and entries.
ghost use Rattle.std.specs.Prelude.{◌≡◌, OnOk};
ghost use Rattle.std.specs.FinMap.{empty};
ghost use Rattle.test_reference.specs.PathEntries.{found_entry, without_entry};
ghost use Rattle.x86_64_model.specs.PathMap.{entry as entry_of, put as put_of};

use std::alloc::{AllocError, Global};
use std::marker::Model;

/// A path and the entry at it.
#[derive(Drop)]
pub struct PathEntry {
    /// The path.
    pub path: Vec<u64>,
    /// The entry's word.
    pub word: u64,
}

/// The entries by path, seen as a path map. If a path occurs twice, its first entry counts.
#[derive(Drop)]
pub struct PathEntries {
    /// The paths and entries.
    pub items: Vec<PathEntry>,
}

impl Model for PathEntries {
    ghost use Rattle.std.specs.Prelude.{ℕ};
    ghost use Rattle.std.specs.Ordering.{nat_cmp};
    ghost use Rattle.std.specs.Cmp.Lexicographic.{slice_cmp};
    ghost use Rattle.std.specs.Coded.{coded_ℕ, coded_list};
    ghost use Rattle.std.specs.FinMap as map;

    ghost Value = { map.FinMap (slice_cmp nat_cmp) ℕ };

    ghost coded = { map.code (coded_list coded_ℕ) coded_ℕ };

    ghost use Rattle.test_reference.specs.PathEntries.{paths_of_items};

    ghost view = { λ a. paths_of_items a.items.items };
}

impl PathEntries {
    /// Creates a path map without entries.
    pub fn new(alloc: Global) -> Self
        ensures { result ≡ empty }
    {
        Self {
            items: Vec::new(alloc),
        }
    }

    /// Returns the entry at a path, or 0 if there is none.
    #[tactic(auto, using(crate::proofs::Lists::entry_items))]
    pub fn entry(&self, path: &[u64]) -> u64
        ensures { result ≡ entry_of self.now path.now }
    {
        word_at(&self.items, path).unwrap_or(0)
    }

    /// Sets the entry at a path. A used entry is stored, an absent one is removed.
    ///
    /// # Errors
    ///
    /// `AllocError` if memory allocation fails. The entries are then unspecified.
    pub fn put(&mut self, path: &[u64], word: u64) -> Result<(), AllocError>
        ensures { OnOk result (self.new ≡ put_of self.old path.now word) }
    {
        leave_out(&mut self.items, path);
        if word != 0 {
            let path = Vec::from_slice(*self.items.allocator(), path)?;
            self.items.push(PathEntry { path, word })?;
        }
        Ok(())
    }
}

/// Returns the first word stored for a path.
fn word_at(items: &[PathEntry], path: &[u64]) -> Option<u64>
    ensures { result ≡ found_entry items.now path.now }
{
    items
        .iter()
        .find(|item| item.path.as_slice() == path)
        .map(|item| item.word)
}

/// Removes all items at a path.
fn leave_out(items: &mut Vec<PathEntry>, path: &[u64])
    ensures { items.new.items ≡ without_entry items.old.items path.now }
{
    items.retain(|item| item.path.as_slice() != path);
}
