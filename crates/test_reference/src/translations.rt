//! Translation of positions: the numbers of addresses counted without the gap in the middle of the address space.
ghost use Rattle.std.specs.Prelude.{◌≡◌, ◌≤◌, ◌%◌, ◌++◌, ◌∷◌, OnOk, IfOk, []};
ghost use Rattle.x86_64_model.specs.PageWalk.{page_start as page_start_of};
ghost use Rattle.x86_64_model.specs.Position.{span as span_of, index as index_of};
ghost use Rattle.x86_64_model.specs.Translation.{Mapped, translate_on as translate_on_of, translate as translate_of};
ghost use Rattle.test_reference.specs.Windows.{entry_read};
ghost use Rattle.test_reference.specs.Calls.{translated_of};

use crate::entries::PathEntries;
use crate::plain_calls::Translated;
use crate::positions::{index, span};
use crate::windows::{PlainWindow, entry_at};
use crate::words::{address, flags, is_huge, is_present, is_used};
use std::alloc::AllocError;

/// Returns a huge entry's address, rounded down to the page size of its level.
fn page_start(level: usize, word: u64) -> u64
    requires { level ≤ 6 }
    ensures { result ≡ page_start_of level word }
{
    address(word) / span(level) * span(level)
}

/// Returns the translation of a position by an entry of a level that maps it.
fn mapped(level: usize, position: u64, frame: u64, flags: u64) -> Translated
    requires { level ≤ 6 }
    ensures { translated_of result ≡ Mapped (span_of level) frame (position % span_of level) flags }
{
    let size = span(level);
    let offset = position % size;
    Translated::Mapped {
        size,
        frame,
        offset,
        flags,
    }
}

/// Extends a path by the index of a level at a position, and returns the entry there.
fn next_entry(
    window: Option<PlainWindow>,
    paths: &PathEntries,
    position: u64,
    level: usize,
    path: &mut Vec<u64>,
) -> Result<u64, AllocError>
    requires { level ≤ 6 }
    ensures path { OnOk result (path.new.items ≡ path.old.items ++ index_of level position ∷ []) }
    ensures word { let longer = path.old.items ++ index_of level position ∷ [] in
        IfOk result (λ word. word ≡ entry_read window paths.now longer) }
{
    path.push(index(level, position))?;
    Ok(entry_at(window, paths, path))
}

/// Returns the translation of a position from a level down, given the path that leads to that level's table.
fn translate_on(
    window: Option<PlainWindow>,
    paths: &PathEntries,
    position: u64,
    level: usize,
    path: &mut Vec<u64>,
) -> Result<Translated, AllocError>
    requires { level ≤ 5 }
    ensures { let read = entry_read window paths.now in
        IfOk result (λ t. translated_of t ≡ translate_on_of read position level path.old.items) }
{
    if level == 0 {
        return Ok(Translated::NotMapped);
    }
    let word = next_entry(window, paths, position, level, path)?;
    if level == 1 {
        if is_used(word) {
            return Ok(mapped(1, position, address(word), flags(word)));
        }
        return Ok(Translated::NotMapped);
    }
    if !is_present(word) {
        return Ok(Translated::NotMapped);
    }
    if level <= 3 && is_huge(word) {
        return Ok(mapped(level, position, page_start(level, word), flags(word)));
    }
    translate_on(window, paths, position, level - 1, path)
}

/// Returns the translation of a position.
#[tactic(auto, unfolding(x86_64_model::specs::Translation::translate))]
pub fn translate(
    levels: usize,
    window: Option<PlainWindow>,
    paths: &PathEntries,
    position: u64,
) -> Result<Translated, AllocError>
    requires { levels ≤ 5 }
    ensures { let read = entry_read window paths.now in
        IfOk result (λ t. translated_of t ≡ translate_of levels read position) }
{
    let mut path = Vec::new(*paths.items.allocator());
    translate_on(window, paths, position, levels, &mut path)
}
