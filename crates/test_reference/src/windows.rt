//! The recursive index, at which the root's entry names the root itself, and the entries that are read through it.
ghost use Rattle.std.specs.Prelude.{◌≡◌};
ghost use Rattle.x86_64_model.specs.Window.{begins_with as begins_with_of, windowed as windowed_of};
ghost use Rattle.x86_64_model.specs.Refusal.{first_stop as first_stop_of};
ghost use Rattle.test_reference.specs.Windows.{window_of, the_window, entry_read};
ghost use Rattle.test_reference.specs.Calls.{refusals_of};

use crate::entries::PathEntries;
use crate::plain_calls::Refusal;
use crate::words::{is_huge, is_present};

/// A recursive index, and the root's entry at this index.
#[derive(Clone, Copy, Debug, PartialEq, Eq)]
pub struct PlainWindow {
    pub index: u64,
    pub self_entry: u64,
}

/// Returns true if a path lies in the recursive window: it begins with the recursive index.
pub fn begins_with(window: Option<PlainWindow>, path: &[u64]) -> bool
    ensures { result ≡ begins_with_of (window_of window) path.now }
{
    match (window, path) {
        (Some(window), [index, ..]) => *index == window.index,
        _ => false,
    }
}

/// Returns the entry read at a path through a window.
fn windowed(window: PlainWindow, paths: &PathEntries, path: &[u64]) -> u64
    ensures { result ≡ windowed_of (the_window window) paths.now path.now }
{
    match path {
        [] => 0,
        [index] if *index == window.index => window.self_entry,
        [index, rest @ ..] if *index == window.index => windowed(window, paths, rest),
        _ => paths.entry(path),
    }
}

/// Returns the entry read at a path, through the window if there is one.
#[tactic(auto, unfolding(x86_64_model::specs::Window::entry_at))]
pub fn entry_at(window: Option<PlainWindow>, paths: &PathEntries, path: &[u64]) -> u64
    ensures { result ≡ entry_read window paths.now path.now }
{
    match window {
        None => paths.entry(path),
        Some(window) => windowed(window, paths, path),
    }
}

/// Returns the refusal by the shortest parent of a path that isn't a present table entry.
#[tactic(auto, using(crate::proofs::Parents::stop_absent, crate::proofs::Parents::stop_huge, crate::proofs::Parents::stop_end))]
pub fn first_stop(window: Option<PlainWindow>, paths: &PathEntries, path: &[u64]) -> Option<Refusal>
    ensures { refusals_of result ≡ first_stop_of (entry_read window paths.now) path.now }
{
    for length in 1..path.len() {
        let word = entry_at(window, paths, &path[..length]);
        if !is_present(word) {
            return Some(Refusal::PageNotMapped);
        }
        if is_huge(word) {
            return Some(Refusal::ParentEntryHugePage);
        }
    }
    None
}
