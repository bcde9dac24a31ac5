//! Which calls are allowed.
ghost use Rattle.std.specs.Prelude.{◌≡◌, ◌≤◌, ℕ, IfOk};
ghost use Rattle.x86_64_model.specs.Path.{parents};
ghost use Rattle.x86_64_model.specs.PageRules.{set_flags};
ghost use Rattle.x86_64_model.specs.MapRule.{parent_part as parent_part_of};
ghost use Rattle.x86_64_model.specs.Allowed.{allowed as allowed_of, refuses, both_or_none as both_or_none_of, parents_present as parents_present_of, map_allowed as map_allowed_of, set_flags_allowed as set_flags_allowed_of, table_flags_allowed};
ghost use Rattle.test_reference.specs.Fronts.{first_present};
ghost use Rattle.test_reference.specs.Windows.{window_of, entry_read};
ghost use Rattle.test_reference.specs.Calls.{plain_call};

use crate::entries::PathEntries;
use crate::machine::PlainMachine;
use crate::plain_calls::{PlainCall, PlainPage};
use crate::positions::{front_at, is_small, level_of, lower_half};
use crate::windows::{begins_with, entry_at, first_stop};
use crate::words::{is_huge, is_present, is_used, no_address, parent_part};
use std::alloc::AllocError;

/// Returns true if the first parent that is absent or huge is present, or if there is none.
fn none_absent(paths: &PathEntries, path: &[u64]) -> bool
    ensures { result ≡ first_present paths.now (parents path.now) }
{
    for length in 1..path.len() {
        let word = paths.entry(&path[..length]);
        if !is_present(word) {
            return false;
        }
        if is_huge(word) {
            return true;
        }
    }
    true
}

/// Returns true if the parents of a path will be present.
fn parents_present(paths: &PathEntries, parent_flags: u64, path: &[u64]) -> bool
    ensures { result ≡ parents_present_of paths.now parent_flags path.now }
{
    is_present(parent_flags) | none_absent(paths, path)
}

/// Returns true if both hold or neither does.
fn both_or_none(first: bool, second: bool) -> bool
    ensures { result ≡ both_or_none_of first second }
{
    if first { second } else { !second }
}

impl PlainMachine {
    /// Returns true if a map of a page is allowed.
    fn map_allowed(&self, paths: &PathEntries, page: &[u64], flags: u64, parent_flags: u64) -> bool
        ensures { let allows = map_allowed_of self.now.levels (window_of self.now.window) in
            result ≡ allows paths.now page.now flags parent_flags }
    {
        no_address(flags)
            & no_address(parent_flags)
            & !is_huge(parent_flags)
            & (!is_small(self.levels, page) | !is_huge(flags))
            & parents_present(paths, parent_flags, page)
            & !begins_with(self.window, page)
    }

    /// Returns true if a map of a page is allowed with the parent flags from its own flags.
    fn map_to_allowed(&self, paths: &PathEntries, page: &[u64], flags: u64) -> bool
        ensures { let parent_flags = parent_part_of flags in
            let allows = map_allowed_of self.now.levels (window_of self.now.window) in
            result ≡ allows paths.now page.now flags parent_flags }
    {
        self.map_allowed(paths, page, flags, parent_part(flags))
    }

    /// Returns true if `set_flags` is refused, whatever the flags.
    fn set_flags_refuses(&self, paths: &PathEntries, level: usize, page: &[u64]) -> bool
        requires { self.now.levels ≤ 5 }
        ensures { let read = entry_read self.now.window paths.now in
            let after = set_flags self.now.levels read paths.now level page.now in
            (given : ℕ) → result ≡ refuses (after given).answer }
    {
        let path = front_at(self.levels, level, page);
        (level <= level_of(self.levels, page))
            | first_stop(self.window, paths, path).is_some()
            | !is_used(entry_at(self.window, paths, path))
    }

    /// Returns true if the flags are allowed for the entry of a level on a page's path.
    fn set_flags_allowed(&self, paths: &PathEntries, level: usize, page: &[u64], flags: u64) -> bool
        requires { self.now.levels ≤ 5 }
        ensures { let read = entry_read self.now.window paths.now in
            result ≡ set_flags_allowed_of self.now.levels read paths.now level page.now flags }
    {
        if level > 3 {
            return !is_huge(flags);
        }
        let word = entry_at(self.window, paths, front_at(self.levels, level, page));
        self.set_flags_refuses(paths, level, page) | both_or_none(is_huge(flags), is_huge(word))
    }

    /// Returns true if setting the flags of the entry of a level on a page's path is allowed.
    fn is_set_flags_allowed(
        &self,
        paths: &PathEntries,
        level: usize,
        page: &[u64],
        flags: u64,
    ) -> bool
        requires { self.now.levels ≤ 5 }
        ensures { let allows = table_flags_allowed self.now.levels (window_of self.now.window) in
            result ≡ allows paths.now level page.now flags }
    {
        no_address(flags)
            & !begins_with(self.window, page)
            & self.set_flags_allowed(paths, level, page, flags)
    }

    /// Returns true if a call is allowed.
    pub fn is_allowed(&self, paths: &PathEntries, call: &PlainCall) -> Result<bool, AllocError>
        requires { self.now.levels ≤ 5 }
        ensures { let allows = allowed_of self.now.levels (window_of self.now.window) in
            IfOk result (λ b. b ≡ allows paths.now (plain_call call.now)) }
    {
        let (alloc, levels) = (*paths.items.allocator(), self.levels);
        match *call {
            PlainCall::MapTo { page, flags, .. } => {
                let path = page.path(alloc, levels)?;
                Ok(self.map_to_allowed(paths, &path, flags))
            }
            PlainCall::MapToWithTableFlags {
                page,
                flags,
                parent_flags,
                ..
            } => {
                let path = page.path(alloc, levels)?;
                Ok(self.map_allowed(paths, &path, flags, parent_flags))
            }
            PlainCall::IdentityMap {
                level,
                frame,
                flags,
            } => {
                let position = frame;
                let path = PlainPage { level, position }.path(alloc, levels)?;
                Ok((frame < lower_half(levels)) & self.map_to_allowed(paths, &path, flags))
            }
            PlainCall::Unmap { page } => {
                let path = page.path(alloc, levels)?;
                Ok(!begins_with(self.window, &path))
            }
            PlainCall::UpdateFlags { page, flags } => {
                let path = page.path(alloc, levels)?;
                Ok(no_address(flags) & !begins_with(self.window, &path))
            }
            PlainCall::SetFlags { level, page, flags } => {
                let path = page.path(alloc, levels)?;
                Ok(self.is_set_flags_allowed(paths, level, &path, flags))
            }
            PlainCall::TranslatePage { .. }
            | PlainCall::Translate { .. }
            | PlainCall::TranslateAddress { .. }
            | PlainCall::CleanUp { .. } => Ok(true),
        }
    }
}
