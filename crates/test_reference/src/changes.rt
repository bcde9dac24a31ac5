//! The calls on one entry.
ghost use Rattle.std.specs.Prelude.{◌≡◌, ◌≤◌, ◌%◌, ◌==◌, IfOk, None, not};
ghost use Rattle.x86_64_model.specs.Entry.{used, address as address_of};
ghost use Rattle.x86_64_model.specs.Path.{span_size as span_size_of};
ghost use Rattle.x86_64_model.specs.PathMap.{put};
ghost use Rattle.x86_64_model.specs.MapRule.{leaf_entry as leaf_entry_of};
ghost use Rattle.x86_64_model.specs.Refusal.{Done, PageNotMapped, answer_unless, refused_if};
ghost use Rattle.x86_64_model.specs.PageRules.{AfterChange, refused_or, unmap_refusal as unmap_refusal_of, update_refusal as update_refusal_of, translate_refusal as translate_refusal_of, unmap as unmap_of, update_flags as update_flags_of, translate_page as translate_page_of, set_flags as set_flags_of};
ghost use Rattle.test_reference.specs.Windows.{entry_read};
ghost use Rattle.test_reference.specs.Calls.{refusals_of, answer_of, plain_change};

use crate::entries::PathEntries;
use crate::machine::PlainMachine;
use crate::plain_calls::{Answer, Refusal};
use crate::positions::{front_at, is_small, level_of, span_size};
use crate::windows::{entry_at, first_stop};
use crate::words::{HUGE_PAGE, address, is_huge, is_present, is_used};
use std::alloc::AllocError;

/// Returns the entry of a mapped page: the frame and the flags, with HUGE_PAGE for a 2MiB or 1GiB page.
pub fn leaf_entry(levels: usize, page: &[u64], frame: u64, flags: u64) -> u64
    ensures { result ≡ leaf_entry_of levels page.now frame flags }
{
    if is_small(levels, page) {
        frame | flags
    } else {
        frame | (flags | HUGE_PAGE)
    }
}

/// Sets the entry at a path, unless there is a refusal.
fn change(
    paths: &mut PathEntries,
    refusal: Option<Refusal>,
    path: &[u64],
    word: u64,
    frame: u64,
) -> Result<Answer, AllocError>
    ensures { let next : AfterChange = record { paths = put paths.old path.now word; answer = Done frame } in
        let after = refused_or paths.old (refusals_of refusal) next in
        IfOk result (λ answer. plain_change paths.new answer ≡ after) }
{
    match refusal {
        Some(why) => Ok(Answer::Refused(why)),
        None => {
            paths.put(path, word)?;
            Ok(Answer::Done(frame))
        }
    }
}

/// Returns the answer with a frame, unless there is a refusal.
fn answer(refusal: Option<Refusal>, frame: u64) -> Answer
    ensures { answer_of result ≡ answer_unless (refusals_of refusal) (Done frame) }
{
    match refusal {
        Some(why) => Answer::Refused(why),
        None => Answer::Done(frame),
    }
}

/// Returns true if the address in a word is a multiple of the size of a page.
fn is_aligned(levels: usize, page: &[u64], word: u64) -> bool
    requires { levels ≤ 5 }
    ensures { result ≡ (address_of word % span_size_of levels page.now == 0) }
{
    address(word) % span_size(levels, page) == 0
}

/// Returns the refusal to unmap a page by its own entry, if any.
fn unmap_refusal(levels: usize, page: &[u64], word: u64) -> Option<Refusal>
    requires { levels ≤ 5 }
    ensures { refusals_of result ≡ unmap_refusal_of levels page.now word }
{
    if !is_present(word) {
        return Some(Refusal::PageNotMapped);
    }
    if is_huge(word) == is_small(levels, page) {
        return Some(Refusal::ParentEntryHugePage);
    }
    if !is_small(levels, page) && !is_aligned(levels, page, word) {
        return Some(Refusal::InvalidFrameAddress(address(word)));
    }
    None
}

/// Returns the refusal to change a page's flags by its own entry, if any.
fn update_refusal(levels: usize, page: &[u64], word: u64) -> Option<Refusal>
    ensures { refusals_of result ≡ update_refusal_of levels page.now word }
{
    if !is_used(word) || !is_small(levels, page) && !is_huge(word) {
        Some(Refusal::PageNotMapped)
    } else {
        None
    }
}

/// Returns the refusal to name a page's frame by its own entry, if any.
fn translate_refusal(levels: usize, page: &[u64], word: u64) -> Option<Refusal>
    requires { levels ≤ 5 }
    ensures { refusals_of result ≡ translate_refusal_of levels page.now word }
{
    if !is_used(word) {
        return Some(Refusal::PageNotMapped);
    }
    if !is_small(levels, page) && (!is_huge(word) || !is_aligned(levels, page, word)) {
        return Some(Refusal::InvalidFrameAddress(address(word)));
    }
    None
}

/// Returns the refusal to change an entry if it is absent.
fn unused_refusal(word: u64) -> Option<Refusal>
    ensures { refusals_of result ≡ refused_if (not (used word)) PageNotMapped None }
{
    if is_used(word) {
        None
    } else {
        Some(Refusal::PageNotMapped)
    }
}

impl PlainMachine {
    /// Unmaps a page. Its entry must be present. It must be huge if and only if the page is a 2MiB or 1GiB page, and then its address
    /// must be a multiple of the page's size.
    ///
    /// # Errors
    ///
    /// `AllocError` if memory allocation fails. The entries are then unspecified.
    pub fn unmap(&self, paths: &mut PathEntries, page: &[u64]) -> Result<Answer, AllocError>
        requires { self.now.levels ≤ 5 }
        ensures { let read = entry_read self.now.window paths.old in
            let after = unmap_of self.now.levels read paths.old page.now in
            IfOk result (λ answer. plain_change paths.new answer ≡ after) }
    {
        let word = entry_at(self.window, paths, page);
        let refusal = first_stop(self.window, paths, page).or(unmap_refusal(
            self.levels,
            page,
            word,
        ));
        change(paths, refusal, page, 0, address(word))
    }

    /// Sets the flags of a page. Its entry must be used, and huge for a 2MiB or 1GiB page.
    ///
    /// # Errors
    ///
    /// `AllocError` if memory allocation fails. The entries are then unspecified.
    pub fn update_flags(
        &self,
        paths: &mut PathEntries,
        page: &[u64],
        flags: u64,
    ) -> Result<Answer, AllocError>
        ensures { let read = entry_read self.now.window paths.old in
            let after = update_flags_of self.now.levels read paths.old page.now flags in
            IfOk result (λ answer. plain_change paths.new answer ≡ after) }
    {
        let word = entry_at(self.window, paths, page);
        let frame = address(word);
        let refusal = first_stop(self.window, paths, page).or(update_refusal(
            self.levels,
            page,
            word,
        ));
        change(
            paths,
            refusal,
            page,
            leaf_entry(self.levels, page, frame, flags),
            frame,
        )
    }

    /// Returns the frame of a page. Its entry must be used. For a 2MiB or 1GiB page it must be huge, with an address that is a
    /// multiple of the page's size.
    pub fn translate_page(&self, paths: &PathEntries, page: &[u64]) -> Answer
        requires { self.now.levels ≤ 5 }
        ensures { let read = entry_read self.now.window paths.now in
            answer_of result ≡ translate_page_of self.now.levels read page.now }
    {
        let word = entry_at(self.window, paths, page);
        let refusal = first_stop(self.window, paths, page).or(translate_refusal(
            self.levels,
            page,
            word,
        ));
        answer(refusal, address(word))
    }

    /// Sets the flags of the entry of a level on a page's path. The level must be above the page's own, and the entry must be used.
    ///
    /// # Errors
    ///
    /// `AllocError` if memory allocation fails. The entries are then unspecified.
    pub fn set_flags(
        &self,
        paths: &mut PathEntries,
        level: usize,
        page: &[u64],
        flags: u64,
    ) -> Result<Answer, AllocError>
        requires { self.now.levels ≤ 5 }
        ensures { let read = entry_read self.now.window paths.old in
            let after = set_flags_of self.now.levels read paths.old level page.now flags in
            IfOk result (λ answer. plain_change paths.new answer ≡ after) }
    {
        if level <= level_of(self.levels, page) {
            return Ok(Answer::Refused(Refusal::ParentEntryHugePage));
        }
        let path = front_at(self.levels, level, page);
        let word = entry_at(self.window, paths, path);
        let frame = address(word);
        let refusal = first_stop(self.window, paths, path).or(unused_refusal(word));
        change(paths, refusal, path, frame | flags, frame)
    }
}
