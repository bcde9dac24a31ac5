//! The machine's step.
ghost use Rattle.std.specs.Prelude.{◌≡◌, ◌≤◌, OnOk, IfOk};
ghost use Rattle.x86_64_model.specs.Call.{MapToWithTableFlags, CleanUp};
ghost use Rattle.x86_64_model.specs.Pool.{with_returned};
ghost use Rattle.x86_64_model.specs.Store.{put_first};
ghost use Rattle.x86_64_model.specs.Translation.{translate as translate_of, address_of as address_of_translated};
ghost use Rattle.x86_64_model.specs.Machine.{step as step_of};
ghost use Rattle.test_reference.specs.Windows.{entry_read};
ghost use Rattle.test_reference.specs.Calls.{plain_call, translated_of};
ghost use Rattle.test_reference.specs.Machine.{CanAdd, plain_machine, plain_state, plain_outcome, allowed_outcome};

use crate::cleaning::CleanUpRange;
use crate::entries::PathEntries;
use crate::plain_calls::{PlainCall, PlainPage, PlainReply, Translated};
use crate::translations::translate;
use crate::windows::PlainWindow;
use crate::words::parent_part;
use std::alloc::AllocError;

/// The parameters that no call changes: the number of levels, the recursive index if there is one, and the flags that a new table
/// entry gets in addition to the parent flags.
///
/// A returned frame is put in front of the pool.
#[derive(Clone, Copy, Debug, PartialEq, Eq)]
pub struct PlainMachine {
    pub levels: usize,
    pub window: Option<PlainWindow>,
    pub added_flags: u64,
}

/// The entries by path, and the pool of free frames.
#[derive(Drop)]
pub struct PlainState {
    pub paths: PathEntries,
    pub pool: Vec<u64>,
}

/// Returns the physical address of a translated position: the frame's start plus the offset. A position is the number of an
/// address counted without the gap in the middle of the address space.
fn address_of(translated: Translated) -> Option<u64>
    requires { CanAdd (translated_of translated) }
    ensures { result ≡ address_of_translated (translated_of translated) }
{
    match translated {
        Translated::NotMapped => None,
        Translated::Mapped { frame, offset, .. } => Some(frame + offset),
    }
}

/// Puts frames in front of a pool, one after another.
fn give_back(pool: &mut Vec<u64>, frames: &[u64]) -> Result<(), AllocError>
    ensures { OnOk result (pool.new.items ≡ with_returned put_first pool.old.items frames.now) }
{
    match frames {
        [] => Ok(()),
        [frame, others @ ..] => {
            pool.insert(0, *frame)?;
            give_back(pool, others)
        }
    }
}

impl PlainMachine {
    /// Translates a position.
    fn translate(&self, paths: &PathEntries, position: u64) -> Result<Translated, AllocError>
        requires { self.now.levels ≤ 5 }
        ensures meaning { let read = entry_read self.now.window paths.now in
            IfOk result (λ t. translated_of t ≡ translate_of self.now.levels read position) }
        ensures can_add { IfOk result (λ t. CanAdd (translated_of t)) }
    {
        translate(self.levels, self.window, paths, position)
    }

    /// Maps a page.
    #[tactic(auto, unfolding(x86_64_model::specs::Machine::do_call))]
    fn map(
        &self,
        state: &mut PlainState,
        page: PlainPage,
        frame: u64,
        flags: u64,
        parent_flags: u64,
    ) -> Result<PlainReply, AllocError>
        requires { self.now.levels ≤ 5 }
        ensures { let call = MapToWithTableFlags page.level page.position frame flags parent_flags in
            IfOk result (λ reply. plain_outcome state.new reply ≡ allowed_outcome self.now state.old call) }
    {
        let alloc = *state.pool.allocator();
        let path = page.path(alloc, self.levels)?;
        let (paths, pool) = (&mut state.paths, &mut state.pool);
        let answer = self.map_call(paths, pool, &path, frame, flags, parent_flags)?;
        Ok(PlainReply::Answered(answer))
    }

    /// Frees the empty tables of the positions from low to high.
    #[tactic(auto, unfolding(x86_64_model::specs::Machine::do_call))]
    fn clean_up(
        &self,
        state: &mut PlainState,
        low: u64,
        high: u64,
    ) -> Result<PlainReply, AllocError>
        requires { self.now.levels ≤ 5 }
        ensures { let call = CleanUp low high in
            IfOk result (λ reply. plain_outcome state.new reply ≡ allowed_outcome self.now state.old call) }
    {
        let levels = self.levels;
        let back = CleanUpRange { levels, low, high }.clean_up(&mut state.paths)?;
        give_back(&mut state.pool, &back)?;
        Ok(PlainReply::Cleaned)
    }

    /// Carries out an allowed call.
    #[tactic(auto, unfolding(x86_64_model::specs::Machine::do_call))]
    fn do_call(&self, state: &mut PlainState, call: &PlainCall) -> Result<PlainReply, AllocError>
        requires { self.now.levels ≤ 5 }
        ensures { let outcome_of = allowed_outcome self.now state.old in
            IfOk result (λ reply. plain_outcome state.new reply ≡ outcome_of (plain_call call.now)) }
    {
        let (alloc, levels) = (*state.pool.allocator(), self.levels);
        match *call {
            PlainCall::MapTo { page, frame, flags } => {
                self.map(state, page, frame, flags, parent_part(flags))
            }
            PlainCall::MapToWithTableFlags {
                page,
                frame,
                flags,
                parent_flags,
            } => self.map(state, page, frame, flags, parent_flags),
            PlainCall::IdentityMap {
                level,
                frame,
                flags,
            } => {
                let position = frame;
                self.map(
                    state,
                    PlainPage { level, position },
                    frame,
                    flags,
                    parent_part(flags),
                )
            }
            PlainCall::Unmap { page } => {
                let path = page.path(alloc, levels)?;
                Ok(PlainReply::Answered(self.unmap(&mut state.paths, &path)?))
            }
            PlainCall::UpdateFlags { page, flags } => {
                let path = page.path(alloc, levels)?;
                Ok(PlainReply::Answered(self.update_flags(&mut state.paths, &path, flags)?))
            }
            PlainCall::SetFlags { level, page, flags } => {
                let path = page.path(alloc, levels)?;
                Ok(PlainReply::Answered(self.set_flags(&mut state.paths, level, &path, flags)?))
            }
            PlainCall::TranslatePage { page } => {
                let path = page.path(alloc, levels)?;
                Ok(PlainReply::Answered(self.translate_page(&state.paths, &path)))
            }
            PlainCall::Translate { position } => {
                Ok(PlainReply::Position(self.translate(&state.paths, position)?))
            }
            PlainCall::TranslateAddress { position } => {
                let translated = self.translate(&state.paths, position)?;
                Ok(PlainReply::Address(address_of(translated)))
            }
            PlainCall::CleanUp { low, high } => self.clean_up(state, low, high),
        }
    }

    /// Carries out one call. A call that isn't allowed gets the reply `NotAllowed` and changes nothing.
    ///
    /// # Errors
    ///
    /// `AllocError` if memory allocation fails. The state is then unspecified.
    pub fn step(&self, state: &mut PlainState, call: &PlainCall) -> Result<PlainReply, AllocError>
        requires { self.now.levels ≤ 5 }
        ensures { let expected = step_of (plain_machine self.now) (plain_state state.old)
            (plain_call call.now) in IfOk result (λ reply. plain_outcome state.new reply ≡ expected) }
    {
        if self.is_allowed(&state.paths, call)? {
            self.do_call(state, call)
        } else {
            Ok(PlainReply::NotAllowed)
        }
    }
}
