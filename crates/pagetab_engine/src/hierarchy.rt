//! The program's hierarchy, or two hierarchies with one image in a pair, and the execution of calls.
ghost use Rattle.std.specs.Prelude.{◌≡◌, ◌↔◌, IsOk, IfOk, IfErr, OnOk, OnErr, IsTrue, false};
ghost use Rattle.x86_64.specs.Calls.{to_call, names};
ghost use Rattle.x86_64.specs.Pairs.{pool_store};
ghost use Rattle.pagetab_engine.specs.Arguments.{count, levels_of};
ghost use Rattle.pagetab_engine.specs.Calls.{IsAnswered};
ghost use Rattle.pagetab_engine.specs.Commands.{Call};
ghost use Rattle.pagetab_engine.specs.Frames.{IsLoadable, IsRefusedFor};
ghost use Rattle.pagetab_engine.specs.Hierarchy.{hierarchy_of};
ghost use Rattle.pagetab_engine.specs.Hierarchy.{FitsImage, HasCopy, ReachesAll, IsHierarchy, KeepsHierarchy, TwinTells};
ghost use Rattle.pagetab_engine.specs.Modes.{is_index_named};
ghost use Rattle.pagetab_engine.specs.private.RunParts.{AnswersCommand, IsEmpty, IsFirst, Loads};
ghost use Rattle.pagetab_engine.specs.Reply.{Answered};

use crate::arguments::{Arguments, Mode};
use crate::execution::{answer_at_offset, answer_by_both, answer_direct, answer_recursively};
use crate::frames::Frames;
use crate::statement::ImageLine;
use std::alloc::{AllocError, Global};
use x86_64::structures::paging::OffsetPageTable;
use x86_64::{CallIn, LevelCount, LevelFiveFlags, MapperReply, PoolRefusal, ReplyIn, VirtAddrIn};
use x86_64_addr::level_count::Levels;

/// The frames of a hierarchy, and the mapper that executes calls.
///
/// In a pair two mappers execute each call, and the recursive one has frames of its own.
#[derive(Drop)]
pub struct Hierarchy {
    mode: Mode,
    frames: Frames,
    // The frames of the recursive mapper in a pair, otherwise a memory without places.
    twin: Frames,
}

impl Hierarchy {
    /// Creates an empty hierarchy without free frames, in a memory with as many places as the arguments say. A place
    /// is the index of a table in memory.
    ///
    /// # Errors
    ///
    /// `AllocError` if memory allocation fails.
    pub fn new(alloc: Global, arguments: Arguments) -> Result<Hierarchy, AllocError>
        ensures { IfOk result (IsEmpty arguments) }
    {
        let copied_places = match arguments.mode {
            Mode::Direct(_) | Mode::Offset(_) | Mode::Recursive(..) => 0,
            Mode::Pair(..) => arguments.places,
        };
        Ok(Hierarchy {
            mode: arguments.mode,
            frames: Frames::new(alloc, arguments.places)?,
            twin: Frames::new(alloc, copied_places)?,
        })
    }

    /// Returns the frames. In a pair, they are those of the mapper that finds each frame at the place of its number.
    pub fn frames(&self) -> &Frames
        ensures { result.now ≡ self.now.frames }
    {
        &self.frames
    }

    /// Returns true if the mapper reaches each place of the memory.
    pub fn is_reached(&self) -> bool
        ensures { IsTrue result ↔ ReachesAll self.now }
    {
        match self.mode {
            Mode::Direct(_) | Mode::Recursive(..) | Mode::Pair(..) => true,
            Mode::Offset(offset) => OffsetPageTable::offset_fits(&self.frames.memory, offset),
        }
    }

    /// Loads a line of the image: sets its word, or adds its frame behind the other free ones. In a pair, both
    /// mappers get it.
    ///
    /// # Errors
    ///
    /// Those of [`FramePool::try_add`](x86_64::FramePool::try_add). Then nothing changes.
    pub fn load(&mut self, line: &ImageLine) -> Result<(), PoolRefusal>
        requires { HasCopy self.old }
        ensures accepted { IsOk result ↔ IsLoadable self.old.frames line.now }
        ensures loads { OnOk result (Loads line.now self.old self.new) }
        ensures why { IfErr result (IsRefusedFor self.old.frames line.now) }
        ensures refused { OnErr result (self.new ≡ self.old) }
        ensures reached { ReachesAll self.old → ReachesAll self.new }
    {
        self.frames.load(line)?;
        match self.mode {
            Mode::Direct(_) | Mode::Offset(_) | Mode::Recursive(..) => Ok(()),
            Mode::Pair(..) => self.twin.load(line),
        }
    }

    /// Ends the image. Returns true if the hierarchy is valid, and its free frames fit it. In a pair, this tests the
    /// recursive mapper's hierarchy, and sets the root's word at the index to 0 for the other mapper.
    ///
    /// Requires that the mapper reaches each place.
    ///
    /// # Errors
    ///
    /// `AllocError` if memory allocation fails. Then nothing changes.
    pub fn end_image(&mut self, alloc: Global) -> Result<bool, AllocError>
        requires copy { HasCopy self.old }
        requires reached { ReachesAll self.old }
        ensures fits { IfOk result (λ fits. IsTrue fits ↔ IsHierarchy self.new) }
        ensures tested { IfOk result (λ fits. IsTrue fits ↔ FitsImage self.old) }
        ensures first { OnOk result (IsFirst self.old self.new) }
        ensures unchanged { OnErr result (self.new ≡ self.old) }
    {
        let fits = self.fits(alloc)?;
        self.clear_self_entry();
        Ok(fits)
    }

    /// In a pair, sets the root's word at the recursive index to 0 for the mapper that isn't recursive.
    fn clear_self_entry(&mut self)
        ensures { IsFirst self.old self.new }
    {
        let mode = self.mode;
        match mode {
            Mode::Direct(_) | Mode::Offset(_) | Mode::Recursive(..) => {}
            Mode::Pair(_, index) => self.frames.clear_self_entry(index),
        }
    }

    /// Returns true if the hierarchy and its free frames, as the image has them, are valid and fit.
    ///
    /// # Errors
    ///
    /// `AllocError` if memory allocation fails.
    fn fits(&self, alloc: Global) -> Result<bool, AllocError>
        ensures { IfOk result (λ fits. IsTrue fits ↔ FitsImage self.now) }
    {
        match self.mode {
            Mode::Direct(levels) => self.frames.fits(alloc, levels),
            Mode::Offset(_) => self.frames.fits(alloc, Levels::Four),
            Mode::Recursive(levels, index) | Mode::Pair(levels, index) => {
                self.frames.fits_recursive(alloc, levels, index)
            }
        }
    }

    /// Executes a call with the mapper of the mode, or with both in a pair, and returns the reply. In a pair, a call
    /// that names the recursive index is not allowed, even if it only reads.
    ///
    /// Requires that the hierarchy is valid, that its free frames fit it, that the mapper reaches each place, and that
    /// the call is for its number of levels. In a pair, both hierarchies must be valid and alike.
    ///
    /// # Errors
    ///
    /// `AllocError` if memory allocation fails. Then nothing changes.
    pub fn answer_call<L: LevelCount, P5: LevelFiveFlags<L>>(
        &mut self,
        alloc: Global,
        call: CallIn<L, P5>,
    ) -> Result<ReplyIn<L>, AllocError>
        requires fits { IsHierarchy self.old }
        requires levels { count (levels_of self.old.mode) ≡ L.LEVELS }
        ensures answers { IfOk result (λ reply.
            AnswersCommand (Call (to_call L.LEVELS P5.bits call)) self.old (Answered reply) self.new) }
        ensures unchanged { OnErr result (self.new ≡ self.old) }
    {
        if self.mode.is_named(&call) {
            return Ok(MapperReply::NotAllowed);
        }
        self.answer(alloc, call)
    }

    /// The part of [`answer_call`](Self::answer_call) for a call that a mapper executes.
    ///
    /// # Errors
    ///
    /// `AllocError` if memory allocation fails. Then nothing changes.
    fn answer<L: LevelCount, P5: LevelFiveFlags<L>>(
        &mut self,
        alloc: Global,
        call: CallIn<L, P5>,
    ) -> Result<ReplyIn<L>, AllocError>
        requires fits { IsHierarchy self.old }
        requires levels { count (levels_of self.old.mode) ≡ L.LEVELS }
        requires unnamed { is_index_named self.old.mode (names L.LEVELS P5.bits call) ≡ false }
        ensures answered { IfOk result (IsAnswered
            (hierarchy_of self.old) (pool_store self.old.frames.pool) (to_call L.LEVELS P5.bits call)
            (hierarchy_of self.new) (pool_store self.new.frames.pool)) }
        ensures both { IfOk result (
            TwinTells self.old.mode (to_call L.LEVELS P5.bits call) self.old.twin self.new.twin) }
        ensures unchanged { OnErr result (self.new ≡ self.old) }
        ensures keeps { KeepsHierarchy self.old self.new }
    {
        let (mode, frames) = (self.mode, &mut self.frames);
        match mode {
            Mode::Direct(_) => Ok(answer_direct(frames, call)),
            Mode::Offset(offset) => {
                let offset = VirtAddrIn::new(offset.as_u64());
                Ok(answer_at_offset(frames, offset, call))
            }
            Mode::Recursive(_, index) => Ok(answer_recursively(frames, index, call)),
            Mode::Pair(_, index) => answer_by_both(alloc, frames, &mut self.twin, index, call),
        }
    }
}
