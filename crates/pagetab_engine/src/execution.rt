//! Execution of single calls by the mappers.
ghost use Rattle.std.specs.Prelude.{◌≡◌, false, IfOk, OnErr};
ghost use Rattle.x86_64_model.specs.Hierarchy.{◌laid_in◌};
ghost use Rattle.x86_64_model.specs.Store.{StoreFits};
ghost use Rattle.x86_64_mappers.specs.Offsets.{OffsetFits};
ghost use Rattle.x86_64.specs.Calls.{to_call, names};
ghost use Rattle.x86_64.specs.Pairs.{pool_store};
ghost use Rattle.pagetab_engine.specs.Calls.{IsAnswered};
ghost use Rattle.pagetab_engine.specs.Frames.{direct_layout, recursive_layout};
ghost use Rattle.pagetab_engine.specs.Hierarchy.{IsTwin, AnswersRecursively};

use crate::frames::{Frames, root};
use std::alloc::{AllocError, Global};
use x86_64::structures::paging::PageTableIndex;
use x86_64::structures::paging::mapper::{
    MappedPageTableIn, OffsetPageTableIn, RecursivePageTableIn,
};
use x86_64::{
    Active, CallIn, IdentityMapping, LevelCount, LevelFiveFlags, ReplyIn, VirtAddrIn, run_call,
    run_pair,
};

/// Executes a call in frames each of which lies at the place of its number (a place is the index of a table in
/// memory), and returns the reply.
///
/// Requires that the hierarchy is valid, and that the free frames fit it.
pub fn answer_direct<L: LevelCount, P5: LevelFiveFlags<L>>(
    frames: &mut Frames,
    call: CallIn<L, P5>,
) -> ReplyIn<L>
    requires { StoreFits (direct_layout L.LEVELS laid_in frames.old.memory) (pool_store frames.old.pool) }
    ensures { IsAnswered
        (direct_layout L.LEVELS laid_in frames.old.memory) (pool_store frames.old.pool)
        (to_call L.LEVELS P5.bits call)
        (direct_layout L.LEVELS laid_in frames.new.memory) (pool_store frames.new.pool) result }
{
    let memory = &mut frames.memory;
    let mut mapper = MappedPageTableIn::<IdentityMapping, L>::new(memory, root(), IdentityMapping);
    run_call(&mut mapper, &mut frames.pool, call)
}

/// Executes a call in frames of a memory that is mapped at an offset, and returns the reply.
///
/// Requires that the hierarchy is valid, that the free frames fit it, and that the offset fits the memory.
pub fn answer_at_offset<L: LevelCount, P5: LevelFiveFlags<L>>(
    frames: &mut Frames,
    phys_offset: VirtAddrIn<L>,
    call: CallIn<L, P5>,
) -> ReplyIn<L>
    requires fits { StoreFits (direct_layout L.LEVELS laid_in frames.old.memory)
        (pool_store frames.old.pool) }
    requires offset { OffsetFits L.LEVELS frames.old.memory phys_offset }
    ensures answered { IsAnswered
        (direct_layout L.LEVELS laid_in frames.old.memory) (pool_store frames.old.pool)
        (to_call L.LEVELS P5.bits call)
        (direct_layout L.LEVELS laid_in frames.new.memory) (pool_store frames.new.pool) result }
    ensures offset { OffsetFits L.LEVELS frames.new.memory phys_offset }
{
    let memory = &mut frames.memory;
    let mut mapper = OffsetPageTableIn::<L>::new(memory, root(), phys_offset);
    run_call(&mut mapper, &mut frames.pool, call)
}

/// Executes a call in frames whose tables are reached through the root's entry for itself at an index, and returns
/// the reply.
///
/// Requires that the hierarchy is valid for the index, and that the free frames fit it.
pub fn answer_recursively<L: LevelCount, P5: LevelFiveFlags<L>>(
    frames: &mut Frames,
    index: PageTableIndex,
    call: CallIn<L, P5>,
) -> ReplyIn<L>
    requires { StoreFits (recursive_layout L.LEVELS frames.old.memory index laid_in frames.old.memory)
        (pool_store frames.old.pool) }
    ensures { AnswersRecursively L.LEVELS index frames.old (to_call L.LEVELS P5.bits call) frames.new result }
{
    let active = Active::<L>::new(&mut frames.memory, root());
    let mut mapper = RecursivePageTableIn::<L>::new_unchecked(active, index);
    run_call(&mut mapper, &mut frames.pool, call)
}

/// Executes a call with two mappers, each in frames of its own, and returns the reply that both give. One finds each
/// frame at the place of its number. The other reaches tables through the root's entry for itself at an index.
///
/// Requires that both hierarchies are valid and alike, that the free frames fit them and are equal, and that the call
/// doesn't name the index.
///
/// # Errors
///
/// `AllocError` if memory allocation fails. Then nothing changes.
pub fn answer_by_both<L: LevelCount, P5: LevelFiveFlags<L>>(
    alloc: Global,
    frames: &mut Frames,
    twin: &mut Frames,
    index: PageTableIndex,
    call: CallIn<L, P5>,
) -> Result<ReplyIn<L>, AllocError>
    requires fits { StoreFits (direct_layout L.LEVELS laid_in frames.old.memory)
        (pool_store frames.old.pool) }
    requires twin { IsTwin L.LEVELS index frames.old twin.old }
    requires unnamed { names L.LEVELS P5.bits call index ≡ false }
    ensures answered { IfOk result (IsAnswered
        (direct_layout L.LEVELS laid_in frames.old.memory) (pool_store frames.old.pool)
        (to_call L.LEVELS P5.bits call)
        (direct_layout L.LEVELS laid_in frames.new.memory) (pool_store frames.new.pool)) }
    ensures both { IfOk result (
        AnswersRecursively L.LEVELS index twin.old (to_call L.LEVELS P5.bits call) twin.new) }
    ensures unchanged { OnErr result ((frames.new ≡ frames.old) × (twin.new ≡ twin.old)) }
    ensures twin { IsTwin L.LEVELS index frames.new twin.new }
{
    let mut calls = Vec::with_capacity(alloc, 1)?;
    calls.push_reserved(call);
    let memory = &mut frames.memory;
    let mut direct = MappedPageTableIn::<IdentityMapping, L>::new(memory, root(), IdentityMapping);
    let active = Active::<L>::new(&mut twin.memory, root());
    let mut recursive = RecursivePageTableIn::<L>::new_unchecked(active, index);
    let replies = run_pair(
        alloc,
        &mut direct,
        &mut frames.pool,
        &mut recursive,
        &mut twin.pool,
        &calls,
    )?;
    Ok(replies[0])
}
