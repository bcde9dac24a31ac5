//! Runs a list of calls.
ghost use Rattle.std.specs.Prelude.{◌≡◌, OnErr, OnOk};
ghost use Rattle.uses.specs.Owned.{Replied};
ghost use Rattle.uses.specs.PageMaps.{three_calls};
ghost use Rattle.x86_64_model.specs.Store.{StoreFits, Keeps};
ghost use Rattle.x86_64_tables.specs.PageTableFlags.{bits_of};
ghost use Rattle.x86_64.specs.Pairs.{pool_store};

use std::alloc::AllocError;
use x86_64::structures::paging::mapper::{CleanUp, MapperAllSizes};
use x86_64::structures::paging::{Page, PageTableFlags, PhysFrame, Size4KiB, Translate};
use x86_64::{Call, FramePool, Reply, SizeCall, run};

/// Maps a page, unmaps it, and returns the frames of empty tables to the pool. Appends the replies.
pub fn map_and_unmap<M: MapperAllSizes + Translate + CleanUp>(
    mapper: &mut M,
    pool: &mut FramePool,
    page: Page<Size4KiB>,
    frame: PhysFrame<Size4KiB>,
    flags: PageTableFlags,
    replies: &mut Vec<Reply>,
) -> Result<(), AllocError>
    requires { StoreFits (M.hierarchy mapper.old) (pool_store pool.old) }
    ensures replies { OnOk result (Replied (M.hierarchy mapper.old) (pool_store pool.old)
        (three_calls page frame (bits_of flags)) replies.old.items replies.new.items) }
    ensures unchanged { OnErr result (
        (replies.new.items ≡ replies.old.items) × (mapper.new ≡ mapper.old) × (pool.new ≡ pool.old)) }
    ensures keeps { Keeps (M.hierarchy mapper.old) (pool_store pool.old)
        (M.hierarchy mapper.new) (pool_store pool.new) }
{
    let calls = [
        Call::Of4KiB(SizeCall::MapTo { page, frame, flags }),
        Call::Of4KiB(SizeCall::Unmap { page }),
        Call::CleanUp,
    ];
    run(mapper, pool, &calls, replies)
}
