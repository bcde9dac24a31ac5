//! Makes calls on the tables that a processor uses, and flushes after each what has to be flushed.
ghost use Rattle.std.specs.Prelude.{ℕ, List, [], Option, Some, unwrap_or};
ghost use Rattle.uses.specs.InUse.{AccessesGoIn, CachesIn, InUse};
ghost use Rattle.uses.specs.Owned.{LedBy};
ghost use Rattle.x86_64_model.specs.Caches.{Cached};
ghost use Rattle.x86_64_model.specs.Flushing.{Invlpg, LoadCr3, FlushAll};
ghost use Rattle.x86_64_model.specs.Store.{Keeps, store_of};
ghost use Rattle.x86_64.specs.Calls.{to_call};
ghost use Rattle.x86_64.specs.FlushesDue.{executed};
ghost use Rattle.x86_64.specs.Processors.{LeftBy};
ghost use Rattle.x86_64.specs.Runs.{Stepped};

use x86_64::flushing::{Flush, flush_after};
use x86_64::structures::paging::mapper::TableAccess;
use x86_64::{
    CallIn, FrameStore, LevelCount, LevelFiveFlags, ReplyIn, Tables, TablesIn, VirtAddrIn, run_call,
};

/// A processor that uses the tables of a hierarchy, and caches what it finds in them.
pub trait Processor {
    // the tables and pages that it has cached
    ghost cached: { Self → List Cached };

    /// Lets the processor drop and make items, which it may do at any moment. A processor does so by itself, so there is
    /// nothing to execute.
    fn cache<M: Tables>(&mut self, tables: &M)
        ensures { CachesIn (M.hierarchy tables.now) (Self.cached self.old) (Self.cached self.new) };

    /// Executes `INVLPG` of an address.
    fn invalidate_page<L: LevelCount>(&mut self, addr: VirtAddrIn<L>)
        ensures { LeftBy L.LEVELS (Some (Invlpg addr)) (Self.cached self.old) (Self.cached self.new) };

    /// Loads CR3 with the root that it has.
    fn load_cr3(&mut self)
        ensures { (L : ℕ) → LeftBy L (Some LoadCr3) (Self.cached self.old) (Self.cached self.new) };

    /// Flushes everything, global pages too.
    fn flush_all(&mut self)
        ensures { (L : ℕ) → LeftBy L (Some FlushAll) (Self.cached self.old) (Self.cached self.new) };
}

/// A processor that caches nothing.
pub struct Uncached;

impl Processor for Uncached {
    ghost cached = { λ _. [] };

    fn cache<M: Tables>(&mut self, _tables: &M) {}

    fn invalidate_page<L: LevelCount>(&mut self, _addr: VirtAddrIn<L>) {}

    fn load_cr3(&mut self) {}

    fn flush_all(&mut self) {}
}

/// Executes a flush. That of a page is of the one that starts at the address.
fn execute<L: LevelCount, C: Processor>(
    processor: &mut C,
    flush: Flush,
    page: Option<VirtAddrIn<L>>,
)
    ensures { LeftBy L.LEVELS (executed flush (unwrap_or page 0))
        (C.cached processor.old) (C.cached processor.new) }
{
    match flush {
        Flush::Nothing => {}
        Flush::Tables => processor.load_cr3(),
        Flush::Page => match page {
            Some(addr) => processor.invalidate_page(addr),
            None => processor.flush_all(),
        },
        Flush::Everything => processor.flush_all(),
    }
}

/// Executes a call, and then the flush that has to follow. Afterwards each access goes with the page walk, with no right
/// more.
pub fn call_and_flush<
    L: LevelCount,
    P5: LevelFiveFlags<L>,
    M: TableAccess + TablesIn<L>,
    F: FrameStore,
    C: Processor,
>(mapper: &mut M, frames: &mut F, processor: &mut C, call: CallIn<L, P5>) -> ReplyIn<L>
    requires { InUse (M.hierarchy mapper.old) (store_of F.FrameStore frames.old) (C.cached processor.old) }
    ensures step { Stepped (M.hierarchy mapper.old) (store_of F.FrameStore frames.old)
        (to_call L.LEVELS P5.bits call) result (M.hierarchy mapper.new) (F.supply frames.new) }
    ensures keeps { Keeps (M.hierarchy mapper.old) (store_of F.FrameStore frames.old)
        (M.hierarchy mapper.new) (store_of F.FrameStore frames.new) }
    ensures again { InUse (M.hierarchy mapper.new) (store_of F.FrameStore frames.new)
        (C.cached processor.new) }
    ensures accesses { AccessesGoIn (M.hierarchy mapper.new) (C.cached processor.new) }
{
    processor.cache(mapper);
    let reply = run_call(mapper, frames, call);
    processor.cache(mapper);
    let flush = flush_after(&call, &reply, mapper.recursive_index());
    execute(processor, flush, call.page_start());
    reply
}

/// Executes calls in order, each with its flush.
pub fn calls_and_flushes<
    L: LevelCount,
    P5: LevelFiveFlags<L>,
    M: TableAccess + TablesIn<L>,
    F: FrameStore,
    C: Processor,
>(mapper: &mut M, frames: &mut F, processor: &mut C, calls: &[CallIn<L, P5>])
    requires { InUse (M.hierarchy mapper.old) (store_of F.FrameStore frames.old) (C.cached processor.old) }
    ensures state { LedBy (to_call L.LEVELS P5.bits) (M.hierarchy mapper.old)
        (store_of F.FrameStore frames.old) calls.now (M.hierarchy mapper.new) (F.supply frames.new) }
    ensures again { InUse (M.hierarchy mapper.new) (store_of F.FrameStore frames.new)
        (C.cached processor.new) }
    ensures accesses { AccessesGoIn (M.hierarchy mapper.new) (C.cached processor.new) }
{
    for call in calls {
        call_and_flush(mapper, frames, processor, *call);
    }
}
