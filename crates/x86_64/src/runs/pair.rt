//! Lists of calls to which two mappers reply alike.
ghost use Rattle.std.specs.Prelude.{◌≡◌, ◌<◌, length, OnErr};
ghost use Rattle.x86_64.specs.Calls.{to_call};
ghost use Rattle.x86_64.specs.Pairs.{AfterRun, AreAlike, MayRun};

use super::serve_all;
use super::tokens::Ignored;
use crate::call_values::{CallIn, LevelFiveFlags, ReplyIn};
use std::alloc::{AllocError, Global};
use x86_64_addr::level_count::LevelCount;
use x86_64_mappers::calls::TableAccess;
use x86_64_tables::frame_alloc::FramePool;
use x86_64_tables::page_tables::TablesIn;

/// Executes calls in order with two mappers, and returns the list of replies, which is the same for both. Each mapper
/// and its pool are left as [`run`](super::run) leaves them.
///
/// The path maps must be alike, which means that they are equal except for `WRITABLE` of table entries. They are so,
/// for example, if one image is loaded twice, and one copy lacks the entry at the other's recursive index. They are
/// alike at the end too, and the pools are equal. A page that may be written through one hierarchy need not be so through
/// the other.
///
/// Room for the replies is reserved before the first call. The mappers' tokens are ignored, so no flush is recorded.
/// Also named `run_pair_57`, for five levels.
///
/// Requires the conditions of [`run`](super::run) for both mappers, that the path maps are alike and the pools equal,
/// and that no call names a recursive index of either mapper. [`tables_alike`](crate::tables_alike) tests the path
/// maps, `==` the pools, and [`names`](CallIn::names) the calls.
///
/// # Errors
///
/// `AllocError` if memory allocation fails for the replies. Then nothing changes. An empty list needs no memory.
pub fn run_pair<
    L: LevelCount,
    P5: LevelFiveFlags<L>,
    A: TableAccess + TablesIn<L>,
    B: TableAccess + TablesIn<L>,
>(
    alloc: Global,
    a: &mut A,
    pool_a: &mut FramePool,
    b: &mut B,
    pool_b: &mut FramePool,
    calls: &[CallIn<L, P5>],
) -> Result<Vec<ReplyIn<L>>, AllocError>
    requires one { MayRun (to_call L.LEVELS P5.bits) L.LEVELS calls.now (A.hierarchy a.old) pool_a.old }
    requires other { MayRun (to_call L.LEVELS P5.bits) L.LEVELS calls.now (B.hierarchy b.old) pool_b.old }
    requires alike { AreAlike L.LEVELS (A.hierarchy a.old) pool_a.old (B.hierarchy b.old) pool_b.old }
    ensures one { AfterRun (to_call L.LEVELS P5.bits) calls.now result (A.hierarchy a.old) pool_a.old
        (A.hierarchy a.new) pool_a.new }
    ensures other { AfterRun (to_call L.LEVELS P5.bits) calls.now result (B.hierarchy b.old) pool_b.old
        (B.hierarchy b.new) pool_b.new }
    ensures alike { AreAlike L.LEVELS (A.hierarchy a.new) pool_a.new (B.hierarchy b.new) pool_b.new }
    ensures refused { OnErr result ((0 < length calls.now)
        × (a.new ≡ a.old) × (pool_a.new ≡ pool_a.old) × (b.new ≡ b.old) × (pool_b.new ≡ pool_b.old)) }
{
    let mut replies = Vec::with_capacity(alloc, calls.len())?;
    let mut same_replies = Vec::with_capacity(alloc, calls.len())?;
    serve_all(a, pool_a, calls, &mut replies, &mut Ignored);
    serve_all(b, pool_b, calls, &mut same_replies, &mut Ignored);
    Ok(replies)
}
