//! Lists of calls whose TLB flushes are recorded.
ghost use Rattle.std.specs.Prelude.{◌≡◌, ◌+◌, ◌<◌, ◌≤◌, ◌⊎◌, [], length, vec_len, IfOk, OnOk, OnErr};
ghost use Rattle.std.specs.Vec.{vec_capacity};
ghost use Rattle.x86_64_model.specs.Store.{StoreFits, Keeps, store_of};
ghost use Rattle.x86_64.specs.Calls.{to_call};
ghost use Rattle.x86_64.specs.Flushes.{Flushed};
ghost use Rattle.x86_64.specs.Runs.{Ran};

use super::serve_all;
use crate::call_values::{CallIn, LevelFiveFlags, ReplyIn};
use std::alloc::AllocError;
use std::cmp::max;
use x86_64_addr::level_count::LevelCount;
use x86_64_mappers::calls::TableAccess;
use x86_64_tables::frame_alloc::FrameStore;
use x86_64_tables::page_tables::TablesIn;
use x86_64_tables::tokens::FlushRecorder;

/// Executes calls in order as [`run`](super::run) does, and flushes the token of each accepted call into a recorder,
/// in order. Also named `run_flushed_57`, for five levels.
///
/// Room for one reply and one item per call is reserved first, so that no token comes back.
///
/// Requires the conditions of [`run`](super::run).
///
/// # Errors
///
/// `AllocError` if memory allocation fails for the replies or for the items. Then nothing changes.
pub fn run_flushed<
    L: LevelCount,
    P5: LevelFiveFlags<L>,
    M: TableAccess + TablesIn<L>,
    F: FrameStore,
>(
    mapper: &mut M,
    frames: &mut F,
    calls: &[CallIn<L, P5>],
    replies: &mut Vec<ReplyIn<L>>,
    recorder: &mut FlushRecorder,
) -> Result<(), AllocError>
    requires { StoreFits (M.hierarchy mapper.old) (store_of F.FrameStore frames.old) }
    ensures ran { OnOk result (Ran (to_call L.LEVELS P5.bits) (M.hierarchy mapper.old)
        (store_of F.FrameStore frames.old)
        calls.now replies.old.items replies.new.items (M.hierarchy mapper.new) (F.supply frames.new)) }
    ensures flushed { OnOk result (
        Flushed (to_call L.LEVELS P5.bits) (M.hierarchy mapper.old) (store_of F.FrameStore frames.old)
        calls.now replies.old.items replies.new.items recorder.old.items recorder.new.items
        (M.hierarchy mapper.new)) }
    ensures unchanged { OnErr result ((replies.new ≡ replies.old) × (recorder.new ≡ recorder.old)
        × (mapper.new ≡ mapper.old) × (frames.new ≡ frames.old)) }
    ensures needs_room { OnErr result ((vec_capacity replies.old < vec_len replies.old + length calls.now)
        ⊎ (recorder.old.room < length calls.now)) }
    ensures keeps { Keeps (M.hierarchy mapper.old) (store_of F.FrameStore frames.old)
        (M.hierarchy mapper.new) (store_of F.FrameStore frames.new) }
{
    make_room(replies, recorder, calls.len())?;
    serve_all(mapper, frames, calls, replies, recorder);
    Ok(())
}

/// Makes room for a number of further replies and as many items.
///
/// # Errors
///
/// `AllocError` if memory allocation fails for the replies or for the items. Then nothing changes: replies that lack room
/// move to a larger list only once the recorder has room.
fn make_room<L: LevelCount>(
    replies: &mut Vec<ReplyIn<L>>,
    recorder: &mut FlushRecorder,
    count: usize,
) -> Result<(), AllocError>
    ensures items { replies.new.items ≡ replies.old.items }
    ensures recorded { recorder.new.items ≡ recorder.old.items }
    ensures room { OnOk result (vec_len replies.new + count ≤ vec_capacity replies.new) }
    ensures recorder_room { OnOk result (count ≤ recorder.new.room) }
    ensures unchanged { OnErr result ((replies.new ≡ replies.old) × (recorder.new ≡ recorder.old)) }
    ensures needs_room { OnErr result ((vec_capacity replies.old < vec_len replies.old + count)
        ⊎ (recorder.old.room < count)) }
{
    if count <= replies.capacity() - replies.len() {
        return recorder.reserve(count);
    }
    let mut larger = larger(replies, count)?;
    recorder.reserve(count)?;
    if larger.append(replies).is_err() {
        unreachable!()
    }
    *replies = larger;
    Ok(())
}

/// Returns an empty list with room for the given replies and for a number of further ones. It has room for at least twice
/// as many as are given, so that many short lists of calls rarely move the replies.
///
/// # Errors
///
/// `AllocError` if memory allocation fails.
fn larger<L: LevelCount>(
    replies: &Vec<ReplyIn<L>>,
    count: usize,
) -> Result<Vec<ReplyIn<L>>, AllocError>
    ensures items { IfOk result (λ list. list.items ≡ []) }
    ensures room { IfOk result (λ list. vec_len replies.now + count ≤ vec_capacity list) }
{
    match replies.len().checked_add(max(replies.len(), count)) {
        Some(room) => Vec::with_capacity(*replies.allocator(), room),
        None => Err(AllocError),
    }
}
