//! What has to be flushed after a call, and after an exchange of an entry's word.
ghost use Rattle.std.specs.Prelude.{◌≡◌};
ghost use Rattle.x86_64.specs.FlushesDue.{rank};
ghost use Rattle.x86_64_c.specs.Flushes as flushes;

use crate::status;
use x86_64::flushing::{Flush, flush_between};
use x86_64::structures::paging::page_table::PageTableEntry;

/// The flag `NO_EXECUTE`.
const NO_EXECUTE: u64 = 0x8000_0000_0000_0000;

/// `x64_map`, `x64_map_as_mapper` and `x64_map_range`.
pub const CALL_MAP: u32 = 0;

/// `x64_unmap` and `x64_unmap_range`.
pub const CALL_UNMAP: u32 = 1;

/// `x64_update_flags` and `x64_update_flags_range`.
pub const CALL_UPDATE_FLAGS: u32 = 2;

/// `x64_set_table_flags`.
pub const CALL_SET_TABLE_FLAGS: u32 = 3;

/// `x64_clean_up`.
pub const CALL_CLEAN_UP: u32 = 4;

/// Nothing has to be flushed.
pub const FLUSH_NOTHING: u32 = 0;

/// All cached tables: by `INVLPG` of any address, or by a load of CR3, before the next map.
pub const FLUSH_TABLES: u32 = 1;

/// The call's page, or each page of its range: by `INVLPG` of an address in it.
pub const FLUSH_PAGE: u32 = 2;

/// Everything, global pages too.
pub const FLUSH_EVERYTHING: u32 = 3;

/// Returns what has to be flushed after a call of a kind with this status, and for a map with these parent flags.
///
/// It is the least flush that settles all that the model makes due after a call to which its machine replies with this status; for a
/// range it settles what is due after each of its calls. That such flushes are enough is proved of the model, by its law
/// `flushes_after_calls_are_enough`. For a kind that there isn't, it is everything. The model's map is `x64_map_as_mapper`: after a refused
/// `x64_map` nothing is due.
#[unsafe(no_mangle)]
pub extern "C" fn x64_flush_after(call: u32, parent_flags: u64, status: u32) -> u32
    ensures rule { result ≡ flushes.flush_by call parent_flags status }
    ensures call { flushes.TellsFlushNumber call parent_flags status result }
    ensures each { flushes.TellsFlushes call parent_flags status result }
{
    flush_by(call, parent_flags, status)
}

/// Returns what has to be flushed after a call, by the rule.
fn flush_by(call: u32, parent_flags: u64, status: u32) -> u32
    ensures { result ≡ flushes.flush_by call parent_flags status }
{
    if status == status::NOT_ALLOWED || status::BAD_LEVELS <= status {
        return FLUSH_NOTHING;
    }
    match call {
        CALL_MAP => after_map(parent_flags),
        CALL_UNMAP | CALL_UPDATE_FLAGS => if_done(status, FLUSH_PAGE),
        CALL_SET_TABLE_FLAGS => if_done(status, FLUSH_EVERYTHING),
        CALL_CLEAN_UP => FLUSH_TABLES,
        _ => FLUSH_EVERYTHING,
    }
}

/// Returns what has to be flushed after a map with these parent flags: everything, if they take the right to execute.
#[tactic(auto, unfolding(x86_64_model::specs::Entry::has))]
fn after_map(parent_flags: u64) -> u32
    ensures { result ≡ flushes.flush_after_map parent_flags }
{
    if parent_flags & NO_EXECUTE == NO_EXECUTE {
        FLUSH_EVERYTHING
    } else {
        FLUSH_NOTHING
    }
}

/// Returns this flush after a call that was done, or that changed some pages of a range, and otherwise nothing.
fn if_done(status: u32, flush: u32) -> u32
    ensures { result ≡ flushes.if_status_done status flush }
{
    if status == status::OK || status == status::MORE {
        flush
    } else {
        FLUSH_NOTHING
    }
}

/// Returns what has to be flushed after the word of an entry of a level was exchanged for another one by one atomic instruction. Level
/// one is that of tables whose entries map 4KiB pages.
///
/// It is the least flush that settles all that the model makes due after the exchange, without a recursive index. That such flushes are
/// enough is proved of the model, by its laws `exchanges_may_happen` and `flushes_after_calls_are_enough`.
#[unsafe(no_mangle)]
pub extern "C" fn x64_flush_between(level: u64, old: u64, word: u64) -> u32
    ensures { flushes.TellsExchange level old word result }
{
    number_of(flush_between(
        level,
        &PageTableEntry::from_word(old),
        &PageTableEntry::from_word(word),
        None,
    ))
}

/// Returns the number of a flush.
fn number_of(flush: Flush) -> u32
    ensures { result ≡ rank flush }
{
    match flush {
        Flush::Nothing => FLUSH_NOTHING,
        Flush::Tables => FLUSH_TABLES,
        Flush::Page => FLUSH_PAGE,
        Flush::Everything => FLUSH_EVERYTHING,
    }
}
