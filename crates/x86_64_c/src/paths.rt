//! Accesses by the entries of a path that the caller has read.
ghost use Rattle.std.specs.Prelude.{◌≡◌, ◌≤◌, ℕ, length, take, Some, None, IfOk, IfErr};
ghost use Rattle.x86_64_access.specs.Accesses as memory_unit;
ghost use Rattle.x86_64_c.specs.Paths as paths;

use crate::accesses::{AccessRequest, Controls, Outcome, access_of, controls_of, tell};
use crate::arguments::address_of;
use crate::status;
use std::array;
use x86_64::structures::paging::PhysFrame;
use x86_64::{FiveLevels, FourLevels, LevelCount, PhysAddr};
use x86_64_access::{Fault, outcome_of};
use x86_64_mappings::{MOST_LEVELS, WalkEntry};
use x86_64_tables::page_table::PageTableEntry;

/// Does what `x64_access` does without marks, by the entries that a page walk to the address has read, from the root's on. It reads no
/// table.
///
/// Writes what comes of the access. Of the entries only the words count, and those behind the one at which the walk ends mean nothing.
/// Returns `OK`, `PAGE_FAULT`, `NO_TABLE` if the processor reads on in the table that the last entry names, or what is wrong with an
/// argument; then nothing is written.
#[unsafe(no_mangle)]
pub extern "C" fn x64_outcome_of(
    levels: u64,
    controls: &Controls,
    request: &AccessRequest,
    entries: &[WalkEntry],
    outcome: &mut Outcome,
) -> u32
    ensures bad { (status : ℕ) → paths.wrong_path_call levels (length entries.now) controls.now request.now
        ≡ Some status → (result ≡ status) × (outcome.new ≡ outcome.old) }
    ensures told { paths.wrong_path_call levels (length entries.now) controls.now request.now ≡ None
        → paths.WritesAlong levels controls.now request.now entries.now result outcome.new }
    ensures memories { paths.wrong_path_call levels (length entries.now) controls.now request.now ≡ None
        → paths.WritesWherever levels controls.now request.now entries.now result outcome.new }
{
    match came_of(levels, controls, request, entries) {
        Ok(came) => tell(came, outcome),
        Err(status) => status,
    }
}

/// Returns what comes of the access that a request asks for, by entries that a walk through so many levels has read, or the status that
/// says what is wrong.
fn came_of(
    levels: u64,
    controls: &Controls,
    request: &AccessRequest,
    entries: &[WalkEntry],
) -> Result<Result<PhysAddr, Fault>, u32>
    ensures bad { IfErr result (λ status.
        paths.wrong_path_call levels (length entries.now) controls.now request.now ≡ Some status) }
    ensures good { IfOk result (λ _.
        paths.wrong_path_call levels (length entries.now) controls.now request.now ≡ None) }
    ensures came { IfOk result (λ came. (root : ℕ) → memory_unit.outcome_of came
        ≡ paths.path_outcome levels root controls.now request.now entries.now) }
{
    match levels {
        4 => came_along::<FourLevels>(controls, request, entries),
        5 => came_along::<FiveLevels>(controls, request, entries),
        _ => Err(status::BAD_LEVELS),
    }
}

/// Returns what comes of the access that a request asks for, by entries that a walk through `L` levels has read, or the status that says
/// what is wrong.
#[tactic(auto, using(crate::proofs::PathsRead::none_is_bad, crate::proofs::PathsRead::many_are_bad))]
fn came_along<L: LevelCount>(
    controls: &Controls,
    request: &AccessRequest,
    entries: &[WalkEntry],
) -> Result<Result<PhysAddr, Fault>, u32>
    ensures bad { IfErr result (λ status.
        paths.wrong_path L.LEVELS (length entries.now) controls.now request.now ≡ Some status) }
    ensures good { IfOk result (λ _.
        paths.wrong_path L.LEVELS (length entries.now) controls.now request.now ≡ None) }
    ensures came { IfOk result (λ came. (root : ℕ) → memory_unit.outcome_of came
        ≡ paths.path_outcome L.LEVELS root controls.now request.now entries.now) }
{
    let Some(access) = access_of(controls, request) else {
        return Err(status::BAD_ACCESS);
    };
    let address = address_of::<L>(request.address)?;
    if entries.is_empty() {
        return Err(status::BAD_ARRAY);
    }
    if L::LEVELS < entries.len() as u64 {
        return Err(status::BAD_ARRAY);
    }
    let path = words_of(entries);
    let root = PhysFrame::containing_address(PhysAddr::new_truncate(entries[0].table));
    Ok(outcome_of(
        &path[..entries.len()],
        root,
        address,
        access,
        &controls_of(controls),
    ))
}

/// Returns the words of entries, and zeros behind them.
fn words_of(entries: &[WalkEntry]) -> [PageTableEntry; MOST_LEVELS]
    requires { length entries.now ≤ 5 }
    ensures { take (length entries.now) result ≡ paths.words_of_entries entries.now }
{
    let mut words: [PageTableEntry; MOST_LEVELS] = array::from_fn(|_| PageTableEntry::new());
    for (index, entry) in entries.iter().enumerate() {
        words[index] = PageTableEntry::from_word(entry.word);
    }
    words
}
