//! The page walk: how the processor translates a virtual address.
ghost use Rattle.std.specs.Prelude.{◌≡◌, ◌<◌, ◌≤◌, true, option_map};
ghost use Rattle.std.specs.Option.{option_copied};
ghost use Rattle.x86_64_model.specs.Memory.{words_of};
ghost use Rattle.x86_64_model.specs.Position.{index, span as span_of};
ghost use Rattle.x86_64_model.specs.PageWalk.{read, walk_on, page_walk as page_walk_of};
ghost use Rattle.x86_64_tables.specs.Walks.{walked_of, arrival, ends};

use super::{PageTableFrameMapping, TableMemory};
pub use crate::page_table::has_flag;
use crate::page_table::{PageTable, PageTableEntry, PageTableFlags, Rights};
use x86_64_addr::addr::{PhysAddr, VirtAddrIn};
use x86_64_addr::level_count::LevelCount;
use x86_64_page::frame::PhysFrame;
use x86_64_page::page::{PageSize, Size1GiB, Size2MiB, Size4KiB};

/// Where a page walk arrives, and what all entries on its way allow.
#[derive(Clone, Copy, Debug, PartialEq)]
pub struct Walked {
    /// The physical address that the virtual address leads to.
    pub address: PhysAddr,
    /// Whether all entries on the way have `WRITABLE`.
    pub write: bool,
    /// Whether all entries on the way have `USER_ACCESSIBLE`.
    pub user: bool,
}

/// Walks the page tables from the root as the processor does, or returns `None` if the walk arrives nowhere.
///
/// The root's table is of level four for a [`VirtAddr`] and of level five for a [`VirtAddr57`]. At each level the walk reads
/// one word of a table. It ends with `None` at a word without `PRESENT`, and at a table whose frame isn't covered by the
/// mapping, or lies at a place (the number of a table in the memory) that the memory lacks. With `HUGE_PAGE`, a word of
/// level two or three maps a page, and a word of a higher level ends the walk with `None`. At level one this bit has another
/// meaning, and is ignored. The tables may contain any words.
///
/// Intel SDM vol. 3A, "Linear-Address Translation with 4-Level Paging and 5-Level Paging"; AMD APM vol. 2, "Long-Mode Page
/// Translation".
///
/// [`VirtAddr`]: x86_64_addr::addr::VirtAddr
/// [`VirtAddr57`]: x86_64_addr::addr::VirtAddr57
pub fn page_walk<T: TableMemory, P: PageTableFrameMapping, L: LevelCount>(
    memory: &T,
    mapping: &P,
    root: PhysFrame<Size4KiB>,
    addr: VirtAddrIn<L>,
) -> Option<Walked>
    ensures { option_map walked_of result
        ≡ page_walk_of L.LEVELS (words_of (T.tables memory.now) (P.places mapping.now)) root addr }
{
    walk_from(memory, mapping, L::LEVELS, root, addr.position())
}

/// Walks from the root down through `levels` levels to a position: the number of an address counted without the gap.
fn walk_from<T: TableMemory, P: PageTableFrameMapping>(
    memory: &T,
    mapping: &P,
    levels: u64,
    root: PhysFrame<Size4KiB>,
    position: u64,
) -> Option<Walked>
    requires { levels ≤ 5 }
    ensures { option_map walked_of result
        ≡ walk_on (words_of (T.tables memory.now) (P.places mapping.now)) position levels true true root }
{
    let mut frame = root;
    let mut rights = Rights::ALL;
    for above in 0..levels {
        let level = levels - above;
        let entry = entry_at(memory, mapping, frame, index_of(position, level))?;
        if !has_flag(entry, PageTableFlags::PRESENT) {
            return None;
        }
        rights = rights.below(entry);
        if level == 1 || has_flag(entry, PageTableFlags::HUGE_PAGE) {
            return arrive_at(level, entry, position, rights);
        }
        frame = PhysFrame::from_start_address_unchecked(entry.addr());
    }
    None
}

/// Returns the table in a frame, or `None` if the frame isn't covered by the mapping, or lies at a place that the memory
/// lacks.
pub fn table_in<'a, T: TableMemory, P: PageTableFrameMapping>(
    memory: &'a T,
    mapping: &P,
    frame: PhysFrame<Size4KiB>,
) -> Option<&'a PageTable>
    ensures { option_copied result ≡ words_of (T.tables memory.now) (P.places mapping.now) frame }
{
    if mapping.covers(frame) {
        memory.table(mapping.frame_to_pointer(frame))
    } else {
        None
    }
}

/// Returns the entry at an index of the table in a frame, or `None` if the frame has no table in the memory.
pub(super) fn entry_at<'a, T: TableMemory, P: PageTableFrameMapping>(
    memory: &'a T,
    mapping: &P,
    frame: PhysFrame<Size4KiB>,
    index: usize,
) -> Option<&'a PageTableEntry>
    requires { index < 512 }
    ensures { option_copied result
        ≡ read (words_of (T.tables memory.now) (P.places mapping.now)) frame index }
{
    let table = table_in(memory, mapping, frame)?;
    Some(&table[index])
}

/// Returns where a walk arrives in the page that an entry of a level maps, or `None` if entries of the level map no page.
fn arrive_at(level: u64, entry: &PageTableEntry, position: u64, rights: Rights) -> Option<Walked>
    requires { 1 ≤ level }
    ensures { option_map walked_of result ≡ ends level position rights.write rights.user entry.now }
{
    match level {
        1 => Some(arrive::<Size4KiB>(entry, position, rights)),
        2 => Some(arrive::<Size2MiB>(entry, position, rights)),
        3 => Some(arrive::<Size1GiB>(entry, position, rights)),
        _ => None,
    }
}

/// Returns where a walk arrives in the page of size `S` that an entry maps.
fn arrive<S: PageSize>(entry: &PageTableEntry, position: u64, rights: Rights) -> Walked
    ensures { walked_of result ≡ arrival S.LEVEL position rights.write rights.user entry.now }
{
    let start = entry.addr().as_u64() / S::SIZE * S::SIZE;
    Walked {
        address: PhysAddr::new(start + position % S::SIZE),
        write: rights.write,
        user: rights.user,
    }
}

/// Returns the index of a level at a position (the number of an address counted without the gap): nine bits of it, from bit 12
/// on at level one, from bit 21 on at level two, and so on. It is below 512.
///
/// Requires that the level is from one to five.
#[tactic(auto, using(x86_64_model::proofs::Lemmas::Entries::Bits::low_nine), unfolding(x86_64_model::specs::Position::index))]
pub fn index_of(position: u64, level: u64) -> usize
    requires low { 1 ≤ level }
    requires high { level ≤ 5 }
    ensures value { result ≡ index level position }
    ensures below { result < 512 }
{
    ((position >> (12 + 9 * (level - 1))) & 511) as usize
}

/// Returns the number of positions, and so of bytes, that an entry of a level spans: 4KiB at level one, 2MiB at level two,
/// 1GiB at level three, 512GiB at level four, and 256TiB at level five.
///
/// Requires that the level is from one to five.
pub fn span(level: u64) -> u64
    requires low { 1 ≤ level }
    requires high { level ≤ 5 }
    ensures { result ≡ span_of level }
{
    1 << (12 + 9 * (level - 1))
}
