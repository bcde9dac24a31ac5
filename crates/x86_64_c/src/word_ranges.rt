//! Ranges of pages of all sizes, whose words come back: lists, takes and changes of flags.
ghost use Rattle.std.specs.Prelude.{◌≡◌, ℕ, length, Some, None, unwrap_or, IfOk, IfErr};
ghost use Rattle.x86_64_c.specs.Arguments as given;
ghost use Rattle.x86_64_c.specs.WordRanges as words;
ghost use Rattle.x86_64_model.specs.Entry.{present, used};
ghost use Rattle.x86_64_model.specs.Hierarchy.{Valid};
ghost use Rattle.x86_64_model.specs.Live.{by_masks};

use crate::arguments::{Hierarchy, Located, range_at};
use crate::operation::{Operation, enter};
use crate::status;
use x86_64::structures::paging::PageTable;
use x86_64::structures::paging::mapper::PageTableFrameMapping;
use x86_64::{LevelCount, TableMemory};
use x86_64_live::{
    PageWord, RangeEnd, RangeSeen, RangeStop, are_flag_masks, change_range, list_range, take_range,
};

/// Writes the pages of a range to an array, with their words: all pages from that of 4KiB at `first` to that at `last`, of all sizes,
/// present or not, and their number.
///
/// Requires that the hierarchy is valid, which `x64_is_valid` tests. Returns `OK` if these are all, `MORE` if the array is full,
/// `PARENT_ENTRY_HUGE_PAGE` at a larger page that is only partly in the range, or what is wrong with an argument; then nothing is
/// written. With `MORE` and `PARENT_ENTRY_HUGE_PAGE`, `next` is the address to go on from.
#[unsafe(no_mangle)]
#[tactic(auto, using(crate::proofs::ArgumentsGiven::kept))]
pub extern "C" fn x64_list_range(
    hierarchy: &Hierarchy,
    tables: &mut [PageTable],
    first: u64,
    last: u64,
    pages: &mut [PageWord],
    count: &mut usize,
    next: &mut u64,
) -> u32
    requires { words.bad_word_range hierarchy.now (length tables.old) first last ≡ None
        → Valid (given.hierarchy_in hierarchy.now tables.old) }
    ensures bad { (status : ℕ) →
        words.bad_word_range hierarchy.now (length tables.old) first last ≡ Some status
        → (result ≡ status) × (pages.new ≡ pages.old) × (count.new ≡ count.old) × (next.new ≡ next.old) }
    ensures lists { words.bad_word_range hierarchy.now (length tables.old) first last ≡ None
        → words.ListsRange (given.hierarchy_in hierarchy.now tables.old) used first last
        pages.old pages.new result count.new next.old next.new }
    ensures tables { tables.new ≡ tables.old }
{
    let list = WordRange {
        first,
        last,
        task: RangeTask::Tell,
    };
    let told = enter(hierarchy, tables, pages, &list);
    tell(told, count, next)
}

/// Takes away the pages of a range, as `x64_list_range` lists them: their entries become 0, and the words that were there are written.
/// No table is freed.
///
/// Requires that the hierarchy is valid, which `x64_is_valid` tests; it is valid again afterwards. Returns what `x64_list_range` returns.
/// With a wrong argument nothing changes.
#[unsafe(no_mangle)]
pub extern "C" fn x64_take_range(
    hierarchy: &Hierarchy,
    tables: &mut [PageTable],
    first: u64,
    last: u64,
    pages: &mut [PageWord],
    count: &mut usize,
    next: &mut u64,
) -> u32
    requires { words.bad_word_range hierarchy.now (length tables.old) first last ≡ None
        → Valid (given.hierarchy_in hierarchy.now tables.old) }
    ensures bad { (status : ℕ) →
        words.bad_word_range hierarchy.now (length tables.old) first last ≡ Some status
        → (result ≡ status) × (tables.new ≡ tables.old)
        × (pages.new ≡ pages.old) × (count.new ≡ count.old) × (next.new ≡ next.old) }
    ensures takes { words.bad_word_range hierarchy.now (length tables.old) first last ≡ None
        → words.ListsAndExchanges (given.hierarchy_in hierarchy.now tables.old) used (λ _. 0) first last
        (given.hierarchy_in hierarchy.now tables.new) pages.old pages.new result count.new next.old next.new }
{
    let take = WordRange {
        first,
        last,
        task: RangeTask::Take,
    };
    let told = enter(hierarchy, tables, pages, &take);
    tell(told, count, next)
}

/// Changes the flags of the present pages of a range: their words keep the bits in `keep` and get those in `set`. The words that were
/// there are written, as `x64_list_range` writes them. Pages without `PRESENT` are passed over.
///
/// Requires that the hierarchy is valid, which `x64_is_valid` tests; it is valid again afterwards. Returns what `x64_list_range` returns,
/// or `NOT_ALLOWED` if `keep` lacks `HUGE_PAGE` or a bit of the address, or `set` has one of them. With `NOT_ALLOWED` or a wrong argument
/// nothing changes.
#[unsafe(no_mangle)]
pub extern "C" fn x64_change_range(
    hierarchy: &Hierarchy,
    tables: &mut [PageTable],
    first: u64,
    last: u64,
    keep: u64,
    set: u64,
    pages: &mut [PageWord],
    count: &mut usize,
    next: &mut u64,
) -> u32
    requires { words.bad_word_change hierarchy.now (length tables.old) first last keep set ≡ None
        → Valid (given.hierarchy_in hierarchy.now tables.old) }
    ensures bad { (status : ℕ) →
        words.bad_word_change hierarchy.now (length tables.old) first last keep set ≡ Some status
        → (result ≡ status) × (tables.new ≡ tables.old)
        × (pages.new ≡ pages.old) × (count.new ≡ count.old) × (next.new ≡ next.old) }
    ensures changes { words.bad_word_change hierarchy.now (length tables.old) first last keep set ≡ None
        → words.ListsAndExchanges (given.hierarchy_in hierarchy.now tables.old) present (by_masks keep set)
        first last (given.hierarchy_in hierarchy.now tables.new)
        pages.old pages.new result count.new next.old next.new }
{
    let change = WordRange {
        first,
        last,
        task: RangeTask::Change { keep, set },
    };
    let told = enter(hierarchy, tables, pages, &change);
    tell(told, count, next)
}

/// What is told of a range beside its pages.
#[derive(Clone, Copy)]
pub struct Ended {
    /// The number of pages.
    pub count: usize,
    /// The status.
    pub status: u32,
    /// The address at which the range goes on, if it does.
    pub next: Option<u64>,
}

impl Ended {
    /// Tells what a range came to.
    fn of<L: LevelCount>(seen: &RangeSeen<L>) -> Ended
        ensures count { result.count ≡ seen.now.count }
        ensures status { result.status ≡ words.range_status seen.now.end }
        ensures next { result.next ≡ words.range_next L.LEVELS seen.now.end }
    {
        Ended {
            count: seen.count,
            status: status_of(&seen.end),
            next: seen.end.next_address(),
        }
    }
}

/// Returns the status of the end of a range.
pub fn status_of<L: LevelCount>(end: &RangeEnd<L>) -> u32
    ensures { result ≡ words.range_status end.now }
{
    match end.stop() {
        RangeStop::All => status::OK,
        RangeStop::More => status::MORE,
        RangeStop::LargerPage => status::PARENT_ENTRY_HUGE_PAGE,
    }
}

/// Writes the number of pages and where the range goes on, and returns the status.
fn tell(told: Result<Ended, u32>, count: &mut usize, next: &mut u64) -> u32
    ensures bad { IfErr told (λ status.
        (result ≡ status) × (count.new ≡ count.old) × (next.new ≡ next.old)) }
    ensures good { IfOk told (λ ended. (result ≡ ended.status) × (count.new ≡ ended.count)
        × (next.new ≡ unwrap_or ended.next next.old)) }
{
    let ended = match told {
        Ok(ended) => ended,
        Err(status) => return status,
    };
    *count = ended.count;
    if let Some(address) = ended.next {
        *next = address;
    }
    ended.status
}

/// What is done with the pages of a range, beside telling them.
#[derive(Clone, Copy)]
pub enum RangeTask {
    /// Nothing.
    Tell,
    /// Their entries become 0.
    Take,
    /// Their words keep the bits in `keep`, and get those in `set`.
    Change { keep: u64, set: u64 },
}

/// A task on the pages of a range.
#[derive(Clone, Copy)]
pub struct WordRange {
    first: u64,
    last: u64,
    task: RangeTask,
}

impl Operation for WordRange {
    ghost use Rattle.x86_64_c.specs.private.RangeTasks.{wrong_task, DoesTask};
    ghost use Rattle.x86_64_model.specs.Hierarchy.{Valid};

    type Out = Ended;

    type Entry = PageWord;

    ghost wrong = { λ new levels tables room. wrong_task levels new.first new.last new.task };

    ghost may = { λ new h array. Valid h };

    ghost does = { λ new h array after left ended.
        DoesTask new.task h new.first new.last array left after.memory ended };

    fn execute<L: LevelCount, T: TableMemory, P: PageTableFrameMapping + Copy>(
        &self,
        memory: &mut T,
        located: Located<P>,
        array: &mut [PageWord],
    ) -> Result<Ended, u32> {
        let range = range_at::<L>(self.first, self.last)?;
        let Located { root, mapping } = located;
        match self.task {
            RangeTask::Tell => {
                let seen = list_range(memory, &mapping, root, range, array);
                Ok(Ended::of(&seen))
            }
            RangeTask::Take => {
                let seen = take_range(memory, &mapping, root, range, array);
                Ok(Ended::of(&seen))
            }
            RangeTask::Change { keep, set } => {
                if !are_flag_masks(keep, set) {
                    return Err(status::NOT_ALLOWED);
                }
                let seen = change_range(memory, &mapping, root, range, keep, set, array);
                Ok(Ended::of(&seen))
            }
        }
    }
}
