//! Parts of larger pages.
ghost use Rattle.std.specs.Prelude.{◌≡◌, ◌-◌, ◌↔◌, ℕ, get_or, IsTrue, Some, None};
ghost use Rattle.x86_64_c.specs.Parts as statuses;
ghost use Rattle.x86_64_live.specs.Parts.{page_of_parts, parts_of, split_refusal, MapsParts};
ghost use Rattle.x86_64_live.specs.declared.parts.SplitError.{SplitError as Refusal};
ghost use Rattle.x86_64_model.specs.Laws.Splits.{AllowsAll, AreParts};

use crate::status;
use x86_64::structures::paging::PageTable;
use x86_64_live::{SplitError, are_parts, joined_word, may_split, write_parts};

/// Returns whether the page of 2MiB or 1GiB that an entry of a level maps can be split, by the entry's word: `OK`, `BAD_LEVELS` if the
/// level isn't two or three, `PAGE_NOT_MAPPED` if the word is 0, `HAS_TABLE` if it lacks `HUGE_PAGE`, or `INVALID_FRAME_ADDRESS` if its
/// address isn't a multiple of the size.
#[unsafe(no_mangle)]
pub extern "C" fn x64_split_status(level: u64, word: u64) -> u32
    ensures { result ≡ statuses.split_status level word }
{
    match may_split(level, word) {
        Ok(()) => status::OK,
        Err(error) => error_status(error),
    }
}

/// Writes the words of the 512 parts of a page of 2MiB or 1GiB into a table, by the word of the page's entry.
///
/// Returns what `x64_split_status` returns. Unless it is `OK`, the table stays as it was.
#[unsafe(no_mangle)]
pub extern "C" fn x64_write_parts(level: u64, word: u64, table: &mut PageTable) -> u32
    ensures status { result ≡ statuses.split_status level word }
    ensures refused { (why : Refusal) → split_refusal level word ≡ Some why → table.new ≡ table.old }
    ensures words { split_refusal level word ≡ None → table.new ≡ parts_of level word }
    ensures parts { split_refusal level word ≡ None → (t : ℕ) → AllowsAll t
        → AreParts (level - 1) word t (λ j. get_or table.new j 0) }
{
    match write_parts(level, word, table) {
        Ok(()) => status::OK,
        Err(error) => error_status(error),
    }
}

/// Returns true if the words of a table map the parts of a page of 2MiB or 1GiB with this word, below an entry that names the table: the
/// same frames as the same kind of memory, with the same rights. Marks aren't looked at.
#[unsafe(no_mangle)]
pub extern "C" fn x64_are_parts(level: u64, word: u64, entry: u64, table: &PageTable) -> bool
    ensures exact { IsTrue result ↔ MapsParts level word entry table.now }
    ensures parts { IsTrue result → AreParts (level - 1) word entry (λ j. get_or table.now j 0) }
{
    are_parts(level, word, entry, table)
}

/// Returns the word of a page that takes the place of the parts in a table: with `ACCESSED`, and with `DIRTY` if the page is writable or a
/// part has it.
#[unsafe(no_mangle)]
pub extern "C" fn x64_joined_word(word: u64, table: &PageTable) -> u64
    ensures { result ≡ page_of_parts word table.now }
{
    joined_word(word, table)
}

/// Returns the status that says why a page can't be split.
fn error_status(error: SplitError) -> u32
    ensures { result ≡ statuses.error_status (Some error) }
{
    match error {
        SplitError::NoSuchLevel => status::BAD_LEVELS,
        SplitError::PageNotMapped => status::PAGE_NOT_MAPPED,
        SplitError::HasTable => status::HAS_TABLE,
        SplitError::InvalidFrameAddress => status::INVALID_FRAME_ADDRESS,
    }
}
