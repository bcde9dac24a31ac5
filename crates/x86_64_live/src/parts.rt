//! Parts of larger pages
ghost use Rattle.std.specs.Prelude.{◌≡◌, ◌<◌, ◌-◌, ◌↔◌, ◌||◌, ℕ, cond, get_or, bit_or, Some, None, IfErr, IfOk, IsTrue, OnErr, OnOk};
ghost use Rattle.x86_64_live.specs.Parts as parts;
ghost use Rattle.x86_64_live.specs.Parts.{split_refusal, IsPartOf, MapsParts};
ghost use Rattle.x86_64_model.specs.Entry.{has, writable};
ghost use Rattle.x86_64_model.specs.Laws.Splits as splits;
ghost use Rattle.x86_64_model.specs.Laws.Splits.{AllowsAll, AreParts};

use bitflags::Flags;
use x86_64_tables::page_table::{PageTable, PageTableEntry, PageTableFlags, Rights, has_flag};

/// The bit PAT of a 2MiB or 1GiB page.
const LARGE_PAT: u64 = 0x1000;

/// The bit PAT of a 4KiB page.
const SMALL_PAT: u64 = 0x80;

/// The flags of a 2MiB page that its parts have at the same place: all but `HUGE_PAGE`.
const SMALL_FLAGS: u64 = 0xfff0_0000_0000_0f7f;

/// The flags of an entry.
const FLAGS: u64 = 0xfff0_0000_0000_0fff;

/// The bits of a word that say where a page lies and which kind of memory it is.
const PART_BITS: u64 = 0x780f_ffff_ffff_f199;

/// Why a page can't be split.
#[derive(Clone, Copy, Debug, PartialEq)]
pub enum SplitError {
    /// Pages of this level have no parts: it is neither two nor three.
    NoSuchLevel,
    /// There is no page: the word is 0.
    PageNotMapped,
    /// The word names a table.
    HasTable,
    /// The address in the word isn't a multiple of the page's size.
    InvalidFrameAddress,
}

/// Returns `Ok` if an entry of a level that has this word maps a page which has parts: 512 smaller pages that map the same frames.
///
/// # Errors
///
/// `NoSuchLevel` if the level is neither two (2MiB) nor three (1GiB), else `PageNotMapped` if the word is 0, `HasTable` if it lacks
/// `HUGE_PAGE`, and `InvalidFrameAddress` if an address bit below the page's size is set, but for bit 12, which is PAT.
pub fn may_split(level: u64, word: u64) -> Result<(), SplitError>
    ensures refused { IfErr result (λ error. split_refusal level word ≡ Some error) }
    ensures good { IfOk result (λ _. split_refusal level word ≡ None) }
{
    let low_bits = match level {
        2 => 0x001f_e000,
        3 => 0x3fff_e000,
        _ => return Err(SplitError::NoSuchLevel),
    };
    let entry = PageTableEntry::from_word(word);
    if entry.is_unused() {
        Err(SplitError::PageNotMapped)
    } else if !has_flag(&entry, PageTableFlags::HUGE_PAGE) {
        Err(SplitError::HasTable)
    } else if word & low_bits != 0 {
        Err(SplitError::InvalidFrameAddress)
    } else {
        Ok(())
    }
}

/// Writes the words of the parts of a page into a table, by the word of the page's entry, with all its flags, its marks and its PAT bit.
///
/// Below an entry that takes no right from them these parts map what the page maps, with the same rights. So the page may be split into
/// them ([`pages_may_be_split`](x86_64_model::laws::splits::pages_may_be_split)).
///
/// # Errors
///
/// Those of [`may_split`]. Then the table stays as it was.
pub fn write_parts(level: u64, word: u64, table: &mut PageTable) -> Result<(), SplitError>
    ensures refused { IfErr result (λ error. split_refusal level word ≡ Some error) }
    ensures unchanged { OnErr result (table.new ≡ table.old) }
    ensures good { IfOk result (λ _. split_refusal level word ≡ None) }
    ensures words { OnOk result (table.new ≡ parts.parts_of level word) }
    ensures parts { OnOk result ((t : ℕ) → AllowsAll t
        → AreParts (level - 1) word t (λ j. get_or table.new j 0)) }
{
    may_split(level, word)?;
    for index in 0..512 {
        table[index].set_word(part_of(level, word, index as u64));
    }
    Ok(())
}

/// Returns the word of a part of a page of level two or three, by the word of the page.
fn part_of(level: u64, word: u64, index: u64) -> u64
    requires { index < 512 }
    ensures { result ≡ parts.part_of level word index }
{
    if level == 2 {
        part_of_2mib(word, index)
    } else {
        part_of_1gib(word, index)
    }
}

/// Returns the word of a part of a 2MiB page, by the word of the page.
fn part_of_2mib(word: u64, index: u64) -> u64
    requires { index < 512 }
    ensures { result ≡ splits.part_of_2mib word index }
{
    let start = PageTableEntry::from_word(word).addr().as_u64() / 0x20_0000 * 0x20_0000;
    (start + index * 0x1000) | (word & SMALL_FLAGS | pat_as(SMALL_PAT, word))
}

/// Returns the word of a part of a 1GiB page, by the word of the page.
#[tactic(auto, unfolding(x86_64_model::specs::Entry::flags))]
fn part_of_1gib(word: u64, index: u64) -> u64
    requires { index < 512 }
    ensures { result ≡ bit_or (splits.part_of_1gib word index) (cond (has word 0x1000) 0x1000 0) }
{
    let start = PageTableEntry::from_word(word).addr().as_u64() / 0x4000_0000 * 0x4000_0000;
    (start + index * 0x20_0000) | (word & FLAGS) | pat_as(LARGE_PAT, word)
}

/// Returns a bit if the word of a larger page has the bit PAT, and otherwise 0.
#[tactic(auto, unfolding(x86_64_model::specs::Entry::has))]
fn pat_as(bit: u64, word: u64) -> u64
    ensures { result ≡ cond (has word 0x1000) bit 0 }
{
    if word & LARGE_PAT == LARGE_PAT {
        bit
    } else {
        0
    }
}

/// Returns true if the words of a table map the parts of a page that has this word, below an entry which names the table: the same
/// frames as the same kind of memory (caching, protection key, `GLOBAL`, `PRESENT`), with the same rights.
///
/// Then the parts may be joined to the page ([`pages_may_be_joined`](x86_64_model::laws::splits::pages_may_be_joined)). Marks (`ACCESSED`
/// and `DIRTY`) and the bits that no processor reads aren't looked at. Returns false if [`may_split`] refuses the page.
pub fn are_parts(level: u64, word: u64, entry: u64, table: &PageTable) -> bool
    ensures exact { IsTrue result ↔ MapsParts level word entry table.now }
    ensures parts { IsTrue result → AreParts (level - 1) word entry (λ j. get_or table.now j 0) }
{
    if may_split(level, word).is_err() {
        return false;
    }
    for index in 0..512 {
        if !is_part(level, word, entry, index as u64, &table[index]) {
            return false;
        }
    }
    true
}

/// Returns true if an entry of a table maps a part of a page that has this word, below an entry which names the table.
fn is_part(level: u64, word: u64, above: u64, index: u64, entry: &PageTableEntry) -> bool
    requires { index < 512 }
    ensures { IsTrue result ↔ IsPartOf level word above index entry.now }
{
    let granted = Rights::ALL
        .below(&PageTableEntry::from_word(above))
        .below(entry);
    let part = part_of(level, word, index);
    entry.word() & PART_BITS == part & PART_BITS
        && granted == Rights::ALL.below(&PageTableEntry::from_word(word))
}

/// Returns the word of a larger page that takes the place of the parts in a table: with `ACCESSED`, and with `DIRTY` if the page is
/// writable or a part has it.
///
/// A processor may mark a part as dirty at any moment, if it is writable, so a writable page counts as dirty.
pub fn joined_word(word: u64, table: &PageTable) -> u64
    ensures { result ≡ parts.page_of_parts word table.now }
{
    word | (PageTableFlags::ACCESSED.bits() | dirty_mark(word, table))
}

/// Returns `DIRTY` if a page that takes the place of the parts in a table has to have it, and otherwise 0.
fn dirty_mark(word: u64, table: &PageTable) -> u64
    ensures { result ≡ cond (writable word || parts.any_dirty table.now) 0x40 0 }
{
    let entry = PageTableEntry::from_word(word);
    if has_flag(&entry, PageTableFlags::WRITABLE) || any_dirty(table) {
        PageTableFlags::DIRTY.bits()
    } else {
        0
    }
}

/// Returns true if an entry of a table has `DIRTY`.
fn any_dirty(table: &PageTable) -> bool
    ensures { result ≡ parts.any_dirty table.now }
{
    table
        .iter()
        .any(|part| has_flag(part, PageTableFlags::DIRTY))
}
