//! Runs of entries of level one that map pages with equal rights, or map nothing.
ghost use Rattle.std.specs.Prelude.{◌≡◌, ◌<◌, length, slice_index};
ghost use Rattle.std.specs.List.{prefix_len};
ghost use Rattle.x86_64_mappings.specs.private.Runs.{page_bits, has_page_bits};

use x86_64_tables::page_table::PageTableEntry;

/// The bits that decide whether an entry of level one maps a page and what that allows: `PRESENT`, `WRITABLE`,
/// `USER_ACCESSIBLE` and `NO_EXECUTE`.
const PAGE_BITS: u64 = 0x8000_0000_0000_0007;

/// Returns the number of entries that have the page bits of the first, up to the first that differs.
pub(super) fn run_length(entries: &[PageTableEntry]) -> usize
    requires { 0 < length entries.now }
    ensures { result ≡ prefix_len (has_page_bits (slice_index entries.now 0)) entries.now }
{
    let first = page_bits(&entries[0]);
    for (count, entry) in entries.iter().enumerate() {
        if page_bits(entry) != first {
            return count;
        }
    }
    entries.len()
}

/// Returns the bits of an entry that decide whether it maps a page and what that allows.
fn page_bits(entry: &PageTableEntry) -> u64
    ensures { result ≡ page_bits entry.now }
{
    entry.word() & PAGE_BITS
}
