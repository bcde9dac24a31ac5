//! Frames as bytes, and files that lack some.
ghost use Rattle.std.specs.Prelude.{◌≡◌, length};
ghost use Rattle.x86_64_dump.specs.Dump.{words_at, is_short};

use crate::numbers::read_u64;
use crate::segment::Segment;
use crate::source::ends_after;
use x86_64_tables::page_table::PageTable;

/// Returns true if a file of this length is shorter than its segments say.
pub fn is_cut_off(segments: &[Segment], length: u64) -> bool
    ensures { result ≡ is_short length segments.now }
{
    segments.iter().any(|segment| segment.size != 0
        && ends_after(segment.offset, segment.size, length))
}

/// Returns the words of the 4096 bytes of a frame, with some bits cleared.
pub fn words_in(bytes: &[u8], cleared: u64) -> [u64; 512]
    requires { length bytes.now ≡ 4096 }
    ensures { result ≡ words_at cleared bytes.now 0 }
{
    let mut words = [0; 512];
    for i in 0..512 {
        words[i] = read_u64(bytes, 8 * i) & !cleared;
    }
    words
}

/// Sets the words of a table to those of the 4096 bytes of a frame, with some bits cleared.
pub fn set_words(table: &mut PageTable, bytes: &[u8], cleared: u64)
    requires { length bytes.now ≡ 4096 }
    ensures { table.new ≡ words_at cleared bytes.now 0 }
{
    for i in 0..512 {
        table[i].set_word(read_u64(bytes, 8 * i) & !cleared);
    }
}
