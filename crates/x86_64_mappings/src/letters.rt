//! Rights as letters.
ghost use Rattle.std.specs.Prelude.{◌≡◌, ◌+◌, ◌<◌, ◌≤◌, ◌∷◌, ◌++◌, [], drop};
ghost use Rattle.std.specs.Str.{IsAscii};
ghost use Rattle.x86_64_tables.specs.Rights.{letter_text, rights_text};

use text::pieces::{CAPACITY, put};
use x86_64_tables::page_table::Rights;

/// Writes rights so that they end at `end`, and returns where they start.
#[inline(always)]
#[tactic(auto, unfolding(x86_64_tables::specs::Rights::rights_text))]
pub(crate) fn put_rights(line: &mut [u8; CAPACITY], end: usize, rights: Rights) -> usize
    requires room { 4 ≤ end }
    requires inside { end ≤ 96 }
    ensures text { drop result line.new ≡ rights_text rights ++ drop end line.old }
    ensures start { result + 4 ≡ end }
    ensures ascii { IsAscii (drop end line.old) → IsAscii (drop result line.new) }
{
    let start = put(line, end, letter(rights.user, b'u'));
    let start = put(line, start, letter(rights.execute, b'x'));
    let start = put(line, start, letter(rights.write, b'w'));
    put(line, start, b'r')
}

/// Returns the letter of a right, or `-` without the right.
#[inline(always)]
fn letter(holds: bool, letter: u8) -> u8
    requires { letter < 128 }
    ensures text { result ∷ [] ≡ letter_text holds (letter ∷ []) }
    ensures ascii { result < 128 }
{
    if holds { letter } else { b'-' }
}
