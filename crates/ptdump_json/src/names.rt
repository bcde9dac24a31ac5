//! The names of the flags of mappings.
ghost use Rattle.std.specs.Prelude.{◌≡◌, map};
ghost use Rattle.std.specs.Fmt.{WritesOnOk};
ghost use Rattle.ptdump_json.specs.Names as names;
ghost use Rattle.ptdump_json.specs.private.Flags.{named_flag};

use bitflags::Flags;
use std::fmt::{Formatter, Result as FmtResult, Write};
use x86_64_addr::level_count::LevelCount;
use x86_64_mappings::MappingIn;

/// The size of the smallest pages.
const SMALL: u64 = 0x1000;

/// The bits that are software's: 9 to 11 and 52 to 58.
const SOFTWARE: u64 = 0x07f0_0000_0000_0e00;

/// Writes a mapping with the names of its flags.
pub fn write_named<L: LevelCount, W: Write>(
    f: &mut Formatter<W>,
    mapping: &MappingIn<L>,
) -> FmtResult
    ensures { WritesOnOk W.write_str_gives f.old result (names.named_text L.LEVELS mapping.now) f.new }
{
    write!(f, "{mapping} ")?;
    write_names(f, mapping.size(), mapping.flags.bits())
}

/// Writes the names of the flags in the entry of a page of a size.
#[tactic(auto, unfolding(crate::specs::Names::names_text))]
pub fn write_names<W: Write>(f: &mut Formatter<W>, size: u64, word: u64) -> FmtResult
    ensures { WritesOnOk W.write_str_gives f.old result (names.names_text size word) f.new }
{
    write_set(f, word, &flags_of(size != SMALL))?;
    write_key(f, word)?;
    write_software(f, word)
}

/// A flag of entries.
#[derive(Clone, Copy)]
struct Flag {
    /// Its bit.
    bit: u64,
    /// Its name.
    name: &'static str,
}

/// Returns the flags that a page's entry may have, in the order in which their names are written.
#[tactic(auto, unfolding(crate::specs::Names::flags_of))]
fn flags_of(is_large: bool) -> [Flag; 11]
    ensures { map named_flag result ≡ names.flags_of is_large }
{
    let (large, small) = if is_large { (0x80, 0) } else { (0, 0x80) };
    [
        Flag {
            bit: 0x1,
            name: "P",
        },
        Flag {
            bit: 0x2,
            name: "W",
        },
        Flag {
            bit: 0x4,
            name: "U",
        },
        Flag {
            bit: 0x20,
            name: "A",
        },
        Flag {
            bit: 0x40,
            name: "D",
        },
        Flag {
            bit: 0x100,
            name: "G",
        },
        Flag {
            bit: large,
            name: "PS",
        },
        Flag {
            bit: 1 << 63,
            name: "NX",
        },
        Flag {
            bit: 0x8,
            name: "PWT",
        },
        Flag {
            bit: 0x10,
            name: "PCD",
        },
        Flag {
            bit: small,
            name: "PAT",
        },
    ]
}

/// Writes the names of the flags that are set in a word, with commas between them.
fn write_set<W: Write>(f: &mut Formatter<W>, word: u64, flags: &[Flag]) -> FmtResult
    ensures { WritesOnOk W.write_str_gives f.old result
        (names.set_text word (map named_flag flags.now)) f.new }
{
    let mut separator = "";
    for flag in flags {
        if word & flag.bit == 0 {
            continue;
        }
        f.write_str(separator)?;
        f.write_str(flag.name)?;
        separator = ",";
    }
    Ok(())
}

/// Writes the protection key of a word, if it isn't 0.
fn write_key<W: Write>(f: &mut Formatter<W>, word: u64) -> FmtResult
    ensures { WritesOnOk W.write_str_gives f.old result (names.protection_key_text word) f.new }
{
    let key = word >> 59 & 0xf;
    if key == 0 {
        return Ok(());
    }
    write!(f, ",KEY={key}")
}

/// Writes the bits of a word that are software's, if any is set.
fn write_software<W: Write>(f: &mut Formatter<W>, word: u64) -> FmtResult
    ensures { WritesOnOk W.write_str_gives f.old result (names.software_text word) f.new }
{
    let bits = word & SOFTWARE;
    if bits == 0 {
        return Ok(());
    }
    write!(f, ",SW=0x{bits:x}")
}
