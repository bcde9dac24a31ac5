//! Modes of paging.
ghost use Rattle.std.specs.Prelude.{◌≡◌};
ghost use Rattle.ptdump_json.specs.InfoTexts.{mode_name};
ghost use Rattle.ptdump_json.specs.Paging as paging;

use std::fmt::{Display, Formatter, Result as FmtResult, Write};

/// The bit of CR0 that enables paging.
const PG: u64 = 0x8000_0000;

/// The bit of CR4 that makes entries 64 bits wide.
const PAE: u64 = 0x20;

/// The mode of paging of a processor. Intel SDM vol. 3A, "Paging Modes and Control Bits".
#[derive(Clone, Copy, Debug)]
pub enum Mode {
    /// No paging.
    NoPaging,
    /// Paging with entries of 32 bits.
    Paging32,
    /// Paging with entries of 64 bits. CR0 and CR4 don't say whether it has four or five levels or is PAE paging of 32-bit code.
    Paging64,
}

impl Mode {
    /// Returns the mode of a processor with these CR0 and CR4.
    #[tactic(auto, unfolding(x86_64_model::specs::Entry::has))]
    pub fn of(cr0: u64, cr4: u64) -> Mode
        ensures { result ≡ paging.mode_of cr0 cr4 }
    {
        if cr0 & PG != PG {
            Mode::NoPaging
        } else if cr4 & PAE != PAE {
            Mode::Paging32
        } else {
            Mode::Paging64
        }
    }

    /// Returns its name.
    pub fn name(self) -> &'static str
        ensures { result.now ≡ mode_name self }
    {
        match self {
            Mode::NoPaging => "no paging",
            Mode::Paging32 => "32-bit paging",
            Mode::Paging64 => "64-bit paging",
        }
    }
}

impl Display for Mode {
    ghost use Rattle.std.specs.Prelude.{Some};
    ghost use Rattle.ptdump_json.specs.InfoTexts.{mode_told};

    ghost output = { λ mode. Some (mode_told mode) };

    fn fmt<W: Write>(&self, f: &mut Formatter<W>) -> FmtResult {
        f.write_str(match self {
            Mode::NoPaging => "has no paging, as bit 31 of its CR0 is 0",
            Mode::Paging32 => "has 32-bit paging, as bit 5 of its CR4 is 0",
            Mode::Paging64 => "has 64-bit paging",
        })
    }
}
