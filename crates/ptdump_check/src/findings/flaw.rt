//! Flaws of regions.
ghost use Rattle.std.specs.Prelude.{◌≡◌, Some};
ghost use Rattle.ptdump_check.specs.FindingTexts.{flaw_text};
ghost use Rattle.ptdump_check.specs.Findings.{has_flaw};

use std::fmt::{Display, Formatter, Result as FmtResult, Write};
use x86_64_addr::level_count::LevelCount;
use x86_64_mappings::RegionIn;

/// A flaw of a region.
#[derive(Clone, Copy)]
pub enum Flaw {
    /// Writable memory is also executable.
    WritableAndExecutable,
    /// User code can access the upper half.
    UserInUpperHalf,
}

impl Flaw {
    /// Returns true if a region has the flaw.
    pub fn is_in<L: LevelCount>(self, region: &RegionIn<L>) -> bool
        ensures { result ≡ has_flaw L.LEVELS self region.now }
    {
        match self {
            Flaw::WritableAndExecutable => region.rights.write && region.rights.execute,
            Flaw::UserInUpperHalf => {
                region.rights.user && region.first.position() >= L::POSITION_COUNT / 2
            }
        }
    }

    /// Returns what the flaw is.
    pub fn text(self) -> &'static str
        ensures { result.now ≡ flaw_text self }
    {
        match self {
            Flaw::WritableAndExecutable => "writable and executable",
            Flaw::UserInUpperHalf => "user reaches upper half",
        }
    }
}

/// A region with a flaw.
#[derive(Clone, Copy)]
pub struct FlawedRegion<L: LevelCount> {
    /// The flaw.
    pub flaw: Flaw,
    /// The region.
    pub region: RegionIn<L>,
}

impl<L: LevelCount> Display for FlawedRegion<L> {
    ghost use Rattle.ptdump_check.specs.FindingTexts.{flawed_text};

    ghost output = { λ flawed. Some (flawed_text L.LEVELS flawed.flaw flawed.region) };

    fn fmt<W: Write>(&self, f: &mut Formatter<W>) -> FmtResult {
        let flaw = self.flaw.text();
        let region = self.region;
        write!(f, "{flaw} {region}")
    }
}
