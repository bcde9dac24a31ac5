//! Findings in regions.
ghost use Rattle.std.specs.Prelude.{cond, filter, None, OnOk, Some};
ghost use Rattle.x86_64_model.specs.Regions.{regions_of};
ghost use Rattle.ptdump_check.specs.Findings.{has_flaw};
ghost use Rattle.ptdump_check.specs.Loaded.{IsLoadedDump, words_loaded};
ghost use Rattle.ptdump_engine.specs.CheckReports.{flawed_lines, said_of_flawed};
ghost use Rattle.x86_64_mappings.specs.Selections.{is_selected};

use crate::line_output::LineOutput;
use crate::request::Selection;
use crate::telling::{Telling, tell_regions};
use ptdump_check::{Flaw, FlawedRegion, Loaded};
use x86_64_addr::level_count::LevelCount;
use x86_64_mappings::RegionIn;

impl<L: LevelCount> Telling<RegionIn<L>> for Flaw {
    ghost said = { λ flaw region.
        cond (has_flaw L.LEVELS flaw region) (Some (said_of_flawed L.LEVELS flaw region)) None };

    fn tell<O: LineOutput>(&self, region: RegionIn<L>, output: &mut O) -> Result<(), O::Error> {
        let flaw = *self;
        if flaw.is_in(&region) {
            output.write_line(FlawedRegion { flaw, region })
        } else {
            Ok(())
        }
    }
}

/// Writes a line for each region that is selected and has a flaw.
pub fn write_flawed<L: LevelCount, O: LineOutput>(
    loaded: &Loaded<'_, L>,
    selection: &Selection,
    flaw: Flaw,
    output: &mut O,
) -> Result<(), O::Error>
    requires { IsLoadedDump loaded.now }
    ensures { OnOk result (O.Lines output.old output.new
        (flawed_lines L.LEVELS flaw (filter (is_selected L.LEVELS selection.now)
        (regions_of L.LEVELS (words_loaded loaded.now) loaded.now.root)))) }
{
    tell_regions::<L, Flaw, O>(loaded, *selection, flaw, output)
}
