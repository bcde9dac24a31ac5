//! Regions that are selected. Their addresses and their rights decide.
ghost use Rattle.std.specs.Prelude.{cond, None};
ghost use Rattle.x86_64_mappings.specs.Selections.{is_selected};

use crate::line_output::LineOutput;
use crate::request::Selection;
use crate::telling::Telling;
use x86_64_addr::level_count::LevelCount;
use x86_64_mappings::RegionIn;

/// What is said of the regions that are selected. Nothing is said of others.
#[derive(Drop)]
pub struct Selected<T: Drop> {
    /// What is selected.
    pub selection: Selection,
    /// What is said of it.
    pub telling: T,
}

impl<L: LevelCount, T: Telling<RegionIn<L>> + Drop> Telling<RegionIn<L>> for Selected<T> {
    ghost said = { λ selected region.
        cond (is_selected L.LEVELS selected.selection region) (T.said selected.telling region) None };

    fn tell<O: LineOutput>(&self, region: RegionIn<L>, output: &mut O) -> Result<(), O::Error> {
        let first = region.first.position();
        let last = region.last.position();
        if self.selection.selects::<L>(first, last, region.rights) {
            self.telling.tell(region, output)
        } else {
            Ok(())
        }
    }
}
