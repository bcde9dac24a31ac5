//! Frames that are mapped with different rights.
ghost use Rattle.std.specs.Prelude.{OnOk};
ghost use Rattle.x86_64_model.specs.Mappings.{mappings_of};
ghost use Rattle.ptdump_check.specs.Loaded.{IsLoadedDump, words_loaded};
ghost use Rattle.ptdump_check.specs.Aliasing.{AreOfAll};
ghost use Rattle.ptdump_engine.specs.CheckReports.{alias_lines};
ghost use Rattle.ptdump_engine.specs.private.Checked.{aliases_by, said_by_firsts};

use crate::check::subject::Subject;
use crate::line_output::LineOutput;
use crate::request::Selection;
use crate::telling::{Teller, Telling};
use ptdump_check::{Aliased, FirstMappings, Loaded};
use std::alloc::Global;
use x86_64_addr::level_count::LevelCount;
use x86_64_mappings::{MappingIn, visit_distinct_mappings};
use x86_64_tables::phys_memory::{IdentityMapping, PhysMemory};

impl<L: LevelCount> Telling<MappingIn<L>> for FirstMappings<L> {
    ghost said = { λ firsts mapping. said_by_firsts L.LEVELS firsts mapping };

    /// Puts in the line for a mapping, if it has an alias.
    fn tell<O: LineOutput>(&self, mapping: MappingIn<L>, output: &mut O) -> Result<(), O::Error> {
        match self.alias(mapping.frame, mapping.rights, mapping.start) {
            Some(alias) => output.write_line(Aliased::of(&mapping, &alias)),
            None => Ok(()),
        }
    }
}

/// Writes a line for each frame, size and rights, at the first selected mapping of that kind, if that has an alias, by the first
/// mappings of frames.
fn write_aliases_by<L: LevelCount, O: LineOutput>(
    alloc: Global,
    loaded: &Loaded<'_, L>,
    selection: &Selection,
    firsts: &FirstMappings<L>,
    output: &mut O,
) -> Result<(), O::Error>
    requires loaded { IsLoadedDump loaded.now }
    requires firsts { AreOfAll L.LEVELS firsts.now
        (mappings_of L.LEVELS (words_loaded loaded.now) loaded.now.root) }
    ensures { OnOk result (O.Lines output.old output.new (alias_lines L.LEVELS selection.now
        (mappings_of L.LEVELS (words_loaded loaded.now) loaded.now.root))) }
{
    let mut teller = Teller::new(firsts, output);
    visit_distinct_mappings::<L, PhysMemory, IdentityMapping, Teller<'_, FirstMappings<L>, O>>(
        alloc,
        loaded.summaries,
        loaded.root,
        *selection,
        &mut teller,
    )?;
    Ok(())
}

/// Writes a line for each frame, size and rights, at the first selected mapping of that kind, if that has an alias and these are
/// looked for.
pub fn write_aliases<L: LevelCount, O: LineOutput>(
    alloc: Global,
    loaded: &Loaded<'_, L>,
    subject: &Subject<'_>,
    output: &mut O,
) -> Result<(), O::Error>
    requires { IsLoadedDump loaded.now }
    ensures { OnOk result (O.Lines output.old output.new (aliases_by L.LEVELS loaded.now subject.now)) }
{
    if !subject.aliases {
        return Ok(());
    }
    let firsts = FirstMappings::of(alloc, loaded)?;
    write_aliases_by::<L, O>(alloc, loaded, &subject.selection, &firsts, output)?;
    Ok(())
}
