//! What is said of mappings and regions, a line each.
ghost use Rattle.std.specs.Prelude.{◌≡◌, [], filter, OnOk, Option, Some};
ghost use Rattle.std.specs.List.{cons_option, filter_map};
ghost use Rattle.x86_64_model.specs.Mappings.{mappings_of};
ghost use Rattle.x86_64_model.specs.Regions.{regions_of};
ghost use Rattle.x86_64_mappings.specs.Selections.{is_mapping_selected, is_selected};
ghost use Rattle.ptdump_check.specs.Loaded.{IsLoadedDump, words_loaded};
ghost use Rattle.ptdump_engine.specs.Said.{Said};

use crate::line_output::LineOutput;
use crate::request::Selection;
use crate::selected::Selected;
use ptdump_check::Loaded;
use ptdump_json::{ListedMapping, ListedRegion, Listing};
use x86_64_addr::level_count::LevelCount;
use x86_64_mappings::{MappingIn, RegionIn, Visitor, visit_regions, visit_selected_mappings};
use x86_64_tables::phys_memory::{IdentityMapping, PhysMemory};

/// What is said of an item, in a line.
pub trait Telling<T> {
    /// What the line for an item says, if it has one.
    ghost said: { Self → T → Option Said };

    /// Puts the line for an item in, if it has one.
    fn tell<O: LineOutput>(&self, item: T, output: &mut O) -> Result<(), O::Error>
        ensures { OnOk result (O.Lines output.old output.new (cons_option (said self.now item) [])) };
}

impl<L: LevelCount> Telling<MappingIn<L>> for Listing {
    ghost use Rattle.ptdump_engine.specs.private.Listed.{said_of_page};

    ghost said = { λ listing mapping.
        Some (said_of_page listing.columns listing.has_names listing.layout L.LEVELS mapping) };

    fn tell<O: LineOutput>(&self, mapping: MappingIn<L>, output: &mut O) -> Result<(), O::Error> {
        let listing = *self;
        let area = listing.area_of_mapping(&mapping);
        output.write_line(ListedMapping {
            mapping,
            listing,
            area,
        })
    }
}

impl<L: LevelCount> Telling<RegionIn<L>> for Listing {
    ghost use Rattle.ptdump_engine.specs.private.Listed.{said_of_region};

    ghost said = { λ listing region.
        Some (said_of_region listing.columns listing.layout L.LEVELS region) };

    fn tell<O: LineOutput>(&self, region: RegionIn<L>, output: &mut O) -> Result<(), O::Error> {
        let listing = *self;
        let area = listing.area_of_region(&region);
        output.write_line(ListedRegion {
            region,
            listing,
            area,
        })
    }
}

/// A visitor that puts in the lines for items.
///
/// The destination of the lines is a type parameter so that contracts can identify it once it is returned.
pub struct Teller<'a, T, O> {
    /// The destination of the lines.
    output: &'a mut O,
    /// What is said of an item.
    telling: &'a T,
}

impl<T, O> Drop for Teller<'_, T, O> {
    fn drop(self)
        ensures { self.exit.0.now ≡ self.entry.output.now }
    {
        let Teller {
            output: _output,
            telling: _,
        } = self;
    }
}

impl<'a, T, O: LineOutput> Teller<'a, T, O> {
    /// Begins with no item.
    pub fn new(telling: &'a T, output: &'a mut O) -> Self
        ensures name { result.output.ghost_name ≡ output.entry.ghost_name }
        ensures now { result.output.now ≡ output.old }
        ensures telling { result.telling.now ≡ telling.now }
    {
        Teller { output, telling }
    }
}

impl<T, S: Telling<T>, O: LineOutput> Visitor<T> for Teller<'_, S, O> {
    type Error = O::Error;

    ghost use Rattle.ptdump_engine.specs.private.Telling.{AreTold, told_nothing, told_both};

    ghost Visits = { λ old new items. AreTold O.Lines S.said old new items };

    /// Puts the line for an item in, if it has one.
    fn visit(&mut self, item: T) -> Result<(), O::Error> {
        self.telling.tell(item, self.output)
    }

    ghost none = { λ teller. told_nothing O.Lines S.said O.nothing teller };

    ghost both = { told_both O.Lines S.said O.parts };
}

/// Puts in what is said of each mapping that is selected, in order of their starts.
///
/// # Errors
///
/// The error of the destination.
pub fn tell_mappings<L: LevelCount, T: Telling<MappingIn<L>> + Drop, O: LineOutput>(
    loaded: &Loaded<'_, L>,
    selection: Selection,
    telling: T,
    output: &mut O,
) -> Result<(), O::Error>
    requires { IsLoadedDump loaded.now }
    ensures { OnOk result (O.Lines output.old output.new (filter_map (T.said telling) (filter
        (is_mapping_selected L.LEVELS selection)
        (mappings_of L.LEVELS (words_loaded loaded.now) loaded.now.root)))) }
{
    let mut teller = Teller::new(&telling, output);
    visit_selected_mappings::<L, PhysMemory, IdentityMapping, Teller<'_, T, O>>(
        loaded.summaries,
        loaded.root,
        selection,
        &mut teller,
    )?;
    Ok(())
}

/// Puts in what is said of each region that is selected, in order of their addresses.
///
/// # Errors
///
/// The error of the destination.
pub fn tell_regions<L: LevelCount, T: Telling<RegionIn<L>> + Drop, O: LineOutput>(
    loaded: &Loaded<'_, L>,
    selection: Selection,
    telling: T,
    output: &mut O,
) -> Result<(), O::Error>
    requires { IsLoadedDump loaded.now }
    ensures { OnOk result (O.Lines output.old output.new (filter_map (T.said telling) (filter
        (is_selected L.LEVELS selection)
        (regions_of L.LEVELS (words_loaded loaded.now) loaded.now.root)))) }
{
    let selected = Selected { selection, telling };
    let mut teller = Teller::new(&selected, output);
    visit_regions::<L, PhysMemory, IdentityMapping, Teller<'_, Selected<T>, O>>(
        loaded.summaries,
        loaded.root,
        &mut teller,
    )?;
    Ok(())
}
