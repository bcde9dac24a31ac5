//! The search for a physical address.
ghost use Rattle.std.specs.Prelude.{map, OnOk, Some};
ghost use Rattle.ptdump_engine.specs.private.Asked.{mappings_asked};
ghost use Rattle.ptdump_engine.specs.private.Finding.{said_of_found};

use crate::line_output::LineOutput;
use crate::telling::{Teller, Telling};
use ptdump_check::RightsAt;
use ptdump_json::Found;
use x86_64_addr::addr::{PhysAddr, VirtAddrIn};
use x86_64_addr::level_count::LevelCount;
use x86_64_mappings::{MappingIn, Summaries, visit_mappings};
use x86_64_page::frame::PhysFrame;
use x86_64_page::page::Size4KiB;
use x86_64_tables::phys_memory::{IdentityMapping, PhysMemory};

/// What is said of mappings that lead to a physical address: the virtual addresses that do.
#[derive(Clone, Copy)]
struct Finder {
    /// The physical address.
    physical: PhysAddr,
}

impl<L: LevelCount> Telling<MappingIn<L>> for Finder {
    ghost said = { λ finder mapping. Some (said_of_found L.LEVELS finder.physical mapping) };

    /// Puts in the virtual address in a mapping that leads to the physical address.
    fn tell<O: LineOutput>(&self, mapping: MappingIn<L>, output: &mut O) -> Result<(), O::Error> {
        let physical = self.physical;
        let start = mapping.frame.start_address().as_u64();
        let offset = physical.as_u64().saturating_sub(start);
        let address = VirtAddrIn::<L>::new_truncate(mapping.start.position() + offset);
        let at = RightsAt {
            address: address.as_u64(),
            rights: mapping.rights,
        };
        output.write_line(Found { physical, at })
    }
}

/// Puts in the virtual addresses in the mappings of the summaries, which lead to a physical address.
pub fn tell_addresses<L: LevelCount, O: LineOutput>(
    summaries: &Summaries<'_, PhysMemory, IdentityMapping>,
    root: PhysFrame<Size4KiB>,
    physical: PhysAddr,
    output: &mut O,
) -> Result<(), O::Error>
    ensures { OnOk result (O.Lines output.old output.new (map (said_of_found L.LEVELS physical)
        (mappings_asked summaries.now L.LEVELS root))) }
{
    let finder = Finder { physical };
    let mut teller = Teller::new(&finder, output);
    visit_mappings::<L, PhysMemory, IdentityMapping, Teller<'_, Finder, O>>(
        summaries,
        root,
        &mut teller,
    )?;
    Ok(())
}
