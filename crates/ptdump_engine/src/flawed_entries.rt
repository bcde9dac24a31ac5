//! Lines for entries with a flaw.
ghost use Rattle.std.specs.Prelude.{[], OnOk, map};
ghost use Rattle.std.specs.List.{cons_option, filter_map};
ghost use Rattle.x86_64_model.specs.Memory.{identity_places, words_of};
ghost use Rattle.ptdump_check.specs.Findings as findings;
ghost use Rattle.ptdump_check.specs.Findings.{HasBits};
ghost use Rattle.ptdump_engine.specs.CheckReports.{said_of};

use crate::line_output::LineOutput;
use ptdump_check::{Entry, EntryFlaw, Finding, Table};
use x86_64_access::Controls;
use x86_64_tables::phys_memory::{IdentityMapping, PhysMemory, table_in};

/// The processor whose reserved bits are looked for: it has all bits of physical addresses.
pub const PROCESSOR: Controls = Controls {
    write_protect: true,
    no_execute: true,
    smep: true,
    smap: true,
    ac: false,
    physical_bits: 52,
    no_1gib_pages: false,
    global_reserved: false,
};

/// Writes a line for each entry of the tables that has `PRESENT` and a flaw.
pub fn write_flawed_entries<O: LineOutput>(
    memory: &PhysMemory,
    tables: &[Table],
    flaw: EntryFlaw,
    output: &mut O,
) -> Result<(), O::Error>
    requires { HasBits flaw }
    ensures { OnOk result (O.Lines output.old output.new (map said_of
        (findings.flawed_entries flaw (words_of memory.now identity_places) tables.now))) }
{
    for table in tables {
        write_flawed_in::<O>(memory, table, flaw, output)?;
    }
    Ok(())
}

/// Writes a line for each entry of a table that has `PRESENT` and a flaw. The words aren't read if the level rules the flaw out.
#[tactic(auto, unfolding(ptdump_check::specs::Findings::entries_in))]
pub fn write_flawed_in<O: LineOutput>(
    memory: &PhysMemory,
    table: &Table,
    flaw: EntryFlaw,
    output: &mut O,
) -> Result<(), O::Error>
    requires { HasBits flaw }
    ensures { OnOk result (O.Lines output.old output.new (map said_of (filter_map
        (findings.flaw_in flaw) (findings.entries_in (words_of memory.now identity_places) table.now)))) }
{
    if !flaw.may_be_at(table.level) {
        return Ok(());
    }
    let Some(words) = table_in(memory, &IdentityMapping, table.frame) else {
        return Ok(());
    };
    for index in 0..512 {
        let entry = Entry::new(table, index, words[index].word());
        write_finding::<O>(Finding::of_entry(flaw, &entry), output)?;
    }
    Ok(())
}

/// Writes a line for a finding, if there is one.
pub fn write_finding<O: LineOutput>(
    finding: Option<Finding>,
    output: &mut O,
) -> Result<(), O::Error>
    ensures { OnOk result (O.Lines output.old output.new (map said_of (cons_option finding []))) }
{
    match finding {
        Some(finding) => output.write_line(finding),
        None => Ok(()),
    }
}
