//! Reports of regions, mappings, walks and searches.
ghost use Rattle.std.specs.Prelude.{◌≡◌, ◌^◌, ◌%◌, nat_le, None, OnOk, IfOk};
ghost use Rattle.std.specs.List.{find, list_any};
ghost use Rattle.x86_64_model.specs.Mappings.{mappings_of};
ghost use Rattle.x86_64_model.specs.Position.{position_count};
ghost use Rattle.x86_64_mappings.specs.Wanted.{leads_to};
ghost use Rattle.ptdump_check.specs.Loaded.{IsLoadedDump, words_loaded};
ghost use Rattle.ptdump_json.specs.Accesses.{is_access_there};
ghost use Rattle.ptdump_json.specs.Lines.{walk_lines};
ghost use Rattle.ptdump_engine.specs.Output.{Puts};
ghost use Rattle.ptdump_engine.specs.Reports as reports;
ghost use Rattle.ptdump_json.specs.declared.options.Form.TheVariants.{Text};
ghost use Rattle.ptdump_engine.specs.private.Asked.{mappings_asked};
ghost use Rattle.ptdump_engine.specs.private.Finding.{some_there, visited_lines};

use crate::counted_lines::CountedLines;
use crate::destination::Destination;
use crate::explanation::write_explanation;
use crate::finder::tell_addresses;
use crate::output::{Output, OutputError};
use crate::request::{Form, Selection, WalkOptions};
use crate::telling::{tell_mappings, tell_regions};
use crate::walk::{write_access, write_walk};
use ptdump_check::Loaded;
use ptdump_json::{Lines, Listing, walk_to, write_json_walk};
use std::alloc::Global;
use x86_64_addr::addr::{PhysAddr, VirtAddrIn};
use x86_64_addr::level_count::LevelCount;
use x86_64_mappings::Summaries;
use x86_64_tables::phys_memory::{IdentityMapping, PhysMemory};

/// Writes a line in a form for each region that is selected.
///
/// # Errors
///
/// The error of the destination, or of memory allocation.
pub fn write_regions<L: LevelCount, O: Lines>(
    alloc: Global,
    loaded: &Loaded<'_, L>,
    selection: Selection,
    form: Form,
    listing: Listing,
    output: &mut O,
) -> Result<(), O::Error>
    requires { IsLoadedDump loaded.now }
    ensures { OnOk result (O.puts output.old output.new (reports.regions_text
        selection form listing.columns listing.layout L.LEVELS (words_loaded loaded.now) loaded.now.root)) }
{
    let mut lines = CountedLines::new(alloc, form, output);
    tell_regions::<L, Listing, CountedLines<'_, O>>(loaded, selection, listing, &mut lines)?;
    Ok(())
}

/// Writes a line in a form for each mapping that is selected. A line of text has the names of its flags too if they are asked for.
///
/// # Errors
///
/// The error of the destination, or of memory allocation.
pub fn write_pages<L: LevelCount, O: Lines>(
    alloc: Global,
    loaded: &Loaded<'_, L>,
    selection: Selection,
    form: Form,
    listing: Listing,
    output: &mut O,
) -> Result<(), O::Error>
    requires { IsLoadedDump loaded.now }
    ensures { OnOk result (O.puts output.old output.new (reports.pages_text selection
        listing.has_names form listing.columns listing.layout L.LEVELS (words_loaded loaded.now)
        loaded.now.root)) }
{
    let mut lines = CountedLines::new(alloc, form, output);
    tell_mappings::<L, Listing, CountedLines<'_, O>>(loaded, selection, listing, &mut lines)?;
    Ok(())
}

/// Writes the walks to addresses, and what else is asked of each, as text below the address if there are several. Returns true if
/// each access arrives, or if none is asked for, each walk.
///
/// # Errors
///
/// `OutputError::OutOfMemory` if memory allocation fails, `OutputError::Write` if a write fails.
pub fn write_walks<L: LevelCount, W: Destination>(
    alloc: Global,
    loaded: &Loaded<'_, L>,
    addresses: &[u64],
    options: WalkOptions,
    form: Form,
    output: &mut Output<'_, W>,
) -> Result<bool, OutputError<W>>
    ensures text { OnOk result (Puts W.contents output.old output.new
        (reports.walks_text form (reports.are_several addresses.now)
        L.LEVELS (words_loaded loaded.now) loaded.now.root options addresses.now)) }
    ensures complete { IfOk result (λ all.
        all ≡ reports.all_arrive L.LEVELS (words_loaded loaded.now) loaded.now.root options addresses.now) }
{
    let are_several = addresses.len() > 1;
    let mut is_complete = true;
    for address in addresses {
        let arrives = write_headed_walk(
            alloc,
            loaded,
            *address,
            are_several,
            options,
            form,
            output,
        )?;
        is_complete &= arrives;
    }
    Ok(is_complete)
}

/// Writes the walk to an address that is perhaps one of several, and what else is asked of it. Returns true if the access arrives, or
/// if none is asked for, the walk.
fn write_headed_walk<L: LevelCount, W: Destination>(
    alloc: Global,
    loaded: &Loaded<'_, L>,
    address: u64,
    are_several: bool,
    options: WalkOptions,
    form: Form,
    output: &mut Output<'_, W>,
) -> Result<bool, OutputError<W>>
    ensures text { OnOk result (Puts W.contents output.old output.new (reports.headed_walk
        form are_several L.LEVELS (words_loaded loaded.now) loaded.now.root options address)) }
    ensures arrives { IfOk result (λ arrives.
        arrives ≡ is_access_there options.controls options.access
        L.LEVELS (words_loaded loaded.now) loaded.now.root (address % position_count L.LEVELS)) }
{
    write_heading(form, are_several, "address", address, output)?;
    let virtual_address = VirtAddrIn::<L>::new_truncate(address);
    write_walk_as(alloc, loaded, virtual_address, options, form, output)
}

/// Writes the line above what is said of an address if it is one of several, as text.
fn write_heading<W: Destination>(
    form: Form,
    are_several: bool,
    name: &'static str,
    address: u64,
    output: &mut Output<'_, W>,
) -> Result<(), OutputError<W>>
    ensures { OnOk result (Puts W.contents output.old output.new
        (reports.heading_line form are_several name.now address)) }
{
    match (form, are_several) {
        (Form::Text, true) => writeln!(output, "{name} 0x{address:x}"),
        _ => Ok(()),
    }
}

/// Writes the walk to an address in a form, and what else is asked of it. Returns true if the access arrives, or if none is asked
/// for, the walk.
fn write_walk_as<L: LevelCount, W: Destination>(
    alloc: Global,
    loaded: &Loaded<'_, L>,
    address: VirtAddrIn<L>,
    options: WalkOptions,
    form: Form,
    output: &mut Output<'_, W>,
) -> Result<bool, OutputError<W>>
    ensures text { OnOk result (Puts W.contents output.old output.new
        (walk_lines form L.LEVELS (words_loaded loaded.now) loaded.now.root options address)) }
    ensures arrives { IfOk result (λ arrives.
        arrives ≡ is_access_there options.controls options.access
        L.LEVELS (words_loaded loaded.now) loaded.now.root address) }
{
    match form {
        Form::Text => write_walk_by(alloc, loaded, address, options, output),
        Form::Json => write_json_walk::<L, Output<'_, W>>(alloc, loaded, address, options, output),
    }
}

/// Writes the walk to an address as text, and what else is asked of it. Returns true if the access arrives, or if none is asked for,
/// the walk.
fn write_walk_by<L: LevelCount, W: Destination>(
    alloc: Global,
    loaded: &Loaded<'_, L>,
    address: VirtAddrIn<L>,
    options: WalkOptions,
    output: &mut Output<'_, W>,
) -> Result<bool, OutputError<W>>
    ensures text { OnOk result (Puts W.contents output.old output.new
        (walk_lines Text L.LEVELS (words_loaded loaded.now) loaded.now.root options address)) }
    ensures arrives { IfOk result (λ arrives.
        arrives ≡ is_access_there options.controls options.access
        L.LEVELS (words_loaded loaded.now) loaded.now.root address) }
{
    let controls = options.controls;
    let walk = walk_to(alloc, loaded, address)?;
    write_walk(&walk, controls, output)?;
    write_explanation(&walk, options.explains, output)?;
    match options.access {
        None => Ok(walk.arrives()),
        Some(asked) => write_access(loaded, address, controls, options.source, asked, output),
    }
}

/// Writes the virtual addresses that lead to physical addresses, as text below the physical address if there are several. Returns
/// true if there is one for each physical address.
///
/// # Errors
///
/// `OutputError::OutOfMemory` if memory allocation fails, `OutputError::Write` if a write fails.
pub fn write_found<L: LevelCount, W: Destination>(
    alloc: Global,
    loaded: &Loaded<'_, L>,
    addresses: &[u64],
    form: Form,
    output: &mut Output<'_, W>,
) -> Result<bool, OutputError<W>>
    requires { find (λ a. nat_le (2 ^ 52) a) addresses.now ≡ None }
    ensures text { OnOk result (Puts W.contents output.old output.new
        (reports.find_text form (reports.are_several addresses.now)
        L.LEVELS (words_loaded loaded.now) loaded.now.root addresses.now)) }
    ensures complete { IfOk result (λ all.
        all ≡ reports.all_found L.LEVELS (words_loaded loaded.now) loaded.now.root addresses.now) }
{
    let are_several = addresses.len() > 1;
    let mut is_complete = true;
    for address in addresses {
        let physical = PhysAddr::new(*address);
        let is_found = write_headed_addresses(alloc, loaded, physical, are_several, form, output)?;
        is_complete &= is_found;
    }
    Ok(is_complete)
}

/// Writes the virtual addresses that lead to a physical address that is perhaps one of several, and returns true if there are any.
fn write_headed_addresses<L: LevelCount, W: Destination>(
    alloc: Global,
    loaded: &Loaded<'_, L>,
    physical: PhysAddr,
    are_several: bool,
    form: Form,
    output: &mut Output<'_, W>,
) -> Result<bool, OutputError<W>>
    ensures text { OnOk result (Puts W.contents output.old output.new (reports.headed_addresses
        form are_several L.LEVELS (words_loaded loaded.now) loaded.now.root physical)) }
    ensures found { IfOk result (λ found. found
        ≡ list_any (leads_to physical) (mappings_of L.LEVELS (words_loaded loaded.now) loaded.now.root)) }
{
    write_heading(form, are_several, "physical", physical.as_u64(), output)?;
    let is_found = write_addresses_to(alloc, loaded, physical, form, output)?;
    write_none(form, are_several, is_found, output)?;
    Ok(is_found)
}

/// Writes the line below the heading if no virtual address leads to a physical address, as text.
fn write_none<W: Destination>(
    form: Form,
    are_several: bool,
    is_found: bool,
    output: &mut Output<'_, W>,
) -> Result<(), OutputError<W>>
    ensures { OnOk result (Puts W.contents output.old output.new
        (reports.none_line form are_several is_found)) }
{
    match (form, are_several, is_found) {
        (Form::Text, true, false) => output.put_line("not found"),
        _ => Ok(()),
    }
}

/// Writes the virtual addresses that lead to a physical address, and returns true if there are any.
fn write_addresses_to<L: LevelCount, W: Destination>(
    alloc: Global,
    loaded: &Loaded<'_, L>,
    physical: PhysAddr,
    form: Form,
    output: &mut Output<'_, W>,
) -> Result<bool, OutputError<W>>
    ensures text { OnOk result (Puts W.contents output.old output.new
        (reports.addresses_text form L.LEVELS (words_loaded loaded.now) loaded.now.root physical)) }
    ensures found { IfOk result (λ found. found
        ≡ list_any (leads_to physical) (mappings_of L.LEVELS (words_loaded loaded.now) loaded.now.root)) }
{
    let memory = loaded.tables.memory();
    let frames = loaded.tables.frames();
    let summaries = Summaries::new(alloc, memory, &IdentityMapping, frames, Some(physical))?;
    write_addresses_by::<L, Output<'_, W>>(alloc, &summaries, loaded, physical, form, output)
}

/// Visits the mappings of the summaries that lead to a physical address, writes the virtual addresses, and returns true if
/// there are any.
fn write_addresses_by<L: LevelCount, O: Lines>(
    alloc: Global,
    summaries: &Summaries<'_, PhysMemory, IdentityMapping>,
    loaded: &Loaded<'_, L>,
    physical: PhysAddr,
    form: Form,
    output: &mut O,
) -> Result<bool, O::Error>
    ensures text { OnOk result (O.puts output.old output.new
        (visited_lines form L.LEVELS physical (mappings_asked summaries.now L.LEVELS loaded.now.root))) }
    ensures found { IfOk result (λ found.
        found ≡ some_there (mappings_asked summaries.now L.LEVELS loaded.now.root)) }
{
    let mut lines = CountedLines::new(alloc, form, output);
    tell_addresses::<L, CountedLines<'_, O>>(summaries, loaded.root, physical, &mut lines)?;
    Ok(lines.count() > 0)
}
