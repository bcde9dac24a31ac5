//! Walks to an address in a dump.
ghost use Rattle.std.specs.Prelude.{◌≡◌, None, Ok, IfErr, IfOk, false, option_map};
ghost use Rattle.x86_64_dump.specs.Dump.{Contents, words_of_dump};
ghost use Rattle.x86_64_dump.specs.Opening.{Fails, contents_of};
ghost use Rattle.x86_64_model.specs.PageWalk.{page_walk as walk};
ghost use Rattle.x86_64_tables.specs.Walks.{walked_of};

use std::alloc::Global;
use x86_64::structures::paging::{PhysFrame, Size4KiB};
use x86_64::{FourLevels, IdentityMapping, VirtAddr, Walked, page_walk};
use x86_64_dump::{Dump, DumpError, NoProgress, read_tables};

/// Returns where the page walk of an address arrives in the memory of a dump, or `None` if it faults.
pub fn walk_in_dump(
    alloc: Global,
    file: &[u8],
    root: PhysFrame<Size4KiB>,
    address: VirtAddr,
) -> Result<Option<Walked>, DumpError>
    ensures walk { IfOk result (λ walked. (dump : Contents) → contents_of file.now None ≡ Ok dump →
        option_map walked_of walked ≡ walk 4 (words_of_dump dump) root address) }
    ensures errors { IfErr result (λ error. Fails false error (contents_of file.now None)) }
{
    let dump = Dump::open(alloc, file, None)?;
    let tables = read_tables::<FourLevels, _, _>(alloc, &dump, root, &mut NoProgress)?;
    Ok(page_walk(tables.memory(), &IdentityMapping, root, address))
}
