//! Creates a recursive mapper from a memory, or ends the loan of the memory.
ghost use Rattle.std.specs.Prelude.{◌≡◌};
ghost use Rattle.std.specs.Borrow.{sem};
ghost use Rattle.x86_64_mappers.specs.RefusedMappers.{made_of, wrapped_of, RestsUnlessMade};

use super::{InvalidPageTable, Recursive, RecursivePageTableIn};
use std::marker::PhantomData;
use x86_64_addr::index::PageTableIndex;
use x86_64_tables::page_table::PageTableFlags;
use x86_64_tables::phys_memory::Active;

/// Creates a mapper, or ends the loan with no word changed.
pub(super) fn made<'a, L>(
    active: Active<'a, L>,
    kept: bool,
    index: PageTableIndex,
    self_flags: PageTableFlags,
    why: InvalidPageTable,
) -> Result<RecursivePageTableIn<'a, L>, InvalidPageTable>
    ensures* unchanged { sem 𝓛 (RestsUnlessMade active.entry result) }
    ensures value { result ≡ made_of active.entry kept index self_flags why }
{
    wrapped(active.kept_if(kept), index, self_flags, why)
}

/// Creates a mapper from the memory that is kept, or returns the reason why there is none.
fn wrapped<'a, L>(
    kept: Option<Active<'a, L>>,
    index: PageTableIndex,
    self_flags: PageTableFlags,
    why: InvalidPageTable,
) -> Result<RecursivePageTableIn<'a, L>, InvalidPageTable>
    ensures { result ≡ wrapped_of kept.entry index self_flags why }
{
    match kept {
        Some(active) => Ok(Recursive {
            active,
            index,
            self_flags,
            levels: PhantomData,
        }),
        None => Err(why),
    }
}
