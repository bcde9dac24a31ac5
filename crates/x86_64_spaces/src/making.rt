//! Making an address space.
ghost use Rattle.std.specs.Prelude.{◌≡◌, ◌≢◌, ◌<◌, ℕ, IfNone, IfSome, IsSome, List, Some};
ghost use Rattle.std.specs.FinMap as map;
ghost use Rattle.x86_64_model.specs.Store.{store_of};
ghost use Rattle.x86_64_spaces.specs.SpaceCalls.{IsMade, MayBeTemplate, TakesFirst};
ghost use Rattle.x86_64_spaces.specs.SpaceLayouts.{indices_of, space_in};
ghost use Rattle.x86_64_spaces.specs.private.SpaceTables.{root_words};
ghost use Rattle.x86_64_spaces.specs.private.Writes.{Stores, HasShared, with_self_entry};

use crate::space::{SharedIndices, Space};
use bitflags::Flags;
use x86_64_addr::index::PageTableIndex;
use x86_64_addr::level_count::LevelCount;
use x86_64_model::laws::spaces::new_spaces_share;
use x86_64_page::frame::PhysFrame;
use x86_64_page::page::Size4KiB;
use x86_64_tables::frame_alloc::FrameStore;
use x86_64_tables::page_table::PageTableFlags;
use x86_64_tables::phys_memory::{FramePlace, PageTableFrameMapping, TableMemory};

/// Takes the first frame of a store and makes it the root of one more address space. Returns the frame, or `None` if the store is
/// empty; then nothing changes.
///
/// The root gets the template's entries at the shared indices, so that the new space has the template's tables below them, and maps
/// nothing elsewhere. With a recursive index, the root's entry there names the root, with `PRESENT` and `WRITABLE`.
///
/// The hierarchies have four or five levels. With any number of address spaces, of which the template is one, the new one is an
/// address space too.
///
/// Requires that the template is a valid hierarchy and the store's frames fit it, as in [`spaces_fit`](crate::spaces_fit), and that
/// the template's entry at the recursive index is unused or its own self-entry, if this index is shared.
pub fn new_space<L: LevelCount, T: TableMemory, P: PageTableFrameMapping, F: FrameStore>(
    memory: &mut T,
    mapping: &P,
    template: &Space,
    shared: SharedIndices,
    recursive: Option<PageTableIndex>,
    store: &mut F,
) -> Option<PhysFrame<Size4KiB>>
    requires { let one = space_in L.LEVELS (P.places mapping.now) (T.tables memory.old) template.now in
        MayBeTemplate (indices_of shared) recursive one (store_of F.FrameStore store.old) }
    ensures taken { TakesFirst (store_of F.FrameStore store.old) result (store_of F.FrameStore store.new) }
    ensures none { IfNone result (memory.new ≡ memory.old) }
    ensures made { let one = space_in L.LEVELS (P.places mapping.now) (T.tables memory.old) template.now in
        IfSome result (λ root. IsMade (indices_of shared) one (store_of F.FrameStore store.old)
        (record { root = root; recursive = recursive })
        (T.tables memory.new) (store_of F.FrameStore store.new)) }
    ensures lent { T.lent memory.new ≡ T.lent memory.old }
{
    new_spaces_share();
    let root = store.allocate_frame()?;
    let place = mapping.frame_to_pointer(root);
    fill_root(memory, mapping, template, shared, place);
    name_itself(memory, place, root, recursive);
    Some(root)
}

/// Clears the table at a place, and gives it the words of a root at the shared indices.
///
/// Requires that the memory has the place, and that the root is at another one.
fn fill_root<T: TableMemory, P: PageTableFrameMapping>(
    memory: &mut T,
    mapping: &P,
    template: &Space,
    shared: SharedIndices,
    place: FramePlace,
)
    requires there { IsSome (map.get (T.tables memory.old) place) }
    requires apart { (P.places mapping.now).place template.now.root ≢ place }
    ensures written { HasShared (indices_of shared)
        (root_words (T.tables memory.old) (P.places mapping.now) template.now)
        (T.tables memory.old) place 512 (T.tables memory.new) }
    ensures lent { T.lent memory.new ≡ T.lent memory.old }
{
    memory.table_at_mut(place).zero();
    for index in 0..512 {
        if shared.contains(index) {
            let word = template.word(memory, mapping, index);
            memory.table_at_mut(place)[index].set_word(word);
        }
    }
}

/// Sets the entry of a root at its recursive index, if there is one.
///
/// Requires that the memory has the place.
fn name_itself<T: TableMemory>(
    memory: &mut T,
    place: FramePlace,
    root: PhysFrame<Size4KiB>,
    recursive: Option<PageTableIndex>,
)
    requires { IsSome (map.get (T.tables memory.old) place) }
    ensures written { (table : List ℕ) → map.get (T.tables memory.old) place ≡ Some table
        → Stores (T.tables memory.old) place (with_self_entry recursive root table) (T.tables memory.new) }
    ensures within { (r : ℕ) → recursive ≡ Some r → r < 512 }
    ensures lent { T.lent memory.new ≡ T.lent memory.old }
{
    if let Some(index) = recursive {
        let flags = PageTableFlags::PRESENT.union(PageTableFlags::WRITABLE);
        memory.table_at_mut(place)[usize::from(index)].set_frame(root, flags);
    }
}
