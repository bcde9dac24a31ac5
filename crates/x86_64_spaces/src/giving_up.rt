//! Giving up an address space.
ghost use Rattle.std.specs.Prelude.{◌≡◌, ◌↔◌, ℕ, false, IsTrue, IfErr, OnErr, OnOk};
ghost use Rattle.x86_64_model.specs.Store.{store_of};
ghost use Rattle.x86_64_spaces.specs.SpaceCalls.{IsGivenUp, IsReason, MayBeGivenUp};
ghost use Rattle.x86_64_spaces.specs.SpaceLayouts.{indices_of, space_in};
ghost use Rattle.x86_64_spaces.specs.private.SpaceTables.{root_words};

use crate::space::{SharedIndices, Space};
use x86_64_addr::level_count::LevelCount;
use x86_64_model::laws::spaces::spaces_are_given_up;
use x86_64_tables::frame_alloc::FrameStore;
use x86_64_tables::phys_memory::{PageTableFrameMapping, TableMemory};

/// The reason why an address space isn't given up.
#[derive(Clone, Copy, Debug, PartialEq)]
pub enum GiveUpError {
    /// An entry of the root that isn't shared is used, so there may be tables and pages below it.
    EntryUsed,
    /// The root is in frame 0, which no store takes back.
    FrameZero,
}

/// Gives up an address space: clears its root and puts the root's frame back into a store.
///
/// The entries of the root at the shared indices and at its recursive index don't count: what is below them stays for the other
/// spaces. All other tables have to be gone, as after a clean up of the pages that aren't shared.
///
/// Other address spaces stay, if they share these indices, and no frame is lost: what the space had, the store and each other space
/// have. The processor must not use the root any more.
///
/// Requires that the hierarchy is valid and the store's frames fit it, as in [`spaces_fit`](crate::spaces_fit), and that the store
/// serves the root's frame.
///
/// # Errors
///
/// `EntryUsed` if an entry that isn't shared is used, else `FrameZero` if the root is in frame 0. On an error nothing changes.
pub fn give_up_space<L: LevelCount, T: TableMemory, P: PageTableFrameMapping, F: FrameStore>(
    memory: &mut T,
    mapping: &P,
    space: &Space,
    shared: SharedIndices,
    store: &mut F,
) -> Result<(), GiveUpError>
    requires { let gone = space_in L.LEVELS (P.places mapping.now) (T.tables memory.old) space.now in
        MayBeGivenUp gone (store_of F.FrameStore store.old) }
    ensures reason { let gone = space_in L.LEVELS (P.places mapping.now) (T.tables memory.old) space.now in
        IfErr result (λ why. IsReason (indices_of shared) gone why) }
    ensures unchanged { OnErr result ((memory.new ≡ memory.old) × (store.new ≡ store.old)) }
    ensures given_up { let gone = space_in L.LEVELS (P.places mapping.now) (T.tables memory.old) space.now in
        OnOk result (IsGivenUp (indices_of shared) gone (store_of F.FrameStore store.old)
        (T.tables memory.new) (store_of F.FrameStore store.new)) }
    ensures lent { T.lent memory.new ≡ T.lent memory.old }
{
    spaces_are_given_up();
    if !maps_nothing(memory, mapping, space, shared) {
        return Err(GiveUpError::EntryUsed);
    }
    if space.root.start_address().is_null() {
        return Err(GiveUpError::FrameZero);
    }
    memory
        .table_at_mut(mapping.frame_to_pointer(space.root))
        .zero();
    store.deallocate_frame(space.root);
    Ok(())
}

/// Returns true if all words of the root but those at the shared indices and at the recursive index are 0.
fn maps_nothing<T: TableMemory, P: PageTableFrameMapping>(
    memory: &T,
    mapping: &P,
    space: &Space,
    shared: SharedIndices,
) -> bool
    ensures { IsTrue result ↔ ((i : ℕ) → indices_of shared i ≡ false
        → root_words (T.tables memory.now) (P.places mapping.now) space.now i ≡ 0) }
{
    for index in 0..512 {
        if !shared.contains(index) && space.word(memory, mapping, index) != 0 {
            return false;
        }
    }
    true
}
