//! Accesses, and the faults that they end in.
ghost use Rattle.std.specs.Prelude.{◌≡◌, ◌<◌, ◌≤◌, ◌+◌, ◌%◌, true};
ghost use Rattle.x86_64_model.specs.Access as model;
ghost use Rattle.x86_64_model.specs.Memory.{words_of};
ghost use Rattle.x86_64_model.specs.PageWalk.{page_start};
ghost use Rattle.x86_64_model.specs.Position.{span};
ghost use Rattle.x86_64_access.specs.Accesses.{access_of, controls_of, access_kind, outcome_of};

use crate::controls::Controls;
use crate::entry_bits::{ACCESSED, DIRTY, PRESENT};
use crate::masks::Masks;
use crate::request::{Access, AccessKind, Fault};
use crate::right_bits::RightBits;
use x86_64_addr::addr::{PhysAddr, VirtAddrIn};
use x86_64_addr::level_count::LevelCount;
use x86_64_page::frame::PhysFrame;
use x86_64_page::page::{PageSize, Size1GiB, Size2MiB, Size4KiB};
use x86_64_tables::page_table::{PageTableEntry, PageTableFlags, Rights};
use x86_64_tables::phys_memory::{
    PageTableFrameMapping, TableMemory, has_flag, index_of, table_in,
};

/// Returns the physical address at which an access arrives, by the page tables from the root on.
///
/// From the root down, each entry that is read is looked at in this order. Without `PRESENT` the access faults. With a reserved bit
/// ([`Controls::is_reserved`]) it faults, too. At the page, it faults if the rights that all entries grant don't suffice
/// ([`Controls::allows`]). The tables may contain any words.
///
/// Intel SDM vol. 3A, "Access Rights", "Page-Fault Exceptions"; AMD APM vol. 2, "Page-Protection Checks".
///
/// Requires at most 52 bits of physical addresses.
///
/// # Errors
///
/// - `PageFault` with the error code and the level, as above.
/// - `NoMemory` if a table on the way isn't covered by the mapping or isn't in the memory.
pub fn access<T: TableMemory, P: PageTableFrameMapping, L: LevelCount>(
    memory: &T,
    mapping: &P,
    root: PhysFrame<Size4KiB>,
    addr: VirtAddrIn<L>,
    access: Access,
    controls: &Controls,
) -> Result<PhysAddr, Fault>
    requires { controls.now.physical_bits ≤ 52 }
    ensures { outcome_of result ≡ model.access L.LEVELS (controls_of controls.now)
        (words_of (T.tables memory.now) (P.places mapping.now)) root addr (access_of access) }
{
    let request = Request {
        access,
        controls: *controls,
    };
    request.walk(memory, mapping, root, L::LEVELS, addr.position())
}

/// Does what [`access`] does, and then sets `ACCESSED` in each entry that was read, and `DIRTY` in the entry of the page for a write, as
/// the processor does.
///
/// Intel SDM vol. 3A, "Accessed and Dirty Flags"; AMD APM vol. 2, "Page-Translation-Table Entry Fields".
///
/// Requires at most 52 bits of physical addresses.
///
/// # Errors
///
/// Those of [`access`]. Then nothing changes.
pub fn access_and_mark<T: TableMemory, P: PageTableFrameMapping, L: LevelCount>(
    memory: &mut T,
    mapping: &P,
    root: PhysFrame<Size4KiB>,
    addr: VirtAddrIn<L>,
    access: Access,
    controls: &Controls,
) -> Result<PhysAddr, Fault>
    requires { controls.now.physical_bits ≤ 52 }
    ensures outcome { outcome_of result ≡ model.access L.LEVELS (controls_of controls.now)
        (words_of (T.tables memory.old) (P.places mapping.now)) root addr (access_of access) }
    ensures marks { let words = words_of (T.tables memory.old) (P.places mapping.now) in
        T.tables memory.new ≡ model.memory_after (P.places mapping.now) (access_kind access.kind)
        (model.steps_from (controls_of controls.now) words addr L.LEVELS root) (outcome_of result)
        (T.tables memory.old) }
    ensures lent { T.lent memory.new ≡ T.lent memory.old }
{
    let request = Request {
        access,
        controls: *controls,
    };
    let address = request.walk(memory, mapping, root, L::LEVELS, addr.position())?;
    request.mark_from(memory, mapping, root, L::LEVELS, addr.position());
    Ok(address)
}

/// An access that is asked of a processor.
#[derive(Clone, Copy)]
pub(crate) struct Request {
    pub access: Access,
    pub controls: Controls,
}

impl Request {
    ghost use Rattle.std.specs.Prelude.{false, IfSome, IfNone};
    ghost use Rattle.x86_64_model.specs.Access.{Faults, code, ends_at, marked, steps_from};
    ghost use Rattle.x86_64_access.specs.Accesses.{fault_of};
    ghost use Rattle.x86_64_access.specs.private.Masks.{Decides};
    ghost use Rattle.x86_64_access.specs.private.Walking.{ArrivesFrom, reads_on, rights_by};

    /// Reads from the root down through `levels` levels, at a position: the number of an address counted without the gap.
    fn walk<T: TableMemory, P: PageTableFrameMapping>(
        self,
        memory: &T,
        mapping: &P,
        root: PhysFrame<Size4KiB>,
        levels: u64,
        position: u64,
    ) -> Result<PhysAddr, Fault>
        requires bits { self.controls.physical_bits ≤ 52 }
        requires levels { levels ≤ 5 }
        ensures { outcome_of result ≡ model.access levels (controls_of self.controls)
            (words_of (T.tables memory.now) (P.places mapping.now)) root position (access_of self.access) }
    {
        let masks = Masks::of(self.access, &self.controls);
        let mut frame = root;
        let mut rights = RightBits::ALL;
        for above in 0..levels {
            let level = levels - above;
            let Some(table) = table_in(memory, mapping, frame) else {
                return Err(Fault::NoMemory { frame });
            };
            let entry = &table[index_of(position, level)];
            rights = rights.below(entry);
            if let Some(end) = self.decide(masks, level, entry, position, rights) {
                return end;
            }
            frame = PhysFrame::from_start_address_unchecked(entry.addr());
        }
        Err(Fault::NoMemory { frame })
    }

    /// Marks the entries that are read at a position from the table in a frame on, which is of a level.
    ///
    /// Requires that the access arrives.
    fn mark_from<T: TableMemory, P: PageTableFrameMapping>(
        self,
        memory: &mut T,
        mapping: &P,
        frame: PhysFrame<Size4KiB>,
        level: u64,
        position: u64,
    )
        requires low { 1 ≤ level }
        requires high { level ≤ 5 }
        requires arrives { ArrivesFrom (controls_of self.controls)
            (words_of (T.tables memory.old) (P.places mapping.now))
            position (access_of self.access) level frame }
        ensures marks { T.tables memory.new ≡ marked (P.places mapping.now) (access_kind self.access.kind)
            (steps_from (controls_of self.controls) (words_of (T.tables memory.old) (P.places mapping.now))
            position level frame) (T.tables memory.old) }
        ensures lent { T.lent memory.new ≡ T.lent memory.old }
    {
        let Some(table) = table_in(memory, mapping, frame) else {
            return;
        };
        let index = index_of(position, level);
        let entry = &table[index];
        let bits = self.bits_to_set(level, entry);
        if !entry.maps_page(level) {
            let below = PhysFrame::from_start_address_unchecked(entry.addr());
            self.mark_from(memory, mapping, below, level - 1, position);
        }
        set_bits(memory, mapping, frame, index, bits);
    }

    /// Returns the bits that the processor sets in an entry of a level: `ACCESSED`, and `DIRTY` in that of a page for a write.
    fn bits_to_set(self, level: u64, entry: &PageTableEntry) -> u64
        ensures { result ≡ model.bits_to_set (access_kind self.access.kind) level entry.now }
    {
        if self.access.kind == AccessKind::Write && entry.maps_page(level) {
            ACCESSED | DIRTY
        } else {
            ACCESSED
        }
    }

    /// Returns where the access ends at an entry of a level, or `None` if the processor reads on in the table that the entry names. The
    /// rights are those that all entries down to this one grant.
    #[inline]
    pub fn decide(
        self,
        masks: Masks,
        level: u64,
        entry: &PageTableEntry,
        position: u64,
        rights: RightBits,
    ) -> Option<Result<PhysAddr, Fault>>
        requires low { 1 ≤ level }
        requires bits { self.controls.physical_bits ≤ 52 }
        requires masks { Decides (controls_of self.controls) (access_of self.access) masks }
        ensures end { IfSome result (λ end. outcome_of end
            ≡ ends_at (controls_of self.controls) (access_of self.access) position (rights_by rights.0)
            (record { level = level; frame = 0; index = 0; word = entry.now })) }
        ensures ends { IfSome result (λ _. reads_on (controls_of self.controls) level entry.now ≡ false) }
        ensures on { IfNone result (reads_on (controls_of self.controls) level entry.now ≡ true) }
    {
        if level != 1 && entry.word() & masks.table == PRESENT {
            return None;
        }
        if masks.accept(level, entry) && rights.suffice(masks) {
            return Some(Ok(address_in_page(level, entry, position)));
        }
        if self.controls.reads_on(level, entry) {
            return None;
        }
        Some(self.end_at(level, entry, position, rights.rights()))
    }

    /// Returns where the access ends at an entry of a level in which it doesn't read on: in the page that the entry maps, or by a
    /// fault.
    fn end_at(
        self,
        level: u64,
        entry: &PageTableEntry,
        position: u64,
        rights: Rights,
    ) -> Result<PhysAddr, Fault>
        requires low { 1 ≤ level }
        requires bits { self.controls.physical_bits ≤ 52 }
        requires last { reads_on (controls_of self.controls) level entry.now ≡ false }
        ensures { outcome_of result
            ≡ ends_at (controls_of self.controls) (access_of self.access) position rights
            (record { level = level; frame = 0; index = 0; word = entry.now }) }
    {
        if !has_flag(entry, PageTableFlags::PRESENT) {
            return Err(self.fault(level, false, false));
        }
        if self.controls.is_reserved(level, entry) {
            return Err(self.fault(level, true, true));
        }
        if self.controls.allows(self.access, rights) {
            Ok(address_in_page(level, entry, position))
        } else {
            Err(self.fault(level, true, false))
        }
    }

    /// Returns the page fault at an entry of a level: whether the entry is present, and has a reserved bit.
    fn fault(self, level: u64, present: bool, reserved: bool) -> Fault
        ensures { fault_of result
            ≡ Faults (code (controls_of self.controls) (access_of self.access) present reserved) level }
    {
        let code = self.controls.code(self.access, present, reserved);
        Fault::PageFault { code, level }
    }
}

/// Sets bits of the entry at an index of the table in a frame, if the memory has the table.
///
/// Requires that the mapping covers the frame, and that the index is below 512.
fn set_bits<T: TableMemory, P: PageTableFrameMapping>(
    memory: &mut T,
    mapping: &P,
    frame: PhysFrame<Size4KiB>,
    index: usize,
    bits: u64,
)
    requires covered { (P.places mapping.now).covers frame ≡ true }
    requires below { index < 512 }
    ensures set { T.tables memory.new
        ≡ model.set_bits (P.places mapping.now) frame index bits (T.tables memory.old) }
    ensures lent { T.lent memory.new ≡ T.lent memory.old }
{
    if let Some(table) = memory.table_mut(mapping.frame_to_pointer(frame)) {
        let entry = &mut table[index];
        entry.set_word(entry.word() | bits);
    }
}

/// Returns the address of a position in the page that an entry of a level maps.
///
/// Requires a level from one to three.
fn address_in_page(level: u64, entry: &PageTableEntry, position: u64) -> PhysAddr
    requires low { 1 ≤ level }
    requires high { level ≤ 3 }
    ensures { result ≡ page_start level entry.now + position % span level }
{
    match level {
        1 => address_in::<Size4KiB>(entry, position),
        2 => address_in::<Size2MiB>(entry, position),
        _ => address_in::<Size1GiB>(entry, position),
    }
}

/// Returns the address of a position in the page of size `S` that an entry maps.
fn address_in<S: PageSize>(entry: &PageTableEntry, position: u64) -> PhysAddr
    ensures { result ≡ page_start S.LEVEL entry.now + position % span S.LEVEL }
{
    let start = entry.addr().as_u64() / S::SIZE * S::SIZE;
    PhysAddr::new(start + position % S::SIZE)
}
