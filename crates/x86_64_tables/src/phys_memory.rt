//! Physical memory that consists of page tables, and mappings of frames to places in it.
ghost use Rattle.std.specs.Prelude.{◌≡◌, ◌==◌, ◌/◌, ◌↔◌, ℕ, true, length, Some, IsSome, IfOk, OnOk, OnErr, Err, ◌<◌, nat_lt, if◌then◌else◌};
ghost use Rattle.std.specs.Option.{option_copied, option_copied_mut, SomeIff};
ghost use Rattle.std.specs.Borrow.{sem};
ghost use Rattle.std.specs.FinMap as map;
ghost use Rattle.std.specs.List.{list_any, position, slice_get};
ghost use Rattle.std.specs.List.Sorted.{IsStrictlyIncreasing};
ghost use Rattle.std.specs.Ordering.{nat_cmp, eq_by_cmp};
ghost use Rattle.x86_64_model.specs.Memory.{Places, IsMapping, identity_places};
ghost use Rattle.x86_64_tables.specs.PageTable.{zero_words};
ghost use Rattle.x86_64_tables.specs.PhysMemory.{tables_at, zero_tables_at};
ghost use Rattle.x86_64_tables.specs.Lending.{LendsTable, LendsTableAt};
ghost use Rattle.x86_64_tables.specs.private.SortedPlaces.{IsDense};

mod active;
mod alike;
mod frame_segment;
mod hierarchy_view;
mod lent_marks;
mod lent_memory;
mod places;
mod segment_mapping;
mod shift_mapping;
mod steps;
mod table_memory;
mod validity;
mod walk;

use crate::page_table::PageTable;
pub use active::{Active, ActiveMemory, ActiveMemory57};
pub use alike::{tables_alike, tables_alike_57};
pub use frame_segment::FrameSegment;
pub use hierarchy_view::HierarchyView;
pub use lent_marks::{count_set, is_valid_by_marks, pool_fits_by_marks};
pub use lent_memory::LentMemory;
use places::{SortedPlaces, is_increasing};
pub use segment_mapping::{SegmentMapping, SegmentRefusal};
pub use shift_mapping::ShiftMapping;
use std::alloc::{AllocError, Global};
use std::marker::Model;
use std::ops::{Index, IndexMut};
pub use steps::{Step, Steps};
pub use table_memory::TableMemory;
pub use validity::{
    FRAME_COUNT, HierarchyTest, clear_marks, is_valid_hierarchy, is_valid_hierarchy_57,
    is_valid_recursive, is_valid_recursive_57, pool_fits, pool_fits_57, pool_fits_recursive,
    pool_fits_recursive_57,
};
pub use walk::{Walked, has_flag, index_of, page_walk, page_walk as page_walk_57, span, table_in};
use x86_64_page::frame::PhysFrame;
use x86_64_page::page::{PageSize, Size4KiB};

/// A place in a physical memory: the number under which it holds a table. Contracts see it as this number.
#[derive(Clone, Copy, Debug, PartialEq)]
pub struct FramePlace(u64);

impl Model for FramePlace {
    ghost use Rattle.std.specs.Prelude.{ℕ};

    ghost Value = { ℕ };

    ghost view = { λ place. place.0 };

    ghost inverse = { λ number. record { 0 = number } };
}

impl FramePlace {
    /// Creates the place with the given number.
    pub const fn new(number: u64) -> FramePlace
        ensures { result ≡ number }
    {
        FramePlace(number)
    }

    /// Returns the number.
    pub const fn number(self) -> u64
        ensures { result ≡ self }
    {
        self.0
    }
}

/// The reason why no memory was created with the given places.
#[derive(Clone, Copy, Debug, PartialEq)]
pub enum PlacesRefusal {
    /// A number isn't below the next.
    NotIncreasing,
    /// Memory allocation failed.
    Alloc(AllocError),
}

impl From<AllocError> for PlacesRefusal {
    ghost use Rattle.x86_64_tables.specs.declared.phys_memory.PlacesRefusal.TheVariants.{Alloc};

    ghost from_gives = { λ error refusal. refusal ≡ Alloc error };

    fn from(error: AllocError) -> PlacesRefusal {
        PlacesRefusal::Alloc(error)
    }
}

/// A memory that owns page tables. Contracts see it as a finite map from the numbers of places to tables. The places never
/// change.
///
/// A table is accessed by its place, as in `memory[place]`.
///
/// Requires that the memory has the place.
///
/// A place is found in constant time if the memory has all places between the first and it, or if gaps are spread evenly,
/// else by binary search.
#[derive(Drop)]
pub struct PhysMemory {
    places: SortedPlaces,
    tables: Vec<PageTable>,
}

impl Model for PhysMemory {
    ghost use Rattle.std.specs.Prelude.{◌≡◌, List, ℕ, length};
    ghost use Rattle.std.specs.Ordering.{nat_cmp};
    ghost use Rattle.std.specs.FinMap as map;
    ghost use Rattle.std.specs.Coded.{coded_ℕ, coded_list};
    ghost use Rattle.std.specs.List.Sorted.{IsStrictlyIncreasing};
    ghost use Rattle.x86_64_tables.specs.PhysMemory.{tables_at};

    ghost Value = { map.FinMap nat_cmp (List ℕ) };

    ghost coded = { map.code coded_ℕ (coded_list coded_ℕ) };

    ghost view = { λ memory. tables_at memory.places memory.tables.items };

    ghost invariant = { λ memory. (length memory.tables.items ≡ length memory.places)
        × IsStrictlyIncreasing memory.places };
}

impl PhysMemory {
    /// Creates a memory with the places 0 to `n` - 1 and all words 0.
    ///
    /// # Errors
    ///
    /// `AllocError` if memory allocation fails. A memory without places needs no allocation.
    pub fn new(alloc: Global, n: u64) -> Result<PhysMemory, AllocError>
        ensures made { IfOk result (λ memory.
            (place : ℕ) → map.get memory place ≡ (if nat_lt place n then Some zero_words else None)) }
        ensures needs_memory { OnErr result (0 < n) }
    {
        let mut numbers = Vec::with_capacity(alloc, n as usize)?;
        for number in 0..n {
            numbers.push_reserved(number);
        }
        zero_memory(alloc, numbers)
    }

    /// Creates a memory with the places of the given numbers and all words 0.
    ///
    /// # Errors
    ///
    /// `NotIncreasing` if a number isn't below the next, else `Alloc` if memory allocation fails. A memory without places needs
    /// no allocation.
    pub fn with_places(alloc: Global, places: &[u64]) -> Result<PhysMemory, PlacesRefusal>
        ensures made { IfOk result (λ memory. (place : ℕ) → map.get memory place
            ≡ (if list_any (λ number. place == number) places.now then Some zero_words else None)) }
        ensures increasing { OnOk result (IsStrictlyIncreasing places.now) }
        ensures not_increasing { (result ≡ Err PlacesRefusal.NotIncreasing)
            ↔ (¬ IsStrictlyIncreasing places.now) }
        ensures needs_memory { OnErr result (0 < length places.now) }
    {
        if !is_increasing(places) {
            return Err(PlacesRefusal::NotIncreasing);
        }
        let mut numbers = Vec::new(alloc);
        numbers.extend_from_slice(places)?;
        Ok(zero_memory(alloc, numbers)?)
    }

    /// Creates a memory with the places of the given numbers and a table at each, in their order. Returns `None` if a number
    /// isn't below the next, or if there aren't as many tables as numbers.
    pub fn with_tables(places: Vec<u64>, tables: Vec<PageTable>) -> Option<PhysMemory>
        ensures { SomeIff result
            (IsStrictlyIncreasing places.items × (length tables.items ≡ length places.items))
            (tables_at places.items tables.items) }
    {
        if !is_increasing(&places) || tables.len() != places.len() {
            return None;
        }
        let places = SortedPlaces::new(places);
        Some(PhysMemory { places, tables })
    }

    /// Returns the number of places.
    pub fn len(&self) -> usize
        ensures { result ≡ map.len self.now }
    {
        self.tables.len()
    }

    /// Returns the `n`-th place in increasing order, counted from 0, or `None` if the memory has no more than `n` places.
    pub fn place_at(&self, n: usize) -> Option<FramePlace>
        ensures { result ≡ slice_get (map.keys self.now) n }
    {
        let number = self.places.number_at(n)?;
        Some(FramePlace::new(number))
    }

    /// Returns the table at a place, or `None` if the memory lacks the place.
    pub fn table(&self, place: FramePlace) -> Option<&PageTable>
        ensures { option_copied result ≡ map.get self.now place }
    {
        if self.is_dense() {
            self.tables.get(place.number() as usize)
        } else {
            self.search(place)
        }
    }

    /// Lends the table at a place mutably, or returns `None` if the memory lacks the place.
    pub fn table_mut(&mut self, place: FramePlace) -> Option<&mut PageTable>
        ensures* writes_back { sem 𝓛 (LendsTable self.entry place result) }
        ensures value { option_copied_mut result ≡ map.get self.old place }
    {
        if self.is_dense() {
            self.tables.get_mut(place.number() as usize)
        } else {
            self.search_mut(place)
        }
    }

    /// Returns the number of places before a place, or `None` if the memory lacks it.
    fn index_of(&self, place: FramePlace) -> Option<usize>
        ensures { result ≡ position (eq_by_cmp nat_cmp place) (map.keys self.now) }
    {
        self.places.index_of(place.number())
    }

    /// Returns true if the places are known to be all numbers from 0 on, so that the index of each place is its number.
    fn is_dense(&self) -> bool
        ensures { result ≡ true → IsDense (map.keys self.now) }
    {
        self.places.is_dense()
    }

    /// Finds the table at a place by the place's index, or returns `None`. This and the functions below are separate, so that
    /// callers contain only the code for places that are all numbers from 0 on.
    #[cold]
    #[inline(never)]
    fn search(&self, place: FramePlace) -> Option<&PageTable>
        ensures { option_copied result ≡ map.get self.now place }
    {
        let index = self.places.index_of(place.number())?;
        self.tables.get(index)
    }

    /// Finds the table at a place as `search` does, and lends it mutably.
    #[cold]
    #[inline(never)]
    fn search_mut(&mut self, place: FramePlace) -> Option<&mut PageTable>
        ensures* writes_back { sem 𝓛 (LendsTable self.entry place result) }
        ensures value { option_copied_mut result ≡ map.get self.old place }
    {
        let index = self.places.index_of(place.number())?;
        self.tables.get_mut(index)
    }

    /// Finds the table at a place that the memory has, by the place's index.
    #[cold]
    #[inline(never)]
    fn find(&self, place: FramePlace) -> &PageTable
        requires { IsSome (map.get self.now place) }
        ensures { map.get self.now place ≡ Some result.now }
    {
        let index = self.places.index_there(place.number());
        &self.tables[index]
    }

    /// Finds the table at a place as `find` does, and lends it mutably.
    #[cold]
    #[inline(never)]
    fn find_mut(&mut self, place: FramePlace) -> &mut PageTable
        requires { IsSome (map.get self.old place) }
        ensures* writes_back { sem 𝓛 (LendsTableAt self.entry place result) }
        ensures value { map.get self.old place ≡ Some result.now }
    {
        let index = self.places.index_there(place.number());
        &mut self.tables[index]
    }
}

/// Creates a memory with the places of the given numbers and all words 0.
fn zero_memory(alloc: Global, numbers: Vec<u64>) -> Result<PhysMemory, AllocError>
    requires { IsStrictlyIncreasing numbers.items }
    ensures made { IfOk result (λ memory. memory ≡ zero_tables_at numbers.items) }
    ensures needs_memory { OnErr result (0 < length numbers.items) }
{
    let n = numbers.len();
    let mut tables = Vec::with_capacity(alloc, n)?;
    for _ in 0..n {
        tables.push_reserved(PageTable::new());
    }
    let places = SortedPlaces::new(numbers);
    Ok(PhysMemory { places, tables })
}

impl Index<FramePlace> for PhysMemory {
    type Output = PageTable;

    ghost can_index = { λ memory place. IsSome (map.get memory place) };

    ghost index_gives = { λ memory place table. map.get memory place ≡ Some table };

    fn index(&self, place: FramePlace) -> &PageTable {
        if self.is_dense() {
            &self.tables[place.number() as usize]
        } else {
            self.find(place)
        }
    }
}

impl IndexMut<FramePlace> for PhysMemory {
    fn index_mut(&mut self, place: FramePlace) -> &mut PageTable
        requires { IsSome (map.get self.old place) }
        ensures* writes_back { sem 𝓛 (LendsTableAt self.entry place result) }
        ensures value { map.get self.old place ≡ Some result.now }
    {
        if self.is_dense() {
            &mut self.tables[place.number() as usize]
        } else {
            self.find_mut(place)
        }
    }
}

/// A mapping of 4KiB frames to places in a physical memory. It covers the frames that have a place.
///
/// Law: distinct covered frames have distinct places.
pub trait PageTableFrameMapping {
    ghost places: { Self → Places };

    /// Returns the place of a frame.
    ///
    /// Requires that the frame is covered.
    fn frame_to_pointer(&self, frame: PhysFrame<Size4KiB>) -> FramePlace
        requires { (places self.now).covers frame ≡ true }
        ensures { result ≡ (places self.now).place frame };

    /// Returns true if a frame is covered.
    fn covers(&self, frame: PhysFrame<Size4KiB>) -> bool
        ensures { result ≡ (places self.now).covers frame };

    ghost is_mapping: { (mapping : Self) → IsMapping (places mapping) };
}

impl<P: PageTableFrameMapping> PageTableFrameMapping for &P {
    ghost places = { λ mapping. P.places mapping.now };

    fn frame_to_pointer(&self, frame: PhysFrame<Size4KiB>) -> FramePlace {
        (**self).frame_to_pointer(frame)
    }

    fn covers(&self, frame: PhysFrame<Size4KiB>) -> bool {
        (**self).covers(frame)
    }

    ghost is_mapping = { λ mapping. P.is_mapping mapping.now };
}

/// The mapping of each 4KiB frame to the place with the frame's number. All frames are covered.
#[derive(Clone, Copy, Debug)]
pub struct IdentityMapping;

impl PageTableFrameMapping for IdentityMapping {
    ghost use Rattle.x86_64_model.proofs.Lemmas.Hierarchies.Memories.{identity_is_mapping};

    ghost places = { λ _. identity_places };

    fn frame_to_pointer(&self, frame: PhysFrame<Size4KiB>) -> FramePlace {
        FramePlace::new(frame.start_address().as_u64() / Size4KiB::SIZE)
    }

    fn covers(&self, frame: PhysFrame<Size4KiB>) -> bool {
        let _start = frame.start_address();
        true
    }

    ghost is_mapping = { λ _. identity_is_mapping };
}
