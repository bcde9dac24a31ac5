//! A record of TLB flushes, in place of the instructions that flush the TLB.
ghost use Rattle.std.specs.Prelude.{◌≡◌, ◌+◌, ◌-◌, ◌<◌, ◌≤◌, [], ◌∷◌, ◌++◌, IsOk, OnOk, OnErr};

use std::alloc::{AllocError, Global};
use std::marker::Model;
use x86_64_addr::addr::{VirtAddr, VirtAddr57, VirtAddrIn};
use x86_64_addr::level_count::LevelCount;

/// What the TLB has to invalidate.
#[derive(Clone, Copy, Debug, PartialEq)]
pub enum FlushItem {
    /// The mapping of a page with four levels of page tables. Intel SDM vol. 2, `INVLPG`.
    Page {
        /// The start address of the page.
        start: VirtAddr,
        /// The size of the page in bytes.
        size: u64,
    },
    /// The mapping of a page with five levels of page tables. Intel SDM vol. 2, `INVLPG`.
    Page57 {
        /// The start address of the page.
        start: VirtAddr57,
        /// The size of the page in bytes.
        size: u64,
    },
    /// All mappings. Intel SDM vol. 3A, "Operations that Invalidate TLBs and Paging-Structure Caches": a write to CR3.
    All,
}

impl FlushItem {
    ghost use Rattle.x86_64_tables.specs.FlushRecorder.{page_item};

    /// Returns the item for a page, given its start address and its size in bytes.
    pub(super) fn of_page<L: LevelCount>(start: VirtAddrIn<L>, size: u64) -> FlushItem
        ensures { result ≡ page_item L.LEVELS start size }
    {
        let position = start.position();
        if L::LEVELS == 4 {
            FlushItem::Page {
                start: VirtAddr::new_truncate(position),
                size,
            }
        } else {
            FlushItem::Page57 {
                start: VirtAddr57::new_truncate(position),
                size,
            }
        }
    }
}

/// A record of flushes. Contracts see it as the items so far, in order, and the room: the number of further flushes that
/// allocate no memory.
#[derive(Drop)]
pub struct FlushRecorder {
    items: Vec<FlushItem>,
    room: usize,
}

impl Model for FlushRecorder {
    ghost use Rattle.std.specs.Prelude.{◌+◌, ◌≤◌, vec_len};
    ghost use Rattle.std.specs.Vec.{vec_capacity};
    ghost use Rattle.x86_64_tables.specs.FlushRecorder.{Recorded};

    ghost Value = { Recorded };

    ghost view = { λ recorder. record { items = recorder.items.items; room = recorder.room } };

    ghost invariant = { λ recorder. vec_len recorder.items + recorder.room ≤ vec_capacity recorder.items };
}

impl FlushRecorder {
    /// Creates a recorder without items and without room. It keeps the allocator, and allocates no memory yet.
    pub fn new(alloc: Global) -> FlushRecorder
        ensures items { result.items ≡ [] }
        ensures room { result.room ≡ 0 }
    {
        FlushRecorder {
            items: Vec::new(alloc),
            room: 0,
        }
    }

    /// Returns the items, in the order in which they were flushed.
    pub fn items(&self) -> &[FlushItem]
        ensures { result.now ≡ self.now.items }
    {
        self.items.as_slice()
    }

    /// Raises the room to at least `n` flushes, and never lowers it.
    ///
    /// # Errors
    ///
    /// `AllocError` if memory allocation fails. Then nothing changes. If there is room for `n` flushes, nothing is allocated.
    pub fn reserve(&mut self, n: usize) -> Result<(), AllocError>
        ensures items { self.new.items ≡ self.old.items }
        ensures room { OnOk result (n ≤ self.new.room) }
        ensures kept { self.old.room ≤ self.new.room }
        ensures unchanged { OnErr result (self.new ≡ self.old) }
        ensures needs_room { OnErr result (self.old.room < n) }
    {
        if self.room < n {
            self.items.reserve(n)?;
            self.room = n;
        }
        Ok(())
    }

    /// Appends an item. If there is room, this lowers it by one; otherwise the room stays 0.
    ///
    /// # Errors
    ///
    /// `AllocError` if memory allocation fails. Then nothing changes. If there is room, nothing is allocated.
    pub(super) fn record(&mut self, item: FlushItem) -> Result<(), AllocError>
        ensures items { OnOk result (self.new.items ≡ self.old.items ++ item ∷ []) }
        ensures room { OnOk result (self.new.room ≡ self.old.room - 1) }
        ensures unchanged { OnErr result (self.new ≡ self.old) }
        ensures succeeds { 0 < self.old.room → IsOk result }
    {
        self.items.push(item)?;
        self.room = self.room.saturating_sub(1);
        Ok(())
    }

    /// Appends an item, and lowers the room by one. Allocates nothing.
    pub(super) fn record_reserved(&mut self, item: FlushItem)
        requires { 0 < self.old.room }
        ensures items { self.new.items ≡ self.old.items ++ item ∷ [] }
        ensures room { self.new.room + 1 ≡ self.old.room }
    {
        self.items.push_reserved(item);
        self.room -= 1;
    }
}
