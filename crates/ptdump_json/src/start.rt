//! The start of page walks.

use crate::registers::Registers;
use x86_64_addr::level_count::Levels;
use x86_64_page::frame::PhysFrame;
use x86_64_page::page::Size4KiB;

/// What says where the root is.
#[derive(Clone, Copy)]
pub enum Origin {
    /// The CR3 of the request.
    ByRequest,
    /// The CR3 in QEMU's note of a processor.
    ByProcessor,
    /// Linux's note VMCOREINFO, for the kernel's own root.
    ByKernel,
    /// Likewise the text VMCOREINFO at this offset of the file.
    ByText(u64),
}

/// The start of page walks.
#[derive(Clone, Copy)]
pub struct Start {
    /// The frame of the root's table.
    pub root: PhysFrame<Size4KiB>,
    /// The number of levels of tables.
    pub levels: Levels,
    /// What says where the root is.
    pub origin: Origin,
    /// The number of levels that the dump says, if it says where the root is.
    pub noted_levels: Option<Levels>,
    /// The control registers of the processor that says where the root is, if one does.
    pub registers: Option<Registers>,
}
