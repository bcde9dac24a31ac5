//! Accesses that are asked for, and the faults that they end in.

use crate::code::PageFaultCode;
use x86_64_page::frame::PhysFrame;
use x86_64_page::page::Size4KiB;

/// The kind of an access.
#[derive(Clone, Copy, Debug, PartialEq, Eq)]
pub enum AccessKind {
    /// A read of data.
    Read,
    /// A write of data.
    Write,
    /// A fetch of an instruction.
    Fetch,
}

/// An access to memory.
#[derive(Clone, Copy, Debug, PartialEq, Eq)]
pub struct Access {
    /// Whether the access reads, writes or fetches.
    pub kind: AccessKind,
    /// Whether the processor is at privilege level 3. Otherwise the access is a supervisor's.
    pub user: bool,
}

/// Why an access doesn't arrive.
#[derive(Clone, Copy, Debug, PartialEq)]
pub enum Fault {
    /// A page fault.
    PageFault {
        /// The error code.
        code: PageFaultCode,
        /// The level of the entry that faults, or of the page whose rights don't suffice.
        level: u64,
    },
    /// The table in a frame isn't covered by the mapping or isn't in the memory, so the access can't be decided. A processor knows
    /// no such fault.
    NoMemory {
        /// The frame of the missing table.
        frame: PhysFrame<Size4KiB>,
    },
}
