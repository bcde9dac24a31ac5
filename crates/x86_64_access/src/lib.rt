//! A memory unit: what a processor does with a read, a write or an instruction fetch at a virtual address, by the words of page
//! tables.
#![tactic(auto)]

mod code;
mod controls;
mod entry_bits;
pub mod laws;
mod masks;
mod memory_unit;
mod path;
mod request;
mod right_bits;

pub use code::PageFaultCode;
pub use controls::Controls;
pub use memory_unit::{access, access_and_mark};
pub use path::outcome_of;
pub use request::{Access, AccessKind, Fault};
