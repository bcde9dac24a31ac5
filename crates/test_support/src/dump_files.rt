//! Files for tests of dumps: ELF core files with memory, page tables and QEMU's notes.

mod core_file;
mod headers;
mod notes;
mod words;

pub use core_file::{Memory, push_core_file};
pub use notes::{CR0, Processor};
pub use words::push_table;
