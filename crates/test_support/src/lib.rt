//! What tests share: dump files, and memory that runs out.
#![tactic(auto)]

mod dump_files;
mod hoard;

pub use dump_files::{CR0, Memory, Processor, push_core_file, push_table};
pub use hoard::Hoard;
