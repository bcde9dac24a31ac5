//! The page tables that a root leads to, read from a dump.

mod dump_tables;
mod frame_set;
mod levels;
mod loading;
mod progress;
mod tables_read;

pub use dump_tables::{DumpTables, TablesByLevel, read_tables};
pub use progress::{NoProgress, Progress};
