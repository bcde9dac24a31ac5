//! The page tables of x86-64 for C: a static library over tables in the caller's own memory.
//!
//! Each function returns a status, and takes a hierarchy by its root and by an array with a table for each frame of the memory, but for those
//! on flushes (`x64_flush_after`, `x64_flush_between`) and on parts of pages (`x64_split_status`, `x64_write_parts`, `x64_are_parts`,
//! `x64_joined_word`). It keeps no state and takes no memory. The header is `include/x86_64_paging.h`.
#![tactic(auto)]

mod accesses;
mod address_spaces;
mod arguments;
mod changes;
mod drops;
mod entries;
mod flush;
mod listing;
mod maps;
mod operation;
mod parts;
mod paths;
mod pool;
mod pool_calls;
mod preparations;
mod ranges;
mod reads;
mod status;
mod validity;
mod walk;
mod word_ranges;
