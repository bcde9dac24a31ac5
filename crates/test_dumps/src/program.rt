//! Runs of `ptdump` that no command line reaches: reads, writes and memory allocations that fail one after the other, large output,
//! and progress.

mod failures;
mod machines;
mod memory;
mod output;
mod progress;
mod runs;
