//! What the lines of reports say, as text and as JSON.
#![tactic(auto)]

mod access_line;
mod aligned;
mod columns;
mod items;
mod json;
mod lines;
mod listing;
mod mode;
mod names;
mod options;
mod registers;
mod start;
mod walked;
mod word_read;

pub use access_line::{AccessLine, access_end, limited};
pub use items::{
    DumpFormat, KernelRoot, MemoryRange, NoKernelRoot, NoRoot, Processor, Root, ToldText,
    UnplacedMemory,
};
pub use json::{Found, ProcessorGroup, ToJson, write_as, write_json, write_json_walk};
pub use lines::Lines;
pub use listing::{ListedMapping, ListedRegion, Listing};
pub use mode::Mode;
pub use options::{Columns, ControlsSource, Form, WalkOptions};
pub use registers::{Registers, levels_by};
pub use start::{Origin, Start};
pub use walked::{Walk, WalkEnd, walk_to};
pub use word_read::{MissingTable, Place, WordRead};
