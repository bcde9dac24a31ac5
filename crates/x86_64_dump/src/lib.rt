//! The words of physical memory in a dump file, and the page tables that a root leads to in them.
#![tactic(auto)]

mod dump;
mod error;
mod file_part;
mod formats;
mod frame;
mod header;
mod kernel_text;
mod memory_search;
mod note;
mod notes;
mod numbers;
mod placement;
mod search;
mod segment;
mod source;
mod tables;
mod vmcoreinfo;

pub use dump::Dump;
pub use error::{DumpError, Fault};
pub use formats::{Format, UnreadFormat, read_format};
pub use kernel_text::KernelText;
pub use note::{Note, NoteKind};
pub use placement::{Placement, RawRange};
pub use segment::Segment;
pub use source::{ByteSource, FileSource};
pub use tables::{DumpTables, NoProgress, Progress, TablesByLevel, read_tables};
pub use vmcoreinfo::{Kernel, KernelFault, Key, word_in};
