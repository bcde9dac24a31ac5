//! The program `ptdump`: reads the page tables of a dump of physical memory, and reports what they map.
#![tactic(auto)]

mod arguments;
mod check;
mod counted_lines;
mod destination;
mod engine;
mod explanation;
mod failure;
mod finder;
mod flawed_entries;
mod image;
mod info;
mod line_count;
mod line_output;
mod lines;
mod noted_controls;
mod noted_levels;
mod opening;
mod output;
mod picture;
mod processor_groups;
mod processors;
mod report;
mod request;
mod reserved;
mod resolving;
mod roots;
mod selected;
mod start;
mod telling;
mod totals;
mod walk;

pub use destination::Destination;
pub use engine::run;
pub use failure::Failure;
pub use output::{Output, OutputError};
pub use request::{
    AddressRange, AreaNames, Checking, Columns, Command, ControlsSource, Form, Levels, Outcome,
    Request, Selection, WalkOptions,
};
pub use x86_64_dump::{NoProgress, Progress};
