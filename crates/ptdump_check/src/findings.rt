//! Findings in page tables, and images for `pagetab`.

mod aliased;
mod count;
mod entry;
mod finding;
mod flaw;
mod image;
mod names;
mod tables;

pub use aliased::Aliased;
pub use count::FindingCount;
pub use entry::{Entry, Slot, Table};
pub use finding::{EntryFlaw, Finding};
pub use flaw::{Flaw, FlawedRegion};
pub use image::{Image, Refusals, ReportEnd, Row, WordLines};
pub use names::{Name, names_in_order};
pub use tables::tables_in_order;
