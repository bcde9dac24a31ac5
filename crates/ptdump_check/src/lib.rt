//! What a check of a dump's page tables finds, and their images for `pagetab`.
#![tactic(auto)]

mod checking;
mod findings;
mod first_mappings;
mod loaded;
mod reached;
mod rights_at;

pub use checking::{AddressRange, Checking};
pub use findings::{
    Aliased, Entry, EntryFlaw, Finding, FindingCount, Flaw, FlawedRegion, Image, Name, Refusals,
    ReportEnd, Row, Slot, Table, WordLines, names_in_order, tables_in_order,
};
pub use first_mappings::FirstMappings;
pub use loaded::Loaded;
pub use reached::mapped_tables;
pub use rights_at::RightsAt;
