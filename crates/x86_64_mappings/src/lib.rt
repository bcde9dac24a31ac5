//! What page tables map below a root, for any words: mappings, the regions that they form, and the entries that a page walk
//! reads. There are four or five levels of tables, and they may contain any words.
#![tactic(auto)]

mod joiner;
mod letters;
mod listing;
mod mapping;
mod region;
mod region_list;
mod selection;
mod summaries;
mod walk_entries;

pub use listing::{Mappings, Mappings57, MappingsIn, mappings, mappings_57, mappings_from};
pub use mapping::{Mapping, Mapping57, MappingIn};
pub use region::{Region, Region57, RegionIn};
pub use region_list::{Regions, Regions57, RegionsIn, regions, regions_57};
pub use selection::{Selection, includes};
pub use summaries::{
    Summaries, Summary, Visitor, visit_distinct_mappings, visit_mappings, visit_regions,
    visit_selected_mappings,
};
pub use walk_entries::{EntriesRead, MOST_LEVELS, WalkEnd, WalkEntry, read_entries};
pub use x86_64_tables::phys_memory::span;
