// The laws of the definitions. The contract of each function is a law, stated in `specs/Laws`; its body is empty.

pub mod caches;
pub mod clean_ups;
pub mod entries_in_place;
pub mod hierarchies;
pub mod live;
pub mod locality;
pub mod mappings;
pub mod maps;
pub mod page_mappings;
pub mod pairs;
pub mod pools;
pub mod positions;
pub mod rules;
pub mod spaces;
pub mod splits;
pub mod standing;
pub mod steps;
pub mod successors;
pub mod switches;
pub mod validity;
pub mod walks;
pub mod worked;
