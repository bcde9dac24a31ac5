//! Calls for tables in use: maps and preparations that are done or change nothing, ranges of pages of all sizes, and parts of larger pages.
#![tactic(auto)]

pub mod laws;
mod look;
mod map;
mod parts;
mod preparation;
mod ranges;

pub use look::{would_map, would_prepare};
pub use map::{PageMap, map_or_nothing, may_map};
pub use parts::{SplitError, are_parts, joined_word, may_split, write_parts};
pub use preparation::{may_prepare, prepare};
pub use ranges::{
    PageWord, RangeEnd, RangeSeen, RangeStop, are_flag_masks, change_range, drop_range, list_range,
    take_range,
};
