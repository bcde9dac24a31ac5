//! A picture of what page tables map: an SVG image with a bar for each half of the address space, and the tables as a tree by
//! level. It is 1,000 pixels wide.
#![tactic(auto)]

mod area;
mod bar;
mod legend;
mod links;
mod picture;
mod piece;
mod rights;
mod size;
mod tree;

pub use links::{TableLink, table_links};
pub use picture::{Mapped, Picture};
pub use size::ShortSize;
pub use tree::MOST_DRAWN_TABLES;
