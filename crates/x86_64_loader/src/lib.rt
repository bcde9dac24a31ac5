//! A program loader, which maps the segments of a program with any mapper. It is a client of the library, and calls
//! only its public items.
#![tactic(auto)]

mod loader;
mod pages;
mod parts;
mod segment;

pub use loader::{load, load_large};
pub use segment::{LoadError, Segment, frames_needed, segments_allowed};
