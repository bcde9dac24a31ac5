//! Pages, the frames of physical memory that they are mapped to, and ranges of both.
#![tactic(auto)]

pub mod frame;
pub mod laws;
pub mod page;
pub mod range;
