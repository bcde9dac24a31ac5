//! Virtual and physical addresses, and the indices of a virtual address at each level of the page tables.
#![tactic(auto)]

pub mod addr;
pub mod index;
pub mod laws;
pub mod level_count;
