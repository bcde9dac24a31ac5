// The meaning of page tables: definitions in `specs/`, and the laws that pin them down.
#![tactic(auto)]

pub mod laws;
