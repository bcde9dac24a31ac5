//! Page tables, their entries and flags, the memories that hold them, frame allocation, and what all mappers share.
#![tactic(auto)]

pub mod errors;
pub mod frame_alloc;
pub mod laws;
pub mod page_table;
pub mod page_tables;
pub mod phys_memory;
pub mod tokens;
pub mod translation;
