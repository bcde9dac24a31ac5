//! Mappers, which read and change the page tables of a physical memory that is lent to them.
#![tactic(auto)]

pub mod calls;
pub mod laws;
pub mod mapped_page_table;
pub mod mapper;
pub mod offset_page_table;
pub mod recursive_page_table;
mod walk;
