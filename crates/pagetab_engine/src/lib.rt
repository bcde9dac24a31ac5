//! The engine of the program `pagetab`, which reads an image of page tables, tests it, and executes commands on it.
#![tactic(auto)]

mod arguments;
pub mod ending;
pub mod engine;
mod execution;
mod fields;
mod frames;
mod hierarchy;
pub mod laws;
mod lines;
mod page_call;
mod reply;
mod slot;
mod statement;
