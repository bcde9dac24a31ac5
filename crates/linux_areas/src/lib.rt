//! The areas of Linux's address space, as its documentation names them, by what VMCOREINFO tells of the kernel.
#![tactic(auto)]

mod area;
mod layout;

pub use area::Area;
pub use layout::{Bounds, Layout};
