//! Numbers and sizes as text.
#![tactic(auto)]

mod numbers;
pub mod pieces;
mod sizes;

pub use numbers::{parse_digits, parse_number, write_hexadecimal};
pub use sizes::{SizeUnit, exact_unit, unit_of, write_size};
