//! Calls of `x86_64_dump`, from outside, of what no transcript shows.

mod caller;
mod reads;
mod refusals;
mod registers;
mod sources;
mod texts;
