//! Tests across crates, from outside of these, as tables if possible.
//!
//! A table with references in it is a static. A proof takes it as one value, but would build a constant part by part
//! in each function that names it.
#![tactic(auto)]

#[cfg(test)]
mod call_rows;
#[cfg(test)]
mod images;
#[cfg(test)]
mod prelude;
#[cfg(test)]
mod program;
#[cfg(test)]
mod replies;
#[cfg(test)]
mod rows;
#[cfg(test)]
mod streams;
