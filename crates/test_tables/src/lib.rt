//! Tests of the public calls of the crates up to tables, with one module per crate. They are not in the crates
//! themselves, so that each crate is proved only once. What `pagetab` and `ptdump` show is tested by transcripts, in
//! `tests/` at the top, and what needs no proof by ordinary Rust tests, in `rust/tests/`.
#![tactic(auto)]

#[cfg(test)]
mod addr;
#[cfg(test)]
mod derives;
#[cfg(test)]
mod page;
#[cfg(test)]
mod pools;
#[cfg(test)]
mod prelude;
#[cfg(test)]
mod texts;
