//! Tests of dumps and of the program `ptdump`. The transcripts in `tests/ptdump` show what it prints.
#![tactic(auto)]

#[cfg(test)]
mod library;
#[cfg(test)]
mod prelude;
#[cfg(test)]
mod program;
