//! Spans, indices and paths of positions, which are the numbers of addresses counted without the gap in the middle of the address
//! space.
ghost use Rattle.std.specs.Prelude.{◌≡◌, ◌≤◌, IfOk, take};
ghost use Rattle.x86_64_model.specs.Position.{span as span_of, index as index_of, page_path as page_path_of, lower_half as lower_half_of};
ghost use Rattle.x86_64_model.specs.Path.{front_at as front_at_of, is_small as is_small_of, level_of as level_of_path, span_size as span_size_of};

use std::alloc::{AllocError, Global};

/// Returns the number of positions that an entry of a level spans.
pub fn span(level: usize) -> u64
    requires { level ≤ 6 }
    ensures value { result ≡ span_of level }
    ensures nonzero { 1 ≤ result }
{
    1 << (12 + 9 * level.saturating_sub(1))
}

/// Returns the index of a level at a position.
#[tactic(auto, unfolding(x86_64_model::specs::Position::index))]
pub fn index(level: usize, position: u64) -> u64
    requires { level ≤ 6 }
    ensures { result ≡ index_of level position }
{
    position / span(level) % 512
}

/// Returns the number of positions in the lower half of the address space.
pub fn lower_half(levels: usize) -> u64
    requires { levels ≤ 5 }
    ensures { result ≡ lower_half_of levels }
{
    1 << (11 + 9 * levels)
}

/// Returns the indices at a position, from a level down to level one.
#[tactic(auto, using(crate::proofs::PositionPaths::page_path_more), unfolding(x86_64_model::specs::Position::page_path))]
pub fn page_path(alloc: Global, level: usize, position: u64) -> Result<Vec<u64>, AllocError>
    requires { level ≤ 6 }
    ensures { IfOk result (λ path. path.items ≡ page_path_of level position) }
{
    let mut path = Vec::new(alloc);
    for below in 0..level {
        path.push(index(level - below, position))?;
    }
    Ok(path)
}

/// Returns true if the entry at a path is of level one.
pub fn is_small(levels: usize, path: &[u64]) -> bool
    ensures { result ≡ is_small_of levels path.now }
{
    path.len() == levels
}

/// Returns the level of the entry at a path.
pub fn level_of(levels: usize, path: &[u64]) -> usize
    requires { levels ≤ 5 }
    ensures value { result ≡ level_of_path levels path.now }
    ensures within { result ≤ 6 }
{
    (levels + 1).saturating_sub(path.len())
}

/// Returns the number of positions that the entry at a path spans.
pub fn span_size(levels: usize, path: &[u64]) -> u64
    requires { levels ≤ 5 }
    ensures value { result ≡ span_size_of levels path.now }
    ensures nonzero { 1 ≤ result }
{
    span(level_of(levels, path))
}

/// Returns the first `length` indices of a path, or all of it if it is shorter.
pub fn front(path: &[u64], length: usize) -> &[u64]
    ensures { result.now ≡ take length path.now }
{
    if length < path.len() {
        &path[..length]
    } else {
        path
    }
}

/// Returns the front part of a path that names the entry of a level.
pub fn front_at(levels: usize, level: usize, path: &[u64]) -> &[u64]
    requires { levels ≤ 5 }
    ensures { result.now ≡ front_at_of levels level path.now }
{
    front(path, (levels + 1).saturating_sub(level))
}
