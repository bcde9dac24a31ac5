//! The places of a memory in the order of their numbers, found by a guess or by binary search.
ghost use Rattle.std.specs.Prelude.{◌≡◌, ◌<◌, ◌↔◌, true, Some, IsSome, length, slice_get, slice_index};
ghost use Rattle.std.specs.List.{position};
ghost use Rattle.std.specs.List.Sorted.{IsStrictlyIncreasing};
ghost use Rattle.std.specs.Ordering.{nat_cmp, eq_by_cmp};
ghost use Rattle.x86_64_tables.specs.private.SortedPlaces.{HasRun, IsDense};

use std::marker::Model;

/// The numbers under which a memory holds tables, its places, each below the next. Contracts see it as their list.
///
/// The first `run` of them are the numbers from `first` on without a gap, so the index of each of these is its distance
/// from `first`. If `is_dense` is true, they are all numbers from 0 up to the last. There are about `scale` / 2^32 places
/// for each number. This only determines where to look first, so any value is correct.
#[derive(Drop)]
pub(super) struct SortedPlaces {
    numbers: Vec<u64>,
    first: u64,
    run: u64,
    scale: u64,
    is_dense: bool,
}

impl Model for SortedPlaces {
    ghost use Rattle.std.specs.Prelude.{◌≡◌, true, List, ℕ, length};
    ghost use Rattle.std.specs.List.Sorted.{IsStrictlyIncreasing};
    ghost use Rattle.x86_64_tables.specs.private.SortedPlaces.{HasRun, IsDense};

    ghost Value = { List ℕ };

    ghost view = { λ places. places.numbers.items };

    ghost invariant = { λ places. IsStrictlyIncreasing places.numbers.items
        × HasRun places.numbers.items places.first places.run
        × (places.is_dense ≡ true → IsDense places.numbers.items) };
}

impl SortedPlaces {
    /// Creates the places with the given numbers.
    ///
    /// Requires that each number is below the next.
    pub(super) fn new(numbers: Vec<u64>) -> SortedPlaces
        requires { IsStrictlyIncreasing numbers.items }
        ensures { result ≡ numbers.items }
    {
        let run = run_of(&numbers);
        let first = if run == 0 { 0 } else { numbers[0] };
        let scale = scale_of(&numbers);
        let is_dense = first == 0 && run == numbers.len() as u64;
        SortedPlaces {
            numbers,
            first,
            run,
            scale,
            is_dense,
        }
    }

    /// Returns the `n`-th place, counted from 0, or `None` if there are no more than `n`.
    pub(super) fn number_at(&self, n: usize) -> Option<u64>
        ensures { result ≡ slice_get self.now n }
    {
        self.numbers.get(n).copied()
    }

    /// Returns the number of places before a place, or `None` if there is no place with this number.
    ///
    /// Looks first where the place would be without gaps, then where it would be if all gaps were alike.
    pub(super) fn index_of(&self, number: u64) -> Option<usize>
        ensures { result ≡ position (eq_by_cmp nat_cmp number) self.now }
    {
        let distance = number.wrapping_sub(self.first);
        if distance < self.run {
            return Some(distance as usize);
        }
        let guess = (distance.wrapping_mul(self.scale) >> 32) as usize;
        if self.stands_at(number, guess) {
            Some(guess)
        } else {
            self.numbers.binary_search(&number).ok()
        }
    }

    /// Returns true if a place is the one at an index.
    fn stands_at(&self, number: u64, index: usize) -> bool
        ensures { (result ≡ true)
            ↔ ((index < length self.now) × (slice_index self.now index ≡ number)) }
    {
        index < self.numbers.len() && self.numbers[index] == number
    }

    /// Returns the number of places before a place.
    ///
    /// Requires that the place is there.
    pub(super) fn index_there(&self, number: u64) -> usize
        requires { IsSome (position (eq_by_cmp nat_cmp number) self.now) }
        ensures { Some result ≡ position (eq_by_cmp nat_cmp number) self.now }
    {
        self.index_of(number).unwrap()
    }

    /// Returns true if the places are known to be all numbers from 0 up to the last, so that the index of each is its number.
    pub(super) fn is_dense(&self) -> bool
        ensures { result ≡ true → IsDense self.now }
    {
        self.is_dense
    }
}

/// Returns true if each number is below the next.
pub(super) fn is_increasing(numbers: &[u64]) -> bool
    ensures { (result ≡ true) ↔ IsStrictlyIncreasing numbers.now }
{
    for i in 1..numbers.len() {
        if numbers[i] <= numbers[i - 1] {
            return false;
        }
    }
    true
}

/// Returns how many numbers at the front have no gap between them.
fn run_of(numbers: &[u64]) -> u64
    requires { IsStrictlyIncreasing numbers.now }
    ensures { HasRun numbers.now (slice_index numbers.now 0) result }
{
    for i in 1..numbers.len() {
        if numbers[i] - numbers[i - 1] != 1 {
            return i as u64;
        }
    }
    numbers.len() as u64
}

/// Returns about how many places there are for each number from the first to the last, times 2^32. Any result is correct.
fn scale_of(numbers: &[u64]) -> u64 {
    let places = numbers.len().saturating_sub(1);
    let span = if places == 0 {
        0
    } else {
        numbers[places].wrapping_sub(numbers[0])
    };
    let scale = (places as u64).wrapping_mul(1 << 32).checked_div(span);
    scale.unwrap_or(0).wrapping_add(1)
}
