// Laws of positions (the numbers of addresses counted without the gap), of addresses and of spans.
ghost use Rattle.x86_64_model.specs.Laws.Positions.{PositionsAreAddresses, SpansAreIntervals};
ghost use Rattle.x86_64_model.specs.Laws.Ranges.{ExclusiveHas, InclusiveHas};

/// Each position (the number of an address counted without the gap) is that of exactly one canonical address, and addresses
/// have the order of their positions, with four levels and with five.
#[tactic(auto, using(crate::proofs::Lemmas::Paths::Addresses::positions_are_addresses))]
pub fn positions_are_canonical_addresses()
    ensures { PositionsAreAddresses }
{}

/// The positions whose first indices are a path's form an interval, as long as the span of its entry.
#[tactic(auto, using(crate::proofs::Lemmas::Paths::Spans::spans_are_intervals))]
pub fn spans_of_paths_are_intervals()
    ensures { SpansAreIntervals }
{}

/// The list of an exclusive range, a number of steps long, has the starts below its end, and nothing else.
#[tactic(auto, using(crate::proofs::Lemmas::Paths::Ranges::exclusive_has))]
pub fn exclusive_ranges_end_before()
    ensures { ExclusiveHas }
{}

/// The list of an inclusive range, a number of steps long, has the starts up to and including its end, and nothing else.
#[tactic(auto, using(crate::proofs::Lemmas::Paths::Ranges::inclusive_has))]
pub fn inclusive_ranges_end_with_the_end()
    ensures { InclusiveHas }
{}
