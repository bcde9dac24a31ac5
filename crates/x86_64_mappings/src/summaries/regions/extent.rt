//! How much of its span a table maps.
ghost use Rattle.std.specs.Prelude.{◌≡◌, ◌+◌, ◌<◌, ◌≤◌, ℕ, map, IfSome};
ghost use Rattle.x86_64_model.specs.Position.{span as span_of};
ghost use Rattle.x86_64_mappings.specs.Summaries.{summary_of};
ghost use Rattle.x86_64_mappings.specs.Wanted.{Asked, asked_mappings};
ghost use Rattle.x86_64_mappings.specs.private.Extents.{IsExtent};
ghost use Rattle.x86_64_mappings.specs.private.Merged.{lessened};
ghost use Rattle.x86_64_mappings.specs.private.Placed.{placed};

use crate::span;
use crate::summaries::summary::Summary;
use x86_64_tables::page_table::Rights;

/// How much of its span a table maps, as far as it is known.
#[derive(Clone, Copy)]
pub(super) enum Extent {
    /// Nothing that is wanted.
    Nothing,
    /// All of it, with equal rights.
    Whole(Rights),
    /// Some of it, or all of it with different rights, or this isn't known.
    Mixture,
}

/// Returns how much of its span a table of a level maps, below entries that allow `above`, by its summary if that is known.
pub(super) fn extent_of(summary: Option<Summary>, level: u64, above: Rights) -> Extent
    requires low { 1 ≤ level }
    requires high { level < 5 }
    ensures extent { (asked : Asked) (frame start : ℕ) →
        IfSome summary (λ summary. summary ≡ summary_of (asked_mappings asked level frame))
        → IsExtent level start (map (placed start above) (asked_mappings asked level frame)) result }
    ensures nothing { IfSome summary (λ summary. summary.count ≡ 0 → result ≡ Extent.Nothing) }
    ensures whole { IfSome summary (λ summary. let below = lessened above summary in
        0 < summary.count → below.bytes ≡ span_of (level + 1) → below.some ≡ below.all
        → result ≡ Extent.Whole below.all) }
{
    let Some(summary) = summary else {
        return Extent::Mixture;
    };
    if summary.count == 0 {
        return Extent::Nothing;
    }
    let summary = summary.below(above);
    if summary.bytes == span(level + 1) && summary.some == summary.all {
        Extent::Whole(summary.all)
    } else {
        Extent::Mixture
    }
}
