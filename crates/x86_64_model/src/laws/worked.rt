// Worked examples of the definitions, for a few small hierarchies.
ghost use Rattle.x86_64_model.specs.Laws.Worked.{SmallMap, PageWithoutPresent, LargeMap, MapBelowHuge, SharedTableIsInvalid, SmallMapFive, LargeMapFive, HugeBelowTheRoot, FirstRefusals, AlikeButForTables, SomePoolFits};

/// With four levels, the first map of a 4KiB page takes three frames for tables, and `translate` and the page walk then find
/// the page at an address in it.
#[tactic(auto, using(crate::proofs::Lemmas::Worked::FourLevels::small))]
pub fn first_map_of_a_4kib_page()
    ensures { SmallMap }
{}

/// If a mapped 4KiB page loses PRESENT, `translate` still names it, and the page walk doesn't arrive.
#[tactic(auto, using(crate::proofs::Lemmas::Worked::FourLevels::without_present))]
pub fn translate_names_pages_without_present()
    ensures { PageWithoutPresent }
{}

/// With four levels, the first map of a 2MiB page takes two frames for tables, and `translate` then finds the page at an
/// address in it.
#[tactic(auto, using(crate::proofs::Lemmas::Worked::FourLevels::large))]
pub fn first_map_of_a_2mib_page()
    ensures { LargeMap }
{}

/// A map of a 4KiB page below a 2MiB page is refused. The parent flags are added to the entries above, also to the huge one.
#[tactic(auto, using(crate::proofs::Lemmas::Worked::FourLevels::map_below_huge))]
pub fn map_that_meets_a_huge_parent()
    ensures { MapBelowHuge }
{}

/// The words of a root whose first two words name one table are no valid hierarchy, whatever the path map.
#[tactic(auto, using(crate::proofs::Lemmas::Worked::FourLevels::shared_table_invalid))]
pub fn tables_are_never_shared()
    ensures { SharedTableIsInvalid }
{}

/// With five levels, the first map of a 4KiB page takes four frames for tables, and is refused if there are three.
#[tactic(auto, using(crate::proofs::Lemmas::Worked::FiveLevels::small))]
pub fn first_map_of_a_4kib_page_with_five_levels()
    ensures { SmallMapFive }
{}

/// With five levels, the first map of a 2MiB page takes three frames for tables.
#[tactic(auto, using(crate::proofs::Lemmas::Worked::FiveLevels::large))]
pub fn first_map_of_a_2mib_page_with_five_levels()
    ensures { LargeMapFive }
{}

/// HUGE_PAGE in a word one level below the root leads the page walk to a 1GiB page with four levels, and nowhere with five.
#[tactic(auto, using(crate::proofs::Lemmas::Worked::FiveLevels::huge_below_root))]
pub fn huge_entries_above_level_three_lead_nowhere()
    ensures { HugeBelowTheRoot }
{}

/// If several refusals apply to a call, by its level, the page's parents and the page's own entry, the first in order is
/// answered, and nothing changes.
#[tactic(auto, using(crate::proofs::Lemmas::Worked::Refusals::first_refusals))]
pub fn the_first_refusal_is_answered()
    ensures { FirstRefusals }
{}

/// Path maps that differ in WRITABLE of table entries are alike, and those that differ in WRITABLE of a page's own entry are
/// not.
#[tactic(auto, using(crate::proofs::Lemmas::Worked::Alike::alike_but_for_tables))]
pub fn alike_is_equal_but_for_writable_tables()
    ensures { AlikeButForTables }
{}

/// An empty root, with four free frames, meets the premises of the laws, with any number of levels, with and without a recursive
/// index.
#[tactic(auto, using(crate::proofs::Lemmas::Worked::Fitting::some_pool_fits))]
pub fn premises_can_be_met()
    ensures { SomePoolFits }
{}
