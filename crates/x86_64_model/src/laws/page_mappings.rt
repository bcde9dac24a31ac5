// Laws of pages that are mapped one after another.
ghost use Rattle.x86_64_model.specs.Laws.PageMappings.{MappingsSucceed, MappingsStand, TwoPagesMapped};

/// Unmapped pages that may be mapped with PRESENT and lie apart from each other are all mapped, if the pool has a frame for
/// each table that is missing on their paths.
pub fn pages_apart_are_all_mapped()
    ensures { MappingsSucceed }
{}

/// If pages are all mapped with PRESENT, one after another, each of them stands afterwards (its entry is the one that `map_to`
/// writes, below parents that name tables and have its parent flags), and so does each page that stood before.
pub fn pages_that_are_all_mapped_stand()
    ensures { MappingsStand }
{}

/// A 4KiB page and a 2MiB page meet the premises of the laws of pages that are mapped one after another, and both are mapped.
#[tactic(auto, using(crate::proofs::Lemmas::Worked::PageMappings::two_pages_mapped))]
pub fn two_pages_are_mapped()
    ensures { TwoPagesMapped }
{}
