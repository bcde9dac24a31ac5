// Laws of pages that stand.
ghost use Rattle.x86_64_model.specs.Laws.Standing.{AcceptedMapsStand, MapsLeaveStanding, StandingPagesArrive, StandingPagesRefuse};

/// After an accepted `map_to` with PRESENT, its page stands: its own entry is the requested one, and each parent names a table
/// and has the parent flags.
pub fn accepted_maps_make_pages_stand()
    ensures { AcceptedMapsStand }
{}

/// Each map keeps pages that stand, except a map of a smaller page that is refused by a huge parent.
pub fn maps_leave_pages_that_stand()
    ensures { MapsLeaveStanding }
{}

/// The walk arrives everywhere in a page that stands, outside the recursive window, with exactly the requested rights.
#[tactic(auto, using(crate::proofs::Lemmas::Maps::Standing::standing_arrives))]
pub fn pages_that_stand_arrive()
    ensures { StandingPagesArrive }
{}

/// A map of a page that shares an address with a page that stands isn't accepted.
pub fn pages_that_stand_refuse_maps()
    ensures { StandingPagesRefuse }
{}
