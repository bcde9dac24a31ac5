// Laws of map calls.
ghost use Rattle.x86_64_model.specs.Laws.Maps.{WalkedDown, MapKeepsWalks, MapArrives, MapArrivesInPage, MapConserves, MapTakesFew, RefusedMaps};

/// A map that walks down the parents of a page, one at a time, has the outcome of the rule of maps.
pub fn walk_down_is_the_rule()
    ensures { WalkedDown }
{}

/// After any map call, whatever its answer, each page walk that arrived still arrives at the same address, loses no right, and
/// gains only rights that the parent flags grant.
#[tactic(auto, using(crate::proofs::Lemmas::Maps::Calls::map_call_keeps_walks))]
pub fn maps_keep_walks()
    ensures { MapKeepsWalks }
{}

/// After an accepted `map_to` with PRESENT of a page outside the recursive window, the page walk arrives at each position of the
/// page, at the frame's start plus the offset, with exactly the requested rights to write and of user mode.
#[tactic(auto, using(crate::proofs::Lemmas::Maps::Arrives::map_to_arrives))]
pub fn accepted_maps_arrive()
    ensures { MapArrives }
{}

/// After an accepted `map_to` with PRESENT of a page outside the recursive window that starts at a multiple of its size, the page
/// walk arrives at each offset of the page, at the frame's start plus the offset, with exactly the requested rights to write and of
/// user mode.
#[tactic(auto, using(crate::proofs::Lemmas::Paths::Pages::map_to_arrives_in_page))]
pub fn accepted_maps_arrive_in_the_page()
    ensures { MapArrivesInPage }
{}

/// A map call conserves free and table frames: their set stays the same, and if each had one use before, it has one use after.
pub fn maps_conserve_frames()
    ensures { MapConserves }
{}

/// A map call takes the first frames of the supply (the frames to hand out, in order), at most one for each level above the
/// first.
pub fn maps_take_few_frames()
    ensures { MapTakesFew }
{}

/// A refused map changes only parents of the page: used ones keep their addresses and gain at most the parent flags, and unused
/// ones may become tables.
pub fn refused_maps_leave_little()
    ensures { RefusedMaps }
{}
