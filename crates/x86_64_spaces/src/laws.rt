//! Laws of address spaces, beside those in `x86_64_model::laws::spaces`.
ghost use Rattle.x86_64_spaces.specs.SpaceLaws.{GroupsShare, IsUpperHalf, LayoutsStay, PairedLayoutsStay, SharingsAreGroups};

use crate::space::SharedIndices;

/// The layouts of address spaces before calls are their layouts afterwards. So the laws of the model, which speak of layouts, lead
/// from what a test or [`new_space`](crate::new_space) says before calls to what it says afterwards.
#[tactic(auto, using(crate::proofs::SpacesStay::layouts_stay))]
pub fn layouts_stay()
    ensures { LayoutsStay }
{}

/// The layouts of address spaces that share in pairs are the same after calls as before. So the laws of the model, which speak of
/// layouts, lead from what a test by groups says before calls to what it says afterwards.
#[tactic(auto, using(crate::proofs::SpacesStay::paired_layouts_stay))]
pub fn paired_layouts_stay()
    ensures { PairedLayoutsStay }
{}

/// [`SharedIndices::UPPER_HALF`] is the indices from 256 to 511.
pub fn upper_half_has_256_to_511()
    ensures { IsUpperHalf SharedIndices.UPPER_HALF }
{}

/// Groups are a sharing, of which the laws of the model speak: roots that share an index share it both ways, and with all that
/// share it.
#[tactic(auto, using(crate::proofs::Groups::groups_share))]
pub fn groups_share()
    ensures { GroupsShare }
{}

/// Each sharing is one by groups. So groups say of roots which indices they share in pairs as well as any other way would.
#[tactic(auto, using(crate::proofs::EachSharing::sharings_are_groups))]
pub fn sharings_are_groups()
    ensures { SharingsAreGroups }
{}
