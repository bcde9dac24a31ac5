// Laws of several hierarchies in one memory, and of several processors.
ghost use Rattle.x86_64_model.specs.Laws.Locality.{HierarchiesAreLocal, CallsAreLocal, CallsCommute, CallsOnSpacesCommute, SpacesStayApart, OthersStayApart, PoolsStayApart, TurnsAreAlone, CallsInTurn};

/// A hierarchy depends on the tables in the frames that it and its pool own, and on nothing else in memory.
pub fn hierarchies_are_local()
    ensures { HierarchiesAreLocal }
{}

/// A call's reply, the rest of the pool and each word that the call leaves in frames that its hierarchy and
/// the pool own are determined by the words of these frames before.
pub fn calls_are_local()
    ensures { CallsAreLocal }
{}

/// A call on one of two hierarchies in one memory and a call on the other may be made in either order, if
/// neither changes a frame that both own. So may calls on two address spaces with pools of their own, if both
/// avoid the indices that the two share.
pub fn calls_commute()
    ensures hierarchies { CallsCommute }
    ensures spaces { CallsOnSpacesCommute }
{}

/// Two address spaces with pools of their own stay so after a call on one of them that avoids the shared
/// indices, and after calls on others that change nothing of theirs.
pub fn spaces_stay_apart()
    ensures two { SpacesStayApart }
    ensures others { OthersStayApart }
{}

/// If the pools of several processors fit all address spaces, and no frame is in two pools, this stays so
/// after calls with one pool that leave the root's entries at the shared indices.
pub fn pools_stay_apart()
    ensures { PoolsStayApart }
{}

/// Processors that only read and write words of their own, or read words that are nobody's, see and leave in
/// turn what they would alone. So what is proved of calls alone holds of calls that overlap in time.
pub fn turns_are_as_if_alone()
    ensures words { TurnsAreAlone }
    ensures calls { CallsInTurn }
{}
