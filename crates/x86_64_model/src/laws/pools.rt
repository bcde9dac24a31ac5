// Laws of pools.
ghost use Rattle.x86_64_model.specs.Laws.Pools.{RearrangingTakesBack};

/// A pool that rearranges the returned frame and those it held takes frames back as the machine requires.
#[tactic(auto, using(crate::proofs::Lemmas::Machines::Giving::giving_from))]
pub fn rearranging_pools_take_back()
    ensures { RearrangingTakesBack }
{}
