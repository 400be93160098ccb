//! Laws of every run of the pool.

ghost use Rattle.chain_laws.specs.Laws.{OfAll, ChainsStand, TopsStand};
ghost use Rattle.chain_laws.specs.Told.{PoolIsTold};

/// In each reachable state the ready slots of each kind that nobody takes or pushes form a chain under the kind's head word, in which each
/// stands once.
pub fn chains_stand()
    ensures { OfAll ChainsStand }
{}

/// If an exchange finds the head word of a kind that its caller had loaded, and a slot is on top, that slot has stood in the kind's chain
/// since the load, and its link is unchanged.
pub fn tops_stand()
    ensures { OfAll TopsStand }
{}

/// What follows in each reachable state: which slots of each kind are ready, where each of them is, and what an exchange on a head finds.
pub fn pool_is_told()
    ensures { OfAll PoolIsTold }
{}
