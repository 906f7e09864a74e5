//! The law of ranks. The function does nothing.
ghost use Rattle.lin_queues.specs.Ranks.{RankLaw};

/// A queue's events have no legal order where an item was taken out more often, between two ranks, than it can have been put in.
pub fn overtaken_ranks_are_illegal()
    ensures { RankLaw }
{}
