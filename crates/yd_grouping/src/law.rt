//! The laws of grouping, each the contract of an empty function.

ghost use Rattle.yd_grouping.specs.Law.{GroupsMeet, BlocksAreBuilt, BuilderGroups, GroupingKeeps, GroupedIsOne, ReceivedIsGroupable, GroupedIsReceived, MergeIsReceived, MergeIsReceivingAll, CutsAreFromVector, UpdatesAreCut, CutsGiveTheWhole, ReachIsGap, RepliesAreValid, RepliesComplete, DisagreementIsSmallest, CoverIsEnough};

/// The groups for two lists are those of each, joined at the border where the rule says so.
pub fn groups_meet()
    ensures { GroupsMeet }
{}

/// Blocks grow at the back, and groups that stand apart are a grouped update.
pub fn blocks_are_built()
    ensures { BlocksAreBuilt }
{}

/// What a builder is pushed is grouped.
pub fn builder_groups()
    ensures { BuilderGroups }
{}

/// A grouping has the operations that were grouped, and is valid and grouped.
pub fn grouping_keeps()
    ensures { GroupingKeeps }
{}

/// Two grouped updates with the same operations and deletions are one.
pub fn grouped_is_one()
    ensures { GroupedIsOne }
{}

/// What is received of valid updates can be grouped.
pub fn received_is_groupable()
    ensures { ReceivedIsGroupable }
{}

/// What is grouped is received as it is.
pub fn grouped_is_received()
    ensures { GroupedIsReceived }
{}

/// A merge is a valid grouped update with just what is received.
pub fn merge_is_received()
    ensures { MergeIsReceived }
{}

/// Receiving a merge is receiving all its updates.
pub fn merge_is_receiving_all()
    ensures { MergeIsReceivingAll }
{}

/// A cut has what is not below the vector, and the first half of a pair that it would part.
pub fn cuts_are_from_vector()
    ensures { CutsAreFromVector }
{}

/// An update is cut to a valid grouped one, with all its deletions.
pub fn updates_are_cut()
    ensures { UpdatesAreCut }
{}

/// What lies below a cut and the cut give the whole.
pub fn cuts_give_the_whole()
    ensures { CutsGiveTheWhole }
{}

/// The vector of an update has of each client the smallest clock that no operation has.
pub fn reach_is_gap()
    ensures { ReachIsGap }
{}

/// A reply is a valid grouped update with the cut of what is received.
pub fn replies_are_valid()
    ensures { RepliesAreValid }
{}

/// After a reply the asker has each id and each deletion of the answerer.
pub fn replies_complete()
    ensures { RepliesComplete }
{}

/// The smallest id that breaks agreement, and that there is none exactly under agreement.
pub fn disagreement_is_smallest()
    ensures { DisagreementIsSmallest }
{}

/// To find a disagreement it is enough to compare each stretch with the one that ends last.
pub fn cover_is_enough()
    ensures { CoverIsEnough }
{}
