//! The laws of what updates mean, each the contract of an empty function.

ghost use Rattle.yd_meaning.specs.Law.{HeldIsLeast, HeldGrows, VectorCounts, RepliesComplete, LostFollowsSources, HeldIsTable, ListsFollowOrigins, ListsAreWhole, HonestListsFit, HonestOrderIsStrict, HonestListsGrowInOrder, ClosedPartsStay, MadeStaysHonest, DeletedFollowsItems, DocumentsConverge};
ghost use Rattle.yd_meaning.specs.GrowingLaw.{GrownIsOrder, GrowthGoesOn, ListsCanGrow, GrownStays, HeldStays, LeastIsDeleted, ClosedGoesOn, LeastStays, OwnIsDefined, ReplicasAreDefined};

/// What is held is the least set that has each received operation whose needs it has.
pub fn held_is_least()
    ensures { HeldIsLeast }
{}

/// Whatever comes, what is held stays held.
pub fn held_grows()
    ensures { HeldGrows }
{}

/// The state vector counts what is held, without a gap.
pub fn vector_counts()
    ensures { VectorCounts }
{}

/// After a reply each id of the other set is there, and what was sent is spelled no fuller.
pub fn replies_complete()
    ensures { RepliesComplete }
{}

/// A held operation is lost where it is gone, or something that it stands on is lost.
pub fn lost_follows_sources()
    ensures { LostFollowsSources }
{}

/// The held operations that are not lost are a table of origins.
pub fn held_is_table()
    ensures { HeldIsTable }
{}

/// The list of a held operation is its left origin's, else its right origin's, else the one that it carries.
pub fn lists_follow_origins()
    ensures { ListsFollowOrigins }
{}

/// A list has each operation that is of it and not lost, once and no other, and the document has them all.
pub fn lists_are_whole()
    ensures { ListsAreWhole }
{}

/// Where what is held keeps the edit rules, each of its lists is a table that fits, with the origins as they are.
pub fn honest_lists_fit()
    ensures { HonestListsFit }
{}

/// Where what is held keeps the edit rules, the order of each list is strict, and each operation stands between its origins.
pub fn honest_order_is_strict()
    ensures { HonestOrderIsStrict }
{}

/// Where what is held keeps the edit rules, integration scans give each list, in whichever arrangement its operations come.
pub fn honest_lists_grow_in_order()
    ensures { HonestListsGrowInOrder }
{}

/// A closed part of what is held loses the same, is honest where the whole is, has the same order, and deletes no more.
pub fn closed_parts_stay()
    ensures { ClosedPartsStay }
{}

/// An operation that is made between two neighbours of a list keeps an honest set honest.
pub fn made_stays_honest()
    ensures { MadeStaysHonest }
{}

/// A held operation is deleted as it is lost, by name, by its key, or by the item of its list.
pub fn deleted_follows_items()
    ensures { DeletedFollowsItems }
{}

/// Under agreement, updates with the same operations and deletions define the same document.
pub fn documents_converge()
    ensures { DocumentsConverge }
{}

/// Where what stands keeps the edit rules, a whole list that grew by scans is the origin order.
pub fn grown_is_order()
    ensures { GrownIsOrder }
{}

/// What grew by scans and then grew further has grown by the scans of both.
pub fn growth_goes_on()
    ensures { GrowthGoesOn }
{}

/// Every list can grow, whatever is held.
pub fn lists_can_grow()
    ensures { ListsCanGrow }
{}

/// A list that grew by scans did so still when more is held, where it got nothing or grew on.
pub fn grown_stays()
    ensures { GrownStays }
{}

/// What was held stays held, and stands and is lost as it was, unless something that stood is lost.
pub fn held_stays()
    ensures { HeldStays }
{}

/// Where lists are in the origin order, what must be deleted and nothing else is what the definitions
/// delete.
pub fn least_is_deleted()
    ensures { LeastIsDeleted }
{}

/// What was closed is closed as more is held, where what must be deleted besides is deleted.
pub fn closed_goes_on()
    ensures { ClosedGoesOn }
{}

/// What need be deleted need be so as more is held and more is named.
pub fn least_stays()
    ensures { LeastStays }
{}

/// Where what is held keeps the edit rules, the own document is just the one that this defines.
pub fn own_is_defined()
    ensures { OwnIsDefined }
{}

/// The defined document is a replica's for every set. Where the edit rules are kept, no other is.
pub fn replicas_are_defined()
    ensures { ReplicasAreDefined }
{}
