//! The laws of state vectors and delete sets, each the contract of an empty function.

ghost use Rattle.yd_ids.specs.Law.{SetsAreTheirIds, VectorsAreTheirClocks, UnionHasBoth, UnionsJoin, InsertionIsUnion, SetsOfSpans, MaximumHasGreater, MaximaJoin, RaiseIsMaximum, VectorsOfEntries};

/// Two delete sets with the same ids are equal.
pub fn sets_are_their_ids()
    ensures { SetsAreTheirIds }
{}

/// Two state vectors with the same clocks are equal.
pub fn vectors_are_their_clocks()
    ensures { VectorsAreTheirClocks }
{}

/// The union is the one delete set that has the ids of both.
pub fn union_has_both()
    ensures { UnionHasBoth }
{}

/// Unions are associative, commutative and idempotent.
pub fn unions_join()
    ensures { UnionsJoin }
{}

/// An insertion is the union with one span, and two may come in either order.
pub fn insertion_is_union()
    ensures { InsertionIsUnion }
{}

/// Spans in any order make the one delete set that has their ids, and a delete set makes itself.
pub fn sets_of_spans()
    ensures { SetsOfSpans }
{}

/// The maximum is the one state vector that has the greater clock of each client.
pub fn maximum_has_greater()
    ensures { MaximumHasGreater }
{}

/// Maxima are associative, commutative and idempotent.
pub fn maxima_join()
    ensures { MaximaJoin }
{}

/// A raise is the maximum with one clock, and two may come in either order.
pub fn raise_is_maximum()
    ensures { RaiseIsMaximum }
{}

/// Clients and clocks in any order make the one state vector that has the greatest clock of each
/// client, and a state vector makes itself.
pub fn vectors_of_entries()
    ensures { VectorsOfEntries }
{}
