//! Small tables, computed by the checker: what the definitions say, and what other scans would say.

ghost use Rattle.yd_origins.specs.Example.{TwoClients, RightOrigin, OtherScans, BrokenRules, RowBetween};

/// Of the units of two clients at one place the smaller client's stands first.
pub fn two_clients()
    ensures { TwoClients }
{}

/// A unit stands in front of its right, wherever others of its place go.
pub fn right_origin()
    ensures { RightOrigin }
{}

/// A scan that stops at the first greater client, one that lets it go first, and one that always moves with a left differ from the order.
pub fn other_scans()
    ensures { OtherScans }
{}

/// What the edit rules refuse: a left behind its right, and a unit made as if an earlier one of its client were not there.
pub fn broken_rules()
    ensures { BrokenRules }
{}

/// Where a row that is reached stands between a row's neighbours, the scan and the order differ.
pub fn row_between()
    ensures { RowBetween }
{}
