//! What the place that the scan finds is worth.

ghost use Rattle.yd_scan.specs.Law.{ListsGrow};

/// With a new run at the place that the scan of its first unit finds, a list has grown by the scans
/// of all its units in turn.
pub fn lists_grow()
    ensures { ListsGrow }
{}
