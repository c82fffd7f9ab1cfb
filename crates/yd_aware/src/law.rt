//! The laws of a kept table, each the contract of an empty function. Those of all tables are in
//! `yd_sync::law`.

ghost use Rattle.yd_aware.specs.AwareLaw.{AwarenessMeets, OwnStateLasts};

/// Two tables that took the same entries, in any order and repeated, have the same of each client
/// but their own, where no two entries disagree.
pub fn awareness_meets()
    ensures { AwarenessMeets }
{}

/// Whatever others send without a state for the own client, and however much time passes, the own
/// state stays.
pub fn own_state_lasts()
    ensures { OwnStateLasts }
{}
