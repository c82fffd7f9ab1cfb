//! The laws of loops, each the contract of an empty function.

ghost use Rattle.yd_serving.specs.Answering.{AnswersAreRight};
ghost use Rattle.yd_serving.specs.Syncing.{SyncEndsOnce};

/// What replicas answer in the turns of a loop is as the laws of synchronisation ask for, so they
/// hold of it.
pub fn answers_are_right()
    ensures { AnswersAreRight }
{}

/// Over one network that tells, the loop of a client ends in one way, whatever its replica answers:
/// in step or otherwise, and with or without a step 2; or at one message that is refused.
pub fn sync_ends_once()
    ensures { SyncEndsOnce }
{}
