//! Small runs that the checker computes.

ghost use Rattle.yd_hub.specs.Example.{AnswersAreThere, ComesInStep, FailuresInOrder, OwnStateRenewed, StatesEnd, TwoSessions};

/// A hub sends to the others and nothing again, closes what sends no message, and what a failed send
/// changes.
pub fn two_sessions()
    ensures { TwoSessions }
{}

/// A state ends 30,000 ms after it came.
pub fn states_end()
    ensures { StatesEnd }
{}

/// One's own state is sent again 15,000 ms after it was set.
pub fn own_state_renewed()
    ensures { OwnStateRenewed }
{}

/// A peer's loop ends once a step 1 was answered and a step 2 applied, and what else may end it.
pub fn comes_in_step()
    ensures { ComesInStep }
{}

/// Sessions whose sends fail are closed at once, and the hub hears of them in the order of the
/// failures.
pub fn failures_in_order()
    ensures { FailuresInOrder }
{}

/// There are answers as the laws ask for.
pub fn answers_are_there()
    ensures { AnswersAreThere }
{}
