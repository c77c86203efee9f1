// What every call of the engine does, and the promise that the order of calls does not matter.
// Each function here stands for one part of the promise: its contract is the statement.
#![tactic(auto)]

mod memories;
mod remainder;

ghost use Rattle.calls.specs.Again.{FitsAgain};
ghost use Rattle.calls.specs.Equal.{EqualBelow};
ghost use Rattle.calls.specs.Exist.{OutcomesExist};
ghost use Rattle.calls.specs.NotEmpty.{EveryOrderReaches};
ghost use Rattle.calls.specs.Promise.{VerdictIsValue, VariantIsJudged, OrderDoesNotMatter};

pub use memories::Memories;
pub use remainder::{Closed, Refusal, Remainder};

// A verdict given after any list of calls is the formula's value on the whole network.
pub fn verdict_is_the_value()
    ensures { VerdictIsValue }
{}

// Each variant is in a verdict exactly when the network cut to it satisfies the formula.
pub fn every_variant_is_judged()
    ensures { VariantIsJudged }
{}

// Two lists of one case that both reach a verdict reach the same.
pub fn order_does_not_matter()
    ensures { OrderDoesNotMatter }
{}

// The promise is not empty: every order of removals reaches a verdict, where the limits are kept.
pub fn every_order_reaches_a_verdict()
    ensures { EveryOrderReaches }
{}

// What an accepted call leaves fits again.
pub fn accepted_calls_fit_again()
    ensures { FitsAgain }
{}

// Every accepted call has an outcome.
pub fn accepted_calls_have_outcomes()
    ensures { OutcomesExist }
{}

// What stands in memory behind a graph's nodes does not matter.
pub fn equal_graphs_have_equal_values()
    ensures { EqualBelow }
{}
