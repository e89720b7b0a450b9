//! The laws of the machine. Each function carries the law that it is named for, as its contract, and does nothing.
ghost use Rattle.machine.specs.Ledger.{LedgerIsAccounted, QuietIsVouched, IdleComesToRest, LedgerFactsAreValid};
ghost use Rattle.machine.specs.Runs.{WalksAreBounded, RunsAreWalks, RefusalsLeave};
ghost use Rattle.machine.specs.Transitions.{StepsAreTransitions, TransitionsAreSteps};
ghost use Rattle.machine.specs.Upheld.{AllIsUpheld};

/// The ledger of a job is what the changes that its replies report made of an empty one.
pub fn ledger_is_accounted()
    ensures { LedgerIsAccounted }
{}

/// After a reply that says quiet no rule is ready.
pub fn quiet_is_vouched()
    ensures { QuietIsVouched }
{}

/// Where no rule is ready and there is room, a run with enough steps comes to rest, applies no rule and leaves the list.
pub fn idle_comes_to_rest()
    ensures { IdleComesToRest }
{}

/// Every fact of a ledger has a kind from 0 to 63 and three valid words.
pub fn ledger_facts_are_valid()
    ensures { LedgerFactsAreValid }
{}

/// A run is a walk of steps, and ends for the reason that it gives.
pub fn runs_are_walks()
    ensures { RunsAreWalks }
{}

/// How many steps there can be, by the goals, the heads, and what applications give.
pub fn walks_are_bounded()
    ensures { WalksAreBounded }
{}

/// A step or a post that is refused leaves all as found.
pub fn refusals_leave()
    ensures { RefusalsLeave }
{}

/// Every step is one of the transitions.
pub fn steps_are_transitions()
    ensures { StepsAreTransitions }
{}

/// Every transition is the step.
pub fn transitions_are_steps()
    ensures { TransitionsAreSteps }
{}

/// Every act on a job upholds these promises, whatever was done before.
pub fn all_is_upheld()
    ensures { AllIsUpheld }
{}
