//! Worked examples of the machine, which the checker computes from the definitions.
ghost use Rattle.machine.specs.Examples.{PrintedExampleEndsQuiet, PrintedExampleIsSound, LastKindIsPosted, LoneFactEndsQuiet, SecondFactFindsStoreFull, RunOfNoStepsEnds, DropallTakesBelowBound, SetsAreJoined};

/// The looped line ends quiet after 31 steps and three applications.
pub fn printed_example_ends_quiet()
    ensures { PrintedExampleEndsQuiet }
{}

/// The looped line's rules are as the laws ask.
pub fn printed_example_is_sound()
    ensures { PrintedExampleIsSound }
{}

/// Kind 63 is the last that is posted.
pub fn last_kind_is_posted()
    ensures { LastKindIsPosted }
{}

/// With no rules a fact is stored, its goal is dropped, and all is quiet.
pub fn lone_fact_ends_quiet()
    ensures { LoneFactEndsQuiet }
{}

/// With room for one fact the second one is refused.
pub fn second_fact_finds_store_full()
    ensures { SecondFactFindsStoreFull }
{}

/// A run that is allowed no step is quiet without goals, and spent with one.
pub fn run_of_no_steps_ends()
    ensures { RunOfNoStepsEnds }
{}

/// A `dropall` head takes the facts below a bound, and the caller's list begins with their labels.
pub fn dropall_takes_below_bound()
    ensures { DropallTakesBelowBound }
{}

/// A rule joins sets of tags.
pub fn sets_are_joined()
    ensures { SetsAreJoined }
{}
