//! Jobs at work: the bounds of posts and runs, the worked examples over each store, and what a refusal leaves.
#![tactic(auto)]

#[cfg(test)]
mod acting;
#[cfg(test)]
mod examples;
#[cfg(test)]
mod jobs;
#[cfg(test)]
mod posting;
#[cfg(test)]
mod recorder;
#[cfg(test)]
mod refusing;
#[cfg(test)]
mod rule_sets;
#[cfg(test)]
mod running;
