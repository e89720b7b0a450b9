//! How far a rules file is written into its set.
use rules::{RuleBody, RuleHead};

/// No rule is begun, or one is being written, with the number of its `rule` row: its body has not begun, or has.
#[derive(Drop)]
pub(crate) enum Stage<W> {
    Before,
    Head(RuleHead<W>, u32),
    Body(RuleBody<W>, u32),
}
