//! Why no job is created. The case has a number (docs/REFUSALS.md).

/// Why no job is created.
#[derive(Clone, Copy, Debug, PartialEq, Eq)]
pub enum CreateFault {
    /// The store has facts.
    Facts = 16,
}
