//! What a field writes as an argument of a head.
use rules::Operand;

/// What may stand as an argument of a head: `*` or an operand.
// No `Option` of an operand: `read_argument` answers an `Option` of it, and its `None` is a text that writes neither.
#[derive(Clone, Copy, Debug, PartialEq, Eq)]
pub enum Mark {
    Star,
    Operand(Operand),
}
