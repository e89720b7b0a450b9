//! The sets of rules of the tests.
use facts::{Lengths, Operator, Relation, WORDS};
use rules::{
    Argument, BodyPart, ClosedSet, Comparison, GiveAll, HeadPart, OpenSet, Operand, Pattern,
    Template, Term,
};
use std::process::Abort;

const A: Argument = Argument::Letter(0);

const B: Argument = Argument::Letter(1);

const C: Argument = Argument::Letter(2);

const NOUGHT: Argument = Argument::Constant(0);

const ZERO: Term = Term::One(Operand::Constant(0));

const Y: Operand = Operand::Taken(1);

fn pattern(kind: u8, args: [Argument; WORDS]) -> Pattern {
    Pattern { kind, args }
}

fn template(kind: u8, terms: [Term; WORDS]) -> Template {
    Template { kind, terms }
}

// The set with a rule more, of these parts.
fn with_rule(
    rt: &impl Abort,
    set: OpenSet<Lengths>,
    heads: &[HeadPart],
    given: &[BodyPart],
) -> OpenSet<Lengths> {
    assert!(rt; set.may_begin().is_ok());
    let mut rule = set.begin();
    for part in heads {
        assert!(rt; rule.add(*part).is_ok());
    }
    let mut body = rule.body();
    for part in given {
        assert!(rt; body.add(*part).is_ok());
    }
    assert!(rt; body.may_end().is_ok());
    body.end()
}

/// A set without rules.
pub(crate) fn no_rules() -> ClosedSet<Lengths> {
    OpenSet::new().close()
}

/// The rules of the looped line: of two equal points one is enough, and a segment from a reached point reaches its far end.
pub(crate) fn looped_line(rt: &impl Abort) -> ClosedSet<Lengths> {
    let reached = pattern(1, [A, NOUGHT, NOUGHT]);
    let segment = pattern(2, [A, B, C]);
    let far_end = template(1, [Term::One(Operand::Letter(1)), ZERO, ZERO]);
    let set = with_rule(
        rt,
        OpenSet::new(),
        &[HeadPart::Keep(reached), HeadPart::Drop(reached)],
        &[],
    );
    let set = with_rule(
        rt,
        set,
        &[HeadPart::Keep(reached), HeadPart::Drop(segment)],
        &[BodyPart::Give(far_end)],
    );
    set.close()
}

/// Drop 4 (A, B, C) and all 3 (A, *, 0) whose second word is below C, and give 3 (B, Y, 0) for each of those.
pub(crate) fn sweep(rt: &impl Abort) -> ClosedSet<Lengths> {
    let below = Comparison {
        left: Term::One(Y),
        relation: Relation::Less,
        right: Term::One(Operand::Letter(2)),
    };
    let moved = GiveAll {
        over: 1,
        each: template(3, [Term::One(Operand::Letter(1)), Term::One(Y), ZERO]),
    };
    let heads = [
        HeadPart::Drop(pattern(4, [A, B, C])),
        HeadPart::DropAll(pattern(3, [A, Argument::Any, NOUGHT])),
        HeadPart::Only(below),
    ];
    let set = with_rule(rt, OpenSet::new(), &heads, &[BodyPart::GiveAll(moved)]);
    set.close()
}

/// Drop 1 (A, 0, 0), and give 1 (A+2147483647, 0, 0), whose first word has no value where A is above 0.
pub(crate) fn overflow(rt: &impl Abort) -> ClosedSet<Lengths> {
    let sum = Term::Two(
        Operand::Letter(0),
        Operator::Plus,
        Operand::Constant(2_147_483_647),
    );
    let set = with_rule(
        rt,
        OpenSet::new(),
        &[HeadPart::Drop(pattern(1, [A, NOUGHT, NOUGHT]))],
        &[BodyPart::Give(template(1, [sum, ZERO, ZERO]))],
    );
    set.close()
}
