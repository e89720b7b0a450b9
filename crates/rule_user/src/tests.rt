//! The writer on examples: what it takes, and what it turns down.
use facts::{Fact, Lengths};
use rules::{
    Argument, BodyPart, HeadPart, HeadPlace, OpenSet, Operand, Pattern, RuleFault, Template, Term,
};
use std::test::Fail;

fn head(kind: u8, first: Argument) -> Pattern {
    Pattern {
        kind,
        args: [first, Argument::Constant(0), Argument::Constant(0)],
    }
}

fn fact(kind: u8, first: Operand) -> Template {
    Template {
        kind,
        terms: [
            Term::One(first),
            Term::One(Operand::Constant(0)),
            Term::One(Operand::Constant(0)),
        ],
    }
}

fn fact_of(kind: u8) -> Fact {
    Fact {
        kind,
        words: [0, 0, 0],
    }
}

#[test]
fn a_keep_after_a_drop_is_out_of_order(rt: HostRuntime) {
    let mut rule = OpenSet::<Lengths>::new().begin();
    assert!(rt;
        rule.add(HeadPart::Drop(head(1, Argument::Letter(0))))
            .is_ok()
    );
    assert_eq!(rt;
        rule.add(HeadPart::Keep(head(1, Argument::Letter(0)))),
        Err(RuleFault::OutOfOrder)
    );
}

#[test]
fn a_star_is_for_all_heads(rt: HostRuntime) {
    let mut rule = OpenSet::<Lengths>::new().begin();
    assert_eq!(rt;
        rule.add(HeadPart::Drop(head(1, Argument::Any))),
        Err(RuleFault::Letter)
    );
    assert!(rt; rule.add(HeadPart::DropAll(head(1, Argument::Any))).is_ok());
}

#[test]
fn a_rule_ends_with_a_drop_head_and_letters_that_stand(rt: HostRuntime) {
    let mut rule = OpenSet::<Lengths>::new().begin();
    assert!(rt;
        rule.add(HeadPart::Keep(head(1, Argument::Letter(0))))
            .is_ok()
    );
    let mut body = rule.body();
    assert!(rt;
        body.add(BodyPart::Give(fact(2, Operand::Letter(0))))
            .is_ok()
    );
    assert_eq!(rt;
        body.add(BodyPart::Give(fact(2, Operand::Letter(1)))),
        Err(RuleFault::Letter)
    );
    assert_eq!(rt; body.may_end(), Err(RuleFault::NoDrop));
}

#[test]
fn a_closed_set_numbers_its_heads_and_watches_its_kinds(rt: HostRuntime) -> Result<(), Fail> {
    let mut rule = OpenSet::<Lengths>::new().begin();
    assert!(rt;
        rule.add(HeadPart::Keep(head(1, Argument::Letter(0))))
            .is_ok()
    );
    assert!(rt;
        rule.add(HeadPart::Drop(head(2, Argument::Letter(0))))
            .is_ok()
    );
    assert!(rt; rule.add(HeadPart::DropAll(head(3, Argument::Any))).is_ok());
    let body = rule.body();
    if body.may_end().is_err() {
        return Err(Fail::new("the rule has a drop head"));
    }
    let set = body.end().close();
    assert_eq!(rt; set.rule_count(), 1);
    assert_eq!(rt; set.head_count(), 2);
    assert_eq!(rt; set.head(2), Some(HeadPlace { rule: 0, place: 1 }));
    assert!(rt; set.head(3).is_none());
    assert!(rt; set.watches(&fact_of(3)));
    assert!(rt; !set.watches(&fact_of(2)));
    Ok(())
}
