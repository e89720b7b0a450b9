//! A small user of the rule writer: it writes the two rules of the looped line, closes the set, and says what stands in it.
#![tactic(auto)]

ghost use Rattle.std.specs.Prelude.{◌≡◌, ◌+◌, length, IfOk};
ghost use Rattle.rules.specs.Sets.{open_rules, closed_rules};
ghost use Rattle.rule_user.specs.declared.Failed.TheVariants.{Refused, Output};

#[cfg(test)]
mod tests;

use facts::Lengths;
use rules::{
    Argument, BodyPart, ClosedSet, HeadPart, OpenSet, Operand, Pattern, RuleFault, Template, Term,
};
use std::io;

/// Why the program ends with status 1: a part was refused, or the line was not written.
#[derive(Debug, Drop)]
enum Failed {
    Refused(RuleFault),
    Output(io::Error),
}

// By hand, here and below: `?` asks for each conversion, and none is derived.
impl From<RuleFault> for Failed {
    ghost from_gives = { λ e f. f ≡ Refused e };

    fn from(fault: RuleFault) -> Failed {
        Failed::Refused(fault)
    }
}

impl From<io::Error> for Failed {
    ghost from_gives = { λ e f. f ≡ Output e };

    fn from(error: io::Error) -> Failed {
        Failed::Output(error)
    }
}

const A: Argument = Argument::Letter(0);

const ZERO: Argument = Argument::Constant(0);

// A point that was reached: kind 1, the point, and two zeros.
fn reached() -> Pattern {
    Pattern {
        kind: 1,
        args: [A, ZERO, ZERO],
    }
}

// A segment: kind 2, from, to and length.
fn segment() -> Pattern {
    Pattern {
        kind: 2,
        args: [A, Argument::Letter(1), Argument::Letter(2)],
    }
}

fn far_end() -> Template {
    let zero = Term::One(Operand::Constant(0));
    Template {
        kind: 1,
        terms: [Term::One(Operand::Letter(1)), zero, zero],
    }
}

// Of two equal points one is enough. Each rule is written out: this program shows how one is written.
fn with_one_point(set: OpenSet<Lengths>) -> Result<OpenSet<Lengths>, RuleFault>
    ensures { IfOk result (λ s. length (open_rules s) ≡ length (open_rules set) + 1) }
{
    set.may_begin()?;
    let mut rule = set.begin();
    rule.add(HeadPart::Keep(reached()))?;
    rule.add(HeadPart::Drop(reached()))?;
    let body = rule.body();
    body.may_end()?;
    Ok(body.end())
}

// A segment from a reached point reaches its far end.
fn with_following(set: OpenSet<Lengths>) -> Result<OpenSet<Lengths>, RuleFault>
    ensures { IfOk result (λ s. length (open_rules s) ≡ length (open_rules set) + 1) }
{
    set.may_begin()?;
    let mut rule = set.begin();
    rule.add(HeadPart::Keep(reached()))?;
    rule.add(HeadPart::Drop(segment()))?;
    let mut body = rule.body();
    body.add(BodyPart::Give(far_end()))?;
    body.may_end()?;
    Ok(body.end())
}

fn looped_line() -> Result<ClosedSet<Lengths>, RuleFault>
    ensures { IfOk result (λ s. length (closed_rules s) ≡ 2) }
{
    let set = with_one_point(OpenSet::new())?;
    let set = with_following(set)?;
    let closed = set.close();
    Ok(closed)
}

fn main(rt: HostRuntime) -> Result<(), Failed> {
    let set = looped_line()?;
    let rules = set.rule_count();
    let heads = set.head_count();
    println!(rt; "{rules} rules, {heads} heads")?;
    Ok(())
}
