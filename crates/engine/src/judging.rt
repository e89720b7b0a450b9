//! How facts are judged before they are posted.
ghost use Rattle.std.specs.Prelude.{◌≡◌};
ghost use Rattle.rules.specs.Rules.{all};
ghost use Rattle.machine.specs.Machine.{fact_verdict, facts_verdict};

use facts::{Fact, KINDS, Words};
use machine::PostFault;

fn words_are_valid<W: Words>(words: &[i64]) -> bool
    ensures { result ≡ all W.system.valid words.now }
{
    words.iter().all(|word| W::valid(*word))
}

fn judge_fact<W: Words>(number: usize, fact: &Fact) -> Result<(), PostFault>
    ensures { result ≡ fact_verdict W.system number fact.now }
{
    if fact.kind >= KINDS {
        return Err(PostFault::Kind(number));
    }
    if words_are_valid::<W>(&fact.words) {
        Ok(())
    } else {
        Err(PostFault::Word(number))
    }
}

/// The first fault of the facts, if any has one.
pub(crate) fn judge_facts<W: Words>(facts: &[Fact]) -> Result<(), PostFault>
    ensures { result ≡ facts_verdict W.system 1 facts.now }
{
    for (place, fact) in facts.iter().enumerate() {
        judge_fact::<W>(place + 1, fact)?;
    }
    Ok(())
}
