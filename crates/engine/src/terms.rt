//! Terms and comparisons under the words of the letters, and of a fact that an all head takes.
ghost use Rattle.std.specs.Prelude.{◌≡◌, []};
ghost use Rattle.rules.specs.Rules.{rule_seen, all_seen, all};
ghost use Rattle.machine.specs.Fitting.{operand_value, term_value, holds, fits_all_head};
ghost use Rattle.engine.specs.Letters.{setting_in, word_at};

use crate::letters::{Letters, fits, word_of};
use facts::{Fact, Words};
use rules::{AllRecord, Comparison, Operand, RuleRecord, Term};

/// What a term is worked out by: the words of the letters, and those of the fact that an all head took.
#[derive(Clone, Copy)]
pub(crate) struct Scope<'a> {
    pub(crate) letters: &'a Letters,
    pub(crate) taken: &'a [i64],
}

impl Scope<'_> {
    fn taken_word(self, place: u8) -> i64
        ensures { result ≡ word_at self.entry.taken.now place }
    {
        self.taken.get(usize::from(place)).copied().unwrap_or(0)
    }

    fn operand_word(self, operand: Operand) -> i64
        ensures { result ≡ operand_value (setting_in self.entry.letters.now) self.entry.taken.now operand }
    {
        match operand {
            Operand::Letter(letter) => word_of(self.letters, letter),
            Operand::Constant(word) => word,
            Operand::Taken(place) => self.taken_word(place),
        }
    }

    /// The value of a term, or none.
    pub(crate) fn term_word<W: Words>(self, term: Term) -> Option<i64>
        ensures { result ≡ term_value W.system (setting_in self.entry.letters.now) self.entry.taken.now term }
    {
        match term {
            Term::One(operand) => Some(self.operand_word(operand)),
            Term::Two(left, operator, right) => W::value(
                operator,
                self.operand_word(left),
                self.operand_word(right),
            ),
        }
    }

    fn comparison_holds<W: Words>(self, comparison: &Comparison) -> bool
        ensures { result ≡ holds W.system (setting_in self.entry.letters.now) self.entry.taken.now comparison.now }
    {
        let (Some(left), Some(right)) = (
            self.term_word::<W>(comparison.left),
            self.term_word::<W>(comparison.right),
        ) else {
            return false;
        };
        W::holds(comparison.relation, left, right)
    }

    fn all_hold<W: Words>(self, comparisons: &[Comparison]) -> bool
        ensures { result ≡ all (holds W.system (setting_in self.entry.letters.now) self.entry.taken.now) comparisons.now }
    {
        comparisons
            .iter()
            .all(|comparison| self.comparison_holds::<W>(comparison))
    }
}

/// Whether every condition of a rule holds.
pub(crate) fn conditions_hold<W: Words>(letters: &Letters, rule: &RuleRecord) -> bool
    ensures { result ≡ all (holds W.system (setting_in letters.now) []) (rule_seen rule.now).whens }
{
    let scope = Scope {
        letters,
        taken: &[],
    };
    scope.all_hold::<W>(rule.whens.as_slice())
}

/// Whether a fact fits an all head and its `only` comparisons.
pub(crate) fn fits_all_head<W: Words>(letters: &Letters, all: &AllRecord, fact: &Fact) -> bool
    ensures { result ≡ fits_all_head W.system (setting_in letters.now) (all_seen all.now) fact.now }
{
    let scope = Scope {
        letters,
        taken: &fact.words,
    };
    fits(letters, &all.pattern, fact) && scope.all_hold::<W>(all.only.as_slice())
}
