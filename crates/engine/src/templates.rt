//! The facts that a rule gives: terms filled in.
ghost use Rattle.std.specs.Prelude.{◌≡◌, map};
ghost use Rattle.engine.specs.Letters.{setting_in};
ghost use Rattle.machine.specs.Fitting.{given, all_values, term_value};

use crate::terms::Scope;
use facts::{Fact, WORDS, Words};
use rules::{Template, Term};

impl Scope<'_> {
    fn fill_words<W: Words>(self, terms: &[Term; WORDS]) -> Option<[i64; WORDS]>
        ensures { result ≡ all_values (map (term_value W.system (setting_in self.entry.letters.now) self.entry.taken.now) terms.now) }
    {
        let mut words = [0; WORDS];
        // By hand: over a `zip` with `iter_mut` the proof of what is answered stays open, as it knows no word after the loop.
        for (i, term) in terms.iter().enumerate() {
            words[i] = self.term_word::<W>(*term)?;
        }
        Some(words)
    }

    /// The fact that a template gives, or none where a term has no value.
    pub(crate) fn fill<W: Words>(self, template: &Template) -> Option<Fact>
        ensures { result ≡ given W.system (setting_in self.entry.letters.now) self.entry.taken.now template.now }
    {
        let words = self.fill_words::<W>(&template.terms)?;
        Some(Fact {
            kind: template.kind,
            words,
        })
    }
}
