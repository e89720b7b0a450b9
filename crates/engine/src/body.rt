//! The body of a rule: the facts that it gives for what its all heads took.
ghost use Rattle.std.specs.Prelude.{◌≡◌, ◌+◌, ◌*◌, ◌≤◌, ◌<◌, [], map, flat_map, length, true, is_some};
ghost use Rattle.lists.specs.Held.{held};
ghost use Rattle.rules.specs.Rules.{all, rule_seen};
ghost use Rattle.stores.specs.Store.{facts, read};
ghost use Rattle.machine.specs.Fitting.{given, all_values, body};
ghost use Rattle.engine.specs.Letters.{setting_in};
ghost use Rattle.engine.specs.Searching.{pairs_at};
ghost use Rattle.engine.specs.Taking.{with_given, Gives, IsBody, Took, all_taken, labels_over, given_over, Held};

use crate::body_type::Body;
use crate::found::Found;
use crate::letters::Letters;
use crate::stack::GOALS;
use crate::taking::AllTaken;
use crate::terms::Scope;
use facts::{Fact, Words};
use rules::{GiveAll, Template};
use stores::Store;

fn add(body: &mut Body, fact: Fact)
    requires { body.old.count < 4000 }
    ensures { body.new ≡ with_given body.old fact }
{
    // By hand: with `get_mut` the proof of the body stays open, as it knows no fact after the write.
    if body.count < GOALS {
        body.facts[body.count] = fact;
    }
    body.count += 1;
}

// By hand, here and below: the body is lent and filled in place, since an answer would copy its 512 facts and nothing is allocated.
fn give_each<W: Words>(letters: &Letters, templates: &[Template], body: &mut Body) -> Option<()>
    requires { body.old.count + length templates.now ≤ 4000 }
    ensures { Gives (all_values (map (given W.system (setting_in letters.now) []) templates.now)) body.old body.new result }
{
    let scope = Scope {
        letters,
        taken: &[],
    };
    for template in templates {
        add(body, scope.fill::<W>(template)?);
    }
    Some(())
}

fn give_over<W: Words, S: Store>(
    store: &S,
    letters: &Letters,
    template: &Template,
    labels: &[u32],
    body: &mut Body,
) -> Option<()>
    requires few { body.old.count + length labels.now ≤ 4000 }
    requires held { all (λ n. is_some (read n (S.meaning store.now).pairs)) labels.now ≡ true }
    ensures { Gives (all_values (map (λ f. given W.system (setting_in letters.now) f.words template.now) (facts (pairs_at (S.meaning store.now).pairs labels.now)))) body.old body.new result }
{
    for label in labels {
        let taken = store.read(*label)?;
        let scope = Scope {
            letters,
            taken: &taken.words,
        };
        add(body, scope.fill::<W>(template)?);
    }
    Some(())
}

/// The labels that the all head with a number from 1 took.
fn labels_over<'a>(over: u8, taken: &'a AllTaken) -> &'a [u32]
    ensures labels { result.now ≡ labels_over over taken.now }
    ensures bound { length result.now ≤ 1024 }
{
    match taken.get(usize::from(over).saturating_sub(1)) {
        Some(labels) => labels.as_slice(),
        None => &[],
    }
}

fn give_all<W: Words, S: Store>(
    store: &S,
    letters: &Letters,
    givealls: &[GiveAll],
    taken: &AllTaken,
    body: &mut Body,
) -> Option<()>
    requires few { body.old.count + 1024 * length givealls.now ≤ 4000 }
    requires held { Held (S.meaning store.now).pairs taken.now }
    ensures { Gives (all_values (flat_map (given_over W.system (setting_in letters.now) (S.meaning store.now).pairs taken.now) givealls.now)) body.old body.new result }
{
    for giveall in givealls {
        let labels = labels_over(giveall.over, taken);
        give_over::<W, S>(store, letters, &giveall.each, labels, body)?;
    }
    Some(())
}

impl Found<'_> {
    /// The body is made of the facts that the rule gives for what its all heads took: first all of `give`, then those of each
    /// `giveall` by rising label. None where a term has no value.
    pub(crate) fn body_of<W: Words, S: Store>(
        self,
        store: &S,
        taken: &AllTaken,
        made: &mut Body,
    ) -> Option<()>
        requires { Took (all_taken W.system (setting_in self.choice.now.letters) (rule_seen self.rule.now) (held self.choice.now.labels) (S.meaning store.now).pairs) taken.now }
        ensures { IsBody (body W.system (setting_in self.entry.choice.now.letters) (rule_seen self.entry.rule.now) (map facts (all_taken W.system (setting_in self.entry.choice.now.letters) (rule_seen self.entry.rule.now) (held self.entry.choice.now.labels) (S.meaning store.now).pairs))) made.new result }
    {
        let letters = &self.choice.letters;
        made.count = 0;
        give_each::<W>(letters, self.rule.gives.as_slice(), made)?;
        give_all::<W, S>(store, letters, self.rule.givealls.as_slice(), taken, made)
    }
}
