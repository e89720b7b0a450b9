//! What the check of a file comes to, and the row that it prints.
ghost use Rattle.std.specs.Prelude.{◌≡◌, Ok};
ghost use Rattle.std.specs.Option.{option_map};
ghost use Rattle.std.specs.Result.{result_and};
ghost use Rattle.lists.specs.Held.{held};
ghost use Rattle.facts.specs.Lengths.{lengths};
ghost use Rattle.facts_file.specs.Facts.{facts_file, facts_before, over, FactsLoaded};
ghost use Rattle.rules_file.specs.RuleRows.{rules_file};
ghost use Rattle.rules_file.specs.RulesWritten.{RulesLoaded};
ghost use Rattle.reader.specs.FileRules.{file_rules, rules_left};
ghost use Rattle.printing.specs.Print.{refuse_row, line_text};
ghost use Rattle.printing.specs.Checks.{outcome_of, print_of, check_print};

use crate::lines::refuse_row;
use crate::refused_type::Refused;
use facts::{Fact, Lengths, Words};
use lists::FixedList;
use reader::{FileRules, MOST_FACTS, Refusal, load_facts};

impl From<Refusal> for Refused {
    ghost from_gives = { λ r e. (e.refusal ≡ r) × (line_text e.line ≡ refuse_row r) };

    fn from(refusal: Refusal) -> Refused {
        let line = refuse_row(&refusal);
        Refused { refusal, line }
    }
}

/// Reads a file of rules; none for the file is a file that is not there. Where it is accepted, nothing is printed.
pub fn check_rules(file: Option<&[u8]>, rules: &mut FileRules<Lengths>) -> Result<(), Refused>
    ensures outcome { result_and (outcome_of result) (Ok (file_rules rules.new)) ≡ rules_file lengths.valid (option_map (λ x. x.now) file.entry) }
    ensures print { print_of result ≡ check_print (rules_file lengths.valid (option_map (λ x. x.now) file.entry)) }
    ensures rules { file_rules rules.new ≡ rules_left (rules_file lengths.valid (option_map (λ x. x.now) file.entry)) }
    ensures loaded { RulesLoaded lengths.valid (option_map (λ x. x.now) file.entry) (result_and (outcome_of result) (Ok (file_rules rules.new))) }
{
    Ok(rules.load(file)?)
}

/// Checks a file of facts; none for the file is a file that is not there.
/// Where it is accepted, the list has its facts, and nothing is printed.
pub fn check_facts(
    file: Option<&[u8]>,
    facts: &mut FixedList<Fact, MOST_FACTS>,
) -> Result<(), Refused>
    ensures outcome { result_and (outcome_of result) (Ok (held facts.new)) ≡ facts_file lengths.valid (option_map (λ x. x.now) file.entry) }
    ensures print { print_of result ≡ check_print (facts_file lengths.valid (option_map (λ x. x.now) file.entry)) }
    ensures facts { held facts.new ≡ facts_before lengths.valid (option_map (λ x. x.now) file.entry) }
    ensures items { facts.new.items ≡ over (facts_before lengths.valid (option_map (λ x. x.now) file.entry)) facts.old.items }
    ensures loaded { FactsLoaded lengths.valid (option_map (λ x. x.now) file.entry) (outcome_of result) (held facts.new) }
{
    Ok(load_facts::<Lengths>(file, facts)?)
}
