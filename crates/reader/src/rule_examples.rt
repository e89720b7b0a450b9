//! The worked example's file of rules, loaded; its contract has this and other files with what they come to.
ghost use Rattle.std.specs.Prelude.{◌≡◌, Ok};
ghost use Rattle.reader.specs.RuleScan.{closed_result};
ghost use Rattle.rules_file.specs.RuleExamples.{follow, follow_file, FilesOfRules};

use crate::rule_rows::load_rules;
use facts::Lengths;
use rows::Refusal;
use rules::ClosedSet;

fn looped_rules_file() -> &'static [u8]
    ensures { result.now ≡ follow_file }
{
    b"rule,,,,,\r\nkeep,1,A,0,0,\r\ndrop,1,A,0,0,\r\nrule,,,,,\r\nkeep,1,A,0,0,\r\ndrop,2,A,B,C,\r\ngive,1,B,0,0,\r\n"
}

/// Loads the rules of the looped line: of two equal points one is enough, and a segment from a reached point reaches the other.
pub fn load_looped_rules() -> Result<ClosedSet<Lengths>, Refusal>
    ensures answer { closed_result result ≡ Ok follow }
    ensures computed { FilesOfRules }
{
    load_rules::<Lengths>(Some(looped_rules_file()))
}
