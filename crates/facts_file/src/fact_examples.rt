//! The worked example's file of facts, loaded; its contract has this and other files with what they come to.
ghost use Rattle.std.specs.Prelude.{◌≡◌, Ok};
ghost use Rattle.lists.specs.Held.{held};
ghost use Rattle.facts_file.specs.Facts.{over};
ghost use Rattle.facts_file.specs.FactExamples.{looped_line, looped_line_file, FilesOfFacts};

use crate::fact_rows::{MOST_FACTS, load_facts};
use facts::{Fact, Lengths};
use lists::FixedList;
use rows::Refusal;

fn looped_line_file() -> &'static [u8]
    ensures { result.now ≡ looped_line_file }
{
    b"2,10,20,500\r\n2,20,10,500\r\n1,10,0,0\r\n"
}

/// Loads the looped line: two segments, one there and one back, and a launcher.
pub fn load_looped_line(facts: &mut FixedList<Fact, MOST_FACTS>) -> Result<(), Refusal>
    ensures answer { result ≡ Ok tt }
    ensures facts { held facts.new ≡ looped_line }
    ensures items { facts.new.items ≡ over looped_line facts.old.items }
    ensures computed { FilesOfFacts }
{
    load_facts::<Lengths>(Some(looped_line_file()), facts)
}
