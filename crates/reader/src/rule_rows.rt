//! The loader of `rules.csv`: from the file's bytes to a closed set, or to the refusal of its first faulty row.
ghost use Rattle.std.specs.Prelude.{◌≡◌, ◌≤◌, [], length, OnOk, Ok};
ghost use Rattle.std.specs.Option.{option_map};
ghost use Rattle.std.specs.Result.{result_and};
ghost use Rattle.rules.specs.Sets.{closed_rules};
ghost use Rattle.rows.specs.Csv.{rows};
ghost use Rattle.rows.specs.Refusals.{refused_as};
ghost use Rattle.rules_file.specs.RuleRefusals.{row_refusal, NamedRules};
ghost use Rattle.rules_file.specs.RuleRows.{no_rule, finished, write_rows, rules_file};
ghost use Rattle.reader.specs.RuleScan.{RowRead, closed_result, stage_seen, all_rules, written};
ghost use Rattle.reader.specs.FileRules.{file_rules, rules_left};
ghost use Rattle.rules_file.specs.RulesWritten.{RulesLoaded};

use crate::file_rules_type::FileRules;
use crate::row_types::{RuleRow, WIDTH};
use crate::stage_type::Stage;
use facts::Words;
use rows::{Refusal, file_bytes, row_of_width};
use rules::ClosedSet;
use rules_file::RowFault;

// The row at the beginning of the bytes, and the bytes behind it: 7 where it has not six fields.
fn next_row<'a>(bytes: &'a [u8], row: u32) -> Result<(RuleRow<'a>, &'a [u8]), RowFault>
    ensures { RowRead row bytes.now result }
{
    let rest = row_of_width(bytes, WIDTH).ok_or(RowFault::Malformed(row))?;
    let cells = RuleRow::read(bytes, row).ok_or(RowFault::Malformed(row))?;
    Ok((cells, rest))
}

// The rows are numbered by hand, as in `row_count`: an iterator's item would carry the number, the bytes and the width that are at hand.
fn load_rows<W: Words>(stage: &mut Stage<W>, bytes: &[u8]) -> Result<(), RowFault>
    requires few { length bytes.now ≤ 65536 }
    requires none { stage_seen stage.old ≡ no_rule }
    ensures rules { refused_as row_refusal (written result (all_rules (stage_seen stage.new))) ≡ write_rows W.Words.system.valid 1 no_rule (rows bytes.now) }
    ensures ended { OnOk result (finished (stage_seen stage.new) ≡ Ok (all_rules (stage_seen stage.new))) }
{
    let mut rest = bytes;
    let mut row = 1;
    while !rest.is_empty() {
        let (cells, more) = next_row(rest, row)?;
        stage.write_row(&cells)?;
        rest = more;
        row += 1;
    }
    stage.may_end()
}

// Reads the rows of a file into a stage where no rule is begun. A refusal leaves the stage as far as it was written.
fn load_file<W: Words>(stage: &mut Stage<W>, file: Option<&[u8]>) -> Result<(), Refusal>
    requires { stage_seen stage.old ≡ no_rule }
    ensures answer { result_and result (Ok (all_rules (stage_seen stage.new))) ≡ rules_file W.Words.system.valid (option_map (λ x. x.now) file.entry) }
    ensures ended { OnOk result (finished (stage_seen stage.new) ≡ Ok (all_rules (stage_seen stage.new))) }
{
    let bytes = file_bytes(file)?;
    load_rows(stage, bytes)?;
    Ok(())
}

// The same, whatever the stage was; where the file is refused, it is as before a first row.
fn load_stage<W: Words>(stage: &mut Stage<W>, file: Option<&[u8]>) -> Result<(), Refusal>
    ensures answer { result_and result (Ok (all_rules (stage_seen stage.new))) ≡ rules_file W.Words.system.valid (option_map (λ x. x.now) file.entry) }
    ensures rules { all_rules (stage_seen stage.new) ≡ rules_left (rules_file W.Words.system.valid (option_map (λ x. x.now) file.entry)) }
    ensures ended { finished (stage_seen stage.new) ≡ Ok (all_rules (stage_seen stage.new)) }
{
    *stage = Stage::Before;
    let loaded = load_file(stage, file);
    if loaded.is_err() {
        *stage = Stage::Before;
    }
    loaded
}

impl<W: Words> FileRules<W> {
    /// No rules.
    pub fn new() -> FileRules<W>
        ensures { file_rules result ≡ [] }
    {
        FileRules {
            stage: Stage::Before,
        }
    }

    /// Reads the rules of a file, whatever was read before; none for the file is a file that is not there. Where it is refused, there are no
    /// rules.
    pub fn load(&mut self, file: Option<&[u8]>) -> Result<(), Refusal>
        ensures answer { result_and result (Ok (file_rules self.new)) ≡ rules_file W.Words.system.valid (option_map (λ x. x.now) file.entry) }
        ensures rules { file_rules self.new ≡ rules_left (rules_file W.Words.system.valid (option_map (λ x. x.now) file.entry)) }
        ensures named { NamedRules result }
        ensures loaded { RulesLoaded W.Words.system.valid (option_map (λ x. x.now) file.entry) (result_and result (Ok (file_rules self.new))) }
    {
        load_stage(&mut self.stage, file)
    }

    /// The rules in a closed set. Not answered by `load` in its result, which would be moved with the whole set in it.
    pub fn close(self) -> ClosedSet<W>
        ensures { closed_rules result ≡ file_rules self }
    {
        let FileRules { stage } = self;
        stage.ended().close()
    }
}

/// Reads the rules of a file into a set and closes it; none for the file is a file that is not there.
pub fn load_rules<W: Words>(file: Option<&[u8]>) -> Result<ClosedSet<W>, Refusal>
    ensures answer { closed_result result ≡ rules_file W.Words.system.valid (option_map (λ x. x.now) file.entry) }
    ensures named { NamedRules result }
    ensures loaded { RulesLoaded W.Words.system.valid (option_map (λ x. x.now) file.entry) (closed_result result) }
{
    let mut rules = FileRules::new();
    rules.load(file)?;
    Ok(rules.close())
}
