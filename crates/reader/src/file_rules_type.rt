//! The rules of a file.
ghost use Rattle.std.specs.Prelude.{◌≡◌, Ok};
ghost use Rattle.rules_file.specs.RuleRows.{finished};
ghost use Rattle.reader.specs.RuleScan.{stage_seen, all_rules};

use crate::stage_type::Stage;

/// The rules that were read from a file: none before, and none where the file was refused. They may be closed at any time.
#[derive(Drop)]
pub struct FileRules<W> {
    pub(crate) stage: Stage<W>,
    ghost ended: { finished (stage_seen stage) ≡ Ok (all_rules (stage_seen stage)) },
}
