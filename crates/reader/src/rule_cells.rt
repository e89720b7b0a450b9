//! The fields of a row of rules, by number.
ghost use Rattle.std.specs.Prelude.{◌≡◌, ◌≤◌, IfSome};
ghost use Rattle.std.specs.Option.{option_map};
ghost use Rattle.rows.specs.Refusals.{refused_as, field_refusal, whole_row};
ghost use Rattle.rules_file.specs.RuleRows.{at, from, unused};
ghost use Rattle.reader.specs.RuleScan.{cells, place_at, texts_at, empty_field};

use crate::row_types::{Cell, RuleRow, WIDTH};
use rows::{FieldFault, Place, read_field};

impl<'a> RuleRow<'a> {
    // The row of this number at the beginning of the bytes; none where it has fewer than six fields.
    // `as`, here and below: a field's number is at most 6. Not one loop with `facts_file`, which judges each field as it reads it.
    pub(crate) fn read(bytes: &'a [u8], row: u32) -> Option<RuleRow<'a>>
        ensures cells { option_map cells result ≡ texts_at 6 bytes.now }
        ensures row { IfSome result (λ x. x.row ≡ row) }
    {
        let mut texts: [&'a [u8]; WIDTH] = [&[]; WIDTH];
        let mut rest = bytes;
        for (i, text) in texts.iter_mut().enumerate() {
            let field = i as u32 + 1;
            let (field, more) = read_field(rest, Place { row, field })?;
            *text = field.text();
            rest = more;
        }
        Some(RuleRow { row, texts })
    }

    // The place of the row as a whole.
    pub(crate) fn whole(&self) -> Place
        ensures { result ≡ whole_row self.now.row }
    {
        Place::whole_row(self.row)
    }

    // The field of this number, from 1 to 6. Each function asks for a range of its own, so no type of a number has them all.
    pub(crate) fn cell(&self, number: usize) -> Cell<'a>
        requires { (1 ≤ number) × (number ≤ 6) }
        ensures text { result.text.now ≡ at number (cells self.now) }
        ensures place { result.place ≡ place_at self.now.row number }
    {
        Cell {
            text: self.texts[number - 1],
            place: Place {
                row: self.row,
                field: number as u32,
            },
        }
    }

    // The fields from this number on are empty.
    pub(crate) fn unused_from(&self, first: usize) -> Result<(), FieldFault>
        requires { (1 ≤ first) × (first ≤ 7) }
        ensures { refused_as field_refusal result ≡ unused self.now.row first (from first (cells self.now)) }
    {
        // Over numbers, since a fault names its field by one: an iterator of the texts would count them beside it.
        for number in first..WIDTH + 1 {
            self.cell(number).empty()?;
        }
        Ok(())
    }
}

impl<'a> Cell<'a> {
    fn empty(self) -> Result<(), FieldFault>
        ensures { result ≡ empty_field self.entry.place self.entry.text.now }
    {
        if self.text.is_empty() {
            Ok(())
        } else {
            Err(FieldFault { place: self.place })
        }
    }
}
