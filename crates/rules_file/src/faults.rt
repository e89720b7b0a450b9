//! How a fault goes up: from a field to its row, and from a row to the refusal of the file.
ghost use Rattle.std.specs.Prelude.{◌≡◌};
ghost use Rattle.rules_file.specs.RuleRefusals.{row_refusal};
ghost use Rattle.rules_file.specs.declared.fault_types.RowFault.TheVariants.{Field};

use crate::fault_types::RowFault;
use rows::{FieldFault, Layer, Place, Refusal};

impl From<FieldFault> for RowFault {
    ghost from_gives = { λ e r. r ≡ Field e };

    fn from(field: FieldFault) -> RowFault {
        RowFault::Field(field)
    }
}

impl From<RowFault> for Refusal {
    ghost from_gives = { λ e r. r ≡ row_refusal e };

    fn from(fault: RowFault) -> Refusal {
        match fault {
            RowFault::Malformed(row) => Refusal::at(7, Place::whole_row(row), Layer::Reader),
            RowFault::Field(fault) => Refusal::at(8, fault.place, Layer::Reader),
            RowFault::Set(fault, place) => Refusal::at(fault.number(), place, Layer::RuleSet),
        }
    }
}
