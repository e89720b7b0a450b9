//! How a fault goes up: from a field to its row, and from a row to the refusal of the file.
ghost use Rattle.std.specs.Prelude.{◌≡◌};
ghost use Rattle.facts_file.specs.FactRefusals.{fact_refusal};
ghost use Rattle.facts_file.specs.declared.fault_types.FactFault.TheVariants.{Field};

use crate::fault_types::FactFault;
use rows::{FieldFault, Layer, Place, Refusal};

impl From<FieldFault> for FactFault {
    ghost from_gives = { λ e r. r ≡ Field e };

    fn from(field: FieldFault) -> FactFault {
        FactFault::Field(field)
    }
}

impl From<FactFault> for Refusal {
    ghost from_gives = { λ e r. r ≡ fact_refusal e };

    fn from(fault: FactFault) -> Refusal {
        match fault {
            FactFault::Malformed(row) => Refusal::at(7, Place::whole_row(row), Layer::Reader),
            FactFault::TooMany(row) => Refusal::at(11, Place::whole_row(row), Layer::Job),
            FactFault::Field(fault) => Refusal::at(8, fault.place, Layer::Reader),
            FactFault::Kind(place) => Refusal::at(1, place, Layer::Job),
            FactFault::Word(place) => Refusal::at(2, place, Layer::Job),
        }
    }
}
