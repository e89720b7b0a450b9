//! The number of a fault.
ghost use Rattle.std.specs.Prelude.{◌≡◌};
ghost use Rattle.engine.specs.Jobs.{create_fault_number};

use crate::fault_types::CreateFault;

impl CreateFault {
    /// The number by which a fault is named.
    // A method: `u8::from(fault)` would not say that it is the number of the fault.
    pub fn number(self) -> u8
        ensures { result ≡ create_fault_number self }
    {
        self as u8
    }
}
