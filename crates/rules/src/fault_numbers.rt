//! The number of each fault.
ghost use Rattle.std.specs.Prelude.{◌≡◌};
ghost use Rattle.rules.specs.Writing.{fault_number};

use crate::rule_types::RuleFault;

impl RuleFault {
    /// The number by which a fault is named.
    // A method: `u8::from(fault)` would not say that it is the number of the fault.
    pub fn number(self) -> u8
        ensures { result ≡ fault_number self }
    {
        self as u8
    }
}
