// The registers of a meter, heat and cold: which one a sample belongs to, and what stands in it.
ghost use Rattle.std.specs.Prelude.{◌≡◌};
ghost use Rattle.meter.specs.Register.{register_of, register_by};

use crate::state::Meter;
use quantity::Temperature;

/// The name of a register. Each counts mJ (docs/OPERATIONS.md, "The registers' bounds").
#[derive(Clone, Copy, Debug, PartialEq, Eq)]
pub enum Register {
    /// the heat of accepted samples whose supply is not colder than their return
    Heat,
    /// the cold of those whose supply is colder than their return, which edition 3 alone accepts
    Cold,
}

impl Register {
    // The register whose own a sample of these two temperatures is.
    pub(crate) fn by(supply_temperature: Temperature, return_temperature: Temperature) -> Register
        ensures { result ≡ register_by supply_temperature return_temperature }
    {
        if supply_temperature < return_temperature {
            Register::Cold
        } else {
            Register::Heat
        }
    }
}

impl Meter {
    // What stands in a register, in mJ.
    pub(crate) fn register_of(self, register: Register) -> u64
        ensures { result ≡ register_of register self }
    {
        match register {
            Register::Heat => self.heat_register,
            Register::Cold => self.cold_register,
        }
    }
}
