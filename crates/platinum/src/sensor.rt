// The sensor kinds, and their resistances at 0 °C (IEC 60751).
ghost use Rattle.std.specs.Prelude.{◌≡◌};
ghost use Rattle.platinum.specs.Sensor.{sensor_of, resistance_of};

use crate::reading::Unmeasured;

/// A kind of platinum sensor (IEC 60751), by its resistance at 0 °C.
#[derive(Clone, Copy, Debug, PartialEq, Eq)]
pub enum Sensor {
    /// 100 ohm
    Pt100,
    /// 500 ohm
    Pt500,
    /// 1000 ohm
    Pt1000,
}

/// The kind that a number names, as it stands on a card: the resistance at 0 °C in ohm. Any other number than 100, 500 and 1000 names none
/// (`NoSensor`, 12).
impl TryFrom<u64> for Sensor {
    type Error = Unmeasured;

    ghost try_from_gives = { λ field r. r ≡ sensor_of field };

    #[tactic(auto, unfolding(crate::specs::Sensor::sensor_of))]
    fn try_from(field: u64) -> Result<Self, Unmeasured> {
        match field {
            Sensor::OHM_PT100 => Ok(Sensor::Pt100),
            Sensor::OHM_PT500 => Ok(Sensor::Pt500),
            Sensor::OHM_PT1000 => Ok(Sensor::Pt1000),
            _ => Err(Unmeasured::NoSensor),
        }
    }
}

// The resistances are constants and no discriminants of the enum, since they have a unit (CONTRIBUTING.md).
impl Sensor {
    /// The resistance of a Pt 100 at 0 °C, in ohm.
    pub const OHM_PT100: u64 = 100;

    /// The resistance of a Pt 500 at 0 °C, in ohm.
    pub const OHM_PT500: u64 = 500;

    /// The resistance of a Pt 1000 at 0 °C, in ohm.
    pub const OHM_PT1000: u64 = 1000;

    /// The resistance at 0 °C, in ohm.
    #[tactic(auto, unfolding(crate::specs::Sensor::resistance_of))]
    pub fn resistance(self) -> u64
        ensures { result ≡ resistance_of self }
    {
        match self {
            Sensor::Pt100 => Sensor::OHM_PT100,
            Sensor::Pt500 => Sensor::OHM_PT500,
            Sensor::Pt1000 => Sensor::OHM_PT1000,
        }
    }
}
