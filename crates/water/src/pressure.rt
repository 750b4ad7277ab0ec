// The pressures at which a heat meter works, and the last degree of each one's table (docs/OPERATIONS.md, "Water: tables, heat coefficient, heat of a
// volume").
ghost use Rattle.std.specs.Prelude.{◌≡◌};
ghost use Rattle.water.specs.Pressure.{pressure_of, last_of};

use quantity::{LAST_DEGREE, Refusal};

/// The pressure of the water that a meter counts: there is a water table for each.
#[derive(Clone, Copy, Debug, PartialEq, Eq)]
pub enum Pressure {
    /// 6 bar, which are 0.6 MPa
    Bar6,
    /// 16 bar, which are 1.6 MPa (OIML R 75-1, Annex A)
    Bar16,
}

/// The pressure that a number names, as it stands on a card, in bar. Any other number than 6 and 16 names none (77).
impl TryFrom<u64> for Pressure {
    type Error = Refusal;

    ghost try_from_gives = { λ field r. r ≡ pressure_of field };

    #[tactic(auto, unfolding(crate::specs::Pressure::pressure_of))]
    fn try_from(field: u64) -> Result<Self, Refusal> {
        match field {
            Pressure::BAR_6 => Ok(Pressure::Bar6),
            Pressure::BAR_16 => Ok(Pressure::Bar16),
            _ => Err(Refusal::Pressure),
        }
    }
}

// The numbers are constants and no discriminants of the enum, since they have a unit (CONTRIBUTING.md).
impl Pressure {
    /// The lower pressure, in bar.
    pub const BAR_6: u64 = 6;

    /// The higher pressure, in bar.
    pub const BAR_16: u64 = 16;

    // The last whole degree of the table at 6 bar.
    pub(crate) const LAST_AT_6_BAR: u64 = 150;

    /// The last whole degree Celsius of the pressure's table: 150 at 6 bar, 180 at 16 bar.
    #[tactic(auto, unfolding(crate::specs::Pressure::last_of))]
    pub fn last_degree(self) -> u64
        ensures { result ≡ last_of self }
    {
        match self {
            Pressure::Bar6 => Pressure::LAST_AT_6_BAR,
            Pressure::Bar16 => LAST_DEGREE,
        }
    }
}
