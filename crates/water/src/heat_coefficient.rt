// The heat coefficient (docs/OPERATIONS.md, "Water: tables, heat coefficient, heat of a volume").
ghost use Rattle.std.specs.Prelude.{◌≡◌, ◌<◌};
ghost use Rattle.quantity.specs.Fractions.{floored};
ghost use Rattle.quantity.specs.Refusals.{refusal_number, first_of, first_number};
ghost use Rattle.water.specs.Table.{table_of};
ghost use Rattle.water.specs.Pair.{at_place};
ghost use Rattle.water.specs.Coefficient.{order_rows, coefficient_rows, coefficient_of, exact_coefficient};
ghost use Rattle.water.specs.Theorems.{CoefficientExactly};

use crate::interpolation::enthalpy_rise;
use crate::pair::Pair;
use crate::parts::scaled_quotient;
use quantity::{Refusal, Temperature, first_refusal};

/// The heat coefficient k of OIML R 75-1 in J/(m³ K), rounded down, of a supply and a return temperature, both in hundredths of °C, with the volume
/// measured at a place, 1 supply or 2 return, at a pressure of 6 or 16 bar. It refuses another place (11), another pressure (77), a supply above the
/// last degree of the pressure's table, 150.00 °C at 6 bar and 180.00 °C at 16 bar (70), a return above it (71), a supply below the return (36), and
/// two that are equal (37), the first of these that applies. Any numbers are answered: so it takes the four apart, and `Pair` holds them once they
/// are tested.
pub fn coefficient(
    ts: Temperature,
    tr: Temperature,
    place: u64,
    pressure: u64,
) -> Result<u64, Refusal>
    ensures answer { result ≡ coefficient_of ts tr place pressure }
    ensures number { refusal_number result ≡ first_number (coefficient_rows ts tr place pressure) }
    ensures coefficient_exactly { CoefficientExactly ts tr place pressure result }
{
    coefficient_by_rows(ts, tr, place, pressure)
}

// Its answer alone, by the rows that may refuse it.
fn coefficient_by_rows(
    ts: Temperature,
    tr: Temperature,
    place: u64,
    pressure: u64,
) -> Result<u64, Refusal>
    ensures { result ≡ coefficient_of ts tr place pressure }
{
    let pair = Pair::new(ts, tr, place, pressure)?;
    order_refusal(ts, tr)?;
    Ok(pair.floored_coefficient())
}

// The supply has to be the warmer (36, 37).
#[tactic(auto, using(crate::proofs::Passed::equal_exactly))]
fn order_refusal(ts: Temperature, tr: Temperature) -> Result<(), Refusal>
    ensures { result ≡ first_of (order_rows ts tr) }
{
    first_refusal(&[
        Refusal::SupplyBelowReturn.when(ts < tr),
        Refusal::DifferenceTooSmall.when(ts == tr),
    ])
}

impl Pair {
    // The exact coefficient, rounded down, with the volume at the place. 10^11 is taken as 1000 × 10^8, so that no product passes 64 bits.
    #[tactic(auto, unfolding(crate::specs::Coefficient::exact_coefficient))]
    fn floored_coefficient(self) -> u64
        requires { self.return_water.temperature.0 < self.supply_water.temperature.0 }
        ensures { result ≡ floored (exact_coefficient (table_of self.supply_water.pressure) self.supply_water.temperature self.return_water.temperature
            (at_place self.place self.supply_water.temperature self.return_water.temperature)) }
    {
        let rise = enthalpy_rise(self.supply_water, self.return_water);
        let difference = self
            .supply_water
            .temperature
            .distance(self.return_water.temperature);
        scaled_quotient(
            1000,
            100000000 * rise,
            self.measured().volume() * difference.0,
        )
    }
}
