// The heat of a volume, and the cold of one (docs/FORMAT.md, "Heat and cold").
ghost use Rattle.std.specs.Prelude.{◌≡◌, ◌≤◌};
ghost use Rattle.water.specs.Table.{table_of};
ghost use Rattle.quantity.specs.Fractions.{floored};
ghost use Rattle.quantity.specs.Refusals.{refusal_number, first_number};
ghost use Rattle.water.specs.Heat.{most_millilitres, pair_heat, heat_rows, heat_of};
ghost use Rattle.water.specs.Theorems.{HeatExactly};

use crate::interpolation::enthalpy_rise;
use crate::pair::Pair;
use crate::parts::scaled_quotient;
use quantity::{Refusal, Temperature, first_refusal};

/// The largest volume whose heat is given, in mL: a cubic metre. A sample with more is refused (31).
pub const MOST_MILLILITRES: u64 = 1000000;

/// The heat in mJ, rounded down, of u mL of water between a supply and a return temperature, both in hundredths of °C (OIML R 75-1), or its cold
/// where the supply is the colder, with the volume measured at a place, 1 supply or 2 return, at a pressure of 6 or 16 bar. It refuses another place
/// (11), another pressure (77), a supply above the last degree of the pressure's table, 150.00 °C at 6 bar and 180.00 °C at 16 bar (70), a return
/// above it (71), and more than a million mL (31), the first of these that applies. Any numbers are answered: so it takes the five apart.
pub fn heat(
    u: u64,
    ts: Temperature,
    tr: Temperature,
    place: u64,
    pressure: u64,
) -> Result<u64, Refusal>
    ensures answer { result ≡ heat_of u ts tr place pressure }
    ensures number { refusal_number result ≡ first_number (heat_rows u ts tr place pressure) }
    ensures heat_exactly { HeatExactly u ts tr place pressure result }
{
    heat_by_rows(u, ts, tr, place, pressure)
}

// Its answer alone, by the rows that may refuse it.
fn heat_by_rows(
    u: u64,
    ts: Temperature,
    tr: Temperature,
    place: u64,
    pressure: u64,
) -> Result<u64, Refusal>
    ensures { result ≡ heat_of u ts tr place pressure }
{
    let pair = Pair::new(ts, tr, place, pressure)?;
    first_refusal(&[Refusal::Volume.when(MOST_MILLILITRES < u)])?;
    Ok(pair.floored_heat(u))
}

impl Pair {
    // The supply's enthalpy less the return's, or exchanged where the supply is below the return; the volume at the place either way.
    #[tactic(auto, unfolding(crate::specs::Heat::exact_heat, crate::specs::Heat::pair_heat))]
    fn floored_heat(self, u: u64) -> u64
        requires { u ≤ most_millilitres }
        ensures { result ≡ floored (pair_heat (table_of self.supply_water.pressure) u self.supply_water.temperature self.return_water.temperature self.place) }
    {
        let rise = if self.supply_water.temperature < self.return_water.temperature {
            enthalpy_rise(self.return_water, self.supply_water)
        } else {
            enthalpy_rise(self.supply_water, self.return_water)
        };
        scaled_quotient(1000000, u * rise, self.measured().volume())
    }
}
