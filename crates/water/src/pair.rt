// A supply and a return temperature, the place where the volume is measured, and the pressure.
ghost use Rattle.std.specs.Prelude.{◌≡◌, Ok, Err, IfOk, MatchResult};
ghost use Rattle.quantity.specs.Refusals.{first_of};
ghost use Rattle.water.specs.Table.{asked_pressure};
ghost use Rattle.water.specs.Pair.{at_place, pair_rows};

use crate::interpolation::{WaterAt, water_at};
use crate::pressure::Pressure;
use quantity::{End, Refusal, Role, Temperature, Unit, end_refusal, first_refusal, is_outside};

// The water in the supply and in the return, both at one pressure, and the place.
#[derive(Clone, Copy)]
pub(crate) struct Pair {
    pub(crate) supply_water: WaterAt,
    pub(crate) return_water: WaterAt,
    // 1 for the supply, 2 for the return. It stays a number, as it stands on a card, so that 11 is a row like the others.
    pub(crate) place: u64,
    ghost one_pressure: { return_water.pressure ≡ supply_water.pressure },
}

impl Pair {
    // The two waters, or the first of the refusals 11, 77, 70 and 71 that applies.
    pub(crate) fn new(
        ts: Temperature,
        tr: Temperature,
        place: u64,
        pressure: u64,
    ) -> Result<Pair, Refusal>
        ensures rows { MatchResult result (λ _. first_of (pair_rows ts tr place pressure) ≡ Ok tt) (λ r. first_of (pair_rows ts tr place pressure) ≡ Err r) }
        ensures pair { IfOk result (λ p. (p.supply_water.temperature ≡ ts) × (p.return_water.temperature ≡ tr) × (p.place ≡ place)
            × (p.supply_water.pressure ≡ asked_pressure pressure)) }
    {
        pair_refusal(ts, tr, place, pressure)?;
        let at = asked_pressure(pressure);
        Ok(Pair {
            supply_water: water_at(at, ts),
            return_water: water_at(at, tr),
            place,
        })
    }

    // The water at the place.
    #[tactic(auto, unfolding(crate::specs::Pair::at_place))]
    pub(crate) fn measured(self) -> WaterAt
        ensures { (result.temperature ≡ at_place self.place self.supply_water.temperature self.return_water.temperature)
            × (result.pressure ≡ self.supply_water.pressure) }
    {
        if self.place == 2 {
            self.return_water
        } else {
            self.supply_water
        }
    }
}

// The rows that the coefficient and the heat of a volume have in common.
#[tactic(auto, using(crate::proofs::Passed::last_most))]
fn pair_refusal(ts: Temperature, tr: Temperature, place: u64, pressure: u64) -> Result<(), Refusal>
    ensures { result ≡ first_of (pair_rows ts tr place pressure) }
{
    let top = Temperature::whole(asked_pressure(pressure).last_degree() as u32);
    first_refusal(&[
        Refusal::Place.when(is_outside(place, 1, 2)),
        Refusal::Pressure.when(Pressure::try_from(pressure).is_err()),
        end_refusal(Role::Supply, End::High).when(top < ts),
        end_refusal(Role::Return, End::High).when(top < tr),
    ])
}

// The pressure whose table is asked. A number that names none stands for 16 bar, and is refused with 77.
fn asked_pressure(field: u64) -> Pressure
    ensures { result ≡ asked_pressure field }
{
    Pressure::try_from(field).unwrap_or(Pressure::Bar16)
}
