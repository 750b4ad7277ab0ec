// H(t) and V(t): 100 times what lies between two entries of a table.
ghost use Rattle.std.specs.Prelude.{◌≡◌, ◌+◌, ◌-◌, ◌*◌, ◌<◌, ◌≤◌, length, get_or};
ghost use Rattle.water.specs.Pressure.{last_of};
ghost use Rattle.water.specs.Table.{table_of};
ghost use Rattle.water.specs.Interpolation.{interpolated, enthalpy_at, volume_at};

use crate::pressure::Pressure;
use quantity::Temperature;

// Water at a pressure and at a temperature of its table.
#[derive(Clone, Copy)]
pub(crate) struct WaterAt {
    pub(crate) pressure: Pressure,
    pub(crate) temperature: Temperature,
    ghost in_table: { temperature.0 ≤ 100 * last_of pressure },
}

// H in 10^-2 mJ/kg and V in 10^-14 m³/kg, each worked out where it is asked, with the bounds that keep the code's products in range.
impl WaterAt {
    pub(crate) fn enthalpy(self) -> u64
        ensures is_enthalpy { result ≡ enthalpy_at (table_of self.pressure) self.temperature }
        ensures most_enthalpy { result ≤ 80000000000 }
    {
        let (enthalpies, _) = self.pressure.columns();
        interpolate(enthalpies, self.temperature.0)
    }

    pub(crate) fn volume(self) -> u64
        ensures is_volume { result ≡ volume_at (table_of self.pressure) self.temperature }
        ensures least_volume { 90000000000 ≤ result }
        ensures most_volume { result ≤ 113000000000 }
    {
        let (_, volumes) = self.pressure.columns();
        interpolate(volumes, self.temperature.0)
    }
}

// The water at a pressure and a temperature. What is done with it need not ask again whether the table has the temperature.
pub(crate) fn water_at(pressure: Pressure, temperature: Temperature) -> WaterAt
    requires { temperature.0 ≤ 100 * last_of pressure }
    ensures { (result.pressure ≡ pressure) × (result.temperature ≡ temperature) }
{
    WaterAt {
        pressure,
        temperature,
    }
}

// Of the entries of any of the arrays, at hundredths of a degree.
#[tactic(auto, using(crate::proofs::Interpolated::below_last, crate::proofs::Interpolated::from_last))]
fn interpolate(entries: &[u32], t: u64) -> u64
    requires { t < 100 * length entries.now }
    ensures { result ≡ interpolated (λ d. get_or entries.now d 0) (length entries.now - 1) t }
{
    let d = (t / 100) as usize;
    match entries.get(d + 1) {
        Some(next) => mixed(entries[d], *next, t % 100),
        None => 100 * u64::from(entries[d]),
    }
}

// f hundredths of the way from an entry's number to the next one's.
fn mixed(low: u32, high: u32, f: u64) -> u64
    requires { f < 100 }
    ensures { result ≡ (100 - f) * low + f * high }
{
    (100 - f) * u64::from(low) + f * u64::from(high)
}

// H(warm) − H(cold), in 10^-2 mJ/kg, at one pressure.
pub(crate) fn enthalpy_rise(warm: WaterAt, cold: WaterAt) -> u64
    requires { (cold.pressure ≡ warm.pressure) × (cold.temperature.0 ≤ warm.temperature.0) }
    ensures rise { result ≡ enthalpy_at (table_of warm.pressure) warm.temperature - enthalpy_at (table_of warm.pressure) cold.temperature }
    ensures most_rise { result ≤ 80000000000 }
{
    warm.enthalpy() - cold.enthalpy()
}
