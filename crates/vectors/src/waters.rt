// The water tables and the heat coefficient against outside figures.
use crate::answers::Unanswered;
use crate::text::{number, numbers};
use quantity::{Refusal, Temperature};
use std::io;
use std::io::Write;

// `K,ts,tr,place,pressure`: K and the coefficient, or X and the refusal.
pub(crate) fn of_pair(out: &mut impl Write, line: &[u8]) -> Result<(), Unanswered> {
    let value = coefficient_of(line)?;
    Ok(write!(out, ",K,{value}")?)
}

// `Q,ts,tr,place,pressure,unit`: the coefficient in a published unit, or X and the refusal.
pub(crate) fn of_published(out: &mut impl Write, line: &[u8]) -> Result<(), Unanswered> {
    let value = coefficient_of(line)?;
    Ok(write!(out, ",{}", in_units(value, number(line, 5)))?)
}

// The coefficient of the two temperatures, the place and the pressure at the front of a line.
fn coefficient_of(line: &[u8]) -> Result<u64, Refusal> {
    let [ts, tr, place, pressure] = numbers::<4>(line, 1);
    water::coefficient(Temperature(ts), Temperature(tr), place, pressure)
}

// `W,degree,pressure,unit of enthalpy,unit of volume`: the entry of the pressure's table, in the units in which the figures are published.
pub(crate) fn of_degree(out: &mut impl Write, line: &[u8]) -> io::Result<()> {
    let [degree, pressure, enthalpy_unit, volume_unit] = numbers::<4>(line, 1);
    match water::table_entry(degree, pressure) {
        Some(entry) => {
            let enthalpy = in_units(entry.enthalpy, enthalpy_unit);
            let volume = in_units(entry.volume, volume_unit);
            write!(out, ",{enthalpy},{volume}")
        }
        None => out.write_all(b",outside"),
    }
}

// How many units a value is, to the nearest one and a half upwards, for a value below 10^12 and an even unit; 0 where there is no unit.
fn in_units(value: u64, unit: u64) -> u64 {
    (value % 1000000000000 + unit / 2)
        .checked_div(unit)
        .unwrap_or(0)
}
