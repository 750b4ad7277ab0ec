// The temperature operation on outside readings.
use crate::answers::{Unanswered, put_refusal};
use crate::text::numbers;
use platinum::{Sensor, Unmeasured};
use quantity::{Difference, Role, Temperature, Unit};
use std::io;
use std::io::Write;

// `T,sensor,reading`: T and the temperature, or X and the refusal.
pub(crate) fn of_reading(out: &mut impl Write, line: &[u8]) -> Result<(), Unanswered> {
    let [sensor, reading] = numbers::<2>(line, 1);
    let measured = platinum::temperature(sensor, reading);
    let t = measured.map_err(|unmeasured| unmeasured.refusal(Role::Alone))?;
    Ok(write!(out, ",T,{}", t.0)?)
}

// `P,degree,resistance of a Pt 100 in hundredths of an ohm`: for each sensor kind in turn, `within` where the temperature
// lies from 0.02 below the degree to 0.01 above it, `outside` where it does not, or X and the refusal.
#[tactic(auto, using(platinum::proofs::Resistances::resistance_range))]
pub(crate) fn of_published(out: &mut impl Write, line: &[u8]) -> io::Result<()> {
    let [degree, resistance] = numbers::<2>(line, 1);
    let degree = Temperature::whole((degree % 1000) as u32);
    for sensor in [Sensor::Pt100, Sensor::Pt500, Sensor::Pt1000] {
        let ohm = sensor.resistance();
        let measured = platinum::temperature(ohm, resistance % 1000000 * ohm);
        put_nearness(out, measured, degree)?;
    }
    Ok(())
}

fn put_nearness(
    out: &mut impl Write,
    measured: Result<Temperature, Unmeasured>,
    degree: Temperature,
) -> io::Result<()> {
    match measured {
        Ok(t) if is_near(t, degree) => out.write_all(b",within"),
        Ok(_) => out.write_all(b",outside"),
        Err(unmeasured) => put_refusal(out, unmeasured.refusal(Role::Alone)),
    }
}

// The published resistances are rounded to 0.01 ohm, some 0.026 °C.
fn is_near(t: Temperature, degree: Temperature) -> bool {
    let bound = if degree < t { 2 } else { 3 };
    t.distance(degree) < Difference(bound)
}
