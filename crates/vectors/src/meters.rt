// Fresh meters of outside cards, and the meter's step from outside states.
use crate::answers::Unanswered;
use crate::text::{number, numbers};
use meter::{Card, Meter, Sample, Stepped};
use std::io;
use std::io::Write;

// `M,` the card's fields, the meter's state, then pulses, seconds, supply and return reading: the refusal or 0, then the state
// afterwards. A state is heat register, volume, accepted, refused, edition, kept seconds and cold register, in this order, which is not the struct's.
pub(crate) fn of_state(out: &mut impl Write, line: &[u8]) -> io::Result<()> {
    put_stepped(
        out,
        meter::step(meter_of(line), Sample::from(numbers(line, 21))),
    )
}

// The meter whose card and state are the first numbers of a line.
pub(crate) fn meter_of(line: &[u8]) -> Meter {
    let [
        heat_register,
        volume,
        accepted,
        refused,
        edition,
        kept_seconds,
        cold_register,
    ] = numbers::<7>(line, 14);
    Meter {
        card: Card::from(numbers(line, 1)),
        heat_register,
        volume,
        accepted,
        refused,
        edition,
        kept_seconds,
        cold_register,
    }
}

// The refusal or 0, then the state.
pub(crate) fn put_stepped(out: &mut impl Write, stepped: Stepped) -> io::Result<()> {
    match stepped.outcome {
        Ok(()) => out.write_all(b",0")?,
        Err(refusal) => write!(out, ",{refusal}")?,
    }
    put_state(out, stepped.meter)
}

fn put_state(out: &mut impl Write, m: Meter) -> io::Result<()> {
    for number in [
        m.heat_register,
        m.volume,
        m.accepted,
        m.refused,
        m.edition,
        m.kept_seconds,
        m.cold_register,
    ] {
        write!(out, ",{number}")?;
    }
    Ok(())
}

// `F,` the card's fields and the edition: the fresh meter's state, or X and the refusal.
pub(crate) fn of_card(out: &mut impl Write, line: &[u8]) -> Result<(), Unanswered> {
    let m = meter::fresh(Card::from(numbers(line, 1)), number(line, 14))?;
    Ok(put_state(out, m)?)
}
