// The meter's step with the day profile, from outside states and cells.
use crate::meters::{meter_of, put_stepped};
use crate::text::numbers;
use meter::{QUARTERS, Sample};
use std::io;
use std::io::Write;

// `D,` the card's fields, the meter's state, the quarter's index, a cell and what stands in it, all others being zero, then pulses, seconds,
// supply and return reading: the refusal or 0, then the state and all cells afterwards.
pub(crate) fn of_quarter(out: &mut impl Write, line: &[u8]) -> io::Result<()> {
    let [index, cell, value] = numbers::<3>(line, 21);
    let profiled = meter::step_in_quarter(
        meter_of(line),
        cells_with(cell, value),
        Sample::from(numbers(line, 24)),
        index,
    );
    put_stepped(out, profiled.stepped)?;
    for cell in profiled.cells {
        write!(out, ",{cell}")?;
    }
    Ok(())
}

// The cells of a day's start but for one.
fn cells_with(cell: u64, value: u64) -> [u64; QUARTERS] {
    let mut cells = meter::empty_profile();
    if let Some(place) = cells.get_mut(cell as usize) {
        *place = value;
    }
    cells
}
