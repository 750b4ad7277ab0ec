// Readouts: written of any heat and volume into the last bytes of a space of 24 points, and read from any bytes.
use crate::answers::put_refusal;
use crate::hexadecimal::{MOST_BYTES, bytes_of, put_bytes};
use crate::text::numbers;
use crate::writers::{last_bytes, put_position};
use std::io;
use std::io::Write;

// `B,` the bytes lent, the position, the heat in mJ and the volume in mL: the next position, or X and the refusal, then the whole space in hexadecimal.
pub(crate) fn of_values(out: &mut impl Write, line: &[u8]) -> io::Result<()> {
    let [lent, at, heat, volume] = numbers::<4>(line, 1);
    let mut space = [b'.'; 24];
    if let Some(buf) = last_bytes(&mut space, lent as usize) {
        put_position(out, readout::write_readout(buf, at as usize, heat, volume))?;
    }
    out.write_all(b",")?;
    put_bytes(out, &space)
}

// `Y,` the bytes: B, the whole kilowatt hours and the whole litres, or X and the refusal.
pub(crate) fn of_bytes(out: &mut impl Write, line: &[u8]) -> io::Result<()> {
    let mut space = [0; MOST_BYTES];
    match readout::read_readout(bytes_of(line, 1, &mut space)) {
        Ok(whole) => write!(out, ",B,{},{}", whole.kilowatt_hours, whole.litres),
        Err(refusal) => put_refusal(out, refusal),
    }
}
