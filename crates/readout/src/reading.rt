// The reader of a readout.
ghost use Rattle.std.specs.Prelude.{◌≡◌};
ghost use Rattle.quantity.specs.Refusals.{first_number, refusal_number};
ghost use Rattle.readout.specs.Reading.{has_shape, read_of, read_rows};
ghost use Rattle.readout.specs.Theorems.{AcceptedExactly};

use crate::packed::unpacked;
use crate::records::{
    EIGHT_DIGITS, ENERGY_IN_KWH, FIELDS_LENGTH, READOUT_LENGTH, RECORD_LENGTH, VOLUME_IN_LITRES,
    WholeUnits,
};
use quantity::Refusal;

/// The whole kilowatt hours and the whole litres that a readout's bytes say. What `write_readout` can write is accepted, and nothing else. Refusals, in this
/// order: 75 if the bytes are not twelve, or one of the bytes 1, 2, 7 and 8 is not 0C (DIF: eight decimal digits), 06 (VIF: energy in kWh), 0C (DIF) and 13
/// (VIF: volume in litres), in hexadecimal; 76 if a digit is above nine (docs/OPERATIONS.md, "Readouts"; EN 13757-3).
pub fn read_readout(bytes: &[u8]) -> Result<WholeUnits, Refusal>
    ensures answer { result ≡ read_of bytes.now }
    ensures number { refusal_number result ≡ first_number (read_rows bytes.now) }
    ensures accepted_exactly { AcceptedExactly bytes.now result }
{
    read_records(bytes)
}

// The answer alone; the other two clauses of `read_readout` follow from it.
fn read_records(bytes: &[u8]) -> Result<WholeUnits, Refusal>
    ensures { result ≡ read_of bytes.now }
{
    if !has_shape(bytes) {
        return Err(Refusal::ReadoutShape);
    }
    let (Some(kilowatt_hours), Some(litres)) = (
        unpacked(&bytes[FIELDS_LENGTH..RECORD_LENGTH]),
        unpacked(&bytes[RECORD_LENGTH + FIELDS_LENGTH..]),
    ) else {
        return Err(Refusal::ReadoutDigit);
    };
    Ok(WholeUnits {
        kilowatt_hours,
        litres,
    })
}

// Whether there are twelve bytes, and each record begins with its two fields.
#[tactic(auto, unfolding(crate::specs::Reading::has_shape))]
fn has_shape(bytes: &[u8]) -> bool
    ensures { result ≡ has_shape bytes.now }
{
    bytes.len() == READOUT_LENGTH
        && bytes.starts_with(&[EIGHT_DIGITS, ENERGY_IN_KWH])
        && bytes[RECORD_LENGTH..].starts_with(&[EIGHT_DIGITS, VOLUME_IN_LITRES])
}
