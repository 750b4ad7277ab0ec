// The writer of a readout. All conditions are looked at before the first byte is written, so that a refused readout leaves the buffer as it was.
ghost use Rattle.std.specs.Prelude.{◌≡◌, ◌≤◌, length};
ghost use Rattle.quantity.specs.Refusals.{first_number, first_of, refusal_number};
ghost use Rattle.buffer.specs.Putting.{buffer_after};
ghost use Rattle.buffer.specs.Front.{put_front};
ghost use Rattle.readout.specs.Records.{readout_length, readout_of, record_of, whole_of};
ghost use Rattle.readout.specs.Writing.{own_rows, write_rows, written_of};
ghost use Rattle.readout.specs.Theorems.{WrittenExactly};

use crate::packed::put_packed;
use crate::records::{
    EIGHT_DIGITS, ENERGY_IN_KWH, FIELDS_LENGTH, READOUT_LENGTH, RECORD_LENGTH, VOLUME_IN_LITRES,
    WholeUnits,
};
use buffer::put_refusal;
use quantity::{Refusal, first_refusal};

// The millijoules of a kilowatt hour.
const MILLIJOULES_PER_KWH: u64 = 3600000000;

// The millilitres of a litre.
const MILLILITRES_PER_LITRE: u64 = 1000;

// The largest number of eight digits.
const LARGEST: u64 = 99999999;

/// Puts the readout of a heat in mJ and a volume in mL into `buf` at the position `at`, counted from 0, and answers the position behind it; all other bytes
/// stay. A readout is twelve bytes of EN 13757-3, in hexadecimal: 0C (DIF: eight decimal digits), 06 (VIF: energy in kWh), the whole kWh in four bytes; 0C
/// (DIF), 13 (VIF: volume in litres), the whole litres in four bytes. Both numbers are rounded down and stand in packed decimal, two digits a byte: the lowest
/// two in the first byte, and of each two the lower one in bits 0 to 3. Refusals, in this order, which leave `buf` as it was: 67 if `at` is above the length
/// of `buf`; 74 if one of the numbers is above 99999999; 66 if fewer than twelve bytes are left from `at` on (docs/OPERATIONS.md, "Readouts").
pub fn write_readout(buf: &mut [u8], at: usize, heat: u64, volume: u64) -> Result<usize, Refusal>
    ensures answer { result ≡ written_of (length buf.old) at heat volume }
    ensures buffer { buf.new ≡ buffer_after buf.old at (readout_of (whole_of heat volume)) result }
    ensures number { refusal_number result ≡ first_number (write_rows (length buf.old) at heat volume) }
    ensures written_exactly { WrittenExactly (length buf.old) at heat volume result }
{
    let whole = whole_of(heat, volume);
    put_refusal(buf.len(), at, own_refusal(whole), READOUT_LENGTH)?;
    Ok(at + put_readout(&mut buf[at..], whole))
}

// The whole kilowatt hours and the whole litres.
#[tactic(auto, unfolding(crate::specs::Records::whole_of))]
fn whole_of(heat: u64, volume: u64) -> WholeUnits
    ensures { result ≡ whole_of heat volume }
{
    WholeUnits {
        kilowatt_hours: heat / MILLIJOULES_PER_KWH,
        litres: volume / MILLILITRES_PER_LITRE,
    }
}

// What refuses a readout wherever it is to be written: 74.
#[tactic(auto, unfolding(crate::specs::Writing::own_rows))]
fn own_refusal(whole: WholeUnits) -> Result<(), Refusal>
    ensures { result ≡ first_of (own_rows whole) }
{
    let is_too_large = LARGEST < whole.kilowatt_hours || LARGEST < whole.litres;
    first_refusal(&[Refusal::ReadoutNumber.when(is_too_large)])
}

// Puts the two records at the front of part, which has room for them, and answers how many bytes they take.
fn put_readout(part: &mut [u8], whole: WholeUnits) -> usize
    requires { readout_length ≤ length part.old }
    ensures { (result ≡ length (readout_of whole)) × (part.new ≡ put_front part.old (readout_of whole)) }
{
    let place = put_record(part, ENERGY_IN_KWH, whole.kilowatt_hours);
    place + put_record(&mut part[place..], VOLUME_IN_LITRES, whole.litres)
}

// Puts the record of a number at the front of part, which has room for it, and answers how many bytes it takes.
fn put_record(part: &mut [u8], vif: u8, number: u64) -> usize
    requires { length (record_of vif number) ≤ length part.old }
    ensures { (result ≡ length (record_of vif number)) × (part.new ≡ put_front part.old (record_of vif number)) }
{
    part[0] = EIGHT_DIGITS;
    part[1] = vif;
    put_packed(&mut part[FIELDS_LENGTH..RECORD_LENGTH], number);
    RECORD_LENGTH
}
