// The refusals with their numbers, and how code tries the rows of an operation (docs/OPERATIONS.md, "Refusals").
ghost use Rattle.std.specs.Prelude.{◌≡◌};
ghost use Rattle.quantity.specs.Refusals.{first_number, first_of, number_of, outside, refusal_number, row};
ghost use Rattle.quantity.specs.Theorems.{RefusesNothing};

use std::error::Error;
use std::fmt;

/// A refusal, with its number. docs/OPERATIONS.md, "Refusals", has the sentence that people read, and which operation gives which.
#[derive(Clone, Copy, Debug, PartialEq, Eq)]
pub enum Refusal {
    /// 10: the card's serial number is outside 1 to 99999999.
    Serial = 10,
    /// 11: the place where the volume is measured is neither 1 (supply) nor 2 (return).
    Place = 11,
    /// 12: the sensor is of none of the kinds with 100, 500 and 1000 ohm at 0 °C.
    SensorKind = 12,
    /// 13: a pulse stands for less than 1 mL or more than 100000 mL of water.
    PulseVolume = 13,
    /// 14: Θmin is not below Θmax, or Θmax is above 180 °C.
    ThetaRange = 14,
    /// 15: Δmin is none of 1, 2 and 3 K.
    DeltaMin = 15,
    /// 16: Δmax is less than ten times Δmin, or more than 180 K.
    DeltaMax = 16,
    /// 17: the flow rates in mL/h are not in their order, qi from 1 on, qp from qi on, qs from qp on to 1000000000.
    FlowRates = 17,
    /// 18: the upper limit of the thermal power, Ps, is outside 1 to 1000000000 W.
    PowerLimit = 18,
    /// 20: no samples lead to the meter's state: a register is above 999999999999999999 mJ, the volume above 999999999999999 mL or the accepted and
    /// refused counts together above 1000000000000; the edition is none of 1, 2 and 3; there are more than 3600 kept seconds for each accepted
    /// sample, or any in edition 1; or there is cold in an edition below 3.
    State = 20,
    /// 21: no sample more can be counted, since the accepted and refused counts together are 1000000000000.
    CountsFull = 21,
    /// 30: the sample lasted less than 1 s or more than 3600 s.
    Seconds = 30,
    /// 31: the sample has more than 1000000 pulses, or its volume is more than 1000000 mL; so too of a volume that is given by itself.
    Volume = 31,
    /// 32: the supply reading, or one that is given by itself, is below that of 0.00 °C, as with a short in the leads.
    SupplyBelowRange = 32,
    /// 33: the return reading is below that of 0.00 °C, as with a short in the leads.
    ReturnBelowRange = 33,
    /// 34: the supply temperature is outside Θmin to Θmax.
    SupplyOutsideTheta = 34,
    /// 35: the return temperature is outside Θmin to Θmax.
    ReturnOutsideTheta = 35,
    /// 36: the supply is colder than the return. A sample is refused for it in editions 1 and 2 only, the heat coefficient always.
    SupplyBelowReturn = 36,
    /// 37: supply and return differ by less than Δmin, whichever is the warmer; for the heat coefficient, they are equally warm.
    DifferenceTooSmall = 37,
    /// 38: supply and return differ by more than Δmax, whichever is the warmer.
    DifferenceTooLarge = 38,
    /// 39: in edition 1 alone, the flow was above qs: the volume in mL times 3600 is above qs times the seconds.
    FlowAboveQs = 39,
    /// 40: the sample's heat or cold, rounded down, is above Ps times 1000 times the seconds, in mJ: more than Ps gives in that time.
    PowerAbovePs = 40,
    /// 41: the sample would bring its register above 999999999999999999 mJ, or the total volume above 999999999999999 mL.
    RegisterFull = 41,
    /// 50: the part under test is none of 1 (calculator), 2 (temperature sensor pair), 3 (flow sensor) and 4 (complete instrument).
    Part = 50,
    /// 51: the accuracy class is none of 1, 2 and 3; it is looked at for every part.
    Class = 51,
    /// 52: the stage is neither 1 (verification) nor 2 (in service).
    Stage = 52,
    /// 53: Δmin of the test point is none of 1, 2 and 3 K, or its difference is outside Δmin to 180.00 K.
    TestDifference = 53,
    /// 54: qp or q of the test point, both in one unit, is outside 1 to 1000000000.
    TestFlow = 54,
    /// 55: the conventional true value is zero, it or the indicated value is above 999999999999, or the limit to compare with has denominator zero.
    Values = 55,
    /// 60: the bytes do not begin with the opening that is due, of edition 1, 2 or 3, a line is asked for in another edition than these, or the file to be
    /// moved is not of the edition that it is moved from.
    Edition = 60,
    /// 61: where a line is due the file ends, or the line has no line feed, another letter, or another count of fields than its edition has.
    Shape = 61,
    /// 62: a field after the letter is not a number of 1 to 18 digits without a needless 0 in front; or a value to be written has more digits, or
    /// is not zero and the edition has no field for it.
    Number = 62,
    /// 64: the totals on line E are not those of the card and the samples before it.
    Totals = 64,
    /// 65: something follows line E.
    BytesAfter = 65,
    /// 66: what is to be written is longer than the bytes that the buffer has for it.
    Room = 66,
    /// 67: the position to write at lies beyond the end of the buffer.
    PlaceBeyond = 67,
    /// 68: the file has more bytes than the caller's limit, which is 65536 in the program; nothing in it was looked at.
    InputSize = 68,
    /// 70: the supply reading, or one that is given by itself, is above that of 180.00 °C, as with a broken lead; or the supply temperature that is
    /// given is above the last degree of the water table, 150.00 °C at 6 bar and 180.00 °C at 16 bar.
    SupplyAboveRange = 70,
    /// 71: the return reading is above that of 180.00 °C, as with a broken lead; or the return temperature that is given is above the
    /// last degree of the water table, 150.00 °C at 6 bar and 180.00 °C at 16 bar.
    ReturnAboveRange = 71,
    /// 72: of the editions 2 and 3, between which the file is to be moved, one accepts the sample on this line and the other refuses it.
    OneEditionAlone = 72,
    /// 73: the index of the quarter of an hour is above 95, or one of the 96 cells of the day is above 999999999999999999 mJ.
    Profile = 73,
    /// 74: the heat in whole kWh or the volume in whole litres is above 99999999, which a readout's eight digits cannot say.
    ReadoutNumber = 74,
    /// 75: a readout to be read has not exactly twelve bytes, or one of its two records does not begin with its two bytes of EN 13757-3.
    ReadoutShape = 75,
    /// 76: a digit of a readout to be read is above nine.
    ReadoutDigit = 76,
    /// 77: the pressure is neither 6 nor 16 bar; or a card's Θmax is above 150 °C at 6 bar.
    Pressure = 77,
    /// 78: a card that is to be written to a file has 6 bar, while files are of meters at 16 bar alone.
    FilePressure = 78,
    /// 79: of the four columns of a file, one has more numbers than another.
    UnequalColumns = 79,
}

impl Refusal {
    /// The number of this refusal, from 10 to 79. It is a method and no `From`, so that each place that takes the number says so.
    #[tactic(auto, unfolding(crate::specs::Refusals::number_of))]
    pub fn number(self) -> u64
        ensures { result ≡ number_of self }
    {
        self as u64
    }

    /// The row that gives this refusal under a condition (docs/OPERATIONS.md, "Refusals").
    pub fn when(self, condition: bool) -> Row
        ensures { result ≡ row self condition }
    {
        Row {
            refusal: self,
            condition,
        }
    }
}

/// A refusal is printed as its number, in decimal.
impl fmt::Display for Refusal {
    ghost use Rattle.std.specs.Prelude.{Some};
    ghost use Rattle.std.specs.Fmt.{decimal};

    ghost output = { λ r. Some (decimal (number_of r)) };

    fn fmt<W: fmt::Write>(&self, f: &mut fmt::Formatter<W>) -> fmt::Result {
        self.number().fmt(f)
    }
}

/// A refusal is an error for those who treat any error alike.
impl Error for Refusal {}

/// A row of an operation: a refusal, and the condition under which it is given.
#[derive(Clone, Copy, Debug, PartialEq, Eq)]
pub struct Row {
    /// what is given
    pub refusal: Refusal,
    /// whether the row applies
    pub condition: bool,
}

/// What rows answer: the refusal of the first one whose condition holds, or no refusal. They are given in the order in which docs/OPERATIONS.md,
/// "Refusals", tries them.
#[tactic(auto, using(crate::proofs::Rows::row_applies, crate::proofs::Rows::row_passes, crate::proofs::Rows::rows_end))]
pub fn first_refusal(rows: &[Row]) -> Result<(), Refusal>
    ensures answer { result ≡ first_of rows.now }
    ensures number { refusal_number result ≡ first_number rows.now }
    ensures refuses_nothing { RefusesNothing rows.now result }
{
    for row in rows {
        if row.condition {
            return Err(row.refusal);
        }
    }
    Ok(())
}

/// Whether x lies outside low..high, both ends being inside. It is for plain numbers; temperatures and differences have `Unit::is_outside`. Nothing
/// is refused.
#[tactic(auto, unfolding(crate::specs::Refusals::outside))]
pub fn is_outside(x: u64, low: u64, high: u64) -> bool
    ensures { result ≡ outside x low high }
{
    x < low || high < x
}
