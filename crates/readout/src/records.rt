// What a readout says, and the bytes that its two records begin with (EN 13757-3).

/// How many bytes a readout has: two records of six bytes (docs/OPERATIONS.md, "Readouts").
pub const READOUT_LENGTH: usize = 12;

// How many bytes a record has: its two fields, then a number in four bytes.
pub(crate) const RECORD_LENGTH: usize = READOUT_LENGTH / 2;

// How many bytes come before a record's number: its data information field (DIF) and its value information field (VIF).
pub(crate) const FIELDS_LENGTH: usize = 2;

// The DIF of both records: eight digits of packed decimal.
pub(crate) const EIGHT_DIGITS: u8 = 0x0C;

// The VIF of the first record: energy in kWh.
pub(crate) const ENERGY_IN_KWH: u8 = 0x06;

// The VIF of the second record: volume in litres.
pub(crate) const VOLUME_IN_LITRES: u8 = 0x13;

/// What a readout says: a heat and a volume in whole units, rounded down (docs/OPERATIONS.md, "Readouts").
#[derive(Clone, Copy, Debug, PartialEq, Eq)]
pub struct WholeUnits {
    /// the whole kilowatt hours of heat, bytes 3 to 6 of the twelve, behind DIF 0C (eight decimal digits) and VIF 06 (energy in kWh)
    pub kilowatt_hours: u64,
    /// the whole litres of water, bytes 9 to 12, behind DIF 0C and VIF 13 (volume in litres)
    pub litres: u64,
}
