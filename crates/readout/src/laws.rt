// What is proved of two readouts, and of packed decimal. The functions have no code: each promises its statements of specs/Theorems.
ghost use Rattle.readout.specs.Theorems.{BytesAndNumber, DigitsAndNumber, SameBytes};

/// No two readouts are read as the same two numbers.
pub fn same_bytes()
    ensures { SameBytes }
{}

/// To each number below 10^n belongs one list of n decimal digits, and to each such list one number; so it is with n bytes of packed decimal and a number
/// below 10^(2n).
pub fn packed_decimal()
    ensures digits_and_number { DigitsAndNumber }
    ensures bytes_and_number { BytesAndNumber }
{}
