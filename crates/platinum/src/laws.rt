// What is proved of any two readings.
ghost use Rattle.platinum.specs.Theorems.{LargerReading};

/// Of two readings of one sensor, the larger never has the lower temperature.
pub fn larger_reading()
    ensures { LargerReading }
{}
