// What is proved of a file's readings. The function does nothing: its contract is the statement.
ghost use Rattle.archive.specs.Theorems.{OneReading};

/// A file can be read as an archive in one way only: with one edition, one card, one list of samples and one meter in the end.
pub fn one_reading()
    ensures { OneReading }
{}
