// What is proved of writer and reader together, and of a line's bytes. These functions do nothing: their contracts are the statements.
ghost use Rattle.lines.specs.Theorems.{WrittenThenRead, ReadThenWritten, OneLine, OpeningBytes};

/// A line that `write_line` wrote is read back by `read_line`, and one that was read is written as the same bytes.
pub fn lines_survive()
    ensures written_then_read { WrittenThenRead }
    ensures read_then_written { ReadThenWritten }
{}

/// No line's bytes begin another line's, so that bytes can be read as one line only.
pub fn one_line()
    ensures { OneLine }
{}

/// The opening of an edition is its layout's word, HEATARCHIVE or HEATCOLUMNS, a comma, the edition's digit and a line feed: 14 bytes.
pub fn opening_bytes()
    ensures { OpeningBytes }
{}
