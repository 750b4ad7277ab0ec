// What is proved of the definitions of several crates together.
ghost use Rattle.vectors.specs.Theorems.{Edges};

/// What the definitions answer at edges: readings of a Pt 100 at both ends of its range and between two hundredths of °C, 32 and 70 among the answers;
/// and indicated values at the error limits. specs/Theorems lists them.
pub fn edges()
    ensures { Edges }
{}
