// What is proved of limit, comparison and verdict together, whatever the inputs. The functions have no code: each promises its statements of
// specs/Theorems.antt.
ghost use Rattle.verdict.specs.Theorems.{FromPair, InService, Mirrored, EqualComparisons, CompleteFormula, AtMost10};

/// The limit and the comparison together answer what the verdict answers, its refusals included.
pub fn from_pair()
    ensures { FromPair }
{}

/// What passes at verification passes in service, where the limit is doubled.
pub fn in_service()
    ensures { InService }
{}

/// An indicated value as far above the conventional true value as another lies below it gets the same verdict.
pub fn mirrored()
    ensures { Mirrored }
{}

/// Limits that are equal as fractions, in lowest terms or not, are compared alike.
pub fn equal_comparisons()
    ensures { EqualComparisons }
{}

/// The limit of a complete instrument at verification: one formula for each class, as other published rules print it, while the flow sensor's part is at
/// most 5 percent; and never more than 10 percent.
pub fn complete_instrument()
    ensures complete_formula { CompleteFormula }
    ensures at_most_10 { AtMost10 }
{}
