// What is proved of the refusals' numbers together.
ghost use Rattle.quantity.specs.Theorems.{NumbersDiffer, TellsEnd};

/// No two refusals have one number.
pub fn numbers_differ()
    ensures { NumbersDiffer }
{}

/// A number tells which end of the range a temperature missed, whosever temperature it is.
pub fn tells_end()
    ensures { TellsEnd }
{}
