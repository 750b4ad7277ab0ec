// What is proved of whole lists of calls, and of two editions together, whatever the card, the meter and the samples. Each function has no code:
// its contract is the theorem, which specs/Theorems.antt tells in words.
ghost use Rattle.meter.specs.Theorems.{RegisterBounds, OwnExactly, CallsExist, Given, OnlyMarks, OnlyLast, HeatOnly};
ghost use Rattle.meter.specs.Theorems.{AcceptedCount, VolumeTogether, KeptSeconds};
ghost use Rattle.meter.specs.Theorems.{StaysWithinLimits, LackedStaysZero, NoOtherRefusal, Counted, HeatAsInEdition2};
ghost use Rattle.meter.specs.Theorems.{CellsTogether, CellsWithinLimit, IndexAlone, DayExists, OnlyDay, DayStands};

/// The register theorem: each register, in mJ, lies within its bounds of the exact sum of those samples that are its own
/// (docs/OPERATIONS.md, "The registers' bounds"). And the lists of calls of which this is said are those that a caller can make, every one of them.
pub fn register_bounds()
    ensures register_bounds { RegisterBounds }
    ensures own_exactly { OwnExactly }
    ensures calls_exist { CallsExist }
    ensures given { Given }
    ensures only_marks { OnlyMarks }
    ensures only_last { OnlyLast }
{}

/// In an edition that counts no cold the heat register's sum leaves no accepted sample out, and the cold register's is nothing.
pub fn heat_only()
    ensures { HeatOnly }
{}

/// The accepted count is how many samples were accepted, the volume in mL is theirs, and the kept seconds are those of the ones whose flow was
/// above qs.
pub fn totals()
    ensures accepted_count { AcceptedCount }
    ensures volume_together { VolumeTogether }
    ensures kept_seconds { KeptSeconds }
{}

/// A meter that calls lead to from a fresh one keeps all limits, lacks what its edition lacks, is refused for its card and state with 21 alone,
/// when its counts are full, and has counted each call but those refused with 21 or 73.
pub fn meter_along_calls()
    ensures stays_within_limits { StaysWithinLimits }
    ensures lacked_stays_zero { LackedStaysZero }
    ensures no_other_refusal { NoOtherRefusal }
    ensures counted { Counted }
{}

/// A meter of edition 3 answers a sample whose supply is not colder than its return as one of edition 2 does.
pub fn heat_as_in_edition_2()
    ensures { HeatAsInEdition2 }
{}

/// The cells of a day, in mJ, are together what the heat register grew by, and none passes the register's limit
/// (docs/OPERATIONS.md, "The day profile"). And the calls of which this is said are those that a caller can make, every one of them, and are among
/// those of the register theorem.
pub fn cells_together()
    ensures cells_together { CellsTogether }
    ensures cells_within_limit { CellsWithinLimit }
    ensures index_alone { IndexAlone }
    ensures day_exists { DayExists }
    ensures only_day { OnlyDay }
    ensures day_stands { DayStands }
{}
