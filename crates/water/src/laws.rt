// What is proved of water, whatever the inputs. Each function has no code: its contract is the theorem.
ghost use Rattle.water.specs.Theorems.{Bounded};
ghost use Rattle.water.specs.Verification.{Verified};

/// The definition of water gives the figures that others have published of it, each to its last digit: those of IAPWS-IF97, and those of
/// OIML R 75-1, Annex A.
pub fn verified()
    ensures { Verified }
{}

/// The bounds of the water tables, in mJ/kg and 10^-12 m³/kg, from which those of the registers follow, hold at every pressure.
pub fn bounded()
    ensures { Bounded }
{}
