// The two units of temperature, and the ends of their range. Each is a type of its own: where one is asked for, the other does not pass for it
// (docs/OPERATIONS.md, "What every operation promises"). Any content can stand in either: the operations that take them refuse what is out of
// range.
ghost use Rattle.std.specs.Prelude.{◌≡◌, ℕ, ◌*◌, Bool, ◌||◌};
ghost use Rattle.std.specs.Ordering.{partial_lt};
ghost use Rattle.std.proofs.Common.{rules};
ghost use Rattle.quantity.specs.Units.{is_colder, is_smaller, distance_of};

/// The last temperature of the range, in whole °C: a reading above it is refused with 70 or 71, and the water table at 16 bar ends there.
pub const LAST_DEGREE: u64 = 180;

/// The largest difference of two temperatures of the range, in whole kelvins.
pub const LARGEST_KELVINS: u64 = 180;

/// A unit of which hundredths are counted: °C for `Temperature`, K for `Difference`.
pub trait Unit: Copy + PartialOrd + Sized {
    // How many hundredths a value is.
    ghost hundredths: { Self → ℕ };

    // Its order: by the hundredths.
    ghost is_less: { Self → Self → Bool };

    /// A number of hundredths. Every count has a value, so nothing is refused.
    fn of_hundredths(count: u64) -> Self
        ensures { hundredths result ≡ count };

    /// A number of whole degrees, or of whole kelvins. Every count of 32 bits has a value, so nothing is refused.
    fn whole(count: u32) -> Self
        ensures { hundredths result ≡ count * 100 }
    {
        Self::of_hundredths(u64::from(count) * 100)
    }

    /// Whether the value lies outside low..high, both ends being inside. Nothing is refused.
    fn is_outside(self, low: Self, high: Self) -> bool
        ensures { result ≡ (is_less self low || is_less high self) }
    {
        self < low || high < self
    }

    // What each `impl` must prove of its `<`.
    ghost ordered: { (a b : Self) → partial_lt Self.PartialOrd.partial_cmp a b ≡ is_less a b };
}

/// A temperature in hundredths of a degree Celsius. The range is 0 to 18000; any number can stand here.
#[derive(Clone, Copy, Debug, PartialEq, Eq, PartialOrd, Ord)]
pub struct Temperature(pub u64);

impl Unit for Temperature {
    ghost hundredths = { λ t. t.0 };

    ghost is_less = { is_colder };

    ghost ordered = { λ a b. Prim.search rules };

    fn of_hundredths(count: u64) -> Temperature {
        Temperature(count)
    }
}

/// A temperature difference ΔΘ in hundredths of a kelvin. Any number can stand here.
#[derive(Clone, Copy, Debug, PartialEq, Eq, PartialOrd, Ord)]
pub struct Difference(pub u64);

impl Unit for Difference {
    ghost hundredths = { λ d. d.0 };

    ghost is_less = { is_smaller };

    ghost ordered = { λ a b. Prim.search rules };

    fn of_hundredths(count: u64) -> Difference {
        Difference(count)
    }
}

impl Temperature {
    /// How far two temperatures lie apart, whichever is the larger. Nothing is refused.
    #[tactic(auto, unfolding(crate::specs::Units::distance_of))]
    pub fn distance(self, other: Temperature) -> Difference
        ensures { result ≡ distance_of self other }
    {
        Difference(self.0.abs_diff(other.0))
    }
}
