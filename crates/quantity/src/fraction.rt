// An exact fraction of two whole numbers of 64 bits, and its lowest terms (docs/OPERATIONS.md, "Error limits, comparison and verdict").
ghost use Rattle.std.specs.Prelude.{◌≡◌};
ghost use Rattle.quantity.specs.Divisors.{reduced};
ghost use Rattle.quantity.specs.Theorems.{ReducedExactly};

use crate::divisor::largest_common_divisor;

/// An exact fraction of two whole numbers. Any numbers can stand here, a zero denominator too; the comparison with a limit refuses that one (55).
#[derive(Clone, Copy, Debug)]
pub struct Fraction {
    /// the upper number
    pub numerator: u64,
    /// the lower number
    pub denominator: u64,
}

impl Fraction {
    /// The same fraction in lowest terms (docs/OPERATIONS.md, "Error limits, comparison and verdict"). Nothing is refused: with a zero denominator
    /// there is no fraction, and both numbers are divided all the same; two zeros, whose largest common divisor is 0, stay.
    #[tactic(auto, using(crate::proofs::LowestTerms::zeros_stay), unfolding(crate::specs::Divisors::reduced))]
    pub fn reduced(self) -> Fraction
        ensures answer { result ≡ reduced self }
        ensures reduced_exactly { ReducedExactly self result }
    {
        let divisor = largest_common_divisor(self.numerator, self.denominator);
        if divisor == 0 {
            return self;
        }
        Fraction {
            numerator: self.numerator / divisor,
            denominator: self.denominator / divisor,
        }
    }
}
