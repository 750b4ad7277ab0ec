// The largest common divisor of two numbers, by which a fraction comes to its lowest terms.
ghost use Rattle.std.specs.Prelude.{◌≡◌};
ghost use Rattle.quantity.specs.Divisors.{largest_common_divisor, IsLargestCommonDivisor};

// Euclid's algorithm: the second number falls at each turn.
#[tactic(auto, using(crate::proofs::Divisors::divisor_of_step))]
pub(crate) fn largest_common_divisor(a: u64, b: u64) -> u64
    ensures answer { result ≡ largest_common_divisor a b }
    ensures is_largest_common_divisor { IsLargestCommonDivisor result a b }
{
    let mut first = a;
    let mut second = b;
    while second != 0 {
        (first, second) = (second, first % second);
    }
    first
}
