// The two values of a test, the indicated and the conventional true one, in the range that 55 asks for.
ghost use Rattle.std.specs.Prelude.{◌≤◌};
ghost use Rattle.verdict.specs.Rows.{largest_value};

use quantity::{Fraction, product_less};

// The largest value that 55 lets pass.
const LARGEST_VALUE: u64 = 999999999999;

// Only `new` makes one. The public operations take two plain numbers, so that they answer any.
#[derive(Clone, Copy)]
pub(crate) struct Values {
    pub(crate) indicated: u64,
    pub(crate) conventional_true: u64,
    ghost indicated_fits: { indicated ≤ largest_value },
    ghost true_fits: { conventional_true ≤ largest_value },
}

impl Values {
    ghost use Rattle.std.specs.Prelude.{◌≡◌};
    ghost use Rattle.verdict.specs.Verdict.{passes};
    ghost use Rattle.verdict.specs.Inside.Compared.{AreValues};

    // The values, where 55 is not given of them.
    #[tactic(auto, unfolding(crate::specs::Rows::value_outside))]
    pub(crate) fn new(indicated: u64, conventional_true: u64) -> Option<Values>
        ensures { AreValues indicated conventional_true result }
    {
        if conventional_true == 0
            || LARGEST_VALUE < indicated
            || LARGEST_VALUE < conventional_true
        {
            return None;
        }
        Some(Values {
            indicated,
            conventional_true,
        })
    }

    // Whether the error lies within the limit. The two products compared pass 64 bits.
    #[tactic(auto, using(quantity::proofs::Comparing::not_below), unfolding(crate::specs::Verdict::passes, quantity::specs::Fractions::times))]
    pub(crate) fn are_within(self, limit: Fraction) -> bool
        ensures { result ≡ passes limit self.indicated self.conventional_true }
    {
        let error = self.indicated.abs_diff(self.conventional_true) * 100;
        let Fraction {
            numerator,
            denominator,
        } = limit;
        !product_less(numerator, self.conventional_true, error, denominator)
    }
}
