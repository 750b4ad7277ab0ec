// The search for a temperature on the curve: it begins at the straight line that joins the curve's ends, and widens from there.
ghost use Rattle.std.specs.Prelude.{◌≡◌, leb};
ghost use Rattle.quantity.specs.Largest.{largest};
ghost use Rattle.quantity.specs.Units.{last_hundredth};
ghost use Rattle.platinum.specs.Temperature.{W};
ghost use Rattle.platinum.specs.Tries.{FromLine, untried};

use crate::curve::Search;

// The largest t at which the curve is at most the ratio. Two tries, the first at the line's point, lead to the answer or the hundredth above it;
// from there the span that is searched grows downwards until it holds the answer. A loop and no `find`, since std has no law of a range that is
// reversed.
#[tactic(auto, using(crate::proofs::Ratios::answer_largest, crate::proofs::Ratios::above_answer, crate::proofs::Start::line_bounds, crate::proofs::Start::nearer_bounds, crate::proofs::Start::nearest_bounds))]
pub(crate) fn largest_at_most(search: &mut Search) -> u64
    requires { search.old.tries ≡ untried }
    ensures answer { result ≡ largest (λ t. leb (W t) search.old.ratio) last_hundredth }
    ensures from_line { FromLine search.old.ratio result search.new.tries }
{
    let start = search.line_point();
    let nearer = search.next_from(start);
    let nearest = search.next_from(nearer);
    for t in (0..=nearest).rev() {
        if search.reaches(t) {
            return t;
        }
    }
    unreachable!()
}
