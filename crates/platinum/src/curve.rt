// The platinum curve W(t) of IEC 60751, and the value by which a temperature is searched for on it. That value keeps the resistance ratio to
// itself, works out the curve by a try alone, notes each try, and can be neither made nor copied elsewhere: so the search, which stands elsewhere,
// learns where the ratio lies on the curve by the tries that its notes tell, and by nothing else. That `found` makes one such value and hands out
// its notes, and that the polynomial is written in `try_at` alone, no contract says: these two are to be seen here.
ghost use Rattle.std.specs.Prelude.{◌≡◌, ◌+◌, ◌≤◌, ◌<◌, leb};
ghost use Rattle.quantity.specs.Largest.{largest};
ghost use Rattle.quantity.specs.Units.{last_hundredth};
ghost use Rattle.platinum.specs.Temperature.{W};
ghost use Rattle.platinum.specs.Line.{BetweenEnds, line_point, next_from};
ghost use Rattle.platinum.specs.Tries.{FromLine, IsNoted};

use crate::search::largest_at_most;
use quantity::Temperature;

// The resistance ratios at both ends of the range, W(0) and W(18000), in units of 10^-14.
pub(crate) const RATIO_AT_ZERO: u64 = 100000000000000;

pub(crate) const RATIO_AT_END: u64 = 168478300000000;

// By how much the line rises in a hundredth of a degree.
const SLOPE: u64 = 3804350000;

// The notes of a search: how many temperatures it has tried, which one first, and how far from that the farthest lies.
#[derive(Drop)]
pub(crate) struct Tries {
    count: u64,
    first: u64,
    farthest: u64,
}

// A search for the temperature of a resistance ratio that lies neither below the curve's low end nor above its high end.
#[derive(Drop)]
pub(crate) struct Search {
    ratio: u64,
    tries: Tries,
    ghost between_ends: { BetweenEnds ratio },
}

// What a search has found, with its notes.
#[derive(Drop)]
pub(crate) struct Found {
    pub(crate) temperature: Temperature,
    tries: Tries,
}

impl Search {
    // The largest t at which the curve is at most the ratio, with the notes of the search for it. No other function begins a search.
    pub(crate) fn found(ratio: u64) -> Found
        requires { BetweenEnds ratio }
        ensures answer { result.temperature.0 ≡ largest (λ t. leb (W t) ratio) last_hundredth }
        ensures from_line { FromLine ratio result.temperature.0 result.tries }
    {
        let mut search = Search {
            ratio,
            tries: Tries {
                count: 0,
                first: 0,
                farthest: 0,
            },
        };
        let t = largest_at_most(&mut search);
        Found {
            temperature: Temperature(t),
            tries: search.tries,
        }
    }

    // The line's point for the ratio.
    #[tactic(auto, unfolding(crate::specs::Temperature::W))]
    pub(crate) fn line_point(&self) -> u64
        ensures { result ≡ line_point self.now.ratio }
    {
        line_point(self.ratio)
    }

    // The temperature that the ratio would have if the curve lay above the line everywhere by as much as it does at t.
    #[tactic(auto, using(crate::proofs::Line::curve_above_line, crate::proofs::Start::line_point_in_range, crate::proofs::Start::fits), unfolding(crate::specs::Temperature::W, crate::specs::Line::next_from))]
    pub(crate) fn next_from(&mut self, t: u64) -> u64
        requires below_line_point { t ≤ line_point self.old.ratio }
        requires countable { self.old.tries.count < u64.MAX }
        ensures answer { result ≡ next_from self.old.ratio t }
        ensures same_ratio { self.new.ratio ≡ self.old.ratio }
        ensures noted { IsNoted self.old.tries t self.new.tries }
    {
        let above_line = self.try_at(t) - (RATIO_AT_ZERO + SLOPE * t);
        line_point(self.ratio - above_line)
    }

    // Whether the curve at t is at most the ratio.
    pub(crate) fn reaches(&mut self, t: u64) -> bool
        requires in_range { t ≤ last_hundredth }
        requires countable { self.old.tries.count < u64.MAX }
        ensures answer { result ≡ leb (W t) self.old.ratio }
        ensures same_ratio { self.new.ratio ≡ self.old.ratio }
        ensures noted { IsNoted self.old.tries t self.new.tries }
    {
        self.try_at(t) <= self.ratio
    }

    // A try: W(t), the resistance ratio at t, in units of 10^-14 (IEC 60751).
    #[tactic(auto, using(crate::proofs::Growth::square), unfolding(crate::specs::Temperature::W))]
    fn try_at(&mut self, t: u64) -> u64
        requires in_range { t ≤ last_hundredth }
        requires countable { self.old.tries.count < u64.MAX }
        ensures answer { result ≡ W t }
        ensures same_ratio { self.new.ratio ≡ self.old.ratio }
        ensures noted { IsNoted self.old.tries t self.new.tries }
    {
        if self.tries.count == 0 {
            self.tries.first = t;
        }
        self.tries.count += 1;
        self.tries.farthest = self.tries.farthest.max(t.abs_diff(self.tries.first));
        RATIO_AT_ZERO + 3908300000 * t - 5775 * t * t
    }
}

// The line's point for a ratio.
#[tactic(auto, unfolding(crate::specs::Temperature::W, crate::specs::Line::line_point))]
fn line_point(ratio: u64) -> u64
    requires { W 0 ≤ ratio }
    ensures { result ≡ line_point ratio }
{
    (ratio - RATIO_AT_ZERO) / SLOPE
}
