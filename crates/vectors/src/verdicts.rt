// Limits, comparisons and verdicts of the test bench on outside figures.
use crate::answers::Unanswered;
use crate::text::numbers;
use quantity::{Difference, Fraction};
use std::io;
use std::io::Write;
use verdict::{TestPoint, Verdict};

// The test point whose seven numbers stand at the front of a line.
fn point_of(line: &[u8]) -> TestPoint {
    let [part, class, stage, delta_min, difference, qp, q] = numbers::<7>(line, 1);
    TestPoint {
        part,
        class,
        stage,
        delta_min,
        difference: Difference(difference),
        qp,
        q,
    }
}

// `V,part,class,stage,delta min,difference,qp,q,indicated,conventional true value`: the verdict, or X and the refusal.
pub(crate) fn of_point(out: &mut impl Write, line: &[u8]) -> Result<(), Unanswered> {
    let [indicated, conventional] = numbers::<2>(line, 8);
    let verdict = verdict::error_verdict(point_of(line), indicated, conventional)?;
    Ok(put_verdict(out, verdict)?)
}

// `J,indicated,conventional true value,numerator,denominator`: the comparison's verdict, or X and the refusal.
pub(crate) fn of_limit(out: &mut impl Write, line: &[u8]) -> Result<(), Unanswered> {
    let [indicated, conventional, numerator, denominator] = numbers::<4>(line, 1);
    let limit = Fraction {
        numerator,
        denominator,
    };
    let verdict = verdict::compare_error(limit, indicated, conventional)?;
    Ok(put_verdict(out, verdict)?)
}

// V and 1 for a pass or 0 for a fail.
fn put_verdict(out: &mut impl Write, verdict: Verdict) -> io::Result<()> {
    match verdict {
        Verdict::Pass => out.write_all(b",V,1"),
        Verdict::Fail => out.write_all(b",V,0"),
    }
}

// `G,part,class,stage,delta min,difference,qp,q`: L with the limit's numerator and denominator, or X and the refusal.
pub(crate) fn limit_at_point(out: &mut impl Write, line: &[u8]) -> Result<(), Unanswered> {
    let Fraction {
        numerator,
        denominator,
    } = verdict::error_limit(point_of(line))?;
    Ok(write!(out, ",L,{numerator},{denominator}")?)
}
