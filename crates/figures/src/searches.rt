//! Searches in both arithmetics, and the gaps between the first points of the slope 17 on the circle of 45.
use grid::modulus::Modulus;
use lengths::arithmetic::Arithmetic;
use lengths::double::Double;
use search::answer::Answer;
use search::evidence::Evidence;
use search::refusal::SearchRefusal;
use search::search;
use search::vouching::vouches;
use std::{fmt, io};

/// A search to be shown.
#[derive(Clone, Copy, PartialEq, Eq, Debug)]
struct Case {
    modulus: u64,
    slope: u64,
    offset: u64,
    threshold: u64,
    points: u64,
}

impl From<[u64; 5]> for Case {
    fn from(numbers: [u64; 5]) -> Case {
        let [modulus, slope, offset, threshold, points] = numbers;
        Case {
            modulus,
            slope,
            offset,
            threshold,
            points,
        }
    }
}

impl fmt::Display for Case {
    fn fmt<W: fmt::Write>(&self, f: &mut fmt::Formatter<W>) -> fmt::Result {
        let Case {
            modulus,
            slope,
            offset,
            threshold,
            points,
        } = *self;
        write!(
            f,
            "M {modulus} a {slope} b {offset} D {threshold} n {points}"
        )
    }
}

/// Evidence, and whether it vouches.
#[derive(Clone, Copy, PartialEq, Eq, Debug)]
struct Judged {
    evidence: Evidence,
    vouches: bool,
}

impl fmt::Display for Judged {
    fn fmt<W: fmt::Write>(&self, f: &mut fmt::Formatter<W>) -> fmt::Result {
        let Evidence { u, v, x, y, r } = self.evidence;
        let word = if self.vouches {
            "vouches"
        } else {
            "does not vouch"
        };
        write!(f, "evidence {u} {v} {x} {y} {r} {word}")
    }
}

/// The figures of the search, and a case of each refusal: the modulus, the slope, the offset, the threshold and the number of points.
const CASES: [[u64; 5]; 14] = [
    [45, 17, 10, 3, 5],
    [45, 17, 10, 4, 5],
    [45, 17, 10, 5, 5],
    [45, 17, 10, 3, 19],
    [45, 17, 10, 3, 21],
    [45, 17, 10, 45, 1],
    [45, 0, 7, 7, 4],
    [4, 2, 1, 1, 5],
    [1, 1, 1, 2, 0],
    [(1 << 40) + 1, 0, 0, 0, 1],
    [2, 2, 0, 3, 0],
    [2, 1, 1, 3, 0],
    [2, 1, 1, 2, 0],
    [2, 1, 1, 2, (1 << 20) + 1],
];

impl Case {
    /// The answer in one arithmetic.
    fn answer<A: Arithmetic>(self) -> Result<Answer, SearchRefusal> {
        search::<A>(
            self.modulus,
            self.slope,
            self.offset,
            self.threshold,
            self.points,
        )
    }

    /// The evidence with its verdict for the first points of the case.
    fn judged(self, points: u64, evidence: Evidence) -> Judged {
        let vouches = Modulus::new(self.modulus).is_ok_and(|m| vouches(
            m,
            self.slope,
            self.offset,
            self.threshold,
            points,
            evidence,
        ));
        Judged { evidence, vouches }
    }

    /// Prints the search in one arithmetic: what was asked, the answer, the evidence, and whether that vouches for the points before.
    fn show<A: Arithmetic>(self, rt: &impl Print, name: &str) -> io::Result<()> {
        print!(rt; "{name} {self}: ")?;
        match self.answer::<A>() {
            Err(refusal) => {
                let number = refusal.number();
                println!(rt; "refused {number}")
            }
            Ok(
                Answer::Close {
                    index,
                    value,
                    evidence: None,
                },
            ) => println!(rt; "k {index} value {value}"),
            Ok(
                Answer::Close {
                    index,
                    value,
                    evidence: Some(evidence),
                },
            ) => {
                let judged = self.judged(index, evidence);
                println!(rt; "k {index} value {value}; {judged}")
            }
            Ok(Answer::Clear { evidence }) => {
                let judged = self.judged(self.points, evidence);
                println!(rt; "none; {judged}")
            }
        }
    }
}

/// Prints the points in their order round the circle, each with the gap to the next, from the configuration for that many points.
fn show_gaps(rt: &impl Print, points: u64) -> io::Result<()> {
    let Ok(Answer::Clear { evidence: e }) = search::<u64>(45, 17, 0, 0, points) else {
        return println!(rt; "n {points}: no configuration");
    };
    print!(rt; "n {points}: 0")?;
    let mut r: u64 = 0;
    for _ in 0..points {
        let (next, gap) = if r.saturating_add(e.v) < points {
            (r.saturating_add(e.v), e.x)
        } else if r >= e.u {
            (r - e.u, e.y)
        } else {
            (
                r.saturating_add(e.v).saturating_sub(e.u),
                e.x.saturating_add(e.y),
            )
        };
        let place = next.wrapping_mul(17) % 45;
        print!(rt; " -{gap}-> {next} (at {place})")?;
        r = next;
    }
    println!(rt; "")
}

/// Prints each search in both arithmetics.
pub(crate) fn show_searches(rt: &impl Print) -> io::Result<()> {
    for case in CASES.map(Case::from) {
        case.show::<u64>(rt, "u64")?;
        case.show::<Double>(rt, "f64")?;
    }
    Ok(())
}

/// Prints the gaps among two to five points.
pub(crate) fn show_all_gaps(rt: &impl Print) -> io::Result<()> {
    for points in 2..6u64 {
        show_gaps(rt, points)?;
    }
    Ok(())
}

#[cfg(test)]
mod tests {
    use super::Case;
    use lengths::arithmetic::Arithmetic;
    use lengths::double::Double;
    use search::answer::Answer;
    use search::evidence::Evidence;
    use search::refusal::SearchRefusal;
    use std::process::Abort;

    fn answer<A: Arithmetic>(threshold: u64, points: u64) -> Result<Answer, SearchRefusal> {
        Case::from([45, 17, 10, threshold, points]).answer::<A>()
    }

    fn close(index: u64, value: u64, evidence: Option<[u64; 5]>) -> Result<Answer, SearchRefusal> {
        Ok(Answer::Close {
            index,
            value,
            evidence: evidence.map(five),
        })
    }

    fn clear(numbers: [u64; 5]) -> Result<Answer, SearchRefusal> {
        Ok(Answer::Clear {
            evidence: five(numbers),
        })
    }

    fn five(numbers: [u64; 5]) -> Evidence {
        let [u, v, x, y, r] = numbers;
        Evidence { u, v, x, y, r }
    }

    fn refusal(modulus: u64, slope: u64, threshold: u64, points: u64) -> Option<u32> {
        Case::from([modulus, slope, 0, threshold, points])
            .answer::<u64>()
            .err()
            .map(SearchRefusal::number)
    }

    fn sample_figures_in<A: Arithmetic>(rt: &impl Abort) {
        assert_eq!(rt; answer::<A>(5, 5), close(3, 4, Some([2, 1, 17, 11, 0])));
        assert_eq!(rt; answer::<A>(3, 21), close(19, 2, Some([13, 8, 1, 4, 11])));
        assert_eq!(rt; answer::<A>(45, 1), close(0, 10, None));
        assert_eq!(rt; answer::<A>(3, 5), clear([2, 3, 6, 11, 3]));
        assert_eq!(rt; answer::<A>(3, 19), clear([13, 8, 1, 4, 11]));
    }

    #[test]
    fn sample_figures_in_both_arithmetics(rt: HostRuntime) {
        sample_figures_in::<u64>(&rt);
        sample_figures_in::<Double>(&rt);
    }

    #[test]
    fn each_refusal_in_its_order(rt: HostRuntime) {
        assert_eq!(rt; refusal(1, 2, 3, 0), Some(1));
        assert_eq!(rt; refusal((1 << 40) + 1, 0, 0, 1), Some(1));
        assert_eq!(rt; refusal(2, 2, 3, 0), Some(4));
        assert_eq!(rt; refusal(2, 1, 3, 0), Some(3));
        assert_eq!(rt; refusal(2, 1, 2, 0), Some(2));
        assert_eq!(rt; refusal(2, 1, 2, (1 << 20) + 1), Some(2));
        assert_eq!(rt; refusal(2, 1, 2, 1 << 20), None);
    }
}
