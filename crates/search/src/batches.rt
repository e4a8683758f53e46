// Many steps at once, by division with rest.
ghost use Rattle.std.specs.Prelude.{◌≡◌, ◌+◌, ◌-◌, ◌*◌, ◌^◌, ◌<◌, ◌≤◌, ◌⊎◌, MatchBool};

use lengths::arithmetic::Arithmetic;

/// A batch of steps: how many, and the length that they leave.
// Neither compared nor printed, like an arithmetic's lengths.
#[derive(Clone, Copy)]
pub(crate) struct Batch<A> {
    pub steps: u64,
    pub rest: A,
}

/// How many steps that each add `by` points it takes to add `need` points.
#[tactic(auto, using(std::proofs::lemmas::Grind::div_ceil_times))]
pub(crate) fn steps_for(need: u64, by: u64) -> u64
    requires some { (1 ≤ need) × (1 ≤ by) }
    ensures at_least_one { 1 ≤ result }
    ensures one_less_is_too_few { (result - 1) * by < need }
{
    need.div_ceil(by)
}

/// Whether the length has no units: then it is not more than itself less itself.
fn is_nothing<A: Arithmetic>(length: A) -> bool
    ensures tells_whether_it_has_units { MatchBool result (A.units length ≡ 0) (0 < A.units length) }
{
    !length.minus(length).less(length)
}

/// Takes `part` off `length` as often as it goes, at most `most` times: how often, and what is left.
pub(crate) fn take_off<A: Arithmetic>(length: A, part: A, most: u64) -> Batch<A>
    requires carried { A.units length ≤ A.largest }
    ensures at_most { result.steps ≤ most }
    ensures it_goes { result.steps * A.units part ≤ A.units length }
    ensures the_rest { A.units result.rest ≡ A.units length - result.steps * A.units part }
    ensures no_more { (result.steps ≡ most) ⊎ (A.units length < result.steps * A.units part + A.units part) }
{
    if is_nothing(part) {
        return Batch {
            steps: most,
            rest: length,
        };
    }
    let (steps, rest) = length.divide(part);
    if steps <= most {
        Batch { steps, rest }
    } else {
        Batch {
            steps: most,
            rest: A::from_units(length.to_units() - most * part.to_units()),
        }
    }
}

/// Takes `part` off `length`, which is longer, as often as something is left, at most `most` times: how often, and what is left.
#[tactic(auto, using(crate::proofs::Batching::one_less_fits, crate::proofs::Batching::one_less_leaves))]
pub(crate) fn shorten<A: Arithmetic>(length: A, part: A, most: u64) -> Batch<A>
    requires carried { A.units length ≤ A.largest }
    requires longer { A.units part < A.units length }
    requires some { 1 ≤ most }
    ensures at_least_once { 1 ≤ result.steps }
    ensures at_most { result.steps ≤ most }
    ensures something_is_left { result.steps * A.units part < A.units length }
    ensures the_rest { A.units result.rest ≡ A.units length - result.steps * A.units part }
{
    let taken = take_off(length, part, most);
    if is_nothing(taken.rest) {
        // the last part stays
        Batch {
            steps: taken.steps - 1,
            rest: part,
        }
    } else {
        taken
    }
}

/// At which step of length `part` what is left of `length` is first at most `d`, and how much less than `d` it then is.
pub(crate) fn first_within<A: Arithmetic>(length: A, d: A, part: A) -> Batch<A>
    requires longer { (A.units d < A.units length) × (A.units length ≤ 2 ^ 40) }
    requires some { 0 < A.units part }
    ensures at_least_one { 1 ≤ result.steps }
    ensures within_by_then { A.units result.rest + A.units length ≡ A.units d + result.steps * A.units part }
    ensures not_before { A.units result.rest < A.units part }
{
    let (steps, rest) = length.minus(d).divide(part);
    if is_nothing(rest) {
        Batch { steps, rest }
    } else {
        Batch {
            steps: steps + 1,
            rest: part.minus(rest),
        }
    }
}
