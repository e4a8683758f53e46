// Whether five numbers vouch that no point of a stretch comes too near.
ghost use Rattle.std.specs.Prelude.{◌≡◌, T};
ghost use Rattle.search.specs.Laws.{NumbersVouchExactlyWhenNoPointIsClose, VouchingNumbersGiveTheLeastDistance};
ghost use Rattle.search.specs.Vouching.{Vouches, vouching};

use crate::claim::Claim;
use crate::evidence::Evidence;
use grid::modulus::Modulus;

/// Whether the five numbers vouch that no (offset − k·slope) mod modulus for k below `points` is less than the threshold. Callers have the
/// numbers in structs of their own, so they are parameters here and a claim within.
pub fn vouches(
    modulus: Modulus,
    slope: u64,
    offset: u64,
    threshold: u64,
    points: u64,
    evidence: Evidence,
) -> bool
    ensures true_exactly_when_they_vouch { (T result → Vouches modulus.value slope offset threshold points evidence) × (Vouches modulus.value slope offset threshold points evidence → T result) }
    ensures is_the_test_of_the_numbers { result ≡ vouching modulus.value slope offset threshold points evidence }
    ensures vouching_numbers_give_the_least_distance { VouchingNumbersGiveTheLeastDistance }
    ensures numbers_vouch_exactly_when_no_point_is_close { NumbersVouchExactlyWhenNoPointIsClose }
{
    let claim = Claim {
        modulus,
        slope,
        offset,
        threshold,
        points,
        numbers: evidence,
    };
    claim.holds()
}
