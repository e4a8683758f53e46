ghost use Rattle.arrayvec.specs.ArrayVec.{array_vec_len};
ghost use Rattle.std.proofs.Props.{props};
ghost use Rattle.std.specs.List.{AllByRecursion};
ghost use Rattle.std.specs.Prelude.{◌^◌, ◌<◌, ◌≤◌};

mod entries;

use crate::hit::Hit;
use arrayvec::ArrayVec;

/// How many close points a book has places for.
const PLACES: usize = 512;

/// The close points of one curve, with the threshold that their values are below.
#[derive(Drop)]
pub struct Book {
    threshold: u64,
    points: ArrayVec<Hit, PLACES>,
    ghost threshold_fits: { threshold ≤ 2 ^ 40 },
    ghost few: { array_vec_len points ≤ 512 },
    ghost values_fit: { AllByRecursion (λ h. h.value < 2 ^ 40) points.items } by { Prim.hlevel props },
}
