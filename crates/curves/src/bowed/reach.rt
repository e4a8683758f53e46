// How far a line follows a bowed curve.
ghost use Rattle.std.specs.Prelude.{◌≡◌, ℕ, ◌<◌, ◌≤◌, unsigned_abs};
ghost use Rattle.curves.specs.Kinds.{bow, widest};

use crate::bowed::Bowed;
use crate::bowed::values::pairs_among;

impl Bowed {
    /// How far at most the first points leave the line through the first two.
    pub(super) fn bow_of(self, points: u32) -> u64
        requires some_of_the_curves { (1 ≤ points) × (points ≤ self.count) }
        ensures is_the_bow { result ≡ bow (unsigned_abs self.c2) points }
    {
        self.c2.unsigned_abs() * pairs_among(points - 1)
    }

    /// The largest number of points up to the length whose bow is at most the tolerance. The bow grows with the points, so that
    /// it is found by bisection.
    pub(super) fn widest_within(self, length: u32) -> u32
        requires some_of_the_curves { (1 ≤ length) × (length ≤ self.count) }
        ensures is_the_widest { result ≡ widest (unsigned_abs self.c2) self.tolerance length }
        ensures at_least_one { 1 ≤ result }
        ensures at_most_the_length { result ≤ length }
        ensures within_the_tolerance { bow (unsigned_abs self.c2) result ≤ self.tolerance }
        ensures no_more_points_are { (m : ℕ) → result < m → m ≤ length → self.tolerance < bow (unsigned_abs self.c2) m }
    {
        let mut low = 1;
        let mut high = length;
        // A bisection by hand: the library's `partition_point` searches a slice, and no slice of the bows is stored.
        while low < high {
            let middle = high - (high - low) / 2;
            if self.bow_of(middle) <= self.tolerance {
                low = middle;
            } else {
                high = middle - 1;
            }
        }
        low
    }
}
