ghost use Rattle.reports.specs.Books.{held, threshold_in};
ghost use Rattle.reports.specs.declared.refusal.LineRefusal.TheVariants.{BookFull};
ghost use Rattle.std.specs.Prelude.{◌≡◌, ◌^◌, ◌<◌, ◌≤◌, [], ◌∷◌, ◌++◌, length, MatchResult};

use super::Book;
use crate::hit::Hit;
use crate::refusal::LineRefusal;
use arrayvec::ArrayVec;

impl Book {
    pub(crate) fn new(threshold: u64) -> Book
        requires threshold_fits { threshold ≤ 2 ^ 40 }
        ensures holds_nothing { held result ≡ [] }
        ensures has_the_threshold { threshold_in result ≡ threshold }
    {
        Book {
            threshold,
            points: ArrayVec::new(),
        }
    }

    /// Enters a point after the others, where there is a place left.
    pub(crate) fn push(&mut self, hit: Hit) -> Result<(), LineRefusal>
        requires value_fits { hit.value < 2 ^ 40 }
        ensures enters_the_point_or_is_full { MatchResult result (λ _. held self.new ≡ held self.old ++ hit ∷ []) (λ e. (e ≡ BookFull) × (length (held self.old) ≡ 512)) }
        ensures keeps_the_threshold { threshold_in self.new ≡ threshold_in self.old }
    {
        self.points.try_push(hit).map_err(|_| LineRefusal::BookFull)
    }

    /// The threshold that the values of the points are below.
    pub(crate) fn threshold(&self) -> u64
        ensures is_the_threshold { result ≡ threshold_in self.now }
    {
        self.threshold
    }

    /// The points in their order.
    pub fn as_slice(&self) -> &[Hit]
        ensures are_the_points_held { result.now ≡ held self.now }
    {
        self.points.as_slice()
    }
}
