// Where the walk of a search stands, in lengths of an arithmetic, and what it meets.
ghost use Rattle.std.specs.Prelude.{◌≡◌, ◌+◌, ◌*◌, ◌^◌, ◌<◌, ◌≤◌};
ghost use Rattle.search.specs.Walk.{evidence_at, shorter_x, shorter_y, spot};

use crate::evidence::Evidence;
use lengths::arithmetic::Arithmetic;

/// A configuration, the index r whose gap holds the offset, and the distance d of the offset above point r.
// Neither compared nor printed, like an arithmetic's lengths.
#[derive(Clone, Copy)]
pub(crate) struct Place<A> {
    pub u: u64,
    pub v: u64,
    pub x: A,
    pub y: A,
    pub r: u64,
    pub d: A,
}

/// The least close index, which is not 0, its value, and the evidence for the points before it.
#[derive(Clone, Copy, PartialEq, Eq, Debug)]
pub(crate) struct Hit {
    pub index: u64,
    pub value: u64,
    pub evidence: Evidence,
}

impl<A: Arithmetic> Place<A> {
    /// The place as evidence.
    pub(crate) fn evidence(self) -> Evidence
        ensures the_numbers_of_the_place { result ≡ evidence_at (spot A.units self) }
    {
        Evidence {
            u: self.u,
            v: self.v,
            x: self.x.to_units(),
            y: self.y.to_units(),
            r: self.r,
        }
    }

    // The next two mirror each other, x for y and u for v. Each is short, and to mirror the numbers there and back is no shorter.

    /// The evidence after t steps that shorten x.
    pub(crate) fn evidence_after_x(self, t: u64) -> Evidence
        requires fits { (t * A.units self.y ≤ A.units self.x) × (self.v + t * self.u < 2 ^ 32) }
        ensures the_lengths_after_t_steps { result ≡ shorter_x (spot A.units self) t }
    {
        let e = self.evidence();
        Evidence {
            v: e.v + t * e.u,
            x: e.x - t * e.y,
            ..e
        }
    }

    /// The evidence after t steps that shorten y, at the point r.
    pub(crate) fn evidence_after_y(self, t: u64, r: u64) -> Evidence
        requires fits { (t * A.units self.x ≤ A.units self.y) × (self.u + t * self.v < 2 ^ 32) }
        ensures the_lengths_after_t_steps { result ≡ shorter_y (spot A.units self) t r }
    {
        let e = self.evidence();
        Evidence {
            u: e.u + t * e.v,
            y: e.y - t * e.x,
            r,
            ..e
        }
    }
}
