// A batch of steps that shorten x.
ghost use Rattle.std.specs.Prelude.{◌≡◌, ◌+◌, ◌-◌, ◌*◌, ◌^◌, ◌<◌, ◌≤◌};
ghost use Rattle.search.specs.Walk.{MovesX, ShortensX, Turned, Walking, spot};

use crate::batches::{Batch, first_within, shorten, steps_for};
use crate::place::{Hit, Place};
use crate::stretch::walk::Walk;
use lengths::arithmetic::Arithmetic;
use std::ops::ControlFlow;

impl<A: Arithmetic> Walk<A> {
    /// The steps: as many as leave something of x, or as there are points enough with.
    fn batch_x(&self, s: Place<A>) -> Batch<A>
        requires under_way { Walking self.now.stretch (spot A.units s) }
        requires x_is_longer { A.units s.y < A.units s.x }
        ensures steps_of_x { ShortensX self.now.stretch.points (spot A.units s) result.steps }
        ensures the_rest { A.units result.rest ≡ A.units s.x - result.steps * A.units s.y }
        ensures few { result.steps * s.u < 2 ^ 21 }
    {
        let most = steps_for(self.stretch.points - (s.u + s.v), s.u);
        shorten(s.x, s.y, most)
    }

    /// The step at which the x gap that holds the offset gets too short for it, and how far the offset then lies above the next point.
    fn move_x(&self, s: Place<A>, steps: u64) -> Batch<A>
        requires under_way { Walking self.now.stretch (spot A.units s) }
        requires steps_of_x { ShortensX self.now.stretch.points (spot A.units s) steps }
        requires in_an_x_gap { s.r < s.u }
        requires too_short { A.units s.x - steps * A.units s.y ≤ A.units s.d }
        ensures the_move { MovesX (spot A.units s) steps result.steps }
        ensures the_distance { A.units result.rest + A.units s.x ≡ A.units s.d + result.steps * A.units s.y }
        ensures at_least_one { 1 ≤ result.steps }
        ensures few { (result.steps * s.u < 2 ^ 21) × (result.steps * A.units s.y ≤ A.units s.x) }
    {
        first_within(s.x, s.d, s.y)
    }

    /// Shortens x by y as often as something is left, or until there are points enough. The point below the offset moves where the offset
    /// lies in an x gap that gets too short for it, by v indices then.
    pub(crate) fn shorten_x(&self, s: Place<A>) -> ControlFlow<Hit, Place<A>>
        requires under_way { Walking self.now.stretch (spot A.units s) }
        requires x_is_longer { A.units s.y < A.units s.x }
        ensures hits_or_goes_on { Turned A.units self.now.stretch (spot A.units s) result }
    {
        let batch = self.batch_x(s);
        let stays = Place {
            v: s.v + batch.steps * s.u,
            x: batch.rest,
            ..s
        };
        if s.u <= s.r || s.d.less(batch.rest) {
            return ControlFlow::Continue(stays);
        }
        let moved = self.move_x(s, batch.steps);
        let k = s.r + s.v + moved.steps * s.u;
        if k >= self.stretch.points {
            return ControlFlow::Continue(stays);
        }
        if moved.rest.less(self.near) {
            let t = if s.r == 0 {
                moved.steps - 1
            } else {
                moved.steps
            };
            return ControlFlow::Break(Hit {
                index: k,
                value: moved.rest.to_units(),
                evidence: s.evidence_after_x(t),
            });
        }
        ControlFlow::Continue(Place {
            r: k,
            d: moved.rest,
            ..stays
        })
    }
}
