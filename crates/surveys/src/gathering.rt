// The close indices of a range of a curve.
ghost use Rattle.std.specs.Prelude.{◌≤◌};
ghost use Rattle.curves.specs.Closes.{close_between};
ghost use Rattle.surveys.specs.Gathered.{Gathered};

use crate::refusal::no_room::NoRoom;
use curves::curve::Curve;
use lengths::arithmetic::Arithmetic;
use scan::close_indices::CloseIndices;

/// Lays the close indices of a range into the places and answers how many they are, where they are no more than a book has room for.
pub(crate) fn gather<A: Arithmetic, C: Curve>(
    curve: &C,
    threshold: u64,
    from: u32,
    to: u32,
    places: &mut [u32; 512],
) -> Result<u32, NoRoom>
    requires within { to ≤ (C.meaning curve.now).count }
    ensures has_them_all_or_they_are_too_many { Gathered (close_between (C.meaning curve.now) threshold from to) places.new result }
{
    let mut count: u32 = 0;
    for index in CloseIndices::<A, C>::new(curve, threshold, from, to) {
        if count >= 512 {
            return Err(NoRoom);
        }
        places[count as usize] = index;
        count += 1;
    }
    Ok(count)
}
