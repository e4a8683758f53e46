// The parts of a record, by their places.
ghost use Rattle.std.specs.Prelude.{◌≡◌, ◌+◌, ◌≤◌, length, take, drop};

/// The bytes from the place on, as many as the array has.
pub(crate) fn array_at<const N: usize>(bytes: &[u8], at: usize) -> &[u8; N]
    requires within { at + N ≤ length bytes.now }
    ensures are_those_there { result.now ≡ take N (drop at bytes.now) }
    ensures as_many { length result.now ≡ N }
{
    <&[u8; N]>::try_from(&bytes[at..at + N]).unwrap()
}
