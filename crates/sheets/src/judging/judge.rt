// A sheet with what it is judged for.
ghost use Rattle.std.specs.Prelude.{◌≡◌, ◌^◌, ◌≤◌, length};
ghost use Rattle.sheets.specs.Blocks.{stop_of};

use crate::assignment::Assignment;
use curves::curve::Curve;

/// A sheet of at most 2^22 bytes, and the block of a curve that it is judged for; `stop` is the index behind the block's last.
#[derive(Drop)]
pub(crate) struct Judge<'a, C: Curve> {
    pub(crate) curve: &'a C,
    pub(crate) assignment: Assignment,
    pub(crate) stop: u32,
    pub(crate) sheet: &'a [u8],
    ghost stop_is_the_blocks: { stop ≡ stop_of (C.meaning curve.now) assignment },
    ghost not_too_long: { length sheet.now ≤ 2 ^ 22 },
}
