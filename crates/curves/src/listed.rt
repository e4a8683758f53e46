// Listed curves.
ghost use Rattle.std.specs.Prelude.{◌^◌, ◌≤◌, length};

pub use self::making::judge;
use grid::modulus::Modulus;

mod answers;
mod making;

/// F(k) is entry k mod M, over the caller's list.
#[derive(Clone, Copy, PartialEq, Eq, Debug)]
pub struct Listed<'a> {
    modulus: Modulus,
    entries: &'a [u64],
    ghost count_within: { (1 ≤ length entries.now) × (length entries.now ≤ 2 ^ 20) },
}
