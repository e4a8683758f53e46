// Windows: where on a line a close point can lie.
ghost use Rattle.std.specs.Prelude.{◌≡◌, ◌<◌};
ghost use Rattle.curves.specs.Windows.{window_of};

use crate::line::Line;
use grid::modulus::Modulus;

/// The points of a line that may be close: those j with (offset − j·slope) mod M below the threshold.
#[derive(Clone, Copy, PartialEq, Eq, Debug)]
pub struct Window {
    pub offset: u64,
    pub threshold: u64,
}

impl Window {
    /// The window of a line for the threshold, widened by the line's error on either side.
    pub(crate) fn over(modulus: Modulus, line: Line, threshold: u64) -> Window
        requires offset_and_error_below { (line.offset < modulus.value) × (line.error < modulus.value) }
        ensures is_the_window_of_the_line { result ≡ window_of modulus.value line threshold }
    {
        let limit = modulus.get();
        Window {
            offset: modulus.residue(line.offset + line.error),
            threshold: (threshold.min(limit) + 2 * line.error).min(limit),
        }
    }
}
