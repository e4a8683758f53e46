//! The assignments that the letters of the table stand for.
use curves::bowed::Bowed;
use curves::straight::Straight;
use sheets::assignment::Assignment;
use sheets::judge;
use sheets::refusal::SheetRefusal;

/// A curve of either kind. An enum and not a `dyn Curve`, which a function may not hand out.
#[derive(Clone, Copy, PartialEq, Eq, Debug)]
enum Shape {
    Straight(Straight),
    Bowed(Bowed),
}

/// A curve, and the block of it that a sheet is asked for.
#[derive(Clone, Copy, PartialEq, Eq, Debug)]
pub(crate) struct Task {
    shape: Shape,
    assignment: Assignment,
}

impl Task {
    /// Judges a sheet for the block, and lays its hits into the lent places.
    pub(crate) fn judge(self, sheet: &[u8], hits: &mut [u32; 512]) -> Result<u32, SheetRefusal> {
        match self.shape {
            Shape::Straight(curve) => judge(&curve, self.assignment, sheet, hits),
            Shape::Bowed(curve) => judge(&curve, self.assignment, sheet, hits),
        }
    }
}

/// A block of survey 9.
pub(crate) fn block_of(block: u32, block_length: u32, threshold: u64) -> Assignment {
    Assignment {
        survey: 9,
        block,
        block_length,
        threshold,
    }
}

/// A block of the straight curve of the modulus 45 and these numbers.
pub(crate) fn straight(
    count: u64,
    slope: u64,
    offset: u64,
    assignment: Assignment,
) -> Option<Task> {
    let curve = Straight::new(45, count, slope, offset).ok()?;
    Some(Task {
        shape: Shape::Straight(curve),
        assignment,
    })
}

/// The block of the bowed curve of the modulus 1000, the count 5, the coefficients c0, -3 and 2, and the tolerance 3.
fn bowed(c0: u64, threshold: u64) -> Option<Task> {
    let curve = Bowed::new(1000, 5, c0, -3, 2, 3).ok()?;
    Some(Task {
        shape: Shape::Bowed(curve),
        assignment: block_of(0, 5, threshold),
    })
}

/// What a letter stands for, if it is known.
pub(crate) fn task_of(letter: &str) -> Option<Task> {
    match letter {
        // The values 10, 38, 21, 4, 32 in one block: index 3 alone is close.
        "S" => straight(5, 17, 10, block_of(0, 5, 5)),
        // The values 10, 38, 21, 4, 32, 15, 43: the second block has the indices 5 and 6, and none is close.
        "T" => straight(7, 17, 10, block_of(1, 5, 5)),
        // The first block of the same curve, which ends before the curve does.
        "U" => straight(7, 17, 10, block_of(0, 5, 5)),
        // Blocks without indices: one beyond the last, one with the greatest numbers, and one of the length 0.
        "O" => straight(5, 17, 10, block_of(7, 5, 5)),
        "W" => straight(5, 17, 10, block_of(u32::MAX, u32::MAX, 5)),
        "N" => straight(5, 17, 10, block_of(0, 0, 5)),
        // The threshold 46 is above the modulus: every index is close.
        "H" => straight(5, 17, 10, block_of(0, 5, 46)),
        // The values 17, 0, 28, 11, 39 and the threshold 0: no index is close.
        "Z" => straight(5, 17, 17, block_of(0, 5, 0)),
        // The value 7 four times, which is the threshold: no index is close.
        "F" => straight(4, 0, 7, block_of(0, 4, 7)),
        // The values 5, 2, 1, 2, 5: index 2 alone is close.
        "B" => bowed(5, 2),
        // The values 10, 7, 6, 7, 10 and 9, 6, 5, 6, 9: no index is close.
        "C" => bowed(10, 2),
        "D" => bowed(9, 2),
        // The greatest threshold: every index is close.
        "G" => bowed(5, u64::MAX),
        _ => None,
    }
}
