// What one record brings.

/// What the judge does behind a record without a fault: three things, and so no `ControlFlow`.
#[derive(Clone, Copy, PartialEq, Eq, Debug)]
pub(crate) enum Turn {
    /// The sheet is over.
    Over,
    /// The next index is a hit; the next record is due at the byte `end`.
    Hit { end: usize },
    /// No hit; the index `next` and the record at the byte `end` are due.
    On { end: usize, next: u32 },
}
