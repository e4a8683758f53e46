// The states of a block.

/// Where a block of a survey stands.
#[derive(Clone, Copy, PartialEq, Eq, Debug)]
pub enum State {
    /// Nobody has it.
    Waiting,
    /// A ticket for it is out.
    Out,
    /// Its close indices are booked.
    Settled,
}
