// How far a sheet has been read.

/// The byte at which a record is due, the next index to be covered, and the number of records since the head.
#[derive(Clone, Copy, PartialEq, Eq, Debug)]
pub(crate) struct Progress {
    pub(crate) at: usize,
    pub(crate) next: u32,
    pub(crate) records: u32,
}
