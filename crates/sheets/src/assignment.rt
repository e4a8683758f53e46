// What a sheet is asked for.

/// A block of a survey, as a sheet is asked for it: the numbers of the survey and of the block, how many indices a block has, and the
/// threshold under which a value counts as close.
#[derive(Clone, Copy, PartialEq, Eq, Debug)]
pub struct Assignment {
    pub survey: u32,
    pub block: u32,
    pub block_length: u32,
    pub threshold: u64,
}
