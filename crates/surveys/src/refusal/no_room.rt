// A book without room for a block.

/// The book has no room for a block's close indices. Each call that books them has a refusal of its own for it.
#[derive(Clone, Copy, PartialEq, Eq, Debug)]
pub(crate) struct NoRoom;
