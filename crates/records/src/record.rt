// Records, by kind.

/// A record of a sheet, by kind, with its body as a part of the sheet. Before the body stand two bytes with the length of the whole
/// record and two with the number of its kind.
#[derive(Clone, Copy, PartialEq, Eq, Debug)]
pub enum Record<'a> {
    /// Kind 1: which block of which survey the sheet is for.
    Head(&'a [u8; 24]),
    /// Kind 2: a stretch that is called clean, with the numbers that vouch for it.
    Clean(&'a [u8; 36]),
    /// Kind 3: a close index.
    Hit(&'a [u8; 12]),
    /// Kind 4: an index that is not close.
    Miss(&'a [u8; 12]),
    /// Kind 5: the end, with the number of records between the head and it.
    End(&'a [u8; 4]),
}
