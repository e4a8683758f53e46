/// Five numbers about the first n points r·a mod M: a configuration (two lengths x and y between neighbours, two index steps
/// v and u that cross them) and the index r whose gap holds the place b. They let a reader check, without a search,
/// how near the points come to b.
#[derive(Clone, Copy, PartialEq, Eq, Debug)]
pub struct Evidence {
    pub u: u64,
    pub v: u64,
    pub x: u64,
    pub y: u64,
    pub r: u64,
}
