/// A close point: its index and its value.
#[derive(Clone, Copy, Default, PartialEq, Eq, Debug)]
pub struct Hit {
    pub index: u32,
    pub value: u64,
}
