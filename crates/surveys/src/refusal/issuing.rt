// Why issuing a block is refused.
ghost use Rattle.surveys.specs.Refusals.{issue_number};
ghost use Rattle.std.specs.Prelude.{◌≡◌};

/// Why no ticket is issued.
#[derive(Clone, Copy, PartialEq, Eq, Debug)]
pub enum IssueRefusal {
    /// The block is not waiting, or there is no such block.
    NotWaiting,
}

impl IssueRefusal {
    /// The number of the refusal, as it is printed.
    pub fn number(self) -> u32
        ensures the_number_of_the_case { result ≡ issue_number self }
    {
        match self {
            IssueRefusal::NotWaiting => 10,
        }
    }
}
