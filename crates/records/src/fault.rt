// Why there is no record where one is due.
ghost use Rattle.records.specs.Faults.{number_of};
ghost use Rattle.std.specs.Prelude.{◌≡◌};

/// Why the bytes at a place are no record.
#[derive(Clone, Copy, PartialEq, Eq, Debug)]
pub enum RecordFault {
    /// The bytes end before the record, in its first four or within its stated length.
    Short,
    /// The kind is unknown, or the stated length is not the kind's.
    Form,
}

impl RecordFault {
    /// The number of the fault, as it is printed: which number is which fault's is a rule.
    pub fn number(self) -> u32
        ensures the_number_of_the_case { result ≡ number_of self }
    {
        match self {
            RecordFault::Short => 20,
            RecordFault::Form => 21,
        }
    }
}
