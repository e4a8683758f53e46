// What can be wrong at a record.
ghost use Rattle.sheets.specs.Faults.{fault_number};
ghost use Rattle.std.specs.Prelude.{◌≡◌};

use records::fault::RecordFault;

/// What is wrong where a record is due, in the order in which it is looked for.
#[derive(Clone, Copy, PartialEq, Eq, Debug)]
pub enum Fault {
    /// The bytes there are no record.
    Record(RecordFault),
    /// The head is missing or repeated, or is not for this survey, block, modulus and threshold.
    Head,
    /// A record does not start at the next index, has no points, or passes the end of the block.
    Place,
    /// The line from the start of a clean stretch does not reach its end.
    Reach,
    /// The five numbers of a clean record do not vouch.
    Numbers,
    /// The value of a hit or a miss is not the curve's.
    Value,
    /// A hit is not close, or a miss is.
    Closeness,
    /// The end comes early, miscounts the records, or is followed by bytes.
    End,
}

impl Fault {
    /// The number of the fault, as it is printed: which number is which fault's is a rule.
    pub fn number(self) -> u32
        ensures the_number_of_the_case { result ≡ fault_number self }
    {
        match self {
            Fault::Record(fault) => fault.number(),
            Fault::Head => 22,
            Fault::Place => 23,
            Fault::Reach => 24,
            Fault::Numbers => 25,
            Fault::Value => 26,
            Fault::Closeness => 27,
            Fault::End => 28,
        }
    }
}
