// Making a modulus, and its value.
ghost use Rattle.std.specs.Prelude.{◌≡◌};
ghost use Rattle.grid.specs.Made.{Made};

use crate::modulus::Modulus;
use crate::refusal::ModulusRefusal;

impl Modulus {
    /// The modulus of this value.
    pub fn new(value: u64) -> Result<Modulus, ModulusRefusal>
        ensures made_within_the_limits { Made value result }
    {
        if (2..=1 << 40).contains(&value) {
            Ok(Modulus { value })
        } else {
            Err(ModulusRefusal::OutsideLimits)
        }
    }

    /// The modulus as a number; `new` and `get` have the form that std's `NonZero` has.
    pub fn get(self) -> u64
        ensures is_the_value { result ≡ self.value }
    {
        self.value
    }
}
