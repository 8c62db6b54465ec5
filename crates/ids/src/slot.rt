// A place where a program is stored.
ghost use Rattle.std.specs.Prelude.{◌≡◌};

use crate::bank::Bank;
use crate::program::ProgramNumber;

#[derive(Clone, Copy, Debug, PartialEq, Eq)]
pub struct Slot {
    pub bank: Bank,
    pub number: ProgramNumber,
}

impl Slot {
    pub const FIRST: Slot = Slot {
        bank: Bank(0),
        number: ProgramNumber(0),
    };

    pub fn new(bank: Bank, number: ProgramNumber) -> Slot
        ensures { result ≡ (record { bank = bank; number = number }) }
    {
        Slot { bank, number }
    }
}
