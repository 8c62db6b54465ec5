// One of the eight program banks, A to H.
ghost use Rattle.refusal.proofs.Given.{given_number};
ghost use Rattle.ids.specs.Numbers.{bank_of};

use refusal::{OfByte, Refusal};

pub const BANK_COUNT: u8 = 8;

#[derive(Clone, Copy, Debug, PartialEq, Eq)]
pub struct Bank(pub u8);

impl Bank {
    pub const A: Bank = Bank(0);

    pub const H: Bank = Bank(7);
}

// An impl of its own: number types differ in name, count and refusal, and a trait that asked each for the three would take as many lines.
impl OfByte for Bank {
    ghost of_byte = { bank_of };

    ghost byte_of = { λ x. x.0 };

    // Refuses 9 with the byte.
    fn from_byte(byte: u8) -> Result<Bank, Refusal> {
        if byte < BANK_COUNT {
            Ok(Bank(byte))
        } else {
            Err(Refusal::BankOutOfRange(byte))
        }
    }

    fn to_byte(self) -> u8 {
        self.0
    }

    ghost same_byte = { λ b x. given_number _ _ _ _ x (λ y. y.0) };
}
