// The number of a program in its bank.
ghost use Rattle.refusal.proofs.Given.{given_number};
ghost use Rattle.ids.specs.Numbers.{program_of};

use refusal::{OfByte, Refusal};

pub const PROGRAMS_PER_BANK: u8 = 128;

#[derive(Clone, Copy, Debug, PartialEq, Eq)]
pub struct ProgramNumber(pub u8);

impl ProgramNumber {
    pub const FIRST: ProgramNumber = ProgramNumber(0);

    pub const LAST: ProgramNumber = ProgramNumber(127);
}

// An impl of its own: number types differ in name, count and refusal, and a trait that asked each for the three would take as many lines.
impl OfByte for ProgramNumber {
    ghost of_byte = { program_of };

    ghost byte_of = { λ x. x.0 };

    // Refuses 10 with the byte.
    fn from_byte(byte: u8) -> Result<ProgramNumber, Refusal> {
        if byte < PROGRAMS_PER_BANK {
            Ok(ProgramNumber(byte))
        } else {
            Err(Refusal::ProgramOutOfRange(byte))
        }
    }

    fn to_byte(self) -> u8 {
        self.0
    }

    ghost same_byte = { λ b x. given_number _ _ _ _ x (λ y. y.0) };
}
