// The number of a user pattern.
ghost use Rattle.refusal.proofs.Given.{given_number};
ghost use Rattle.ids.specs.Numbers.{pattern_of};

use refusal::{OfByte, Refusal};

pub const USER_PATTERN_COUNT: u8 = 32;

#[derive(Clone, Copy, Debug, PartialEq, Eq)]
pub struct PatternNumber(pub u8);

impl PatternNumber {
    pub const FIRST: PatternNumber = PatternNumber(0);

    pub const LAST: PatternNumber = PatternNumber(31);
}

// An impl of its own: number types differ in name, count and refusal, and a trait that asked each for the three would take as many lines.
impl OfByte for PatternNumber {
    ghost of_byte = { pattern_of };

    ghost byte_of = { λ x. x.0 };

    // Refuses 11 with the byte.
    fn from_byte(byte: u8) -> Result<PatternNumber, Refusal> {
        if byte < USER_PATTERN_COUNT {
            Ok(PatternNumber(byte))
        } else {
            Err(Refusal::PatternOutOfRange(byte))
        }
    }

    fn to_byte(self) -> u8 {
        self.0
    }

    ghost same_byte = { λ b x. given_number _ _ _ _ x (λ y. y.0) };
}
