// What stands in one byte of a message.
ghost use Rattle.std.specs.Prelude.{◌≡◌, ℕ};
ghost use Rattle.refusal.specs.Outcome.{Outcome, gives, answered};

use crate::Refusal;

// A value that a byte stands for: read from it, or refused with the byte, and written as one. A value made by hand may stand for no byte that
// is read, so whoever writes one to the wire tests it again. TryFrom and From would take a trait over the two for the law, and these
// are the original's names.
pub trait OfByte: Copy {
    ghost of_byte: { ℕ → Outcome Self };

    ghost byte_of: { Self → ℕ };

    fn from_byte(byte: u8) -> Result<Self, Refusal>
        ensures { answered result ≡ of_byte byte };

    fn to_byte(self) -> u8
        ensures { result ≡ byte_of self };

    // What was read is written as the byte that it was read from.
    ghost same_byte: { (b : ℕ) (x : Self) → of_byte b ≡ gives x → byte_of x ≡ b };
}
