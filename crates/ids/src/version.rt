// The protocol's version.
ghost use Rattle.refusal.proofs.Given.{given_number};
ghost use Rattle.std.specs.Prelude.{◌≡◌};
ghost use Rattle.ids.specs.Version.{version_of, program_data_length};

use refusal::{OfByte, Refusal};

// The protocol version that a dump carries.
#[derive(Clone, Copy, Debug, PartialEq, Eq)]
pub struct ProtocolVersion(pub u8);

impl ProtocolVersion {
    pub const V6: ProtocolVersion = ProtocolVersion(6);

    pub const V7: ProtocolVersion = ProtocolVersion(7);

    // How many raw bytes a program or edit buffer dump of this version carries.
    pub fn program_data_len(self) -> usize
        ensures { result ≡ program_data_length self.0 }
    {
        if self.0 == 6 { 242 } else { 245 }
    }
}

impl OfByte for ProtocolVersion {
    ghost of_byte = { version_of };

    ghost byte_of = { λ x. x.0 };

    // Refuses 8 with the byte.
    fn from_byte(byte: u8) -> Result<ProtocolVersion, Refusal> {
        match byte {
            6 | 7 => Ok(ProtocolVersion(byte)),
            _ => Err(Refusal::UnsupportedProtocolVersion(byte)),
        }
    }

    fn to_byte(self) -> u8 {
        self.0
    }

    ghost same_byte = { λ b x. given_number _ _ _ _ x (λ y. y.0) };
}
