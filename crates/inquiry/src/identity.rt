// The identity that a unit answers an inquiry with.
ghost use Rattle.std.specs.Prelude.{◌≡◌, [], ◌∷◌};
ghost use Rattle.ids.specs.declared.model.Model.TheVariants.{DeepMind6, DeepMind6X, DeepMind12, DeepMind12X, DeepMind12D, DeepMind12XD};
ghost use Rattle.inquiry.specs.Identity.{firmware_of, packed_of, at_least, is_version};

use ids::{DeviceId, Model};

// The second byte of a request and of a reply.
pub const NON_REALTIME: u8 = 0x7E;

// A software version.
#[derive(Clone, Copy, Debug, PartialEq, Eq, PartialOrd, Ord)]
pub struct Version {
    pub major: u8,
    pub minor: u8,
}

impl Version {
    // From one byte, the minor number in its high four bits.
    pub fn from_packed(byte: u8) -> Version
        ensures { result ≡ firmware_of byte }
    {
        Version {
            major: byte % 16,
            minor: byte / 16,
        }
    }

    // Back to one byte: four bits of the major number, three of the minor.
    pub fn to_packed(self) -> u8
        ensures { result ≡ packed_of self }
    {
        16 * (self.minor % 8) + self.major % 16
    }

    // This version or a later one?
    pub fn at_least(self, major: u8, minor: u8) -> bool
        ensures { result ≡ at_least self major minor }
    {
        self >= Version { major, minor }
    }

    // Exactly this version?
    pub fn is(self, major: u8, minor: u8) -> bool
        ensures { result ≡ is_version self major minor }
    {
        self == Version { major, minor }
    }
}

// What a unit tells about itself.
#[derive(Clone, Copy, Debug, PartialEq, Eq)]
pub struct Identity {
    pub device: DeviceId,
    pub firmware: Version,
    pub voice: Version,
}

// The models that tell the same identity: all of them.
pub fn models() -> [Model; 6]
    ensures { result ≡ DeepMind6 ∷ DeepMind6X ∷ DeepMind12 ∷ DeepMind12X ∷ DeepMind12D ∷ DeepMind12XD ∷ [] }
{
    Model::ALL
}
