// The device byte of a frame.
ghost use Rattle.std.specs.Prelude.{◌≡◌};
ghost use Rattle.ids.specs.Device.{device_of, device_byte, reaches};
ghost use Rattle.ids.specs.Laws.{device_same_byte};

use refusal::{OfByte, Refusal};

// Whom a frame is for: one unit, or everyone.
#[derive(Clone, Copy, Debug, PartialEq, Eq)]
pub enum DeviceId {
    Unit(u8),
    Broadcast,
}

impl DeviceId {
    pub const BROADCAST_BYTE: u8 = 0x7F;

    // Does a message for self concern a unit that listens as listener?
    pub fn addresses(self, listener: DeviceId) -> bool
        ensures { result ≡ reaches self listener }
    {
        match self {
            DeviceId::Broadcast => true,
            DeviceId::Unit(id) => id == listener.to_byte(),
        }
    }
}

impl OfByte for DeviceId {
    ghost of_byte = { device_of };

    ghost byte_of = { device_byte };

    // Refuses 5 with the byte.
    fn from_byte(byte: u8) -> Result<DeviceId, Refusal> {
        match byte {
            0..16 => Ok(DeviceId::Unit(byte)),
            DeviceId::BROADCAST_BYTE => Ok(DeviceId::Broadcast),
            _ => Err(Refusal::InvalidDeviceId(byte)),
        }
    }

    fn to_byte(self) -> u8 {
        match self {
            DeviceId::Unit(id) => id,
            DeviceId::Broadcast => DeviceId::BROADCAST_BYTE,
        }
    }

    ghost same_byte = { device_same_byte };
}
