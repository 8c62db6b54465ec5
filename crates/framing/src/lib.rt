// What frames and identity messages share: F0 and F7 at the ends, bytes below 80 between them, maker and model.
#![tactic(auto)]

ghost use Rattle.std.specs.Prelude.{◌≡◌};
ghost use Rattle.refusal.specs.Outcome.{answered, gives};
ghost use Rattle.ids.specs.Device.{device_byte, device_in_range, when_device};
ghost use Rattle.framing.specs.Framing.{framed, first_high, same_bytes};

use ids::DeviceId;
use refusal::{OfByte, Refusal};

pub const SYSEX_START: u8 = 0xF0;

pub const SYSEX_END: u8 = 0xF7;

// The maker's three bytes and the model's: they stand in every frame and in every reply.
pub const MAKER_AND_MODEL: [u8; 4] = [
    ids::MANUFACTURER_ID[0],
    ids::MANUFACTURER_ID[1],
    ids::MANUFACTURER_ID[2],
    ids::Model::MODEL_ID,
];

// From here on looking at all bytes at once is the faster way to find no high one.
const LONG: usize = 32;

// Do F0 and F7 stand at the ends of at least two bytes?
pub fn is_framed(bytes: &[u8]) -> bool
    ensures { result ≡ framed bytes.now }
{
    let len = bytes.len();
    2 <= len && bytes[0] == SYSEX_START && bytes[len - 1] == SYSEX_END
}

// The first byte of 80 or above.
#[tactic(auto, using(crate::proofs::Bytes::high_behind, crate::proofs::Bytes::high_nowhere))]
pub fn first_high(bytes: &[u8]) -> Option<u8>
    ensures { result ≡ first_high bytes.now }
{
    if LONG <= bytes.len() && octets::data_bytes::all_data(bytes) {
        return None;
    }
    bytes.get(octets::data_bytes::data_run(bytes)).copied()
}

// Are the two the same bytes?
pub fn same_bytes(bytes: &[u8], others: &[u8]) -> bool
    ensures { result ≡ same_bytes bytes.now others.now }
{
    bytes == others
}

// Can the device's byte stand in a frame? A unit above 0F can be made by hand, and has none.
pub fn device_in_range(device: DeviceId) -> bool
    ensures { result ≡ device_in_range device }
{
    match device {
        DeviceId::Unit(id) => id < 16,
        DeviceId::Broadcast => true,
    }
}

// The device's byte for a frame. Refuses 5 with the byte of a unit that has none.
pub fn device_byte(device: DeviceId) -> Result<u8, Refusal>
    ensures { answered result ≡ when_device device (gives (device_byte device)) }
{
    let byte = device.to_byte();
    if device_in_range(device) {
        Ok(byte)
    } else {
        Err(Refusal::InvalidDeviceId(byte))
    }
}
